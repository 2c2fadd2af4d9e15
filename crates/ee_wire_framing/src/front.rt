//! What some bytes begin with.
ghost use Rattle.std.specs.Prelude.{◌≤◌};
ghost use Rattle.httparse.specs.Grammar.{RequestHead};
ghost use Rattle.ee_wire_framing.specs.Framing.{most_head};
ghost use Rattle.ee_wire_framing.specs.Heads.{IsHeadAt, Knows};
ghost use Rattle.ee_wire_framing.specs.Inner.Heads.{Finds};
ghost use Rattle.ee_wire_framing.specs.Inner.Reading.{IsFront};

use crate::buffer::Message;
use crate::head::{Head, Lines, Verdict, find_head};
use crate::{FramingFault, HEAD_LIMIT};
use httparse::spans::{HeaderSpan, Span};

/// What earlier tests found in some bytes.
#[derive(Clone, Copy)]
pub enum Progress {
    /// The bytes begin with these lines; the second field is the number of bytes tested.
    Tested(Lines, usize),
    /// The bytes begin with this head.
    Found(Head),
}

/// What the bytes so far begin with.
pub enum Front {
    /// A message, and its length in bytes.
    Message(Message, usize),
    Fault(FramingFault),
    More,
}

/// The parser's verdict on the bytes. What was tested before is not tested again.
pub fn judge_front(bytes: &[u8], progress: Progress, headers: &mut [HeaderSpan]) -> Verdict
    requires { Knows bytes.now progress }
    ensures { Finds bytes.now result }
{
    match progress {
        Progress::Tested(lines, tested) => find_head(bytes, lines, tested, headers),
        Progress::Found(head) => Verdict::Found(head),
    }
}

/// What is known after that test.
#[tactic(auto, using(crate::proofs::Tested::none_tested))]
pub fn learn(bytes: &[u8], verdict: Verdict) -> Progress
    requires { Finds bytes.now verdict }
    ensures { Knows bytes.now result }
{
    match verdict {
        Verdict::Found(head) => Progress::Found(head),
        Verdict::Bad => Progress::Tested(Lines::Empty(0), 0),
        Verdict::Partial(lines) => Progress::Tested(lines, bytes.len().min(HEAD_LIMIT)),
    }
}

/// What the bytes begin with, given the parser's verdict.
pub fn read_front(bytes: &[u8], verdict: Verdict) -> Front
    requires { Finds bytes.now verdict }
    ensures { IsFront bytes.now result }
{
    match verdict {
        Verdict::Found(head) => with_body(bytes, head),
        Verdict::Bad => Front::Fault(FramingFault::BadHead),
        Verdict::Partial(_) if bytes.len() < HEAD_LIMIT => Front::More,
        Verdict::Partial(_) => Front::Fault(FramingFault::HeadTooLong),
    }
}

fn with_body(bytes: &[u8], head: Head) -> Front
    requires limit { head.len ≤ most_head }
    requires head { (h : RequestHead) × IsHeadAt bytes.now head h }
    ensures { IsFront bytes.now result }
{
    let len = match head.body {
        Ok(len) => len,
        Err(fault) => return Front::Fault(fault),
    };
    if bytes.len() - head.len < len {
        return Front::More;
    }
    let end = head.len + len;
    let body = Span {
        start: head.len,
        end,
    };
    let message = Message {
        method: head.method,
        target: head.target,
        body,
        closes: head.closes,
    };
    Front::Message(message, end)
}
