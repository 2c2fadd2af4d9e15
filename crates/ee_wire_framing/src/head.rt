//! Finding the end of a head.
ghost use Rattle.std.specs.Prelude.{◌≡◌, ◌≤◌, ◌<◌, length, take, drop, true, false, MatchOption};
ghost use Rattle.std.specs.List.{list_all};
ghost use Rattle.httparse.specs.Grammar.{RequestHead};
ghost use Rattle.httparse.specs.Pieces.{is_newline};
ghost use Rattle.httparse.specs.Spans.{IsRequestWithin, IsRequestAt};
ghost use Rattle.ee_wire_framing.specs.Framing.{most_head};
ghost use Rattle.ee_wire_framing.specs.Heads.{IsHeadAt, AreEmptyLines, AreFieldLines, BeginsLines, length_of, AreLinesUpTo, IsLastLineFeed};
ghost use Rattle.ee_wire_framing.specs.Inner.Heads.{IsLines, Judges, Finds};

use crate::fields::{body_length, has_close};
use crate::{FramingFault, HEAD_LIMIT, HEADER_ROOM};
use httparse::spans::{
    EMPTY_HEADER_SPAN, HeaderSpan, RequestSpans, Span, parse_headers_from, parse_request,
};
use httparse::{Error, Status};

/// The summary of a head.
#[derive(Clone, Copy)]
pub struct Head {
    pub method: Span,
    pub target: Span,
    pub len: usize,
    pub closes: bool,
    pub body: Result<usize, FramingFault>,
}

/// Whole lines that begin a head and don't end it, by their length in bytes.
#[derive(Clone, Copy)]
pub enum Lines {
    /// Empty lines, or none at all.
    Empty(usize),
    /// A request line and field lines, after any empty lines.
    Fields(usize),
}

/// The parser's verdict on some bytes.
#[derive(Clone, Copy)]
pub enum Verdict {
    Found(Head),
    Bad,
    /// The bytes begin with these lines so far.
    Partial(Lines),
}

/// Tests the lines from the first on. `None` if there isn't room for their headers.
fn judge(lines: &[u8], headers: &mut [HeaderSpan]) -> Option<Verdict>
    requires lines { IsLines lines.now }
    requires started { list_all is_newline lines.now ≡ false }
    requires limit { length lines.now ≤ most_head }
    ensures { MatchOption result (length headers.old < HEADER_ROOM) (Judges lines.now) }
{
    match parse_request(lines, headers) {
        Ok(Status::Complete(spans)) => Some(Verdict::Found(summary(lines, headers, spans))),
        Ok(Status::Partial) => Some(Verdict::Partial(Lines::Fields(lines.len()))),
        Err(error) => match error {
            Error::TooManyHeaders => None,
            _ => Some(Verdict::Bad),
        },
    }
}

/// Tests line ends after `tested` bytes of empty lines. They have no headers.
fn judge_empty(lines: &[u8], tested: usize) -> Verdict
    requires lines { IsLines lines.now }
    requires tested { AreEmptyLines (take tested lines.now) }
    requires more { tested < length lines.now }
    requires empty { list_all is_newline (drop tested lines.now) ≡ true }
    ensures { Judges lines.now result }
{
    match parse_request(&lines[tested..], &mut []) {
        Ok(Status::Complete(_)) => unreachable!(),
        Ok(Status::Partial) => Verdict::Partial(Lines::Empty(lines.len())),
        Err(_) => Verdict::Bad,
    }
}

/// Tests the lines after `tested` bytes of a request line and field lines. `None` if there isn't room for
/// the headers.
fn judge_fields(lines: &[u8], tested: usize, headers: &mut [HeaderSpan]) -> Option<Verdict>
    requires lines { IsLines lines.now }
    requires tested { AreFieldLines (take tested lines.now) }
    requires more { tested < length lines.now }
    requires limit { length lines.now ≤ most_head }
    ensures { MatchOption result (length headers.old < HEADER_ROOM) (Judges lines.now) }
{
    match parse_headers_from(lines, tested, headers) {
        Ok(Status::Complete(_)) => judge(lines, headers),
        Ok(Status::Partial) => Some(Verdict::Partial(Lines::Fields(lines.len()))),
        Err(error) => match error {
            Error::TooManyHeaders => None,
            _ => Some(Verdict::Bad),
        },
    }
}

fn has_line_ends_alone(bytes: &[u8]) -> bool
    ensures { result ≡ list_all is_newline bytes.now }
{
    bytes.iter().all(|byte| *byte == b'\r' || *byte == b'\n')
}

/// Tests the lines after those that were tested before. `None` if there isn't room for the headers. A head
/// that ends there is parsed once more, as a whole.
fn judge_after(tested: Lines, lines: &[u8], headers: &mut [HeaderSpan]) -> Option<Verdict>
    requires lines { IsLines lines.now }
    requires tested { BeginsLines lines.now tested }
    requires more { length_of tested < length lines.now }
    requires limit { length lines.now ≤ most_head }
    ensures { MatchOption result (length headers.old < HEADER_ROOM) (Judges lines.now) }
{
    match tested {
        Lines::Fields(len) => judge_fields(lines, len, headers),
        Lines::Empty(len) => {
            if has_line_ends_alone(&lines[len..]) {
                Some(judge_empty(lines, len))
            } else {
                judge(lines, headers)
            }
        }
    }
}

/// The same, with room for all headers that fit the limit of a head. That room is on the stack and is cleared
/// first, so it is a function of its own, for lines with more headers than a message may have.
#[cold]
#[inline(never)]
fn judge_many(tested: Lines, lines: &[u8]) -> Verdict
    requires lines { IsLines lines.now }
    requires tested { BeginsLines lines.now tested }
    requires more { length_of tested < length lines.now }
    requires limit { length lines.now ≤ most_head }
    ensures { Judges lines.now result }
{
    let mut headers = [EMPTY_HEADER_SPAN; HEADER_ROOM];
    match judge_after(tested, lines, &mut headers) {
        Some(verdict) => verdict,
        None => unreachable!(),
    }
}

fn summary(lines: &[u8], headers: &[HeaderSpan], spans: RequestSpans) -> Head
    requires { IsRequestWithin lines.now headers.now spans }
    ensures { (h : RequestHead) → IsRequestAt lines.now headers.now spans h → IsHeadAt lines.now result h }
{
    let fields = &headers[..spans.headers];
    Head {
        method: spans.method,
        target: spans.path,
        len: spans.len,
        closes: spans.version == 0 || has_close(lines, fields),
        body: body_length(lines, fields),
    }
}

/// The last line feed at or after `start` and before `end`.
fn last_line_feed(bytes: &[u8], start: usize, end: usize) -> Option<usize>
    requires { end ≤ length bytes.now }
    ensures { IsLastLineFeed bytes.now start end result }
{
    let mut after = end;
    while start < after {
        if bytes[after - 1] == b'\n' {
            return Some(after - 1);
        }
        after -= 1;
    }
    None
}

/// Tests the lines after those that were tested before, in the given room if it is enough.
fn judge_lines(tested: Lines, lines: &[u8], headers: &mut [HeaderSpan]) -> Verdict
    requires lines { IsLines lines.now }
    requires tested { BeginsLines lines.now tested }
    requires more { length_of tested < length lines.now }
    requires limit { length lines.now ≤ most_head }
    ensures { Judges lines.now result }
{
    match judge_after(tested, lines, headers) {
        Some(verdict) => verdict,
        None => judge_many(tested, lines),
    }
}

/// Looks for a head at the front of the bytes. The first `tested` bytes were tested before: they begin with
/// these lines, without a line feed after them. One test at the last line feed settles as much as a test at
/// each.
pub fn find_head(bytes: &[u8], lines: Lines, tested: usize, headers: &mut [HeaderSpan]) -> Verdict
    requires { AreLinesUpTo bytes.now lines tested }
    ensures { Finds bytes.now result }
{
    match last_line_feed(bytes, tested, bytes.len().min(HEAD_LIMIT)) {
        None => Verdict::Partial(lines),
        Some(at) => judge_lines(lines, &bytes[..at + 1], headers),
    }
}
