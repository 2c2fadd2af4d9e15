//! Reading messages from a reader, however it cuts the bytes.
ghost use Rattle.std.specs.Prelude.{◌≡◌, ◌≤◌, ◌<◌, ◌+◌, [], length, take, drop, slice_range, IfSome, IfErr, Some, None};
ghost use Rattle.ee_wire_framing.specs.Framing.{most_head, most_body, most_held};
ghost use Rattle.ee_wire_framing.specs.Reading.{Answers, Takes, Settles, NeedsMore, stop_of, answer_of};
ghost use Rattle.ee_wire_framing.specs.Inner.Reading.{IsFront, ReadsMore, EndsAt};

use crate::front::{Front, Progress, judge_front, learn, read_front};
use crate::head::Lines;
use crate::{CHUNK, FEW_HEADERS, FramingFault};
use ee_io::Source;
use httparse::spans::{EMPTY_HEADER_SPAN, HeaderSpan, Span};
use std::alloc::Global;
use std::marker::Model;

/// How a stream ended. Each later call returns the same again.
#[derive(Clone, Copy, Debug, PartialEq, Eq)]
pub enum Stop {
    End,
    Fault(FramingFault),
    ReadFailed,
}

/// The positions of a message's parts in the buffer, and whether it asks to close the connection (HTTP/1.0,
/// or a header `Connection: close`).
#[derive(Clone, Copy, Debug, PartialEq, Eq)]
pub struct Message {
    pub method: Span,
    pub target: Span,
    pub body: Span,
    pub closes: bool,
}

/// What comes next.
#[derive(Clone, Copy, Debug, PartialEq, Eq)]
pub enum Next {
    Message(Message),
    /// The stream ends before the first byte of a message.
    End,
}

/// Why there is no message.
#[derive(Clone, Copy, Debug, PartialEq, Eq)]
pub enum WireEnd {
    /// The bytes are no message. Each later call returns this again.
    Fault(FramingFault),
    /// The reader failed, or was interrupted. Each later call returns this again.
    ReadFailed,
    /// Memory was refused. No byte is lost, and the call may be repeated.
    NoMemory,
}

/// Why a read gave nothing.
pub enum FillFault {
    Failed,
    NoMemory,
}

/// Bytes that were read: those of the last message, and those that come after it; at most `BUFFER_LIMIT`
/// (1,069,056) in all.
#[derive(Drop)]
pub struct Buffer {
    bytes: Vec<u8>,
    at: usize,
    progress: Progress,
    ended: Option<Stop>,
}

impl Model for Buffer {
    ghost use Rattle.std.specs.Prelude.{◌≤◌, length, take, drop};
    ghost use Rattle.ee_wire_framing.specs.Stream.{Stream};
    ghost use Rattle.ee_wire_framing.specs.Heads.{Knows};
    ghost use Rattle.ee_wire_framing.specs.Framing.{most_held};

    ghost Value = { Stream };

    ghost view = { λ a. record { shown = take a.at a.bytes.items; held = drop a.at a.bytes.items; ended = a.ended } };

    ghost invariant = { λ a. (a.at ≤ length a.bytes.items) × (length a.bytes.items ≤ most_held) × Knows (drop a.at a.bytes.items) a.progress };
}

impl Buffer {
    /// An empty buffer for a new stream.
    #[tactic(auto, using(crate::proofs::Tested::none_tested))]
    pub fn new(alloc: Global) -> Buffer
        ensures { result ≡ record { shown = []; held = []; ended = None } }
    {
        Buffer {
            bytes: Vec::new(alloc),
            at: 0,
            progress: Progress::Tested(Lines::Empty(0), 0),
            ended: None,
        }
    }

    fn stopped(&self) -> Option<Stop>
        ensures { result ≡ self.now.ended }
    {
        self.ended
    }

    /// A part of the last message: the bytes of this range that lie in it.
    pub fn part(&self, span: Span) -> &[u8]
        ensures bytes { result.now ≡ slice_range self.now.shown span.start span.end }
        ensures room { length self.now.shown + length self.now.held ≤ most_held }
    {
        let start = span.start.min(self.at);
        let end = span.end.min(self.at).max(start);
        &self.bytes[start..end]
    }

    fn held(&self) -> &[u8]
        ensures { result.now ≡ self.now.held }
    {
        &self.bytes[self.at..]
    }

    /// What the bytes held begin with.
    fn front(&mut self, headers: &mut [HeaderSpan]) -> Front
        ensures front { IsFront self.old.held result }
        ensures same { self.new ≡ self.old }
    {
        let verdict = judge_front(self.held(), self.progress, headers);
        self.progress = learn(self.held(), verdict);
        read_front(self.held(), verdict)
    }

    /// Marks the first `len` bytes as answered.
    #[tactic(auto, using(crate::proofs::Tested::none_tested))]
    fn show(&mut self, len: usize)
        requires fits { len ≤ length self.old.held }
        requires none { self.old.shown ≡ [] }
        ensures { self.new ≡ record { shown = take len self.old.held; held = drop len self.old.held; ended = self.old.ended } }
    {
        self.at += len;
        self.progress = Progress::Tested(Lines::Empty(0), 0);
    }

    /// Drops the bytes that were answered.
    fn discard(&mut self)
        ensures { self.new ≡ record { shown = []; held = self.old.held; ended = self.old.ended } }
    {
        let len = self.bytes.len() - self.at;
        self.bytes.as_mut_slice().rotate_left(self.at);
        self.bytes.truncate(len);
        self.at = 0;
    }

    fn stop(&mut self, stop: Stop)
        ensures { self.new ≡ record { shown = self.old.shown; held = self.old.held; ended = Some stop } }
    {
        self.ended = Some(stop);
    }

    /// The end of the stream, after the bytes held.
    fn at_end(&mut self) -> Result<Next, WireEnd>
        requires { NeedsMore self.old.held }
        ensures ends { EndsAt self.old.held result }
        ensures same { self.new ≡ record { shown = self.old.shown; held = self.old.held; ended = stop_of result } }
    {
        if self.held().is_empty() {
            self.stop(Stop::End);
            return Ok(Next::End);
        }
        self.stop(Stop::Fault(FramingFault::Truncated));
        Err(WireEnd::Fault(FramingFault::Truncated))
    }

    /// Reads once.
    fn read_more<R: Source>(&mut self, reader: &mut R) -> Result<usize, FillFault>
        requires none { self.old.shown ≡ [] }
        requires room { length self.old.held < most_head + most_body }
        ensures reads { ReadsMore self.old (R.remaining reader.old) result self.new (R.remaining reader.new) }
        ensures failed { IfErr result (λ fault. fault ≡ FillFault.Failed → R.may_have_failed reader.new) }
    {
        let mut chunk = [0u8; CHUNK];
        if self.bytes.reserve(CHUNK).is_err() {
            return Err(FillFault::NoMemory);
        }
        match reader.read_once(&mut chunk) {
            Ok(n) => match self.bytes.extend_from_slice(&chunk[..n]) {
                Ok(()) => Ok(n),
                Err(_) => unreachable!(),
            },
            Err(_) => Err(FillFault::Failed),
        }
    }
}

/// Returns the next message, or how the stream ends, however the reader cuts the bytes. Reads at most 4,096
/// bytes at a time, and only while the bytes held settle nothing. Each line of a head is tested once, when
/// it has come; a head that came in pieces is parsed once more as a whole. The parts of the message stay in
/// the buffer until the next call.
pub fn next_message<R: Source>(reader: &mut R, buffer: &mut Buffer) -> Result<Next, WireEnd>
    ensures answers { buffer.old.ended ≡ None
        → Answers buffer.old (R.remaining reader.old) result buffer.new (R.remaining reader.new) }
    ensures takes { buffer.old.ended ≡ None
        → Takes buffer.old (R.remaining reader.old) buffer.new (R.remaining reader.new) }
    ensures settles { buffer.old.ended ≡ None → Settles result buffer.new (R.remaining reader.new) }
    ensures ended { buffer.old.ended ≡ None → buffer.new.ended ≡ stop_of result }
    ensures failed { buffer.old.ended ≡ None → IfErr result (λ end. end ≡ WireEnd.ReadFailed → R.may_have_failed reader.new) }
    ensures unread { buffer.old.ended ≡ None → ¬ (NeedsMore buffer.old.held) → reader.new ≡ reader.old }
    ensures again { IfSome buffer.old.ended (λ stop. (result ≡ answer_of stop)
        × (buffer.new ≡ buffer.old) × (reader.new ≡ reader.old)) }
{
    match buffer.stopped() {
        None => {}
        Some(Stop::End) => return Ok(Next::End),
        Some(Stop::Fault(fault)) => return Err(WireEnd::Fault(fault)),
        Some(Stop::ReadFailed) => return Err(WireEnd::ReadFailed),
    }
    buffer.discard();
    let mut headers = [EMPTY_HEADER_SPAN; FEW_HEADERS];
    loop {
        match buffer.front(&mut headers) {
            Front::Message(message, len) => {
                buffer.show(len);
                return Ok(Next::Message(message));
            }
            Front::Fault(fault) => {
                buffer.stop(Stop::Fault(fault));
                return Err(WireEnd::Fault(fault));
            }
            Front::More => {}
        }
        match buffer.read_more(reader) {
            Ok(0) => return buffer.at_end(),
            Ok(_) => {}
            Err(FillFault::Failed) => {
                buffer.stop(Stop::ReadFailed);
                return Err(WireEnd::ReadFailed);
            }
            Err(FillFault::NoMemory) => return Err(WireEnd::NoMemory),
        }
    }
}
