//! Tests of messages in a stream of bytes.

ghost use Rattle.std.specs.Prelude.{⊤};

use crate::comparing::{Cases, add_times, alike, assert_same, bytes_of, compare};
use ee_io::Source;
use ee_wire_framing::{Buffer, Message, Next, WireEnd, next_message};
use std::alloc::Global;
use std::fmt::Write;
use std::io::{self, ErrorKind, Read};
use std::process::Abort;
use std::test::Fail;

/// Hands out `first` bytes, then at most `step` a read, and is in trouble at one call.
#[derive(Drop)]
struct Pieces<'a> {
    bytes: &'a [u8],
    first: usize,
    step: usize,
    calls: usize,
    trouble: Option<(usize, ErrorKind)>,
}

impl<'a> Pieces<'a> {
    fn of(bytes: &'a [u8], first: usize, step: usize) -> Pieces<'a> {
        Pieces {
            bytes,
            first,
            step,
            calls: 0,
            trouble: None,
        }
    }
}

impl<'a> Read for Pieces<'a> {
    fn read(&mut self, buf: &mut [u8]) -> io::Result<usize> {
        self.calls = self.calls.saturating_add(1);
        if let Some((call, kind)) = self.trouble
            && self.calls == call
        {
            return Err(kind.into());
        }
        let most = if self.calls == 1 {
            self.first
        } else {
            self.step
        };
        let count = self.bytes.len().min(buf.len()).min(most);
        buf[..count].copy_from_slice(&self.bytes[..count]);
        self.bytes = &self.bytes[count..];
        Ok(count)
    }
}

impl<'a> Source for Pieces<'a> {
    ghost may_have_failed = { λ _. ⊤ };

    fn read_once(&mut self, buf: &mut [u8]) -> io::Result<usize> {
        self.read(buf)
    }
}

/// Adds a message as `METHOD TARGET BODY;`.
fn add_message(text: &mut String, buffer: &Buffer, message: Message) -> Option<()> {
    for part in [message.method, message.target, message.body] {
        write!(text, "{} ", str::from_utf8(buffer.part(part)).ok()?).ok()?;
    }
    text.push_str(if message.closes { "and closes; " } else { "; " })
        .ok()
}

fn add_end(text: &mut String, end: Result<Next, WireEnd>) -> Option<()> {
    match end {
        Ok(_) => text.push_str("End").ok(),
        Err(WireEnd::Fault(fault)) => write!(text, "{fault:?}").ok(),
        Err(end) => write!(text, "{end:?}").ok(),
    }
}

/// The result of a stream: its messages, then how it ends. If memory was refused, the call is repeated.
fn stream_text(alloc: Global, reader: &mut Pieces) -> Option<String> {
    let mut buffer = Buffer::new(alloc);
    let mut text = String::new(alloc);
    for _ in 0..100 {
        match next_message(reader, &mut buffer) {
            Ok(Next::Message(message)) => add_message(&mut text, &buffer, message)?,
            Err(WireEnd::NoMemory) => {}
            end => {
                add_end(&mut text, end)?;
                return Some(text);
            }
        }
    }
    None
}

/// Compares the result of a stream that comes in pieces of one size, after a first piece of another.
fn compare_pieces(
    rt: &impl Abort,
    alloc: Global,
    stream: &str,
    first: usize,
    step: usize,
) -> Option<()> {
    let got = stream_text(alloc, &mut Pieces::of(stream.as_bytes(), first, step))?;
    assert_same(rt, got.as_str(), MESSAGES, "in pieces");
    Some(())
}

/// The same for each size of a piece.
fn compare_sizes(rt: &impl Abort, alloc: Global, stream: &str, sizes: &[usize]) -> Option<()> {
    for size in sizes {
        compare_pieces(rt, alloc, stream, *size, *size)?;
    }
    Some(())
}

/// The same for two pieces, cut at each byte.
fn compare_cuts(rt: &impl Abort, alloc: Global, stream: &str) -> Option<()> {
    for first in 1..=stream.len() {
        compare_pieces(rt, alloc, stream, first, 4_096)?;
    }
    Some(())
}

const RATES: &str =
    "POST /rates HTTP/1.1\r\nContent-Length: 55\r\n\r\n{\"number\":1,\"rates\":[{\"from\":\"2010-11\",\"rate\":\"3.50\"}]}";

const VALUE: &str = "GET /value/50/2010-11/2012-02 HTTP/1.1\r\n\r\n";

const MESSAGES: &str =
    "POST /rates {\"number\":1,\"rates\":[{\"from\":\"2010-11\",\"rate\":\"3.50\"}]} ; GET /value/50/2010-11/2012-02  ; Truncated";

/// Two messages, and the first again without its last byte.
#[test]
fn cuts_change_nothing(rt: HostRuntime) -> Result<(), Fail> {
    let front = RATES.strip_suffix("}").ok_or("front")?;
    let stream = format!(in rt.alloc(); "{RATES}{VALUE}{front}")?;
    compare_cuts(&rt, rt.alloc(), &stream).ok_or("a cut")?;
    compare_sizes(&rt, rt.alloc(), &stream, &[1, 2, 3, 7, 4_096]).ok_or("a size")?;
    Ok(())
}

/// With each allocation refused in turn: no byte is lost.
#[test]
fn refused_memory(rt: HostRuntime) -> Result<(), Fail> {
    let stream =
        "POST /rates HTTP/1.1\r\nContent-Length: 55\r\n\r\n{\"number\":1,\"rates\":[{\"from\":\"2010-11\",\"rate\":\"3.50\"}]}GET /value/50/2010-11/2012-02 HTTP/1.1\r\n\r\nPOST";
    compare_sizes(&rt, rt.alloc(), stream, &[1, 64, 4_096]).ok_or("a size")?;
    Ok(())
}

/// The result of bytes, whole and in pieces of one byte.
fn text_in_pieces(alloc: Global, bytes: &[u8]) -> Option<String> {
    let whole = stream_text(alloc, &mut Pieces::of(bytes, 4_096, 4_096))?;
    let pieces = stream_text(alloc, &mut Pieces::of(bytes, 1, 1))?;
    alike(alloc, whole, pieces.as_str())
}

/// Streams, and their results; `|` means a line feed, `^` a carriage return and `~` the byte FF. Without a line
/// feed nothing is settled.
const HEADS: &str = "\
GET / HTTP/1.1|| => GET /  ; End
 => End
^|^|GET / HTTP/1.1^|Host: a^|^| => GET /  ; End
GET / HTTP/1.0^|^| => GET /  and closes; End
GET / HTTP/1.1^|coNNection: CLOSE^|^| => GET /  and closes; End
GET / HTTP/1.1^|Connection: keep-alive, close^|^| => GET /  ; End
GET / HTTP/1.1^|Connection: a^|Connection: close^|^| => GET /  and closes; End
GET / HTTP/2.0^|^| => BadHead
GET /^| => BadHead
GET / HTTP/1.1^|a b: c^| => BadHead
GET / HTTP/1.1^|a: b^| c^| => BadHead
^||^||GET / HTTP/1.1|a:||| => GET /  ; Truncated
^^| => BadHead
|| | => BadHead
||GET / HTTP/1.1|:| => BadHead
|| => Truncated
GET /\u{ff} HTTP/1.1^|^| => GET /\u{ff}  ; End
GET / HTTP/2.0 => Truncated
^ => Truncated
GET / HTTP/1.1^|^ => Truncated
A / HTTP/1.1^|Content-Length: 0^|^|B / HTTP/1.1||C => A /  ; B /  ; Truncated
A / HTTP/1.1^|Content-Length: 3^|^|abc => A / abc ; End
A / HTTP/1.1^|Content-Length: 3^|^|ab => Truncated
A / HTTP/1.1^|Content-Length: 1048576^|^|ab => Truncated
A / HTTP/1.1^|Content-Length: 1048577^|^| => BodyTooLong
A / HTTP/1.1^|Content-Length: 999999999999999999999999999999^|^| => BodyTooLong
A / HTTP/1.1^|Content-Length: 000000000000000000000000000003^|^|abc => A / abc ; End
A / HTTP/1.1^|Content-Length: 1x^|^|a => BadLength
A / HTTP/1.1^|Content-Length: +1^|^|a => BadLength
A / HTTP/1.1^|Content-Length:^|^| => BadLength
A / HTTP/1.1^|Content-Length: 1^|content-length: 1^|^|a => BadLength
A / HTTP/1.1^|Content-Length: 1048577^|Content-Length: 1^|^|a => BadLength
A / HTTP/1.1^|Transfer-Encoding: chunked^|^| => BadLength
A / HTTP/1.1^|Content-Length: 1048577^|Transfer-Encoding: chunked^|^| => BadLength
GET /~ HTTP/1.1^| => BadHead
";

struct HeadCases;

impl Cases for HeadCases {
    fn answer(alloc: Global, case: &str) -> Option<String> {
        text_in_pieces(alloc, &bytes_of(alloc, case)?)
    }
}

#[test]
fn heads_are_judged(rt: HostRuntime) -> Result<(), Fail> {
    compare::<HeadCases>(&rt, rt.alloc(), HEADS)
}

/// A head with this number of lines `a:` and, if it is longer, this number of bytes by one more line.
fn head_of(alloc: Global, lines: usize, len: usize) -> Option<String> {
    let mut head = String::from_str(alloc, "GET / HTTP/1.1\n").ok()?;
    add_times(&mut head, "a:\n", lines)?;
    let more = len.saturating_sub(head.len());
    if more > 4 {
        add_times(&mut head, "b:", 1)?;
        add_times(&mut head, "c", more - 4)?;
        add_times(&mut head, "\n", 1)?;
    }
    add_times(&mut head, "\n", 1)?;
    Some(head)
}

/// The header lines and bytes of heads, and the results: 32 headers and 33; 32 headers of 16,384 bytes and one
/// byte more; a line feed at every third byte, and the same, too long.
const LIMITS: &str = "\
32 0 => GET /  ; End
33 0 => BadHead
31 16384 => GET /  ; End
31 16385 => HeadTooLong
5456 0 => BadHead
5457 0 => HeadTooLong
";

struct LimitCases;

impl Cases for LimitCases {
    fn answer(alloc: Global, case: &str) -> Option<String> {
        let (lines, len) = case.split_once(' ')?;
        let head = head_of(alloc, lines.parse().ok()?, len.parse().ok()?)?;
        text_in_pieces(alloc, head.as_bytes())
    }
}

#[test]
fn limits_of_heads(rt: HostRuntime) -> Result<(), Fail> {
    compare::<LimitCases>(&rt, rt.alloc(), LIMITS)
}

/// One read has the whole message, which closes: nothing more is read.
#[test]
fn reads_only_while_undecided(rt: HostRuntime) -> Result<(), Fail> {
    let first = "A / HTTP/1.1\r\nConnection: close\r\n\r\n";
    let stream = format!(in rt.alloc(); "{first}{VALUE}")?;
    let mut reader = Pieces::of(stream.as_bytes(), first.len(), 4_096);
    let next = next_message(&mut reader, &mut Buffer::new(rt.alloc()));
    assert!(rt; matches!(next, Ok(Next::Message(Message { closes: true, .. }))));
    assert_eq!(rt; reader.calls, 1);
    Ok(())
}

/// Three calls over a message that comes a byte at a time, in trouble at one read: whether the first has the message,
/// what the others answer, and how often was read.
fn text_in_trouble(alloc: Global, call: usize, kind: ErrorKind) -> Option<String> {
    let mut reader = Pieces::of(RATES.as_bytes(), 1, 1);
    reader.trouble = Some((call, kind));
    let mut buffer = Buffer::new(alloc);
    let first = next_message(&mut reader, &mut buffer).is_ok();
    let second = next_message(&mut reader, &mut buffer);
    let third = next_message(&mut reader, &mut buffer);
    format!(in alloc; "{first}, {second:?}, {third:?}, {} reads", reader.calls).ok()
}

fn fails_at_each_read(rt: &impl Abort, alloc: Global, kind: ErrorKind) -> Option<()> {
    for call in 1..=RATES.len().saturating_add(1) {
        let got = text_in_trouble(alloc, call, kind)?;
        let first = call > RATES.len();
        let wanted = format!(in alloc;
            "{first}, Err(ReadFailed), Err(ReadFailed), {call} reads"
        ).ok()?;
        assert_same(rt, got.as_str(), wanted.as_str(), "in trouble");
    }
    Some(())
}

// Only the one call is in trouble: a later read would bring the rest.
#[test]
fn a_failed_read_is_final(rt: HostRuntime) -> Result<(), Fail> {
    fails_at_each_read(&rt, rt.alloc(), ErrorKind::Other).ok_or("no text")?;
    fails_at_each_read(&rt, rt.alloc(), ErrorKind::Interrupted).ok_or("no text")?;
    Ok(())
}

/// Streams without a message, whether they end in order, and that a second call answers the same and reads nothing.
const ENDS: &str = "\
GET => false, true, true
 => true, true, true
x| => false, true, true
";

struct EndCases;

impl Cases for EndCases {
    fn answer(alloc: Global, case: &str) -> Option<String> {
        let bytes = bytes_of(alloc, case)?;
        let mut reader = Pieces::of(&bytes, 4_096, 4_096);
        let mut buffer = Buffer::new(alloc);
        let next = next_message(&mut reader, &mut buffer);
        let calls = reader.calls;
        let stays = next_message(&mut reader, &mut buffer) == next;
        format!(in alloc; "{}, {stays}, {}", next.is_ok(), reader.calls == calls).ok()
    }
}

#[test]
fn an_end_is_final(rt: HostRuntime) -> Result<(), Fail> {
    compare::<EndCases>(&rt, rt.alloc(), ENDS)
}
