//! Tests of reading and writing whole.

ghost use Rattle.std.specs.Prelude.{⊤};

use crate::comparing::{Cases, assert_same, compare};
use ee_io::{ReadFault, Sink, read_whole, write_whole};
use std::alloc::Global;
use std::io::{self, ErrorKind, Read, Write};
use std::test::Fail;

/// What becomes of a write in trouble.
#[derive(Clone, Copy)]
pub enum Trouble {
    Fails,
    Interrupted,
    TakesNone,
}

/// Takes at most `step` bytes a write, and none at the write that is in trouble.
#[derive(Drop)]
pub struct Device {
    pub bytes: Vec<u8>,
    step: usize,
    calls: usize,
    trouble: Option<(usize, Trouble)>,
}

impl Device {
    /// Takes one byte at a time, and fails after `room` bytes; it takes the memory of 1,000 bytes before.
    pub fn of(alloc: Global, room: usize, trouble: Trouble) -> Option<Device> {
        Some(Device {
            bytes: Vec::with_capacity(alloc, 1_000).ok()?,
            step: 1,
            calls: 0,
            trouble: Some((room.saturating_add(1), trouble)),
        })
    }
}

impl Write for Device {
    fn write(&mut self, buf: &[u8]) -> io::Result<usize> {
        self.calls = self.calls.saturating_add(1);
        if let Some((call, trouble)) = self.trouble
            && self.calls == call
        {
            return match trouble {
                Trouble::Fails => Err(ErrorKind::Other.into()),
                Trouble::Interrupted => Err(ErrorKind::Interrupted.into()),
                Trouble::TakesNone => Ok(0),
            };
        }
        let count = buf.len().min(self.step);
        self.bytes.extend_from_slice(&buf[..count])?;
        Ok(count)
    }

    fn flush(&mut self) -> io::Result<()> {
        Ok(())
    }
}

impl Sink for Device {
    ghost may_have_failed = { λ _. ⊤ };

    fn write_once(&mut self, text: &[u8]) -> io::Result<usize> {
        self.write(text)
    }
}

/// The call that fails, and how; none if the text is empty.
fn trouble_of(text: &str) -> Option<(usize, Trouble)> {
    let (call, kind) = text.split_once(' ')?;
    let trouble = match kind {
        "fails" => Trouble::Fails,
        "interrupted" => Trouble::Interrupted,
        _ => Trouble::TakesNone,
    };
    Some((call.parse().ok()?, trouble))
}

/// Whether the text was written to a device, what the device has, and how often it was called.
fn written(alloc: Global, step: usize, trouble: Option<(usize, Trouble)>) -> Option<String> {
    let mut device = Device {
        bytes: Vec::new(alloc),
        step,
        calls: 0,
        trouble,
    };
    let done = write_whole(&mut device, b"abcdef");
    let front = str::from_utf8(&device.bytes).ok()?;
    format!(in alloc; "{done}|{front}|{}", device.calls).ok()
}

/// Steps, troubles, and what is then written. Only the one call is in trouble: a second try would write on.
const WRITES: &str = "\
100| => true|abcdef|1
1| => true|abcdef|6
4| => true|abcdef|2
100|1 fails => false||1
2|2 fails => false|ab|2
1|6 fails => false|abcde|6
2|1 interrupted => false||1
2|3 interrupted => false|abcd|3
1|4 takes none => false|abc|4
1|7 fails => true|abcdef|6
0| => false||1
";

struct WriteCases;

impl Cases for WriteCases {
    fn answer(alloc: Global, case: &str) -> Option<String> {
        let (step, trouble) = case.split_once('|')?;
        written(alloc, step.parse().ok()?, trouble_of(trouble))
    }
}

#[test]
fn writes_all_or_the_bytes_before_the_trouble(rt: HostRuntime) -> Result<(), Fail> {
    compare::<WriteCases>(&rt, rt.alloc(), WRITES)
}

#[test]
fn writes_nothing_of_an_empty_text(rt: HostRuntime) {
    let bytes = Vec::new(rt.alloc());
    let trouble = Some((1, Trouble::Fails));
    let mut device = Device {
        bytes,
        step: 1,
        calls: 0,
        trouble,
    };
    assert!(rt; write_whole(&mut device, b""));
    assert_eq!(rt; device.calls, 0);
}

/// Gives at most `step` bytes a read; one read is in trouble, and a second try would read on.
#[derive(Drop)]
pub struct Source<'a> {
    bytes: &'a [u8],
    step: usize,
    calls: usize,
    trouble: Option<(usize, ErrorKind)>,
}

impl<'a> Source<'a> {
    pub fn of(bytes: &'a [u8], step: usize, trouble: Option<(usize, ErrorKind)>) -> Source<'a> {
        Source {
            bytes,
            step,
            calls: 0,
            trouble,
        }
    }
}

impl Read for Source<'_> {
    fn read(&mut self, buf: &mut [u8]) -> io::Result<usize> {
        self.calls = self.calls.saturating_add(1);
        if let Some((call, kind)) = self.trouble
            && self.calls == call
        {
            return Err(kind.into());
        }
        let count = buf.len().min(self.step).min(self.bytes.len());
        buf[..count].copy_from_slice(&self.bytes[..count]);
        self.bytes = &self.bytes[count..];
        Ok(count)
    }
}

impl ee_io::Source for Source<'_> {
    ghost may_have_failed = { λ _. ⊤ };

    fn read_once(&mut self, buf: &mut [u8]) -> io::Result<usize> {
        self.read(buf)
    }
}

/// The read that fails, and its kind; none if the text is empty.
fn failure_of(text: &str) -> Option<(usize, ErrorKind)> {
    let (call, kind) = text.split_once(' ')?;
    let kind = match kind {
        "other" => ErrorKind::Other,
        _ => ErrorKind::Interrupted,
    };
    Some((call.parse().ok()?, kind))
}

/// What was read of a source, or why not.
fn read_of(alloc: Global, source: &mut Source, most: usize) -> Option<String> {
    match read_whole(alloc, source, most) {
        Ok(bytes) => format!(in alloc; "all {}", str::from_utf8(&bytes).ok()?).ok(),
        Err(fault) => fault.to_string(alloc).ok(),
    }
}

/// Texts, the most bytes, steps and troubles; and what is read, and what is left.
const READS: &str = "\
|0|9| => all |
|6|9| => all |
abcdef|6|9| => all abcdef|
abcdef|6|1| => all abcdef|
abcdef|18446744073709551615|4| => all abcdef|
abcdef|5|9| => too many bytes|
abcdef|5|1| => too many bytes|
abcdef|3|9| => too many bytes|ef
abcdef|0|9| => too many bytes|bcdef
abcdef|6|9|1 other => the reader failed|abcdef
abcdef|6|9|2 other => the reader failed|
abcdef|6|1|1 interrupted => the reader failed|abcdef
abcdef|6|2|2 interrupted => the reader failed|cdef
abcdef|6|1|3 other => the reader failed|cdef
abcdef|6|1|4 other => the reader failed|def
abcdef|6|1|5 other => the reader failed|ef
abcdef|6|1|6 other => the reader failed|f
abcdef|6|1|7 other => the reader failed|
abcdef|6|1|8 other => all abcdef|
";

struct ReadCases;

impl Cases for ReadCases {
    fn answer(alloc: Global, case: &str) -> Option<String> {
        let (text, rest) = case.split_once('|')?;
        let (most, rest) = rest.split_once('|')?;
        let (step, trouble) = rest.split_once('|')?;
        let (most, step) = (most.parse().ok()?, step.parse().ok()?);
        let mut source = Source::of(text.as_bytes(), step, failure_of(trouble));
        let read = read_of(alloc, &mut source, most)?;
        format!(in alloc; "{read}|{}", str::from_utf8(source.bytes).ok()?).ok()
    }
}

#[test]
fn reads_all_or_says_why_not(rt: HostRuntime) -> Result<(), Fail> {
    compare::<ReadCases>(&rt, rt.alloc(), READS)
}

#[test]
fn reads_more_than_a_chunk(rt: HostRuntime) -> Result<(), Fail> {
    let text = vec![in rt.alloc(); b'a'; 10_000]?;
    let mut source = &text[..];
    let read = read_whole(rt.alloc(), &mut source, 10_000)?;
    assert!(rt; &read[..] == &text[..]);
    let mut source = &text[..];
    let read = read_whole(rt.alloc(), &mut source, 9_998);
    assert!(rt; matches!(&read, Err(ReadFault::TooLong)));
    assert!(rt; source.len() == 1);
    Ok(())
}

/// The text of the one fault that no row shows.
#[test]
fn text_of_a_fault(rt: HostRuntime) -> Result<(), Fail> {
    let text = ReadFault::NoMemory.to_string(rt.alloc())?;
    assert_same(&rt, text.as_str(), "out of memory", "fault");
    Ok(())
}
