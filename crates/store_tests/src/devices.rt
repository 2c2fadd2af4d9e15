//! Readers and writers that cut and fail.

ghost use Rattle.std.specs.Prelude.{⊤};

use ee_io::Sink;
use std::alloc::Global;
use std::io::{self, ErrorKind, Read, Write};

/// Hands out `first` bytes, then at most `step` a read. The read of the number `fails` fails, and the next one would
/// read on.
#[derive(Drop)]
pub struct Source<'a> {
    bytes: &'a [u8],
    first: usize,
    step: usize,
    reads: usize,
    fails: usize,
    kind: ErrorKind,
}

impl<'a> Source<'a> {
    /// No read fails.
    pub fn of(bytes: &'a [u8], first: usize, step: usize) -> Source<'a> {
        Source {
            bytes,
            first,
            step,
            reads: 0,
            fails: 0,
            kind: ErrorKind::Other,
        }
    }

    /// A byte a read; the read of the number `fails` fails so.
    pub fn failing(bytes: &'a [u8], fails: usize, kind: ErrorKind) -> Source<'a> {
        Source {
            bytes,
            first: 1,
            step: 1,
            reads: 0,
            fails,
            kind,
        }
    }
}

impl Read for Source<'_> {
    fn read(&mut self, buf: &mut [u8]) -> io::Result<usize> {
        self.reads = self.reads.saturating_add(1);
        if self.reads == self.fails {
            return Err(self.kind.into());
        }
        let most = if self.reads == 1 {
            self.first
        } else {
            self.step
        };
        let count = self.bytes.len().min(buf.len()).min(most);
        buf[..count].copy_from_slice(&self.bytes[..count]);
        self.bytes = &self.bytes[count..];
        Ok(count)
    }
}

impl ee_io::Source for Source<'_> {
    ghost may_have_failed = { λ _. ⊤ };

    fn read_once(&mut self, buf: &mut [u8]) -> io::Result<usize> {
        self.read(buf)
    }
}

/// Takes at most `step` bytes a write, and fails once it has `room` bytes.
#[derive(Drop)]
pub struct Narrow {
    pub text: Vec<u8>,
    step: usize,
    room: usize,
    kind: ErrorKind,
}

impl Narrow {
    /// At most 7 bytes a write.
    pub fn new(alloc: Global, room: usize) -> Narrow {
        Narrow::failing(alloc, 7, room, ErrorKind::Other)
    }

    /// It fails so.
    pub fn failing(alloc: Global, step: usize, room: usize, kind: ErrorKind) -> Narrow {
        Narrow {
            text: Vec::new(alloc),
            step,
            room,
            kind,
        }
    }
}

impl Write for Narrow {
    fn write(&mut self, buf: &[u8]) -> io::Result<usize> {
        let left = self.room.saturating_sub(self.text.len());
        if left == 0 {
            return Err(self.kind.into());
        }
        let count = buf.len().min(left).min(self.step);
        self.text.extend_from_slice(&buf[..count])?;
        Ok(count)
    }

    fn flush(&mut self) -> io::Result<()> {
        Ok(())
    }
}

impl Sink for Narrow {
    ghost may_have_failed = { λ _. ⊤ };

    fn write_once(&mut self, text: &[u8]) -> io::Result<usize> {
        self.write(text)
    }
}
