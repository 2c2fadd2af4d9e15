//! A reader that cuts.

ghost use Rattle.std.specs.Prelude.{⊤};

use std::io::{self, Read};

/// Hands out at most `step` bytes a read; `bytes` are left.
#[derive(Drop)]
pub struct Source<'a> {
    pub bytes: &'a [u8],
    step: usize,
}

impl<'a> Source<'a> {
    pub fn of(bytes: &'a [u8], step: usize) -> Source<'a> {
        Source { bytes, step }
    }
}

impl Read for Source<'_> {
    fn read(&mut self, buf: &mut [u8]) -> io::Result<usize> {
        let count = self.bytes.len().min(buf.len()).min(self.step);
        buf[..count].copy_from_slice(&self.bytes[..count]);
        self.bytes = &self.bytes[count..];
        Ok(count)
    }
}

impl ee_io::Source for Source<'_> {
    ghost may_have_failed = { λ _. ⊤ };

    fn read_once(&mut self, buf: &mut [u8]) -> io::Result<usize> {
        self.read(buf)
    }
}
