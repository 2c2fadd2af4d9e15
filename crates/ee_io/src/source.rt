//! Readers that say whether a read of them may have failed.

ghost use Rattle.std.specs.Prelude.{OnErr, ⊤};
ghost use Rattle.std.specs.Io.{ReadsAtMost};
ghost use Rattle.std.specs.Io.KnownBytes.{ReadConsumes};

use std::fs::File;
use std::io::{self, Empty, Read, Stdin};
use std::net::TcpStream;

/// A reader that says when a read of it may have failed: never for bytes in memory, at any time for a
/// device. A function that reads through it reports a failed reader only then. For a reader of your own, let
/// `may_have_failed` be `{ λ _. ⊤ }`, and let `read_once` call `read`.
pub trait Source: Read {
    /// The last read may have failed.
    ghost may_have_failed: { Self → Type 0 };

    /// Reads once. An interrupted read is a failed one.
    fn read_once(&mut self, buf: &mut [u8]) -> io::Result<usize>
        ensures bound { ReadsAtMost result buf.new }
        ensures bytes { ReadConsumes (Self.remaining self.old) (Self.remaining self.new) result buf.new }
        ensures failed { OnErr result (may_have_failed self.new) };
}

/// Bytes in memory. No read of them fails.
impl Source for &[u8] {
    ghost may_have_failed = { λ _. ⊥ };

    fn read_once(&mut self, buf: &mut [u8]) -> io::Result<usize> {
        self.read(buf)
    }
}

/// Nothing to read.
impl Source for Empty {
    ghost may_have_failed = { λ _. ⊥ };

    fn read_once(&mut self, buf: &mut [u8]) -> io::Result<usize> {
        self.read(buf)
    }
}

impl<S: Source> Source for &mut S {
    ghost may_have_failed = { λ s. S.may_have_failed s.now };

    fn read_once(&mut self, buf: &mut [u8]) -> io::Result<usize> {
        (**self).read_once(buf)
    }
}

impl Source for File {
    ghost may_have_failed = { λ _. ⊤ };

    fn read_once(&mut self, buf: &mut [u8]) -> io::Result<usize> {
        self.read(buf)
    }
}

impl Source for Stdin {
    ghost may_have_failed = { λ _. ⊤ };

    fn read_once(&mut self, buf: &mut [u8]) -> io::Result<usize> {
        self.read(buf)
    }
}

impl Source for TcpStream {
    ghost may_have_failed = { λ _. ⊤ };

    fn read_once(&mut self, buf: &mut [u8]) -> io::Result<usize> {
        self.read(buf)
    }
}
