//! Writers that say whether a write to them may have failed.

ghost use Rattle.std.specs.Prelude.{◌≡◌, ◌≢◌, [], ⊤};
ghost use Rattle.std.specs.Io.{WritesAtMost};
ghost use Rattle.std.specs.Io.KnownBytes.{WriteAppends};
ghost use Rattle.ee_io.specs.Written.{TakesNone};

use std::alloc::Allocator;
use std::fs::File;
use std::io::{self, Stderr, Stdout, Write};
use std::net::TcpStream;

/// A writer that says when a write to it may have failed. A function that writes through it reports a failed
/// writer only then. For a writer of your own, let `may_have_failed` be `{ λ _. ⊤ }`, and let `write_once`
/// call `write`.
pub trait Sink: Write {
    /// The last write may have failed, or have taken no byte of a text.
    ghost may_have_failed: { Self → Type 0 };

    /// Writes once. An interrupted write is a failed one.
    fn write_once(&mut self, text: &[u8]) -> io::Result<usize>
        ensures bound { WritesAtMost result text.now }
        ensures bytes { WriteAppends (Self.contents self.old) (Self.contents self.new) result text.now }
        ensures failed { text.now ≢ [] → TakesNone result → may_have_failed self.new };
}

/// A vector. A write to it fails if memory is refused to its growth, and for no other cause.
impl<A: Allocator> Sink for Vec<u8, A> {
    ghost may_have_failed = { λ _. ⊤ };

    fn write_once(&mut self, text: &[u8]) -> io::Result<usize> {
        self.write(text)
    }
}

/// A slice that is written from its front. A write to it fails only if it is full.
impl Sink for &mut [u8] {
    ghost may_have_failed = { λ s. s.now ≡ [] };

    fn write_once(&mut self, text: &[u8]) -> io::Result<usize> {
        self.write(text)
    }
}

impl<S: Sink> Sink for &mut S {
    ghost may_have_failed = { λ s. S.may_have_failed s.now };

    fn write_once(&mut self, text: &[u8]) -> io::Result<usize> {
        (**self).write_once(text)
    }
}

/// Takes every text and keeps none. No write to it fails.
impl Sink for io::Sink {
    ghost may_have_failed = { λ _. ⊥ };

    fn write_once(&mut self, text: &[u8]) -> io::Result<usize> {
        self.write(text)
    }
}

impl Sink for File {
    ghost may_have_failed = { λ _. ⊤ };

    fn write_once(&mut self, text: &[u8]) -> io::Result<usize> {
        self.write(text)
    }
}

impl Sink for Stdout {
    ghost may_have_failed = { λ _. ⊤ };

    fn write_once(&mut self, text: &[u8]) -> io::Result<usize> {
        self.write(text)
    }
}

impl Sink for Stderr {
    ghost may_have_failed = { λ _. ⊤ };

    fn write_once(&mut self, text: &[u8]) -> io::Result<usize> {
        self.write(text)
    }
}

impl Sink for TcpStream {
    ghost may_have_failed = { λ _. ⊤ };

    fn write_once(&mut self, text: &[u8]) -> io::Result<usize> {
        self.write(text)
    }
}
