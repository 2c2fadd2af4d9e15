//! Streams that remember why they failed.

ghost use Rattle.std.specs.Prelude.{◌≡◌, ◌≢◌, [], Option, Some, None, IfErr, OnErr};
ghost use Rattle.std.specs.Io.{ReadsAtMost, WritesAtMost};
ghost use Rattle.std.specs.Io.KnownBytes.{ReadConsumes, WriteAppends};
ghost use Rattle.std.specs.IoError.{error_kind};
ghost use Rattle.std.specs.declared.io.ErrorKind.{ErrorKind};
ghost use Rattle.ee_io.specs.Written.{TakesNone};

use ee_io::{Sink, Source};
use std::io::{self, Empty, ErrorKind, Read, Write};

/// A stream that may know why a call failed.
pub trait Stream {
    /// The kind of the last error, if the stream remembers one.
    ghost failed: { Self → Option ErrorKind };

    /// The kind of the last error; `None` if no call failed, or if the stream doesn't remember.
    fn failure(&self) -> Option<ErrorKind>
        ensures { result ≡ failed self.now };
}

/// A vector remembers nothing.
impl Stream for Vec<u8> {
    ghost failed = { λ _. None };

    fn failure(&self) -> Option<ErrorKind> {
        None
    }
}

/// Bytes in memory don't fail.
impl Stream for &[u8] {
    ghost failed = { λ _. None };

    fn failure(&self) -> Option<ErrorKind> {
        None
    }
}

/// Nothing to read doesn't fail.
impl Stream for Empty {
    ghost failed = { λ _. None };

    fn failure(&self) -> Option<ErrorKind> {
        None
    }
}

/// A stream that remembers the kind of its last error.
#[derive(Drop)]
pub struct Noting<S> {
    stream: S,
    failure: Option<ErrorKind>,
}

impl<S> Noting<S> {
    /// The stream, of which no call has failed yet.
    pub fn new(stream: S) -> Noting<S>
        ensures stream { result.stream ≡ stream }
        ensures failure { result.failure ≡ None }
    {
        Noting {
            stream,
            failure: None,
        }
    }

    // Remembers why a call failed.
    fn note(&mut self, done: io::Result<usize>) -> io::Result<usize>
        ensures same { result ≡ done }
        ensures stream { self.new.stream ≡ self.old.stream }
        ensures noted { IfErr done (λ error. self.new.failure ≡ Some (error_kind error)) }
    {
        if let Err(error) = &done {
            self.failure = Some(error.kind());
        }
        done
    }
}

impl<S> Stream for Noting<S> {
    ghost failed = { λ noting. noting.failure };

    fn failure(&self) -> Option<ErrorKind> {
        self.failure
    }
}

impl<S: Read> Read for Noting<S> {
    ghost remaining = { λ noting. S.remaining noting.stream };

    fn read(&mut self, buf: &mut [u8]) -> io::Result<usize> {
        self.stream.read(buf)
    }
}

impl<S: Source> Source for Noting<S> {
    ghost may_have_failed = { λ noting. S.may_have_failed noting.stream };

    fn read_once(&mut self, buf: &mut [u8]) -> io::Result<usize>
        ensures bound { ReadsAtMost result buf.new }
        ensures bytes { ReadConsumes (S.remaining self.old.stream) (S.remaining self.new.stream) result buf.new }
        ensures failed { OnErr result (S.may_have_failed self.new.stream) }
        ensures noted { IfErr result (λ error. self.new.failure ≡ Some (error_kind error)) }
    {
        let done = self.stream.read_once(buf);
        self.note(done)
    }
}

impl<S: Write> Write for Noting<S> {
    ghost contents = { λ noting. S.contents noting.stream };

    fn write(&mut self, buf: &[u8]) -> io::Result<usize> {
        self.stream.write(buf)
    }

    fn flush(&mut self) -> io::Result<()> {
        self.stream.flush()
    }
}

impl<S: Sink> Sink for Noting<S> {
    ghost may_have_failed = { λ noting. S.may_have_failed noting.stream };

    fn write_once(&mut self, text: &[u8]) -> io::Result<usize>
        ensures bound { WritesAtMost result text.now }
        ensures bytes { WriteAppends (S.contents self.old.stream) (S.contents self.new.stream) result text.now }
        ensures failed { text.now ≢ [] → TakesNone result → S.may_have_failed self.new.stream }
        ensures noted { IfErr result (λ error. self.new.failure ≡ Some (error_kind error)) }
    {
        let done = self.stream.write_once(text);
        self.note(done)
    }
}
