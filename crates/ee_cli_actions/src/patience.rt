//! Connections, and time limits for their turns.

ghost use Rattle.std.specs.Prelude.{⊤, ℕ, List, Option, None, IfOk};
ghost use Rattle.ee_cli_actions.specs.Connections.{Comes};

use ee_io::{Sink, Source};
use std::cell::Cell;
use std::io::{self, ErrorKind, Read, Write};
use std::net::{Shutdown, TcpListener, TcpStream};
use std::time::{Clock, Duration, Instant};

/// The direction of bytes.
#[derive(Clone, Copy)]
enum Way {
    In,
    Out,
}

/// The time since which bytes go in this direction.
#[derive(Clone, Copy)]
struct Turn {
    way: Way,
    begun: Instant,
}

/// The turns of a connection, on which all reads between two writes, and all writes between two reads, together
/// take at most `patience`; then a call fails. So a message has that long to arrive, and a response to be taken,
/// even if single bytes move now and then, which a timeout of the socket alone would allow.
#[derive(Drop)]
pub struct Turns<'c, C: Clock> {
    clock: &'c C,
    patience: Duration,
    turn: Cell<Option<Turn>>,
}

impl<'c, C: Clock> Turns<'c, C> {
    /// The turns of a new connection, with a time limit of `patience` for each, by this clock.
    pub fn new(clock: &'c C, patience: Duration) -> Turns<'c, C> {
        Turns {
            clock,
            patience,
            turn: Cell::new(None),
        }
    }

    /// How long the next call in this direction may wait. The time begins again when the direction changes.
    fn left(&self, way: Way) -> io::Result<Duration> {
        let now = Instant::now(self.clock)?;
        let begun = match self.turn.get() {
            Some(turn) if turn.way == way => turn.begun,
            _ => now,
        };
        self.turn.set(Some(Turn { way, begun }));
        match self.patience.checked_sub(now.duration_since(begun)) {
            Some(left) => Ok(left),
            None => Err(ErrorKind::TimedOut.into()),
        }
    }
}

/// A reader whose reads can be limited in time.
pub trait ReadTimeout: Read {
    /// Limits the time of each read from now on.
    fn limit_reads(&self, most: Duration) -> io::Result<()>;
}

/// A writer whose writes can be limited in time.
pub trait WriteTimeout: Write {
    /// Limits the time of each write from now on.
    fn limit_writes(&self, most: Duration) -> io::Result<()>;

    /// Tells the other side that nothing more is written.
    fn end_writes(&self) -> io::Result<()>;
}

/// A place where connections come in, one after another.
pub trait Listens {
    type Reader: ReadTimeout + Drop;

    type Writer: WriteTimeout + Drop;

    /// The bytes that each of the connections sends which are still to come, in their order; `None` if they aren't known.
    ghost coming: { Self → Option (List (List ℕ)) };

    /// Waits for the next connection, and returns what reads from it and what writes to it.
    fn next_connection(&mut self) -> io::Result<(Self::Reader, Self::Writer)>
        ensures { IfOk result (λ both. Comes (coming self.old) (coming self.new) (Self.Reader.remaining both.0)) };
}

impl ReadTimeout for TcpStream {
    fn limit_reads(&self, most: Duration) -> io::Result<()> {
        self.set_read_timeout(Some(most))
    }
}

impl WriteTimeout for TcpStream {
    fn limit_writes(&self, most: Duration) -> io::Result<()> {
        self.set_write_timeout(Some(most))
    }

    fn end_writes(&self) -> io::Result<()> {
        self.shutdown(Shutdown::Write)
    }
}

/// A socket has one handle that is read and one that is written.
impl Listens for TcpListener {
    type Reader = TcpStream;

    type Writer = TcpStream;

    ghost coming = { λ _. None };

    fn next_connection(&mut self) -> io::Result<(TcpStream, TcpStream)> {
        let (stream, _) = self.accept()?;
        Ok((stream.try_clone()?, stream))
    }
}

/// One direction of a connection. Its bytes are those of the stream.
#[derive(Drop)]
pub struct Timed<'t, 'c, C: Clock, S> {
    pub turns: &'t Turns<'c, C>,
    pub stream: S,
}

impl<'t, 'c, C: Clock, R: ReadTimeout> Read for Timed<'t, 'c, C, R> {
    ghost remaining = { λ timed. R.remaining timed.stream };

    fn read(&mut self, buf: &mut [u8]) -> io::Result<usize> {
        let left = self.turns.left(Way::In)?;
        self.stream.limit_reads(left)?;
        self.stream.read(buf)
    }
}

impl<'t, 'c, C: Clock, W: WriteTimeout> Write for Timed<'t, 'c, C, W> {
    ghost contents = { λ timed. W.contents timed.stream };

    fn write(&mut self, buf: &[u8]) -> io::Result<usize> {
        let left = self.turns.left(Way::Out)?;
        self.stream.limit_writes(left)?;
        self.stream.write(buf)
    }

    fn flush(&mut self) -> io::Result<()> {
        Ok(())
    }
}

impl<'t, 'c, C: Clock, R: ReadTimeout> Source for Timed<'t, 'c, C, R> {
    ghost may_have_failed = { λ _. ⊤ };

    fn read_once(&mut self, buf: &mut [u8]) -> io::Result<usize> {
        self.read(buf)
    }
}

impl<'t, 'c, C: Clock, W: WriteTimeout> Sink for Timed<'t, 'c, C, W> {
    ghost may_have_failed = { λ _. ⊤ };

    fn write_once(&mut self, text: &[u8]) -> io::Result<usize> {
        self.write(text)
    }
}

/// Ends a connection on which responses were written: tells the other side that none follow, then reads and
/// drops what still comes, until the other side ends too or its time is over. If a socket is closed before
/// that, with unread bytes, the system resets it, and the other side may lose responses.
pub fn let_go<C: Clock, R: ReadTimeout, W: WriteTimeout>(
    reader: &mut Timed<'_, '_, C, R>,
    writer: &Timed<'_, '_, C, W>,
) -> io::Result<()> {
    writer.stream.end_writes()?;
    let mut dropped = [0u8; 16_384];
    for _ in 0..u64::MAX {
        if reader.read(&mut dropped)? == 0 {
            break;
        }
    }
    Ok(())
}
