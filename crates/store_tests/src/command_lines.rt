//! Lines that ask for values, for help or for nothing that the program does, and what is printed if the output
//! fails. The values were worked out by hand from the rules of 31 CFR Part 351.

ghost use Rattle.std.specs.Prelude.{None, ⊤};

use crate::commands::{InMemory, assert_fault, prints, run, words};
use crate::comparing::{assert_holds, assert_same, parts};
use ee_cli_program::{Stream, refuse_words, run_words};
use ee_io::Sink;
use std::alloc::Global;
use std::io::{self, ErrorKind, Write};
use std::process::Abort;

/// Lines that ask for a value, and what they print. With an extension, the fixed rate grows the value up to the
/// age of 240 months, at which it is at least doubled, and the extension grows it from then on.
const VALUES: &str = "\
value 50 05/2010 05/2015 3.5% => 29.74
value 50 2010-05 2010-04 3.50 => 0.00 NI
value 50 2010-05 2011-04 3.50 => 25.00 NE
value 50 2010-05 2011-05 20 => 28.84 P5
value 75 2010-05 2011-08 2.00 => 38.28 P5
value 50 2010-05 2015-04 3.50 => 29.38 P5
value 50 2010-05 2030-04 3.40 => 48.90
value 50 2010-05 2030-05 3.40 => 50.00
value 50 2010-05 2030-06 3.40 => 50.14
value 50 2010-05 2030-05 3.60 => 51.04
value 10000 2005-05 2035-04 20.00 => 1498472.00
value 10000 2005-05 2199-12 20.00 => 1522468.00 MA
value 10000 2005-05 2025-04 0 => 5000.00
value 10000 2005-05 2025-05 0 => 10000.00
value 50 2010-05 2010-04 3.40 4.00 => 0.00 NI
value 50 2010-05 2015-05 3.50 9.99 => 29.74
value 50 2010-05 2015-05 3.50 3.50 => 29.74
value 50 2010-05 2030-04 3.40 4.00 => 48.90
value 50 2010-05 2030-05 3.40 4.00 => 50.00
value 50 2010-05 2030-06 3.40 4.00 => 50.16
value 50 2010-05 2030-07 3.40 4.00 => 50.34
value 50 2010-05 2030-08 3.40 4.00 => 50.50
value 50 2010-05 2030-10 3.40 4.00 => 50.84
value 50 2010-05 2030-11 3.40 4.00 => 51.00
value 50 2010-05 2030-12 3.40 4.00 => 51.16
value 50 2010-05 2040-04 3.40 4.00 => 74.04
value 50 2010-05 2040-05 3.40 4.00 => 74.28 MA
value 50 2010-05 2199-12 3.40 0.00 => 50.00 MA
value 50 2010-05 2030-11 3.40 4.04 => 51.02
value 50 2010-05 2030-08 3.50 4.02 => 50.50
value 50 2010-05 2030-05 3.60 0.00 => 51.04
value 50 2010-05 2040-04 3.60 0.00 => 51.04
value 50 2010-05 2030-11 3.60 2.00 => 51.56
value 10000 2005-05 2025-04 0.00 20.00 => 5000.00
value 10000 2005-05 2025-05 0.00 20.00 => 10000.00
value 10000 2005-05 2025-11 0.00 20.00 => 11000.00
value 10000 2005-05 2035-05 0.00 20.00 => 67304.00 MA
value 10000 2005-05 2199-12 20.00 0.00 => 226304.00 MA
";

#[test]
fn values(rt: HostRuntime) {
    for row in VALUES.lines() {
        let (line, value) = parts(&rt, row);
        let wanted = format!(in rt.alloc(); "{value}\n").expect(&rt, row);
        prints(&rt, &rt, line, "", &wanted);
    }
}

#[test]
fn bad_arguments(rt: HostRuntime) {
    for (line, wanted) in [
        ("value 51 2010-13 2015-5 x", "bad argument: denom\n"),
        ("value 50 2005-04 2015-5 x", "bad argument: issued\n"),
        ("value 50 2010-05 2200-01 x", "bad argument: month\n"),
        ("value 50 2010-05 2015-05 20.01", "bad argument: rate\n"),
        ("value 50 2010-05 2015-05 x y", "bad argument: rate\n"),
        (
            "value 50 2010-05 2015-05 3.50 20.01",
            "bad argument: extension\n",
        ),
        ("export 0 --db no/where", "bad argument: customer\n"),
        ("sheet 7 2012-13 --db no/where", "bad argument: month\n"),
    ] {
        assert_fault(&rt, &rt, line, wanted, 2);
    }
}

/// The line prints nothing, reports a fault, and ends with status 2.
fn is_bad(rt: &HostRuntime, abort: &impl Abort, line: &str) {
    let ran = run(rt, abort, line, "");
    assert_holds(abort, !ran.got.is_empty(), line);
    assert_same(abort, ran.printed.as_str(), "", line);
    assert_holds(abort, ran.status == 2, line);
}

#[test]
fn bad_lines(rt: HostRuntime) {
    for line in [
        "",
        "help",
        "value 50 2010-05 2015-05",
        "value 50 2010-05 2015-05 3.50 3.50 3.50",
        "apply",
        "import rats r.csv --db no/where --number 1",
        "import rates r.csv --db no/where --number 0",
        "serve --db no/where --port 65536 --connections 1",
        "serve --db no/where --port 1 --connections 1001",
    ] {
        is_bad(&rt, &rt, line);
    }
}

/// The output of the line contains that part; no fault is reported, and the status is 0.
fn prints_part(rt: &HostRuntime, abort: &impl Abort, line: &str, part: &str) {
    let ran = run(rt, abort, line, "");
    assert_holds(abort, ran.printed.contains(part), part);
    assert_same(abort, ran.got.as_str(), "", line);
    assert_holds(abort, ran.status == 0, line);
}

#[test]
fn help_is_no_fault(rt: HostRuntime) {
    for (line, part) in [
        ("--help", "Usage: ee_cli <COMMAND>"),
        ("-h", "500 rows a request, 100 serial numbers a redemption"),
        ("--help", "One process at a time uses a store."),
        ("value --help", "ee_cli value 50 2010-05 2026-11 1.40"),
        ("value --help", "<rate> [extension]"),
        ("serve --help", "ee_cli serve --db day.db --port 8377"),
    ] {
        prints_part(&rt, &rt, line, part);
    }
}

#[test]
fn versions(rt: HostRuntime) {
    for line in ["--version", "-V"] {
        prints(&rt, &rt, line, "", "ee_cli 1.1.0, store version 2\n");
    }
}

/// Takes `room` bytes, and then fails.
#[derive(Drop)]
struct Failing {
    bytes: Vec<u8>,
    room: usize,
}

impl Write for Failing {
    fn write(&mut self, buf: &[u8]) -> io::Result<usize> {
        let count = buf.len().min(self.room);
        if count == 0 {
            return Err(ErrorKind::Interrupted.into());
        }
        self.bytes.extend_from_slice(&buf[..count])?;
        self.room -= count;
        Ok(count)
    }

    fn flush(&mut self) -> io::Result<()> {
        Ok(())
    }
}

impl Stream for Failing {
    ghost failed = { λ _. None };

    fn failure(&self) -> Option<ErrorKind> {
        None
    }
}

impl Sink for Failing {
    ghost may_have_failed = { λ _. ⊤ };

    fn write_once(&mut self, text: &[u8]) -> io::Result<usize> {
        self.write(text)
    }
}

/// Compares the bytes of a text with the wanted ones; `case` names them.
fn same_bytes(rt: &impl Abort, got: &[u8], wanted: &str, case: &str) {
    assert_same(rt, str::from_utf8(got).expect(rt, case), wanted, case);
}

/// The output takes this number of the bytes that the words print, and then fails.
fn prints_so_many(rt: &HostRuntime, abort: &impl Abort, words: &[String], room: usize) {
    let bytes = Vec::new(rt.alloc());
    let mut output = Failing { bytes, room };
    let mut got = Vec::new(rt.alloc());
    let stores = InMemory { alloc: rt.alloc() };
    let mut input = io::empty();
    let status = run_words(rt, stores, words, false, &mut input, &mut output, &mut got).status;
    let front = "29.74\n".get(..room).expect(abort, "a front of the line");
    same_bytes(abort, &output.bytes, front, "what is printed");
    same_bytes(abort, &got, "input or output failed\n", "what is got");
    assert_holds(abort, status == 3, "the status is 3");
}

#[test]
fn failing_output(rt: HostRuntime) {
    let words = words(&rt, &rt, "value 50 2010-05 2015-05 3.50");
    for room in 0..6 {
        prints_so_many(&rt, &rt, &words, room);
    }
}

/// Words that were not read for that cause are refused with this text and this status.
fn are_refused(rt: &impl Abort, alloc: Global, kind: ErrorKind, wanted: &str, status: u8) {
    let mut got = Vec::new(alloc);
    let error = io::Error::from(kind);
    let ended = refuse_words(&error, &mut got);
    same_bytes(rt, &got, wanted, "what is got");
    assert_holds(rt, ended == status, wanted);
}

/// A word that isn't UTF-8 is a bad line, and want of memory is reported as such.
#[test]
fn words_that_are_not_read(rt: HostRuntime) {
    let wanted = "bad argument: a word isn't UTF-8\n";
    are_refused(&rt, rt.alloc(), ErrorKind::InvalidData, wanted, 2);
    are_refused(&rt, rt.alloc(), ErrorKind::OutOfMemory, "no memory\n", 3);
}
