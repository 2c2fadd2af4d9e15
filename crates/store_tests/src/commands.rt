//! Running a command line, over files or over stores in memory, with its output and its faults.

use crate::comparing::{assert_holds, assert_same};
use ee_cli_program::{Stores, Unopened, run_words};
use ee_cli_stores::{StoreFiles, Untold, run_line};
use ee_desk::ListKeeper;
use std::alloc::Global;
use std::process::Abort;

/// The output of a line, the faults that it reported, and its exit status.
#[derive(Drop)]
pub struct Ran {
    pub printed: String,
    pub got: String,
    pub status: u8,
}

/// Adds a word.
fn add_word(abort: &impl Abort, alloc: Global, words: &mut Vec<String>, word: &str) {
    let text = String::from_str(alloc, word).expect(abort, word);
    words.push(text).expect(abort, word);
}

/// The program's name, and the words of a line.
pub fn words(rt: &HostRuntime, abort: &impl Abort, line: &str) -> Vec<String> {
    let mut words = Vec::new(rt.alloc());
    add_word(abort, rt.alloc(), &mut words, "ee_cli");
    for word in line.split_ascii_whitespace() {
        add_word(abort, rt.alloc(), &mut words, word);
    }
    words
}

/// What a line printed and reported, with its status.
fn ended(abort: &impl Abort, printed: Vec<u8>, got: Vec<u8>, status: u8) -> Ran {
    Ran {
        printed: String::from_utf8(printed).expect(abort, "what is printed"),
        got: String::from_utf8(got).expect(abort, "what is got"),
        status,
    }
}

/// Runs a line over these stores.
pub fn run_over<O: Stores>(
    rt: &HostRuntime,
    abort: &impl Abort,
    stores: O,
    line: &str,
    input: &str,
) -> Ran {
    let words = words(rt, abort, line);
    let mut bytes = input.as_bytes();
    let mut printed = Vec::new(rt.alloc());
    let mut got = Vec::new(rt.alloc());
    let status = run_words(
        rt,
        stores,
        &words,
        false,
        &mut bytes,
        &mut printed,
        &mut got,
    )
    .status;
    ended(abort, printed, got, status)
}

/// Runs the line of these words over stores in files, as the program does, and returns its status.
fn status_of(
    rt: &HostRuntime,
    words: &[String],
    input: &str,
    printed: &mut Vec<u8>,
    got: &mut Vec<u8>,
) -> u8 {
    let mut bytes = input.as_bytes();
    let stores = StoreFiles { rt, start: Untold };
    run_line(rt, stores, words, false, &mut bytes, printed, got).status
}

/// Runs a line over stores in files.
pub fn run(rt: &HostRuntime, abort: &impl Abort, line: &str, input: &str) -> Ran {
    let words = words(rt, abort, line);
    let mut printed = Vec::new(rt.alloc());
    let mut got = Vec::new(rt.alloc());
    let status = status_of(rt, &words, input, &mut printed, &mut got);
    ended(abort, printed, got, status)
}

/// Stores in memory, each empty as it is opened, whatever its path is.
#[derive(Clone, Copy)]
pub struct InMemory {
    pub alloc: Global,
}

impl Stores for InMemory {
    ghost use Rattle.std.specs.Prelude.{◌≡◌, ⊤};
    ghost use Rattle.ee_desk_model.specs.Repeats.{nothing};

    type Store = ListKeeper;

    type Rest = ListKeeper;

    type Refused = ();

    type Left = ();

    ghost holds = { λ _ _ c. c ≡ nothing };

    // Nothing is said of the history of a store in memory.
    ghost opens = { λ _ _ _ _. ⊥ };

    ghost has_room = { λ _ _. ⊤ };

    ghost rests = { λ store rest. rest ≡ store };

    ghost refuses = { λ _ _ _ _. ⊥ };

    ghost keeps = { λ _ _. ⊥ };

    fn open(self, _path: &str) -> Result<ListKeeper, Unopened<()>> {
        Ok(ListKeeper::empty(self.alloc))
    }

    fn close(store: ListKeeper) -> Result<ListKeeper, ()> {
        Ok(store)
    }
}

/// The line printed this, reported this, and ended with this status.
pub fn has_run(abort: &impl Abort, ran: &Ran, line: &str, printed: &str, got: &str, status: u8) {
    assert_same(abort, ran.printed.as_str(), printed, line);
    assert_same(abort, ran.got.as_str(), got, line);
    assert_holds(abort, ran.status == status, line);
}

/// The line prints this, with status 0.
pub fn prints(rt: &HostRuntime, abort: &impl Abort, line: &str, input: &str, wanted: &str) {
    let ran = run(rt, abort, line, input);
    has_run(abort, &ran, line, wanted, "", 0);
}

/// The same over stores in memory.
pub fn prints_in_memory(
    rt: &HostRuntime,
    abort: &impl Abort,
    line: &str,
    input: &str,
    wanted: &str,
) {
    let stores = InMemory { alloc: rt.alloc() };
    let ran = run_over(rt, abort, stores, line, input);
    has_run(abort, &ran, line, wanted, "", 0);
}

/// The line prints nothing, reports this fault, and ends with this status.
pub fn assert_fault(rt: &HostRuntime, abort: &impl Abort, line: &str, wanted: &str, status: u8) {
    let ran = run(rt, abort, line, "");
    has_run(abort, &ran, line, "", wanted, status);
}

/// Two messages of a stream.
pub const STREAM: &str =
    "POST /rates HTTP/1.1\r\nContent-Length: 55\r\n\r\n{\"number\":1,\"rates\":[{\"from\":\"2010-11\",\"rate\":\"3.50\"}]}GET /value/50/2010-11/2012-02 HTTP/1.1\r\n\r\n";

/// The answers to them.
pub const ANSWERS: &str =
    "HTTP/1.1 200 OK\r\nContent-Type: application/json\r\nContent-Length: 18\r\n\r\n{\"new\":1,\"same\":0}HTTP/1.1 200 OK\r\nContent-Type: application/json\r\nContent-Length: 143\r\n\r\n{\"denom\":50,\"final\":\"2040-11\",\"interest\":\"0.88\",\"issued\":\"2010-11\",\"next\":\"2012-03\",\"note\":\"P5\",\"price\":\"25.00\",\"rate\":\"3.50%\",\"value\":\"25.88\"}";
