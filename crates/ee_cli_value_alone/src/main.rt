//! The command `value` alone, over the crates of values: it is proved and built in a few minutes.
#![tactic(auto)]

use ee_cli_value::run_line;
use std::io;
use std::process::ExitCode;

/// The exit status of words that it doesn't read, which the whole program is to read.
const UNREAD: u8 = 4;

fn main(rt: HostRuntime) -> ExitCode {
    ExitCode::from(match words(&rt) {
        Ok(words) => run(&rt, words.as_slice()),
        Err(_) => UNREAD,
    })
}

/// Runs the line of these words, and returns its exit status.
fn run(rt: &HostRuntime, words: &[String]) -> u8 {
    let status = run_line(rt.alloc(), words, &mut rt.stdout(), &mut rt.stderr());
    status.unwrap_or(UNREAD)
}

fn words(rt: &HostRuntime) -> io::Result<Vec<String>> {
    Ok(std::env::args(rt)?.collect(rt.alloc())?)
}
