//! The counter of a paying agent for paper Series EE savings bonds: the program.
#![tactic(auto)]

use ee_cli_commands::read_help;
use ee_cli_program::{Noting, REFUSED, refuse_words};
use ee_cli_stores::{StoreFiles, Untold, run_line};
use std::io::{self, IsTerminal, Write};
use std::process::ExitCode;

fn main(rt: HostRuntime) -> ExitCode {
    ExitCode::from(match words(&rt) {
        Ok(words) => run(&rt, words.as_slice()),
        Err(error) => refuse_words(&error, &mut rt.stderr()),
    })
}

/// Runs the line of these words over stores in files, and gives its exit status. On a terminal faults are explained, and
/// the answers of `apply`, which end without a line end, get one.
fn run(rt: &HostRuntime, words: &[String]) -> u8 {
    let stores = StoreFiles { rt, start: Untold };
    let status = run_line(
        rt,
        stores,
        words,
        rt.stderr().is_terminal(),
        &mut Noting::new(rt.stdin()),
        &mut Noting::new(rt.stdout()),
        &mut rt.stderr(),
    )
    .status;
    if status <= REFUSED && answers_messages(words) && rt.stdout().is_terminal() {
        let _ended = writeln!(rt.stdout());
    }
    status
}

/// Whether the line is one of `apply`.
fn answers_messages(words: &[String]) -> bool {
    match words {
        [_, command, ..] => command.as_str() == "apply",
        _ => false,
    }
}

/// The words of the line, `help` among them read as `--help`.
fn words(rt: &HostRuntime) -> io::Result<Vec<String>> {
    let words = std::env::args(rt)?.collect(rt.alloc())?;
    Ok(read_help(rt.alloc(), words)?)
}
