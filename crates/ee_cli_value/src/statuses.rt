//! Exit statuses.

ghost use Rattle.std.specs.Prelude.{◌≡◌};
ghost use Rattle.ee_cli_value.specs.Statuses.{IsStatusFor};

use crate::endings::Outcome;
use std::fmt;
use std::io::Write;

/// The line was carried out.
pub const DONE: u8 = 0;

/// The answer was a refusal.
pub const REFUSED: u8 = 1;

/// The command line was bad.
pub const BAD_LINE: u8 = 2;

/// A file, a socket, memory or a store failed.
pub const FAILED: u8 = 3;

/// Returns the exit status of a command that was carried out. Reports an unsettled value on `faults`.
pub fn conclude<E: Write>(outcome: Outcome, faults: &mut E) -> u8
    ensures { IsStatusFor outcome result }
{
    match outcome {
        Outcome::Done => DONE,
        Outcome::Unsettled(age) => {
            let age = age.months();
            if writeln!(faults, "unsettled at age {age}").is_ok() {
                REFUSED
            } else {
                FAILED
            }
        }
    }
}

/// Reports a fault on `faults`, and returns the exit status of a command that failed.
pub fn report<F: fmt::Display, E: Write>(fault: &F, faults: &mut E) -> u8
    ensures { result ≡ 3 }
{
    let _told = writeln!(faults, "{fault}");
    FAILED
}
