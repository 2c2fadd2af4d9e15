//! The command line of the counter: its rows, and what the words of a line ask for.
//!
//! It promises that words ask for at most one thing, and that a word at fault is named, the first in the row's
//! order. Begin with `specs/CommandLine.antt`, then `commands.rt`.
//!
//! It doesn't promise that a path, a port or a file that a line names can be used.
#![tactic(auto)]

mod commands;
mod lines;
mod meaning;
mod options;
mod rows;
mod words;

pub use commands::{Command, CommandFault, FileKind, read_command};
pub use meaning::one_meaning;
pub use options::{asks_to_explain, read_help};
pub use rows::VERSION;
