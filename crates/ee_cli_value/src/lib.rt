//! The command `value`: the words of its line, what it prints, and its exit status.
//!
//! It promises the printed value, or a fault and its exit status, and that a line that isn't read is left to
//! the whole program. Begin with `lines.rt` and `values.rt`.
//!
//! It doesn't promise that a text that standard output took was read.
#![tactic(auto)]

mod endings;
mod lines;
mod statuses;
mod values;

pub use endings::{Outcome, PrintFault};
pub use lines::{ValueLine, read_line, run_line};
pub use statuses::{BAD_LINE, DONE, FAILED, REFUSED, conclude, report};
pub use values::print_value;
