//! The stores in files, as the program's commands open and close them.
//!
//! It promises the fault of an opening under its printed name, and that a store is written back as it is
//! closed. Begin with `running.rt`, for one command line; `laws.rt` has what holds of command lines in a row.
//!
//! It doesn't promise that the store at a path is the bank's own: any store there is opened.
#![tactic(auto)]

mod files;
pub mod laws;
mod running;
mod stopping;

pub use files::{Refused, StoreFiles, Unclosed, Untold};
pub use running::run_line;
pub use stopping::{StoppingFiles, run_stopped};
