//! Running one command line of the counter's program, over the stores that its words name. Returns the exit
//! status.
//!
//! It promises for every list of words what is printed, the exit status, and what the store at the path then
//! has. Begin with `run.rt` and `carrying.rt`; `stores.rt` says what it asks of the stores.
//!
//! It doesn't promise that a text that standard output took was read, nor that bytes of a socket are a
//! teller's.
#![tactic(auto)]

mod carrying;
mod explaining;
mod forms;
mod host;
mod lines;
mod opening;
mod run;
mod spellings;
mod stores;
mod streams;
mod system;
mod unpaid;

pub use carrying::{CarriedOut, carry_out};
pub use ee_cli_value::{BAD_LINE, DONE, FAILED, REFUSED};
pub use explaining::{Cause, Explanation, Known, explain, explain_argument};
pub use forms::{Form, form_of};
pub use host::Host;
pub use opening::Carried;
pub use run::{Ran, refuse_words, run_words};
pub use spellings::{Spelling, spelling_of_argument, spelling_of_column};
pub use stores::{Left, Stores, Unopened};
pub use streams::{Noting, Stream};
pub use system::SystemCause;
pub use unpaid::{Unpaid, unpaid_in};
