//! What each command of the program does, over any keeper: what it answers, prints and leaves.
//!
//! It promises what each command prints, with which status it ends, and what the keeper has afterwards. Begin
//! with `specs/Actions.antt`; each command has a file.
//!
//! It doesn't promise that a reply that was printed was read, nor who sent a request.
#![tactic(auto)]

mod applying;
mod faults;
mod filing;
mod patience;
mod printing;
mod reasons;
mod serving;
mod sheets;

pub use applying::apply_to;
pub use faults::{Outcome, RunFault, StoreFault};
pub use filing::{export_from, import_into};
pub use patience::{Listens, ReadTimeout, WriteTimeout};
pub use printing::print;
pub use serving::serve_on;
pub use sheets::sheet_of;
