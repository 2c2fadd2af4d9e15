//! Creating the tables of a store, and migrating those of a store of version 1 to version 2.
//!
//! It promises the tables with no rows, or for a migration the same content in the tables of version 2, in one
//! transaction. Begin with `specs/Forms.antt`, then `making.rt` and `migrating.rt`.
//!
//! It doesn't promise that rows stand for books: it copies those that it is given.
#![tactic(auto)]

mod answers;
mod faults;
mod forms;
mod laws;
mod making;
mod migrating;

pub use answers::StoredAnswer;
pub use faults::OpenFault;
pub use forms::Form;
pub use laws::first_desk_law;
pub use making::make_tables;
pub use migrating::migrate;
