//! The whole content that the rows of a store represent, as it is tested when the store is opened.
//!
//! It promises the tables of unit values for the books that the rows stand for, or that they stand for none. Begin
//! with `contents.rt`; how rows are read is in `specs/Inner/Reading.antt`, what they stand for in ee_store_books.
//!
//! It doesn't promise that the program wrote the rows: those of sound books are taken, whoever wrote them.
#![tactic(auto)]

mod answers;
mod contents;
mod invariants;
mod parts;
mod rates;
mod reading;
mod tickets;
mod unit_tables;

pub use answers::KeptReply;
pub use contents::{ContentFault, TestedContent, tables_of};
