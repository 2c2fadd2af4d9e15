//! The books of a paying agent in memory: rates, bonds, tickets and batches, the effects of acts on them, and
//! queries; and a keeper of them and of the reply to each request. The program keeps its books in a store: this
//! crate is a second keeper, for tests.
//!
//! It promises that an act changes the books as the model says, or not at all, and that queries show what the
//! books have. Begin with `books.rt`; `list.rt` is the keeper. What the maps in memory stand for is in
//! `specs/Inner/Kept.antt`.
//!
//! It doesn't promise that anything outlives the program.
#![tactic(auto)]

mod additions;
mod books;
mod ledger;
mod list;
mod marks;
mod parts;
mod queries;
mod seeing;

pub use books::Books;
pub use list::ListKeeper;
pub use parts::Parts;
