//! The books that the rows of a store represent, and look-ups of them in a transaction.
//!
//! It promises that rows represent one content at most, and that `terms_in`, `held_in` and `tickets_in` return what
//! the content has that the transaction sees, and change nothing. Begin with `specs/Standing.antt`, which says what
//! rows stand for, then `held_bonds.rt`.
//!
//! It doesn't promise that a store has a content: what it promises is of a store that has one.
#![tactic(auto)]

mod held_bonds;
mod laws;
mod terms;
mod ticket_counts;

pub use held_bonds::held_in;
pub use laws::one_content_law;
pub use terms::{find_terms, no_terms, note_terms, terms_in};
pub use ticket_counts::{counted_in, tickets_in};
