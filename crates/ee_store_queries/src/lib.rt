//! Queries of a store. Each is one transaction, which is read and rolled back.
//!
//! It promises what the books have that the store stands for, and leaves the store as it was. Begin with
//! `queries.rt`; `specs/Asking.antt` has what all queries promise.
//!
//! It doesn't promise an answer: memory or the store may fail, each for a cause that is named.
#![tactic(auto)]

mod from_rows;
mod periods;
mod queries;

pub use queries::ask;
