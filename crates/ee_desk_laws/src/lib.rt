//! Laws that follow from the definitions of requests alone: what stops and retries leave, what the order
//! of tellers changes, and what a keeper over a store must satisfy for the first of them.
//!
//! It promises theorems, and runs nothing. Begin with `specs/Events.antt` and `laws.rt`.
//!
//! It doesn't promise that a disk or a client does what its events say: a store has to show it.
#![tactic(auto)]

mod laws;
mod stores;

pub use laws::{runs_as_events_law, stops_and_retries_law, tellers_interleaved_law};
pub use stores::{StoreOfContents, ties_to_stores_law};
