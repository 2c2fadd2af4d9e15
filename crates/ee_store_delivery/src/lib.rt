//! The delivery of a request to a store: looks up its number, decides its act on what it sees, and writes all
//! its effects with its reply.
//!
//! It promises that a request takes effect with its reply in one transaction, or not at all, and that what is
//! known of the books without reading them is right. Begin with `delivery.rt`; `known.rt` is the cache.
//!
//! It doesn't promise that a request is served, or that a disk keeps what it synced.
#![tactic(auto)]

mod delivery;
mod known;
mod named_by_act;
mod to_rows;
mod view;
mod writing;

pub use delivery::deliver_on;
pub use known::Known;
