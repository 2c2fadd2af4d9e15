//! Opening a store: finds out whether it is blank, and otherwise reads all its rows, of version 2 or 1.
//!
//! It promises all rows of a store with the program's tables, or says why the store is refused, and changes
//! nothing. Begin with `opening.rt`; `specs/Opening.antt` says which store is blank, ours or another's.
//!
//! It doesn't promise that rows stand for books, which ee_store_contents tests, or that a disk gave what was
//! written.
#![tactic(auto)]

mod bonds;
mod entries;
mod opening;
mod ours;
mod reading;
mod tables;
mod testing;
mod version;
mod whole;

pub use entries::{StoredBatch, StoredDesk, StoredLine, StoredRate, StoredReply, StoredTicket};
pub use opening::{is_blank, open_rows};
pub use tables::KeptReplies;
pub use testing::RowTest;
pub use version::STORE_VERSION;
pub use whole::AllRows;
