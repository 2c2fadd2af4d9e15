//! The store of a paying agent's counter: a keeper that keeps books and replies in the rows of its tables.
//!
//! It promises what every keeper promises, and that stops, lost replies and crashes leave books of requests
//! that were sent, each acting once. Begin with `keeper.rt` and `opening.rt`; `specs/History.antt` has what
//! holds from run to run.
//!
//! It doesn't promise anything once a disk gave wrong bytes as right ones, or while another program writes the
//! file.
#![tactic(auto)]

mod adopting;
mod ending;
mod failures;
mod keeper;
pub mod laws;
mod opening;
mod queries;

pub use adopting::NotAdopted;
pub use ee_store_books::one_content_law;
pub use ee_store_schema::OpenFault;
pub use keeper::SqlKeeper;
pub use opening::{NotOpened, Rest, open_as, open_on};
