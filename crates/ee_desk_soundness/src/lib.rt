//! The parts of a desk's books as lists, and the check whether they are those of sound books. The bonds are rows
//! that each name the ticket that pays the bond.
//!
//! It promises that parts pass exactly if they are those of sound books and each row names the right ticket, and
//! that sound books have one list of parts. Begin with `specs/Checks.antt` and `checks.rt`.
//!
//! It doesn't promise a repair: parts that aren't sound are refused as a whole.
#![tactic(auto)]

mod checks;
mod days;
mod faults;
mod laws;
mod lines;
mod order;
mod register;
mod rows;

pub use checks::{Indexes, checked};
pub use faults::PartsFault;
pub use laws::parts_law;
