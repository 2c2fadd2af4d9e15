//! What the desk of a paying agent is asked and what it answers: acts and replies as types. The
//! definitions describe the books, the order of refusals, and requests that may be repeated.
//!
//! It promises what later crates prove against: what an act changes and replies, which refusal comes first, and
//! that acts keep books sound. Begin with `specs/PlainBooks.antt`, `specs/Refusals.antt` and `specs/Acts.antt`;
//! `specs/Repeats.antt` has requests that are sent again.
//!
//! It doesn't promise who sent a request, nor that the paper of a bond was seen.
#![tactic(auto)]

mod acts;
mod changes;
mod desks;
mod invariants;
mod laws;
mod limits;
mod numbers;
mod queries;
mod refusals;
mod replies;
mod rows;
mod terms;
mod unit_tables;

pub use acts::{Act, Request};
pub use changes::{Change, Effects, Held, Kept};
pub use desks::{Desk, read_desk};
pub use ee_value::RateRow;
pub use invariants::in_range;
pub use laws::{
    acts_keep_sound_law, one_view_law, same_acts_law, shows_own_bonds_alone_law, view_decides_law,
};
pub use limits::{MOST_DAY_TICKETS, MOST_ROWS, MOST_SERIALS};
pub use numbers::{Number, RequestNumber};
pub use queries::{Query, Shown};
pub use refusals::{Refusal, Unserved};
pub use replies::{Batch, Line, Reply, Ticket};
pub use rows::Rows;
pub use terms::Terms;
pub use unit_tables::UnitTables;
