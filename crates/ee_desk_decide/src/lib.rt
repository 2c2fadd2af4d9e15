//! What an act sees of the books, and its effects, which depend on nothing else; the rows of a sheet.
//!
//! It promises the effects of an act on any books that the view shows, whatever else these have. Begin with
//! `views.rt`, then `decisions.rt` and, for the tests in their order, `checks.rt`; `sheets.rt` has the rows.
//!
//! It doesn't promise anything about a view that no sound books show.
#![tactic(auto)]

mod checks;
mod decisions;
mod noting;
mod sheets;
mod values;
mod views;

pub use checks::length_refusal;
pub use decisions::decide;
pub use noting::note_bond;
pub use sheets::{quote, rows_of};
pub use views::{DayCounts, View, ViewParts};
