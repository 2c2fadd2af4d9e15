//! The rows of one bond, ticket, line and batch, and the bond and the line that rows show.
//!
//! It promises that `held_from` and `line_with` give a bond and a line with the numbers of their rows, if these are in
//! range. Begin with `specs/Rows.antt`.
//!
//! It doesn't promise anything of rows together: ee_store_books says what those of a whole store represent.
#![tactic(auto)]

mod bonds;
mod lines;

pub use bonds::held_from;
pub use lines::line_with;
