//! The rows, notes and sheets of a savings bond calculator.
//!
//! It promises the columns of each row under each note, sums that are those of the rows, and a text that is
//! written whole or as a front. Begin with `specs/Rows.antt`, then `specs/Sheets.antt` and `writing.rt`.
//!
//! It doesn't promise that a row is the one that Treasury prints: `published_values` compares them.
#![tactic(auto)]

mod bonds;
mod cells;
mod columns;
mod laws;
mod notes;
mod row_values;
mod rows;
mod sheets;
mod totals;
mod writing;

pub use bonds::Bond;
pub use laws::adds_up_law;
pub use notes::Note;
pub use row_values::{issued_row, plain_row, row, unissued_row};
pub use rows::{Row, SERIES};
pub use sheets::Sheet;
pub use totals::sheet;
pub use writing::{WriteFailed, write_sheet};
