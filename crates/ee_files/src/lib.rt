//! Files of comma-separated values: reads rates and inventories of bonds, and writes inventories.
//!
//! It promises the rows of a file, or its first fault by row and code, and an export that is read back. Begin
//! with `specs/Rows.antt`, then `specs/RateFile.antt` and `specs/BondFile.antt`.
//!
//! It doesn't promise that a row is true: every row that is spelled right is read.
#![tactic(auto)]

mod columns;
mod export;
mod faults;
mod fields;
mod headers;
mod invariants;
mod inventory;
mod laws;
mod rates;
mod records;
mod showing;

pub use columns::FileColumn;
pub use export::write_inventory;
pub use faults::{FileCode, FileFault, WriteFault};
pub use inventory::read_inventory;
pub use laws::{header_law, inventory_law, rows_law};
pub use rates::read_rates;
pub use records::MOST_BYTES;
pub use showing::show_field;
