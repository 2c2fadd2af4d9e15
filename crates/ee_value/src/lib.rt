//! The value of Series EE savings bonds that earn a fixed rate and, after original maturity, possibly
//! another one (31 CFR Part 351): the accrued value at an age of one unit, 12.50 dollars of issue price,
//! and what a bond pays.
//!
//! It promises the value that the rounding rule gives, to the cent, or names the least age at which the
//! precision doesn't settle it. Begin with `specs/Rounding.antt` and `specs/Chain.antt`, then `tables.rt`;
//! `laws.rt` has worked examples.
//!
//! It doesn't promise that two rates leave no age open: tests show that of all equal pairs of rates.
#![tactic(auto)]

mod accrual;
mod bonds;
mod faults;
mod growth;
mod halves;
mod laws;
mod powers;
mod quotes;
mod rates;
mod tables;

pub use accrual::unit_at;
pub use bonds::{bond_value, bond_value_at};
pub use faults::{Unsettled, ValueFault};
pub use laws::{chain_law, exact_law, examples_law, open_law, rates_law, rounding_law, value_law};
pub use quotes::Quote;
pub use rates::{RateRow, Rates};
pub use tables::{UnitTable, unit_table};
