//! The units of the counter: money, rates, months, days, ages, denominations, serial numbers and
//! customers. Each value has one printed spelling, and a grammar of spellings that are read.
//!
//! It promises that each reader takes the texts of a grammar and no others, and that each printed text is read
//! back (`laws.rt`). Begin with `specs/Spelling.antt`, and for months and days with `specs/Calendar.antt`; the
//! ranges are in `specs/Limits.antt`.
//!
//! It doesn't promise that a value exists in the world: that Treasury issued a bond with this serial number,
//! or that a day was a business day.
#![tactic(auto)]

mod ages;
pub mod calendar;
mod customers;
mod days;
mod denoms;
mod faults;
mod laws;
mod money;
mod months;
pub mod pieces;
mod precision;
mod rates;
mod serials;

pub use ages::Age;
pub use customers::{Customer, read_customer};
pub use days::{Day, read_day};
pub use denoms::{Denom, price, read_denom, units};
pub use faults::UnitFault;
pub use laws::{calendar_law, day_law, denom_law, month_law, rate_law, serial_law, texts_law};
pub use money::{Cents, Total};
pub use months::{IssueMonth, Month, read_issue, read_month};
pub use precision::Bits;
pub use rates::{Rate, read_rate};
pub use serials::{Serial, read_serial};
