//! The value of a Series EE bond for programs in C; `include/ee_value.h` declares the functions. No call
//! allocates, keeps anything or fails: each answers every combination of numbers.
//!
//! It promises the same values as the counter's, and a status for each number that is out of range. Begin with
//! `exports.rt` and `specs/Answers.antt`.
//!
//! It doesn't promise anything if a buffer is smaller than its caller says, or if another thread uses it
//! during the call.
#![tactic(auto)]

mod answers;
mod exports;
mod laws;
mod numbers;
mod questions;
mod refusals;
#[cfg(test)]
mod tests;
mod texts;
mod values;

pub use answers::ValueRow;
pub use exports::{
    ee_value_cents, ee_value_row, ee_value_row_into, ee_value_rows, ee_value_status_text,
    ee_value_version,
};
pub use laws::answers_law;
pub use questions::{Question, ValueQuestion};
pub use refusals::CallRefusal;
