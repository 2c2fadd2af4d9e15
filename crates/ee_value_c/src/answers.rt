//! The rows that calls return.

ghost use Rattle.std.specs.Prelude.{◌≡◌};
ghost use Rattle.ee_calculator.specs.Rows.{columns_in};
ghost use Rattle.ee_value_c.specs.Answers.{note_number, payable, row_with, refused};
ghost use Rattle.ee_value_c.specs.Statuses.{status_of};

use crate::numbers::month_number;
use crate::refusals::CallRefusal;
use ee_calculator::{Note, Row};

/// What the calculator shows for a bond in a month, and what the bond pays.
#[repr(C)]
#[derive(Clone, Copy)]
pub struct ValueRow {
    /// The payment in cents; 0 if the bond can't be redeemed.
    pub payable_cents: u64,
    /// The issue price; 0 before issue.
    pub price_cents: u64,
    /// The interest earned above the price, less any penalty.
    pub interest_cents: u64,
    /// The calculator's value: the sum of price and interest.
    pub value_cents: u64,
    /// 0, or the status of a refusal; then all other fields are 0.
    pub status: u32,
    /// 0 for no note, 1 for NI, 2 for NE, 3 for P5, 4 for MA.
    pub note: u32,
    /// The month in which interest is next added, as YYYYMM; 0 if none is.
    pub next_accrual: u32,
    /// The month in which interest stops, as YYYYMM; 0 before issue.
    pub final_maturity: u32,
}

/// The answer that shows a row of the calculator.
pub fn shown_row(row: Row) -> ValueRow
    ensures { result ≡ row_with (columns_in row) }
{
    ValueRow {
        payable_cents: payable(row.note, row.value.0),
        price_cents: row.price.0,
        interest_cents: row.interest.0,
        value_cents: row.value.0,
        status: 0,
        note: note_number(row.note),
        next_accrual: month_number(row.next_accrual),
        final_maturity: month_number(row.final_maturity),
    }
}

/// The answer of a refused call.
pub fn refused_row(refusal: CallRefusal) -> ValueRow
    ensures { result ≡ refused (status_of refusal) }
{
    ValueRow {
        payable_cents: 0,
        price_cents: 0,
        interest_cents: 0,
        value_cents: 0,
        status: refusal.status(),
        note: 0,
        next_accrual: 0,
        final_maturity: 0,
    }
}

/// The part of a value that is paid under a note: nothing before 12 months of age.
const fn payable(note: Note, value: u64) -> u64
    ensures { result ≡ payable note value }
{
    match note {
        Note::Ni | Note::Ne => 0,
        Note::P5 | Note::Plain | Note::Ma => value,
    }
}

/// The number of a note.
const fn note_number(note: Note) -> u32
    ensures { result ≡ note_number note }
{
    match note {
        Note::Plain => 0,
        Note::Ni => 1,
        Note::Ne => 2,
        Note::P5 => 3,
        Note::Ma => 4,
    }
}
