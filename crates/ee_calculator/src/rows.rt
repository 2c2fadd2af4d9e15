//! Rows of the calculator.

ghost use Rattle.std.specs.Prelude.{◌≡◌, ◌+◌};

use crate::notes::Note;
use ee_units::{Cents, Denom, IssueMonth, Month, Rate, Serial};

/// The series of every bond, as the series column shows it.
pub const SERIES: &str = "EE";

/// What the calculator shows for a bond in a month: all eleven columns but the series, which is always
/// `SERIES`. The value is the sum of price and interest.
#[derive(Clone, Copy)]
pub struct Row {
    /// The serial number; `None` in a row for no registered bond.
    pub serial: Option<Serial>,
    pub denom: Denom,
    pub issued: IssueMonth,
    /// The month after the row's month, in which interest is next added; `None` if the bond earns none.
    pub next_accrual: Option<Month>,
    /// The month in which interest stops, 30 years after issue; None before issue.
    pub final_maturity: Option<Month>,
    /// The issue price; zero before issue.
    pub price: Cents,
    /// The interest earned above the price, less any penalty.
    pub interest: Cents,
    /// The rate that the bond earns in this month; `None` if it earns none.
    pub rate: Option<Rate>,
    /// The value of the bond in this month.
    pub value: Cents,
    pub note: Note,
    pub ghost adds_up: { value.0 ≡ price.0 + interest.0 },
}
