//! The values that a caller's plain numbers represent.

ghost use Rattle.std.specs.Prelude.{◌≡◌, Some};
ghost use Rattle.ee_units.specs.Denoms.{denom_with};
ghost use Rattle.ee_units.specs.Limits.{highest_rate};
ghost use Rattle.ee_units.specs.Spelling.{in_range};
ghost use Rattle.ee_value_c.specs.Numbers.{month_in, issue_in, month_number};

use ee_units::{Denom, IssueMonth, Month, Rate};

/// The denomination of this number of dollars.
pub fn denomination(dollars: u32) -> Option<Denom>
    ensures { result ≡ denom_with dollars }
{
    Denom::with_dollars(u64::from(dollars))
}

/// The month of a number YYYYMM.
#[tactic(auto, unfolding(crate::specs::Numbers::month_in, ee_units::specs::Spelling::month_at))]
pub fn month(number: u32) -> Option<Month>
    ensures { result ≡ month_in number }
{
    let year = number / 100;
    let month = number % 100;
    if (1..=12).contains(&month) && (2005..=2199).contains(&year) && 12 * year + month >= 24065 {
        Month::new(u64::from(12 * year + month - 24065))
    } else {
        None
    }
}

/// The issue month of a number YYYYMM.
#[tactic(auto, unfolding(crate::specs::Numbers::issue_in))]
pub fn issue_month(number: u32) -> Option<IssueMonth>
    ensures { result ≡ issue_in number }
{
    IssueMonth::new(u64::from(month(number)?.count()))
}

/// The rate of `hundredths` hundredths of a percent.
pub fn rate(hundredths: u32) -> Option<Rate>
    ensures { result ≡ in_range 0 highest_rate hundredths }
{
    Rate::new(u64::from(hundredths))
}

/// The number YYYYMM of a month, or 0 for `None`.
pub fn month_number(month: Option<Month>) -> u32
    ensures { result ≡ month_number month }
{
    match month {
        Some(month) => number_of(month),
        None => 0,
    }
}

fn number_of(month: Month) -> u32
    ensures { result ≡ month_number (Some month) }
{
    let months = u32::from(month.count()) + 4;
    100 * (2005 + months / 12) + months % 12 + 1
}
