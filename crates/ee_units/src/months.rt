//! Months, and issue months.

ghost use Rattle.std.specs.Prelude.{◌≡◌, ◌≤◌};
ghost use Rattle.std.specs.Option.{ok_or};
ghost use Rattle.ee_units.specs.Spelling.{in_range, month_at, month_of, issue_of};
ghost use Rattle.ee_units.specs.Limits.{latest_issue_month, latest_month};

use crate::faults::UnitFault;
use crate::pieces::{digits, parts_at_hyphen, parts_at_slash};
use std::fmt;
use std::marker::Model;
use std::str::FromStr;

/// A month from 2005-05 to 2199-12, as its count of months from 2005-05.
#[derive(Clone, Copy, Debug, PartialEq, Eq, PartialOrd, Ord)]
pub struct Month {
    count: u16,
}

impl Model for Month {
    ghost use Rattle.std.specs.Prelude.{ℕ, ◌≤◌};
    ghost use Rattle.ee_units.specs.Limits.{latest_month};

    ghost Value = { ℕ };

    ghost view = { λ m. m.count };

    ghost invariant = { λ m. m.count ≤ latest_month };

    ghost inverse = { λ n. record { count = n } };
}

impl Month {
    /// The month `count` months after 2005-05; `None` after 2199-12.
    pub const fn new(count: u64) -> Option<Month>
        ensures { result ≡ in_range 0 latest_month count }
    {
        if count <= 2335 {
            Some(Month {
                count: count as u16,
            })
        } else {
            None
        }
    }

    /// The month `count` months after 2005-05.
    pub const fn from_count(count: u16) -> Month
        requires { count ≤ latest_month }
        ensures { result ≡ count }
    {
        Month { count }
    }

    /// The count of months from 2005-05.
    pub const fn count(self) -> u16
        ensures value { result ≡ self }
        ensures range { self ≤ latest_month }
    {
        self.count
    }
}

/// `YYYY-MM`.
impl fmt::Display for Month {
    ghost use Rattle.std.specs.Prelude.{Some};
    ghost use Rattle.ee_units.specs.Texts.{month_text};

    ghost output = { λ v. Some (month_text v) };

    fn fmt<W: fmt::Write>(&self, f: &mut fmt::Formatter<W>) -> fmt::Result {
        let year = 2005 + (self.count + 4) / 12;
        let month = (self.count + 4) % 12 + 1;
        write!(f, "{year}-{month:02}")
    }
}

/// Reads a month, `YYYY-MM` or `MM/YYYY`. Any other text, or a month out of range, is `BadMonth`.
pub fn read_month(text: &str) -> Result<Month, UnitFault>
    ensures { result ≡ ok_or (month_of text.now) UnitFault.BadMonth }
{
    month_in(text).ok_or(UnitFault::BadMonth)
}

impl FromStr for Month {
    ghost use Rattle.std.specs.Prelude.{◌≡◌};
    ghost use Rattle.std.specs.Option.{ok_or};
    ghost use Rattle.ee_units.specs.Spelling.{month_of};
    ghost use Rattle.ee_units.specs.declared.faults.UnitFault.TheVariants.{BadMonth};

    type Err = UnitFault;

    ghost from_str_gives = { λ text r. r ≡ ok_or (month_of text) BadMonth };

    fn from_str(text: &str) -> Result<Month, UnitFault> {
        read_month(text)
    }
}

#[tactic(auto, unfolding(crate::specs::Spelling::month_of))]
fn month_in(text: &str) -> Option<Month>
    ensures { result ≡ month_of text.now }
{
    if let Some((year, month)) = parts_at_hyphen(text) {
        return month_at(digits(year, 4)?, digits(month, 2)?);
    }
    let (month, year) = parts_at_slash(text)?;
    month_at(digits(year, 4)?, digits(month, 2)?)
}

#[tactic(auto, unfolding(crate::specs::Spelling::month_at))]
fn month_at(year: u64, month: u64) -> Option<Month>
    ensures { result ≡ month_at year month }
{
    if (1..=12).contains(&month) && (2005..=2199).contains(&year) && 12 * year + month >= 24065 {
        Some(Month {
            count: (12 * year + month - 24065) as u16,
        })
    } else {
        None
    }
}

/// An issue month from 2005-05 to 2099-12, as its count of months from 2005-05. A bond is issued as of
/// the first day of its issue month.
#[derive(Clone, Copy, Debug, PartialEq, Eq, PartialOrd, Ord)]
pub struct IssueMonth {
    count: u16,
}

impl Model for IssueMonth {
    ghost use Rattle.std.specs.Prelude.{ℕ, ◌≤◌};
    ghost use Rattle.ee_units.specs.Limits.{latest_issue_month};

    ghost Value = { ℕ };

    ghost view = { λ m. m.count };

    ghost invariant = { λ m. m.count ≤ latest_issue_month };

    ghost inverse = { λ n. record { count = n } };
}

impl IssueMonth {
    /// The issue month `count` months after 2005-05; `None` after 2099-12.
    pub const fn new(count: u64) -> Option<IssueMonth>
        ensures { result ≡ in_range 0 latest_issue_month count }
    {
        if count <= 1135 {
            Some(IssueMonth {
                count: count as u16,
            })
        } else {
            None
        }
    }

    /// The issue month `count` months after 2005-05.
    pub const fn from_count(count: u16) -> IssueMonth
        requires { count ≤ latest_issue_month }
        ensures { result ≡ count }
    {
        IssueMonth { count }
    }

    /// The count of months from 2005-05.
    pub const fn count(self) -> u16
        ensures value { result ≡ self }
        ensures range { self ≤ latest_issue_month }
    {
        self.count
    }

    /// The same month, as a `Month`.
    pub const fn month(self) -> Month
        ensures { result ≡ self }
    {
        Month { count: self.count }
    }
}

/// `YYYY-MM`.
impl fmt::Display for IssueMonth {
    ghost use Rattle.std.specs.Prelude.{Some};
    ghost use Rattle.ee_units.specs.Texts.{month_text};

    ghost output = { λ v. Some (month_text v) };

    fn fmt<W: fmt::Write>(&self, f: &mut fmt::Formatter<W>) -> fmt::Result {
        let month = self.month();
        write!(f, "{month}")
    }
}

/// Reads an issue month, `YYYY-MM` or `MM/YYYY`. Any other text, or a month out of range, is `BadMonth`.
pub fn read_issue(text: &str) -> Result<IssueMonth, UnitFault>
    ensures { result ≡ ok_or (issue_of text.now) UnitFault.BadMonth }
{
    issue_in(text).ok_or(UnitFault::BadMonth)
}

impl FromStr for IssueMonth {
    ghost use Rattle.std.specs.Prelude.{◌≡◌};
    ghost use Rattle.std.specs.Option.{ok_or};
    ghost use Rattle.ee_units.specs.Spelling.{issue_of};
    ghost use Rattle.ee_units.specs.declared.faults.UnitFault.TheVariants.{BadMonth};

    type Err = UnitFault;

    ghost from_str_gives = { λ text r. r ≡ ok_or (issue_of text) BadMonth };

    fn from_str(text: &str) -> Result<IssueMonth, UnitFault> {
        read_issue(text)
    }
}

#[tactic(auto, unfolding(crate::specs::Spelling::issue_of))]
fn issue_in(text: &str) -> Option<IssueMonth>
    ensures { result ≡ issue_of text.now }
{
    IssueMonth::new(u64::from(month_in(text)?.count))
}
