//! The calendar: ages, rate periods, and the months of days.

ghost use Rattle.std.specs.Prelude.{◌≡◌};
ghost use Rattle.ee_units.specs.Calendar.{IsPeriod, age_of, is_announcement, month_of_day, period_start};

use crate::ages::Age;
use crate::days::{Day, parts_of};
use crate::months::{IssueMonth, Month};

/// The age, in `month`, of a bond issued in `issued`; `None` before its issue month.
pub fn age(issued: IssueMonth, month: Month) -> Option<Age>
    ensures { result ≡ age_of issued month }
{
    let months = month.count().checked_sub(issued.count())?;
    Some(Age::from_months(months))
}

/// The rate period of an issue month: the latest May or November that is not after it. All bonds of
/// one period earn the same rate.
pub fn period_of(issued: IssueMonth) -> IssueMonth
    ensures value { result ≡ period_start issued }
    ensures period { IsPeriod issued result }
{
    let count = issued.count();
    IssueMonth::from_count(count - count % 6)
}

/// Whether Treasury announces rates in this month: each May and November (31 CFR Part 351).
pub fn is_announcement(month: IssueMonth) -> bool
    ensures { result ≡ is_announcement month }
{
    let month = (month.count() + 4) % 12 + 1;
    month == 5 || month == 11
}

/// The month of a day.
pub fn month_of(day: Day) -> Month
    ensures { result ≡ month_of_day day }
{
    let (year, month, _) = parts_of(day);
    Month::from_count((12 * year + month - 24065) as u16)
}
