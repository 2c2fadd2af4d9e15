//! Days.

ghost use Rattle.std.specs.Prelude.{◌≡◌, ◌<◌, ◌≤◌, ◌↔◌, IsSome, IfSome, true, pos};
ghost use Rattle.std.specs.Option.{ok_or};
ghost use Rattle.jiff_core.specs.Calendar.{days_from_civil};
ghost use Rattle.jiff_core.specs.Date.{epoch_day};
ghost use Rattle.ee_units.specs.Calendar.{is_date, day_in_range, year_of, month_of_year, month_of_day, day_of_month};
ghost use Rattle.ee_units.specs.Spelling.{in_range, day_at, day_of};
ghost use Rattle.ee_units.specs.Limits.{earliest_day, latest_day, latest_month};

use crate::faults::UnitFault;
use crate::pieces::{digits, parts_at_hyphen};
use jiff::civil::Date;
use std::fmt;
use std::marker::Model;
use std::str::FromStr;

/// A day from 2005-05-01 to 2199-12-31, as its count of days from 1970-01-01.
#[derive(Clone, Copy, Debug, PartialEq, Eq, PartialOrd, Ord)]
pub struct Day {
    count: u32,
}

impl Model for Day {
    ghost use Rattle.std.specs.Prelude.{ℕ, ◌≤◌};
    ghost use Rattle.ee_units.specs.Limits.{earliest_day, latest_day};

    ghost Value = { ℕ };

    ghost view = { λ d. d.count };

    ghost invariant = { λ d. (earliest_day ≤ d.count) × (d.count ≤ latest_day) };

    ghost inverse = { λ n. record { count = n } };
}

impl Day {
    /// The day `count` days after 1970-01-01; `None` if it is out of range.
    pub const fn new(count: u64) -> Option<Day>
        ensures { result ≡ in_range earliest_day latest_day count }
    {
        if 12_904 <= count && count <= 84_005 {
            Some(Day {
                count: count as u32,
            })
        } else {
            None
        }
    }

    /// The count of days from 1970-01-01.
    pub const fn count(self) -> u32
        ensures value { result ≡ self }
        ensures low { earliest_day ≤ self }
        ensures high { self ≤ latest_day }
    {
        self.count
    }
}

/// `YYYY-MM-DD`.
impl fmt::Display for Day {
    ghost use Rattle.std.specs.Prelude.{Some};
    ghost use Rattle.ee_units.specs.Texts.{day_text};

    ghost output = { λ v. Some (day_text v) };

    fn fmt<W: fmt::Write>(&self, f: &mut fmt::Formatter<W>) -> fmt::Result {
        let (year, month, day) = parts_of(*self);
        write!(f, "{year}-{month:02}-{day:02}")
    }
}

// The year, month and day of the month.
pub fn parts_of(day: Day) -> (u64, u64, u64)
    ensures year { result.0 ≡ year_of (month_of_day day) }
    ensures month { result.1 ≡ month_of_year (month_of_day day) }
    ensures day { result.2 ≡ day_of_month day }
    ensures bound { month_of_day day ≤ latest_month }
    ensures small { result.2 < 100 }
{
    let date = date_of(day);
    (date.year as u64, date.month as u64, date.day as u64)
}

fn date_of(day: Day) -> jiff_core::civil::Date
    ensures number { epoch_day result ≡ pos day }
    ensures low { earliest_day ≤ day }
    ensures high { day ≤ latest_day }
{
    jiff_core::civil::Date::from_unix_epoch_day(day.count as i64).unwrap()
}

/// Reads a day, `YYYY-MM-DD`. Any other text, or a day out of range, is `BadDay`.
pub fn read_day(text: &str) -> Result<Day, UnitFault>
    ensures { result ≡ ok_or (day_of text.now) UnitFault.BadDay }
{
    day_in(text).ok_or(UnitFault::BadDay)
}

impl FromStr for Day {
    ghost use Rattle.std.specs.Prelude.{◌≡◌};
    ghost use Rattle.std.specs.Option.{ok_or};
    ghost use Rattle.ee_units.specs.Spelling.{day_of};
    ghost use Rattle.ee_units.specs.declared.faults.UnitFault.TheVariants.{BadDay};

    type Err = UnitFault;

    ghost from_str_gives = { λ text r. r ≡ ok_or (day_of text) BadDay };

    fn from_str(text: &str) -> Result<Day, UnitFault> {
        read_day(text)
    }
}

#[tactic(auto, unfolding(crate::specs::Spelling::day_of))]
fn day_in(text: &str) -> Option<Day>
    ensures { result ≡ day_of text.now }
{
    let (year, rest) = parts_at_hyphen(text)?;
    let (month, day) = parts_at_hyphen(rest)?;
    day_at(digits(year, 4)?, digits(month, 2)?, digits(day, 2)?)
}

#[tactic(auto, unfolding(crate::specs::Spelling::day_at))]
fn day_at(year: u64, month: u64, day: u64) -> Option<Day>
    requires year { year < 10000 }
    requires month { month < 100 }
    requires day { day < 100 }
    ensures { result ≡ day_at year month day }
{
    day_of_number(day_number(year, month, day)?)
}

// The days from 1970-01-01 to a date, if the calendar has that date.
fn day_number(year: u64, month: u64, day: u64) -> Option<i32>
    requires year { year < 10000 }
    requires month { month < 100 }
    requires day { day < 100 }
    ensures known { IsSome result ↔ (is_date year month day ≡ true) }
    ensures value { IfSome result (λ n. n ≡ days_from_civil (pos year) month day) }
{
    let date = Date::new(year as i16, month as i8, day as i8).ok()?;
    Some(date.to_plain().to_unix_epoch_day())
}

fn day_of_number(number: i32) -> Option<Day>
    ensures { result ≡ day_in_range number }
{
    if (12904..=84005).contains(&number) {
        Some(Day {
            count: number as u32,
        })
    } else {
        None
    }
}
