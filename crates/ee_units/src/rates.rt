//! Rates.

ghost use Rattle.std.specs.Prelude.{◌≡◌, ◌<◌, ◌≤◌, IfSome};
ghost use Rattle.std.specs.Option.{ok_or};
ghost use Rattle.std.specs.Io.BufRead.{strip_last};
ghost use Rattle.ee_units.specs.Spelling.{in_range, hundredths_of, decimal_of, rate_of};
ghost use Rattle.ee_units.specs.Limits.{highest_rate};

use crate::faults::UnitFault;
use crate::pieces::{number, parts_at_point};
use std::fmt;
use std::marker::Model;
use std::str::FromStr;

/// An annual rate in hundredths of a percent, 0 to 2000.
#[derive(Clone, Copy, Debug, PartialEq, Eq, PartialOrd, Ord)]
pub struct Rate {
    hundredths: u16,
}

impl Model for Rate {
    ghost use Rattle.std.specs.Prelude.{ℕ, ◌≤◌};
    ghost use Rattle.ee_units.specs.Limits.{highest_rate};

    ghost Value = { ℕ };

    ghost view = { λ r. r.hundredths };

    ghost invariant = { λ r. r.hundredths ≤ highest_rate };

    ghost inverse = { λ n. record { hundredths = n } };
}

impl Rate {
    /// A rate of `hundredths` hundredths of a percent; `None` above 2000 (20.00 %).
    pub const fn new(hundredths: u64) -> Option<Rate>
        ensures { result ≡ in_range 0 highest_rate hundredths }
    {
        if hundredths <= 2000 {
            Some(Rate {
                hundredths: hundredths as u16,
            })
        } else {
            None
        }
    }

    /// A rate of `hundredths` hundredths of a percent.
    pub const fn from_hundredths(hundredths: u16) -> Rate
        requires { hundredths ≤ highest_rate }
        ensures { result ≡ hundredths }
    {
        Rate { hundredths }
    }

    /// The rate in hundredths of a percent.
    pub const fn hundredths(self) -> u16
        ensures value { result ≡ self }
        ensures range { self ≤ highest_rate }
    {
        self.hundredths
    }
}

/// The rate in percent with two decimal places and a percent sign, as `3.50%`.
impl fmt::Display for Rate {
    ghost use Rattle.std.specs.Prelude.{Some};
    ghost use Rattle.ee_units.specs.Texts.{rate_text};

    ghost output = { λ v. Some (rate_text v) };

    fn fmt<W: fmt::Write>(&self, f: &mut fmt::Formatter<W>) -> fmt::Result {
        let whole = self.hundredths / 100;
        let part = self.hundredths % 100;
        write!(f, "{whole}.{part:02}%")
    }
}

/// Reads a rate in percent: one or two digits, optionally a point and one or two digits, and
/// optionally a percent sign. Any other text is `BadRate`.
pub fn read_rate(text: &str) -> Result<Rate, UnitFault>
    ensures { result ≡ ok_or (rate_of text.now) UnitFault.BadRate }
{
    rate_in(text).ok_or(UnitFault::BadRate)
}

impl FromStr for Rate {
    ghost use Rattle.std.specs.Prelude.{◌≡◌};
    ghost use Rattle.std.specs.Option.{ok_or};
    ghost use Rattle.ee_units.specs.Spelling.{rate_of};
    ghost use Rattle.ee_units.specs.declared.faults.UnitFault.TheVariants.{BadRate};

    type Err = UnitFault;

    ghost from_str_gives = { λ text r. r ≡ ok_or (rate_of text) BadRate };

    fn from_str(text: &str) -> Result<Rate, UnitFault> {
        read_rate(text)
    }
}

#[tactic(auto, unfolding(crate::specs::Spelling::rate_of))]
fn rate_in(text: &str) -> Option<Rate>
    ensures { result ≡ rate_of text.now }
{
    Rate::new(decimal(without_percent(text))?)
}

fn without_percent(text: &str) -> &str
    ensures { result.now ≡ strip_last 37 text.now }
{
    text.strip_suffix('%').unwrap_or(text)
}

#[tactic(auto, unfolding(crate::specs::Spelling::decimal_of))]
fn decimal(text: &str) -> Option<u64>
    ensures { result ≡ decimal_of text.now }
{
    match parts_at_point(text) {
        Some((whole, part)) => Some(100 * number(whole, 2)? + hundredths(part)?),
        None => Some(100 * number(text, 2)?),
    }
}

#[tactic(auto, unfolding(crate::specs::Spelling::hundredths_of))]
fn hundredths(text: &str) -> Option<u64>
    ensures value { result ≡ hundredths_of text.now }
    ensures bound { IfSome result (λ n. n < 1000) }
{
    let n = number(text, 2)?;
    Some(if text.len() == 1 { 10 * n } else { n })
}
