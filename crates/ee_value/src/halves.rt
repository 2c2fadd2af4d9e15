//! Whole half-years: the unit's value at the start of each.

ghost use Rattle.std.specs.Prelude.{◌≡◌, ◌+◌, ◌^◌, ◌<◌, ◌≤◌};
ghost use Rattle.ee_value.specs.Rounding.{grown};
ghost use Rattle.ee_value.specs.Chain.{start};

use crate::rates::{ORIGINAL_MATURITY, Rates};
use ee_units::Rate;

/// The issue price of one unit, in cents.
pub const PRICE: u64 = 1250;

/// The value of one unit a half-year later, to the nearest cent.
fn next_unit(unit: u64, rate: Rate) -> u64
    requires some { 1 ≤ unit }
    requires small { unit < 2 ^ 32 }
    ensures { result ≡ grown unit rate 6 }
{
    let doubled = 2 * unit * (20_000 + u64::from(rate.hundredths()));
    (doubled + 20_000) / 40_000
}

/// The unit's value at the start of the next half-year; at 20 years it is at least twice the price.
pub fn next_start(unit: u64, half_year: u16, rates: &Rates) -> u64
    requires early { half_year < 60 }
    requires begun { unit ≡ start rates.now half_year }
    ensures { result ≡ start rates.now (half_year + 1) }
{
    let grown = next_unit(unit, rates.rate_in(half_year));
    if half_year + 1 == ORIGINAL_MATURITY {
        grown.max(2 * PRICE)
    } else {
        grown
    }
}

/// The unit's value at the start of a half-year.
pub fn start_unit(rates: &Rates, half_year: u16) -> u64
    requires { half_year ≤ 60 }
    ensures { result ≡ start rates.now half_year }
{
    let mut unit = PRICE;
    for k in 0..half_year {
        unit = next_start(unit, k, rates);
    }
    unit
}
