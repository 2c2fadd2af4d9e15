//! The value of one unit at an age.

ghost use Rattle.std.specs.Prelude.{◌≡◌, ◌/◌, ◌%◌, true, false, min, MatchResult, IfOk, IfErr};
ghost use Rattle.ee_value.specs.Rounding.{Rounds};
ghost use Rattle.ee_value.specs.Chain.{rate_in, start};
ghost use Rattle.ee_value.specs.Value.{accrued};
ghost use Rattle.ee_value.specs.Open.{is_open, Close};

use crate::faults::Unsettled;
use crate::growth::grown_once;
use crate::halves::start_unit;
use crate::rates::Rates;
use ee_units::{Age, Bits};

/// The age at which interest stops, in months.
pub const FINAL_MATURITY: u16 = 360;

/// The accrued value of one unit at an age, in cents, without penalty. Above an age of 360 months it is the
/// value at 360. `Unsettled` if the precision doesn't settle it: the true value is then close to a half cent.
/// Takes no memory.
pub fn unit_at(rates: Rates, age: Age, bits: Bits) -> Result<u64, Unsettled>
    ensures value { MatchResult result
        (λ cents. (is_open rates age bits ≡ false) × (cents ≡ accrued rates age))
        (λ e. (is_open rates age bits ≡ true) × (e.age ≡ age)) }
    ensures rounds { IfOk result (λ cents.
        Rounds (start rates (min age 360 / 6)) (rate_in rates (min age 360 / 6)) (min age 360 % 6) cents) }
    ensures close { IfErr result
        (λ _. Close (start rates (age / 6)) (rate_in rates (age / 6)) (age % 6) bits) }
{
    let months = age.months();
    let counted = months.min(FINAL_MATURITY);
    let half_year = counted / 6;
    let start = start_unit(&rates, half_year);
    let rate = rates.rate_in(half_year);
    grown_once(start, rate, (counted % 6) as u8, bits).ok_or(Unsettled { age })
}
