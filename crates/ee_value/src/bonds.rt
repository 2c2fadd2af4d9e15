//! What a bond pays at an age.

ghost use Rattle.std.specs.Prelude.{◌≡◌, ◌≤◌, true, false, MatchResult, IfOk};
ghost use Rattle.ee_units.specs.Denoms.{units_of};
ghost use Rattle.ee_value.specs.declared.rates.Rates.{Rates};
ghost use Rattle.ee_value.specs.Value.{redemption};
ghost use Rattle.ee_value.specs.Payment.{counted_age, is_payment_open, IsQuoteOf};
ghost use Rattle.ee_units.specs.Limits.{unit_price};
ghost use Rattle.ee_value.specs.Chain.{highest_unit};

use crate::accrual::{FINAL_MATURITY, unit_at};
use crate::faults::Unsettled;
use crate::laws::value_law;
use crate::quotes::Quote;
use crate::rates::Rates;
use crate::tables::UnitTable;
use ee_units::{Age, Bits, Cents, Denom, units};

/// The age from which a bond can be redeemed, in months.
const FIRST_REDEMPTION: u16 = 12;

/// The age from which no penalty is taken, in months.
const FREE_REDEMPTION: u16 = 60;

/// The months of interest that the penalty takes off.
const PENALTY: u16 = 3;

/// What a bond pays at an age: nothing before one year, the accrued value of three months earlier before
/// five years, and its accrued value from then on.
pub fn bond_value(table: &UnitTable, denom: Denom, age: Age) -> Quote
    ensures { IsQuoteOf table.now (units_of denom) age result }
{
    if age.months() < FIRST_REDEMPTION {
        return Quote::NotEligible;
    }
    let unit = table.at(counted_age(age));
    paid(denom, age, unit)
}

/// What a bond pays at an age, as `bond_value` returns it, from the value of one unit alone. `Unsettled` if
/// the precision doesn't settle that value. Takes no memory.
#[tactic(auto, unfolding(crate::specs::Payment::is_payment_open))]
pub fn bond_value_at(rates: Rates, denom: Denom, age: Age, bits: Bits) -> Result<Quote, Unsettled>
    ensures { MatchResult result
        (λ quote. (is_payment_open rates age bits ≡ false) × IsQuoteOf rates (units_of denom) age quote)
        (λ e. (is_payment_open rates age bits ≡ true) × (e.age ≡ counted_age age)) }
{
    if age.months() < FIRST_REDEMPTION {
        return Ok(Quote::NotEligible);
    }
    match redeemed_unit(rates, age, bits) {
        Ok(unit) => Ok(paid(denom, age, unit)),
        Err(unsettled) => Err(unsettled),
    }
}

/// What one unit pays at an age at which it can be redeemed.
#[tactic(auto, unfolding(crate::specs::Value::redemption, crate::specs::Payment::is_payment_open))]
fn redeemed_unit(rates: Rates, age: Age, bits: Bits) -> Result<u64, Unsettled>
    requires { 12 ≤ age }
    ensures value { MatchResult result
        (λ unit. (is_payment_open rates age bits ≡ false) × (unit ≡ redemption rates age))
        (λ e. (is_payment_open rates age bits ≡ true) × (e.age ≡ counted_age age)) }
    ensures range { IfOk result (λ unit. (unit_price ≤ unit) × (unit ≤ highest_unit)) }
{
    value_law();
    unit_at(rates, counted_age(age), bits)
}

/// The age whose accrued value a bond pays, at an age at which it can be redeemed.
fn counted_age(age: Age) -> Age
    requires { 12 ≤ age }
    ensures { result ≡ counted_age age }
{
    let months = age.months();
    Age::from_months(if months < FREE_REDEMPTION {
        months - PENALTY
    } else {
        months
    })
}

/// The quote of a bond if one unit pays `unit` cents.
fn paid(denom: Denom, age: Age, unit: u64) -> Quote
    requires grown { 12 ≤ age }
    requires at_least_price { unit_price ≤ unit }
    requires small { unit ≤ highest_unit }
    ensures { (rates : Rates) → unit ≡ redemption rates age → IsQuoteOf rates (units_of denom) age result }
{
    let months = age.months();
    let cents = Cents(units(denom) * unit);
    Quote::Pays {
        cents,
        penalty: months < FREE_REDEMPTION,
        matured: months >= FINAL_MATURITY,
    }
}
