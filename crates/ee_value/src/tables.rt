//! Tables of unit values by age.

ghost use Rattle.std.specs.Prelude.{◌≡◌, ℕ, ◌+◌, ◌*◌, ◌<◌, ◌≤◌, map, false, MatchResult, None};
ghost use Rattle.std.specs.List.{range_with_len};
ghost use Rattle.ee_roots.specs.Roots.{IsLow, IsHigh};
ghost use Rattle.ee_value.specs.Chain.{rate_in, start, highest_unit};
ghost use Rattle.ee_value.specs.Value.{accrued};
ghost use Rattle.ee_value.specs.Open.{is_open, NeverOpen, first_open};
ghost use Rattle.ee_value.specs.Fault.{IsFaultOf, IsFaultAt};
ghost use Rattle.ee_units.specs.Limits.{unit_price};

use crate::accrual::FINAL_MATURITY;
use crate::faults::ValueFault;
use crate::growth::grown_unit;
use crate::halves::{PRICE, next_start};
use crate::powers::Powers;
use crate::rates::{ORIGINAL_MATURITY, Rates};
use ee_roots::root_bounds;
use ee_units::{Age, Bits};
use std::alloc::Global;
use std::marker::Model;

/// The half-years up to final maturity, at 30 years.
const FINAL_HALF_YEAR: u16 = 60;

/// The accrued unit values at some rates, for ages 0 to 360. Only `unit_table` makes one.
#[derive(Drop)]
pub struct UnitTable {
    rates: Rates,
    units: Vec<u64>,
}

impl Model for UnitTable {
    ghost use Rattle.std.specs.Prelude.{◌≡◌, map};
    ghost use Rattle.std.specs.List.{range_with_len};
    ghost use Rattle.ee_value.specs.Chain.{InRange};
    ghost use Rattle.ee_value.specs.Value.{accrued};
    ghost use Rattle.ee_value.specs.declared.rates.Rates.{Rates};

    ghost Value = { Rates };

    ghost view = { λ t. t.rates };

    ghost invariant = { λ t. (t.units.items ≡ map (accrued t.rates) (range_with_len 0 361)) × InRange t.rates };
}

impl UnitTable {
    /// The accrued value of one unit at an age, in cents. Above an age of 360 months it is the value at 360.
    pub fn at(&self, age: Age) -> u64
        ensures value { result ≡ accrued self.now age }
        ensures at_least_price { unit_price ≤ result }
        ensures small { result ≤ highest_unit }
    {
        self.units[usize::from(age.months().min(FINAL_MATURITY))]
    }
}

/// The bounds of the growth after 20 years. They are computed again only if the rate changes.
fn powers_after(before: Powers, rates: &Rates) -> Powers
    requires of_low { IsLow before.bits (rate_in rates.now 0) before.low }
    requires of_high { IsHigh before.bits (rate_in rates.now 0) before.high }
    ensures bits { result.bits ≡ before.bits }
    ensures low { IsLow before.bits (rate_in rates.now 40) result.low }
    ensures high { IsHigh before.bits (rate_in rates.now 40) result.high }
{
    if rates.extension == rates.fixed {
        before
    } else {
        Powers::of(root_bounds(rates.rate_in(ORIGINAL_MATURITY), before.bits()))
    }
}

/// Appends the values at the six months of a half-year.
fn push_half_year(
    units: &mut Vec<u64>,
    unit: u64,
    half_year: u16,
    rates: &Rates,
    powers: &Powers,
) -> Result<(), ValueFault>
    requires early { half_year < 60 }
    requires begun { unit ≡ start rates.now half_year }
    requires filled { units.old.items ≡ map (accrued rates.now) (range_with_len 0 (6 * half_year)) }
    requires settled { (a : ℕ) → a < 6 * half_year → is_open rates.now a powers.now.bits ≡ false }
    requires of_low { IsLow powers.now.bits (rate_in rates.now half_year) powers.now.low }
    requires of_high { IsHigh powers.now.bits (rate_in rates.now half_year) powers.now.high }
    ensures { MatchResult result
        (λ _. (units.new.items ≡ map (accrued rates.now) (range_with_len 0 (6 * (half_year + 1))))
        × ((a : ℕ) → a < 6 * (half_year + 1) → is_open rates.now a powers.now.bits ≡ false))
        (IsFaultOf rates.now powers.now.bits) }
{
    let rate = rates.rate_in(half_year);
    for months in 0..6 {
        match grown_unit(unit, rate, months, powers) {
            Some(value) => units.push(value)?,
            None => {
                let age = Age::from_months(6 * half_year + u16::from(months));
                return Err(ValueFault::Unsettled { age });
            }
        }
    }
    Ok(())
}

/// Appends the values at the months of some half-years with one rate in force, and returns the unit's
/// value at their end.
fn push_half_years(
    units: &mut Vec<u64>,
    begun: u64,
    from: u16,
    to: u16,
    rates: &Rates,
    powers: &Powers,
) -> Result<u64, ValueFault>
    requires order { from ≤ to }
    requires early { to ≤ 60 }
    requires begun { begun ≡ start rates.now from }
    requires filled { units.old.items ≡ map (accrued rates.now) (range_with_len 0 (6 * from)) }
    requires settled { (a : ℕ) → a < 6 * from → is_open rates.now a powers.now.bits ≡ false }
    requires of_low { (k : ℕ) → from ≤ k → k < to → IsLow powers.now.bits (rate_in rates.now k) powers.now.low }
    requires of_high { (k : ℕ) → from ≤ k → k < to → IsHigh powers.now.bits (rate_in rates.now k) powers.now.high }
    ensures { MatchResult result
        (λ unit. (unit ≡ start rates.now to)
        × (units.new.items ≡ map (accrued rates.now) (range_with_len 0 (6 * to)))
        × ((a : ℕ) → a < 6 * to → is_open rates.now a powers.now.bits ≡ false))
        (IsFaultOf rates.now powers.now.bits) }
{
    let mut unit = begun;
    for half_year in from..to {
        push_half_year(units, unit, half_year, rates, powers)?;
        unit = next_start(unit, half_year, rates);
    }
    Ok(unit)
}

/// The unit values at these rates, for each age from 0 to 360. If the precision doesn't settle all of
/// them, the fault names the least age at which it doesn't. Allocates once, for 361 values.
#[tactic(auto, using(crate::proofs::FirstOpen::fault_at))]
pub fn unit_table(alloc: Global, rates: Rates, bits: Bits) -> Result<UnitTable, ValueFault>
    ensures value { MatchResult result
        (λ table. NeverOpen rates bits × (table ≡ rates))
        (IsFaultOf rates bits) }
    ensures first_open { MatchResult result
        (λ _. first_open rates bits ≡ None)
        (IsFaultAt (first_open rates bits)) }
{
    let fixed = Powers::of(root_bounds(rates.rate_in(0), bits));
    let mut units = Vec::with_capacity(alloc, 361)?;
    let unit = push_half_years(&mut units, PRICE, 0, ORIGINAL_MATURITY, &rates, &fixed)?;
    let extension = powers_after(fixed, &rates);
    let unit = push_half_years(
        &mut units,
        unit,
        ORIGINAL_MATURITY,
        FINAL_HALF_YEAR,
        &rates,
        &extension,
    )?;
    units.push(unit)?;
    Ok(UnitTable { rates, units })
}
