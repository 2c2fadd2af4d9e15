//! Growth within a half-year.

ghost use Rattle.std.specs.Prelude.{◌≡◌, ◌≢◌, ℕ, ◌+◌, ◌-◌, ◌*◌, ◌≤◌, true, false, MatchOption};
ghost use Rattle.ee_roots.specs.Products.{power_down, power_up};
ghost use Rattle.ee_roots.specs.Roots.{IsLow, IsHigh};
ghost use Rattle.ee_value.specs.Rounding.{grown};
ghost use Rattle.ee_value.specs.Open.{is_exact, is_unsettled, bounds_differ, Close};
ghost use Rattle.ee_value.specs.Inner.Open.{IsLeftToBounds, AreNear};
ghost use Rattle.ee_value.specs.Chain.{highest_start};
ghost use Rattle.ee_units.specs.Limits.{highest_rate};

use crate::powers::Powers;
use ee_roots::{Root, power_bounds, root_bounds, settle};
use ee_units::{Bits, Rate};

/// The months of a quarter of a year, the only part of a half-year whose growth can be a fraction.
const QUARTER: u8 = 3;

/// A hundred times the growth of three months, if that is a whole number.
fn exact_root(rate: Rate) -> Option<u64>
    ensures { MatchOption result
        (rate ≢ 0 → is_exact rate ≡ false)
        (λ n. (is_exact rate ≡ true) × (2 * (n * n) ≡ 20000 + rate) × (100 ≤ n) × (n ≤ 104)) }
{
    let r = rate.hundredths();
    if r == 402 {
        Some(101)
    } else if r == 808 {
        Some(102)
    } else if r == 1218 {
        Some(103)
    } else if r == 1632 {
        Some(104)
    } else {
        None
    }
}

/// The unit after `months` months of a half-year, if it is known without bounds: after none, at a rate of
/// zero, and after three months if their growth is a fraction.
fn exact_unit(unit: u64, rate: Rate, months: u8) -> Option<u64>
    requires some { 1 ≤ unit }
    requires small { unit ≤ highest_start }
    requires few { months ≤ 5 }
    ensures value { MatchOption result
        (IsLeftToBounds rate months)
        (λ cents. ((b : ℕ) → is_unsettled unit rate months b ≡ false) × (cents ≡ grown unit rate months)) }
    ensures range { rate ≤ highest_rate }
{
    let hundredths = rate.hundredths();
    if months == 0 || hundredths == 0 {
        return Some(unit);
    }
    if months == QUARTER {
        if let Some(growth) = exact_root(rate) {
            return Some((2 * unit * growth + 100) / 200);
        }
    }
    None
}

/// The unit after `months` months of a half-year; `None` if the bounds don't settle it.
pub fn grown_unit(unit: u64, rate: Rate, months: u8, powers: &Powers) -> Option<u64>
    requires some { 1 ≤ unit }
    requires small { unit ≤ highest_start }
    requires few { months ≤ 5 }
    requires of_low { IsLow powers.now.bits rate powers.now.low }
    requires of_high { IsHigh powers.now.bits rate powers.now.high }
    ensures { MatchOption result
        ((is_unsettled unit rate months powers.now.bits ≡ true) × Close unit rate months powers.now.bits)
        (λ cents. (is_unsettled unit rate months powers.now.bits ≡ false) × (cents ≡ grown unit rate months)) }
{
    if let Some(cents) = exact_unit(unit, rate, months) {
        return Some(cents);
    }
    bounded_unit(unit, rate, months, powers.root(), powers.at(months))
}

/// The unit after `months` months of a half-year; `None` if this precision doesn't settle it. Computes the
/// bounds of a root only if they are needed.
pub fn grown_once(unit: u64, rate: Rate, months: u8, bits: Bits) -> Option<u64>
    requires some { 1 ≤ unit }
    requires small { unit ≤ highest_start }
    requires few { months ≤ 5 }
    ensures { MatchOption result
        ((is_unsettled unit rate months bits ≡ true) × Close unit rate months bits)
        (λ cents. (is_unsettled unit rate months bits ≡ false) × (cents ≡ grown unit rate months)) }
{
    if let Some(cents) = exact_unit(unit, rate, months) {
        return Some(cents);
    }
    let root = root_bounds(rate, bits);
    let bounds = power_bounds(&root, months);
    bounded_unit(unit, rate, months, &root, bounds)
}

/// The unit after these months, if the bounds of their growth settle it.
fn bounded_unit(unit: u64, rate: Rate, months: u8, root: &Root, bounds: (u128, u128)) -> Option<u64>
    requires some { 1 ≤ unit }
    requires small { unit ≤ highest_start }
    requires inside { 1 ≤ months }
    requires few { months ≤ 5 }
    requires at_most_20_percent { rate ≤ highest_rate }
    requires of_low { IsLow root.now.bits rate root.now.low }
    requires of_high { IsHigh root.now.bits rate root.now.high }
    requires low { bounds.0 ≡ power_down root.now.bits root.now.low (months - 1) }
    requires high { bounds.1 ≡ power_up root.now.bits root.now.high (months - 1) }
    requires near { AreNear root.now.bits bounds.0 bounds.1 }
    ensures { MatchOption result
        ((bounds_differ unit rate months root.now.bits ≡ true) × Close unit rate months root.now.bits)
        (λ cents. (bounds_differ unit rate months root.now.bits ≡ false) × (cents ≡ grown unit rate months)) }
{
    let bits = root.bits();
    let unit = u128::from(unit);
    settle(unit * bounds.0, unit * bounds.1, bits)
}
