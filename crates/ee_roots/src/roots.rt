//! Bounds of one month's growth, the sixth root of a half-year's, and of its powers.

ghost use Rattle.std.specs.Prelude.{◌≡◌, ◌+◌, ◌-◌, ◌*◌, ◌^◌, ◌≤◌};
ghost use Rattle.ee_roots.specs.Products.{power_down, power_up};
ghost use Rattle.ee_roots.specs.Roots.{IsLow, IsHigh, Encloses};

use crate::products::{one, raise_down, raise_up};
use crate::search::{high_root, low_root};
use ee_units::{Bits, Rate};
use std::marker::Model;

/// The bounds of one month's growth at a rate, with their precision. Only `root_bounds` makes one.
#[derive(Drop)]
pub struct Root {
    low: u128,
    high: u128,
    bits: Bits,
}

impl Model for Root {
    ghost use Rattle.std.specs.Prelude.{◌+◌, ◌*◌, ◌^◌, ◌≤◌};
    ghost use Rattle.ee_roots.specs.Roots.{Bounds};

    ghost Value = { Bounds };

    ghost view = { λ a. record { low = a.low; high = a.high; bits = a.bits } };

    ghost invariant = { λ a. (2 ^ a.bits ≤ a.low) × (a.low ≤ a.high) × (a.high ≤ a.low + 3)
        × (32 * a.high ≤ 33 * 2 ^ a.bits) × (8 ≤ a.bits) × (a.bits ≤ 62) };
}

impl Root {
    /// The low bound.
    pub fn low(&self) -> u128
        ensures { result ≡ self.now.low }
    {
        self.low
    }

    /// The high bound.
    pub fn high(&self) -> u128
        ensures { result ≡ self.now.high }
    {
        self.high
    }

    /// The precision.
    pub fn bits(&self) -> Bits
        ensures value { result ≡ self.now.bits }
        ensures precise { 8 ≤ self.now.bits }
        ensures fits { self.now.bits ≤ 62 }
    {
        self.bits
    }
}

/// The bounds of the sixth root of `1 + rate / 20000`. The low bound is the greatest number whose sixth
/// power, each product rounded up, doesn't exceed that fraction; the high bound is the least whose sixth
/// power, each product rounded down, reaches it. Both are at least 1.
pub fn root_bounds(rate: Rate, bits: Bits) -> Root
    ensures bits { result.bits ≡ bits }
    ensures low { IsLow bits rate result.low }
    ensures high { IsHigh bits rate result.high }
    ensures encloses { Encloses bits rate result.low result.high }
    ensures narrow { result.high ≤ result.low + 4 }
{
    let one = one(bits);
    let low = low_root(one, rate, bits);
    let high = high_root(low, one, rate, bits);
    Root { low, high, bits }
}

/// The bounds of the growth over 1 to 5 months: powers of the root's bounds, by directed products.
pub fn power_bounds(root: &Root, months: u8) -> (u128, u128)
    requires some { 1 ≤ months }
    requires few { months ≤ 5 }
    ensures low { result.0 ≡ power_down root.now.bits root.now.low (months - 1) }
    ensures high { result.1 ≡ power_up root.now.bits root.now.high (months - 1) }
    ensures order { result.0 ≤ result.1 }
    ensures narrow { result.1 ≤ result.0 + 32 }
    ensures near_one { 32 * result.1 ≤ 43 * 2 ^ root.now.bits }
{
    let low = raise_down(root.low, months - 1, root.bits);
    let high = raise_up(root.high, months - 1, root.bits);
    (low, high)
}
