//! The searches for the bounds: the low one between 1 and 33/32, the high one from the low one upwards.

ghost use Rattle.std.specs.Prelude.{◌≡◌, ◌+◌, ◌*◌, ◌^◌, ◌≤◌};
ghost use Rattle.ee_units.specs.Limits.{highest_rate};
ghost use Rattle.ee_roots.specs.Roots.{IsLow, IsHigh};

use crate::products::{raise_down, raise_up};
use ee_units::{Bits, Rate};

/// The target of the searches: the sixth power of the root, times 20000.
fn wanted(one: u128, rate: Rate) -> u128
    requires { one ≤ 2 ^ 62 }
    ensures value { result ≡ one * (20000 + rate) }
    ensures range { rate ≤ highest_rate }
{
    one * (20_000 + u128::from(rate.hundredths()))
}

/// The low bound of the root.
pub fn low_root(one: u128, rate: Rate, bits: Bits) -> u128
    requires one { one ≡ 2 ^ bits }
    requires precise { 8 ≤ bits }
    requires fits { bits ≤ 62 }
    ensures low { IsLow bits rate result }
    ensures near_one { 32 * result ≤ 33 * 2 ^ bits }
{
    let wanted = wanted(one, rate);
    let mut low = one;
    let mut above = one + one / 32;
    while above - low > 1 {
        let middle = low + (above - low) / 2;
        if raise_up(middle, 5, bits) * 20_000 <= wanted {
            low = middle;
        } else {
            above = middle;
        }
    }
    low
}

/// The high bound of the root. It is at most 3 above the low bound.
pub fn high_root(low: u128, one: u128, rate: Rate, bits: Bits) -> u128
    requires one { one ≡ 2 ^ bits }
    requires precise { 8 ≤ bits }
    requires fits { bits ≤ 62 }
    requires low { IsLow bits rate low }
    ensures high { IsHigh bits rate result }
    ensures near_one { 32 * result ≤ 33 * 2 ^ bits }
{
    let wanted = wanted(one, rate);
    let mut high = low;
    while raise_down(high, 5, bits) * 20_000 < wanted {
        high += 1;
    }
    high
}
