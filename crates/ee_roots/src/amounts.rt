//! Amounts that two bounds agree on.

ghost use Rattle.std.specs.Prelude.{◌≡◌, ◌+◌, ◌^◌, ◌<◌, SomeIff};
ghost use Rattle.ee_roots.specs.Amounts.{cents};

use crate::products::one;
use ee_units::Bits;

/// Rounds two amounts to the nearest cent; half a cent rounds up. Both are in cents times `2^b`, and below
/// `2^(b + 63)`. Returns the cents if both round to the same, and `None` otherwise.
pub fn settle(low: u128, high: u128, bits: Bits) -> Option<u64>
    requires low_fits { low < 2 ^ (bits + 63) }
    requires high_fits { high < 2 ^ (bits + 63) }
    ensures { SomeIff result (cents bits low ≡ cents bits high) (cents bits low) }
{
    let low = rounded(low, bits);
    let high = rounded(high, bits);
    (low == high).then_some(low)
}

fn rounded(amount: u128, bits: Bits) -> u64
    requires { amount < 2 ^ (bits + 63) }
    ensures { result ≡ cents bits amount }
{
    let one = one(bits);
    ((amount + one / 2) / one) as u64
}
