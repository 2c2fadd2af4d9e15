//! Products and powers of fixed-point numbers, rounded down or up.

ghost use Rattle.std.specs.Prelude.{◌≡◌, ◌*◌, ◌^◌, ◌<◌, ◌≤◌};
ghost use Rattle.ee_roots.specs.Products.{down, up, power_down, power_up};

use ee_units::Bits;

/// The product of two fixed-point numbers below 2^63, rounded down.
pub fn mul_down(p: u128, q: u128, bits: Bits) -> u128
    requires first { p < 2 ^ 63 }
    requires second { q < 2 ^ 63 }
    ensures { result ≡ down bits p q }
{
    (p * q) >> bits.places()
}

/// The product of two fixed-point numbers below 2^63, rounded up.
pub fn mul_up(p: u128, q: u128, bits: Bits) -> u128
    requires first { p < 2 ^ 63 }
    requires second { q < 2 ^ 63 }
    ensures { result ≡ up bits p q }
{
    (p * q).div_ceil(1 << bits.places())
}

/// The number 1, which fits the precision.
pub fn one(bits: Bits) -> u128
    ensures value { result ≡ 2 ^ bits }
    ensures precise { 8 ≤ bits }
    ensures fits { bits ≤ 62 }
{
    1 << bits.places()
}

/// Multiplies a number near 1 by itself `times` times, and rounds each product up.
pub fn raise_up(p: u128, times: u8, bits: Bits) -> u128
    requires near_one { 32 * p ≤ 33 * 2 ^ bits }
    requires few { times ≤ 5 }
    requires precise { 8 ≤ bits }
    requires fits { bits ≤ 62 }
    ensures { result ≡ power_up bits p times }
{
    let mut product = p;
    for _i in 0..times {
        product = mul_up(product, p, bits);
    }
    product
}

/// Multiplies a number near 1 by itself `times` times, and rounds each product down.
pub fn raise_down(p: u128, times: u8, bits: Bits) -> u128
    requires near_one { 32 * p ≤ 33 * 2 ^ bits }
    requires few { times ≤ 5 }
    requires precise { 8 ≤ bits }
    requires fits { bits ≤ 62 }
    ensures { result ≡ power_down bits p times }
{
    let mut product = p;
    for _i in 0..times {
        product = mul_down(product, p, bits);
    }
    product
}
