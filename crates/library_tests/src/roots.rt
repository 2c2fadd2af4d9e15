//! Bounds at 8 binary places, where each can be found by hand.

use crate::comparing::{Cases, compare};
use ee_roots::*;
use ee_units::{Bits, Rate};
use std::alloc::Global;
use std::test::Fail;

/// Rates in hundredths, and the bounds of a month's growth, which are those of the root.
const ROOTS: &str = "\
0 => 256 to 256 at 8 places, a month (256, 256)
350 => 256 to 257 at 8 places, a month (256, 257)
2000 => 259 to 261 at 8 places, a month (259, 261)
";

struct RootCases;

impl Cases for RootCases {
    fn answer(alloc: Global, case: &str) -> Option<String> {
        let rate = Rate::new(case.parse().ok()?)?;
        let root = root_bounds(rate, Bits::from_places(8));
        let (low, high, places) = (root.low(), root.high(), root.bits().places());
        let month = power_bounds(&root, 1);
        format!(in alloc; "{low} to {high} at {places} places, a month {month:?}").ok()
    }
}

#[test]
fn roots(rt: HostRuntime) -> Result<(), Fail> {
    compare::<RootCases>(&rt, rt.alloc(), ROOTS)
}

#[test]
fn two_months(rt: HostRuntime) {
    let bits = Bits::from_places(8);
    let root = root_bounds(Rate::from_hundredths(2000), bits);
    assert_eq!(rt; power_bounds(&root, 2), (262, 267));
    assert_eq!(rt; mul_down(259, 259, bits), 262);
    assert_eq!(rt; mul_up(261, 261, bits), 267);
}

/// Bounds of an amount of cents, in parts of which a cent has 256, and the cents on which they agree: of 1,250 times
/// 256 and 257, both 256, both 257, both 259 and both 261; and just below and from the half of a cent on.
const CENTS: &str = "\
320000 321250 => None
320000 320000 => Some(1250)
321250 321250 => Some(1255)
323750 323750 => Some(1265)
326250 326250 => Some(1274)
639 640 => None
640 895 => Some(3)
";

struct SettledCases;

impl Cases for SettledCases {
    fn answer(alloc: Global, case: &str) -> Option<String> {
        let (low, high) = case.split_once(' ')?;
        let (low, high): (u64, u64) = (low.parse().ok()?, high.parse().ok()?);
        let cents = settle(u128::from(low), u128::from(high), Bits::from_places(8));
        format!(in alloc; "{cents:?}").ok()
    }
}

#[test]
fn cents(rt: HostRuntime) -> Result<(), Fail> {
    compare::<SettledCases>(&rt, rt.alloc(), CENTS)
}
