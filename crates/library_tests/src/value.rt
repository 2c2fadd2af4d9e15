//! Worked values. Each was found from the rules of value, and not by this crate.

use crate::comparing::{Cases, assert_same, compare, shown};
use ee_units::{Age, Bits, Rate};
use ee_value::*;
use std::alloc::Global;
use std::test::Fail;

fn rate(hundredths: u16) -> Rate {
    Rate::from_hundredths(hundredths.min(2000))
}

/// Rates in hundredths: the fixed rate and, after a slash, the extension if there is one.
fn rates(text: &str) -> Option<Rates> {
    let Some((fixed, extension)) = text.split_once('/') else {
        return Some(Rates::new(rate(text.parse().ok()?), None));
    };
    Some(Rates::new(
        rate(fixed.parse().ok()?),
        Some(rate(extension.parse().ok()?)),
    ))
}

fn age(months: u16) -> Age {
    Age::from_months(months.min(2335))
}

fn bits(places: u8) -> Bits {
    Bits::from_places(places.max(8).min(62))
}

/// The unit at the start of a half-year and of the four after it.
fn starts(table: &UnitTable, half_year: u8) -> [u64; 5] {
    let months = 6 * u16::from(half_year);
    [months, months + 6, months + 12, months + 18, months + 24].map(|months| table.at(age(months)))
}

/// Rates in hundredths, and the unit after 3 months, which is exact: so it is found at each precision.
const QUARTERS: &str = "\
402 => 1263 at 55 precisions
808 => 1275 at 55 precisions
1218 => 1288 at 55 precisions
1632 => 1300 at 55 precisions
";

/// The unit, and at how many precisions it is found.
fn quarter_text(alloc: Global, rates: &Rates) -> Option<String> {
    let unit = unit_at(*rates, age(3), bits(8)).ok()?;
    let mut count: u64 = 0;
    for places in 8..=62 {
        if unit_at(*rates, age(3), bits(places)) == Ok(unit) {
            count = count.saturating_add(1);
        }
    }
    format!(in alloc; "{unit} at {count} precisions").ok()
}

struct QuarterCases;

impl Cases for QuarterCases {
    fn answer(alloc: Global, case: &str) -> Option<String> {
        quarter_text(alloc, &rates(case)?)
    }
}

#[test]
fn exact_quarters(rt: HostRuntime) -> Result<(), Fail> {
    compare::<QuarterCases>(&rt, rt.alloc(), QUARTERS)
}

/// Rates in hundredths, ages in months, binary places, and the unit.
const MONTHS: &str = "\
350 9 62 => Ok(1283)
350 1 62 => Ok(1254)
350 1 8 => Err(Unsettled { age: Age { months: 1 } })
2000 1 8 => Err(Unsettled { age: Age { months: 1 } })
2000 9 62 => Ok(1442)
2000 6 8 => Ok(1375)
0/350 240 8 => Ok(2500)
0/350 241 8 => Err(Unsettled { age: Age { months: 241 } })
0/402 241 8 => Err(Unsettled { age: Age { months: 241 } })
0/402 243 8 => Ok(2525)
";

struct MonthCases;

impl Cases for MonthCases {
    fn answer(alloc: Global, case: &str) -> Option<String> {
        let (rate, case) = case.split_once(' ')?;
        let (months, places) = case.split_once(' ')?;
        let (rates, age) = (rates(rate)?, age(months.parse().ok()?));
        shown(alloc, &unit_at(rates, age, bits(places.parse().ok()?)))
    }
}

#[test]
fn months(rt: HostRuntime) -> Result<(), Fail> {
    compare::<MonthCases>(&rt, rt.alloc(), MONTHS)
}

#[test]
fn texts_of_faults(rt: HostRuntime) -> Result<(), Fail> {
    let fault = Unsettled { age: age(1) };
    let text = fault.to_string(rt.alloc())?;
    assert_same(&rt, text.as_str(), "unsettled at age 1", "fault");
    let refused = unit_table(rt.alloc(), rates("350").ok_or("rates")?, bits(8)).err();
    assert!(rt; refused == Some(ValueFault::from(fault)));
    let text = ValueFault::from(fault).to_string(rt.alloc())?;
    assert_same(&rt, text.as_str(), "unsettled at age 1", "fault");
    Ok(())
}

/// Rates in hundredths, half-years, and the unit at the start of these and of the four after each.
const CHAINS: &str = "\
350 0 => [1250, 1272, 1294, 1317, 1340]
350 5 => [1363, 1387, 1411, 1436, 1461]
350 6 => [1387, 1411, 1436, 1461, 1487]
350 36 => [2332, 2373, 2415, 2457, 2500]
340 36 => [2292, 2331, 2371, 2411, 2500]
360 0 => [1250, 1273, 1296, 1319, 1343]
360 36 => [2376, 2419, 2463, 2507, 2552]
2000 0 => [1250, 1375, 1513, 1664, 1830]
2000 4 => [1830, 2013, 2214, 2435, 2679]
2000 56 => [259966, 285963, 314559, 346015, 380617]
340/400 38 => [2371, 2411, 2500, 2550, 2601]
340/400 41 => [2550, 2601, 2653, 2706, 2760]
350/0 38 => [2415, 2457, 2500, 2500, 2500]
360/2000 38 => [2463, 2507, 2552, 2807, 3088]
360/2000 39 => [2507, 2552, 2807, 3088, 3397]
0/2000 38 => [1250, 1250, 2500, 2750, 3025]
0/2000 39 => [1250, 2500, 2750, 3025, 3328]
2000/0 38 => [46757, 51433, 56576, 56576, 56576]
";

struct ChainCases;

impl Cases for ChainCases {
    fn answer(alloc: Global, case: &str) -> Option<String> {
        let (rate, first) = case.split_once(' ')?;
        let (rates, first) = (rates(rate)?, first.parse().ok()?);
        let table = unit_table(alloc, rates, bits(62)).ok()?;
        shown(alloc, &starts(&table, first))
    }
}

#[test]
fn chains(rt: HostRuntime) -> Result<(), Fail> {
    compare::<ChainCases>(&rt, rt.alloc(), CHAINS)
}

/// Rates in hundredths, ages in months, and the unit in the table and alone.
const AGES: &str = "\
350 56 => 1469 Ok(1469)
350 60 => 1487 Ok(1487)
2000 359 => 374618 Ok(374618)
2000 360 => 380617 Ok(380617)
2000 361 => 380617 Ok(380617)
2000 2335 => 380617 Ok(380617)
0 0 => 1250 Ok(1250)
0 239 => 1250 Ok(1250)
0 240 => 2500 Ok(2500)
0 2335 => 2500 Ok(2500)
340/400 239 => 2445 Ok(2445)
340/400 240 => 2500 Ok(2500)
340/400 241 => 2508 Ok(2508)
350/402 243 => 2525 Ok(2525)
340/0 2335 => 2500 Ok(2500)
";

struct AgeCases;

impl Cases for AgeCases {
    fn answer(alloc: Global, case: &str) -> Option<String> {
        let (rate, months) = case.split_once(' ')?;
        let (rates, age) = (rates(rate)?, age(months.parse().ok()?));
        let unit = unit_table(alloc, rates, bits(62)).ok()?.at(age);
        let alone = unit_at(rates, age, bits(62));
        format!(in alloc; "{unit} {alone:?}").ok()
    }
}

#[test]
fn ages(rt: HostRuntime) -> Result<(), Fail> {
    compare::<AgeCases>(&rt, rt.alloc(), AGES)
}

/// Rates in hundredths, denominations, ages in months, and what is paid, as `Debug` shows it.
const QUOTES: &str = "\
350 50 11 => NotEligible
350 50 12 => Pays { cents: Cents(2566), penalty: true, matured: false }
350 50 15 => Pays { cents: Cents(2588), penalty: true, matured: false }
350 50 59 => Pays { cents: Cents(2938), penalty: true, matured: false }
350 50 60 => Pays { cents: Cents(2974), penalty: false, matured: false }
350 50 240 => Pays { cents: Cents(5000), penalty: false, matured: false }
350 10000 12 => Pays { cents: Cents(513200), penalty: true, matured: false }
200 50 15 => Pays { cents: Cents(2552), penalty: true, matured: false }
200 75 15 => Pays { cents: Cents(3828), penalty: true, matured: false }
200 75 16 => Pays { cents: Cents(3834), penalty: true, matured: false }
340 50 239 => Pays { cents: Cents(4890), penalty: false, matured: false }
340 50 240 => Pays { cents: Cents(5000), penalty: false, matured: false }
340 50 241 => Pays { cents: Cents(5014), penalty: false, matured: false }
360 50 240 => Pays { cents: Cents(5104), penalty: false, matured: false }
2000 50 12 => Pays { cents: Cents(2884), penalty: true, matured: false }
2000 10000 359 => Pays { cents: Cents(149847200), penalty: false, matured: false }
2000 10000 360 => Pays { cents: Cents(152246800), penalty: false, matured: true }
2000 10000 361 => Pays { cents: Cents(152246800), penalty: false, matured: true }
2000 10000 2335 => Pays { cents: Cents(152246800), penalty: false, matured: true }
0 10000 12 => Pays { cents: Cents(500000), penalty: true, matured: false }
0 10000 239 => Pays { cents: Cents(500000), penalty: false, matured: false }
0 10000 240 => Pays { cents: Cents(1000000), penalty: false, matured: false }
0 10000 360 => Pays { cents: Cents(1000000), penalty: false, matured: true }
340/400 50 239 => Pays { cents: Cents(4890), penalty: false, matured: false }
340/400 50 240 => Pays { cents: Cents(5000), penalty: false, matured: false }
340/400 50 241 => Pays { cents: Cents(5016), penalty: false, matured: false }
340/400 50 242 => Pays { cents: Cents(5034), penalty: false, matured: false }
340/400 50 243 => Pays { cents: Cents(5050), penalty: false, matured: false }
340/400 50 245 => Pays { cents: Cents(5084), penalty: false, matured: false }
340/400 50 246 => Pays { cents: Cents(5100), penalty: false, matured: false }
340/400 50 247 => Pays { cents: Cents(5116), penalty: false, matured: false }
340/400 50 359 => Pays { cents: Cents(7404), penalty: false, matured: false }
340/400 50 360 => Pays { cents: Cents(7428), penalty: false, matured: true }
340/404 50 246 => Pays { cents: Cents(5102), penalty: false, matured: false }
360/0 50 359 => Pays { cents: Cents(5104), penalty: false, matured: false }
360/200 50 246 => Pays { cents: Cents(5156), penalty: false, matured: false }
0/2000 10000 239 => Pays { cents: Cents(500000), penalty: false, matured: false }
0/2000 10000 240 => Pays { cents: Cents(1000000), penalty: false, matured: false }
0/2000 10000 246 => Pays { cents: Cents(1100000), penalty: false, matured: false }
0/2000 10000 360 => Pays { cents: Cents(6730400), penalty: false, matured: true }
2000/0 10000 2335 => Pays { cents: Cents(22630400), penalty: false, matured: true }
350/999 50 60 => Pays { cents: Cents(2974), penalty: false, matured: false }
";

struct QuoteCases;

impl Cases for QuoteCases {
    fn answer(alloc: Global, case: &str) -> Option<String> {
        let (rate, case) = case.split_once(' ')?;
        let (denom, months) = case.split_once(' ')?;
        let (rates, denom, age) = (rates(rate)?, denom.parse().ok()?, age(months.parse().ok()?));
        let table = unit_table(alloc, rates, bits(62)).ok()?;
        shown(alloc, &bond_value(&table, denom, age))
    }
}

#[test]
fn quotes(rt: HostRuntime) -> Result<(), Fail> {
    compare::<QuoteCases>(&rt, rt.alloc(), QUOTES)
}

/// Rates in hundredths, and at 8 places the fault of their table, which names the least open age.
const LEAST_OPEN: &str = "\
0/0 => None
0/350 => Some(Unsettled { age: Age { months: 241 } })
0/402 => Some(Unsettled { age: Age { months: 241 } })
350 => Some(Unsettled { age: Age { months: 1 } })
";

struct LeastOpenCases;

impl Cases for LeastOpenCases {
    fn answer(alloc: Global, case: &str) -> Option<String> {
        let fault = unit_table(alloc, rates(case)?, bits(8)).err();
        shown(alloc, &fault)
    }
}

#[test]
fn least_open_ages(rt: HostRuntime) -> Result<(), Fail> {
    compare::<LeastOpenCases>(&rt, rt.alloc(), LEAST_OPEN)
}

/// A table is made of the rates at 62 places, and the unit has doubled at 30 years at least.
fn is_settled(alloc: Global, rates: Rates) -> bool {
    let table = unit_table(alloc, rates, bits(62)).ok();
    table.is_some_and(|table| table.at(age(360)) >= 2500)
}

/// At 62 binary places no rate is open at any age.
#[test]
fn sweep(rt: HostRuntime) -> Result<(), Fail> {
    for hundredths in 0..=2000 {
        let rates = Rates::new(rate(hundredths), None);
        assert!(rt; is_settled(rt.alloc(), rates), "{hundredths}");
    }
    Ok(())
}

/// Nor is a pair of one of four fixed rates with any extension.
#[test]
fn sweep_of_extensions(rt: HostRuntime) -> Result<(), Fail> {
    for fixed in [0, 350, 360, 2000] {
        for extension in 0..=2000 {
            let rates = Rates::new(rate(fixed), Some(rate(extension)));
            assert!(rt; is_settled(rt.alloc(), rates), "{fixed}/{extension}");
        }
    }
    Ok(())
}
