//! Tests of the calculator.

ghost use Rattle.std.specs.Prelude.{◌≡◌, IfSome};

use crate::comparing::{
    Cases, Written, add, add_times, assert_same, compare, compare_fronts, ended,
};
use crate::device::{Device, Trouble};
use ee_calculator::{Bond, Row, Sheet, plain_row, row, sheet, write_sheet};
use ee_files::read_inventory;
use ee_units::Bits;
use ee_value::{Rates, UnitTable, unit_table};
use std::alloc::Global;
use std::process::Abort;
use std::test::Fail;

fn table_of(alloc: Global, rates: Rates) -> Option<UnitTable>
    ensures { IfSome result (λ table. table ≡ rates) }
{
    unit_table(alloc, rates, Bits::from_places(62)).ok()
}

/// A rate and, after a slash, the extension if there is one.
fn rates_of(text: &str) -> Option<Rates> {
    let Some((fixed, extension)) = text.split_once('/') else {
        return Some(Rates::new(text.parse().ok()?, None));
    };
    Some(Rates::new(fixed.parse().ok()?, Some(extension.parse().ok()?)))
}

/// Denominations, issue months, rates and months, and the value and note: some values, the last month before
/// issue and the borders of each note, the adjustment at 20 years, and the highest and the lowest rate to final
/// maturity and after it.
const ROWS: &str = "\
50 2010-05 3.50 2011-08 => 25.88 [P5]
50 2010-05 2.00 2011-08 => 25.52 [P5]
75 2010-05 2.00 2011-08 => 38.28 [P5]
50 2010-05 3.50 2010-04 => 0.00 [NI]
50 2010-05 3.50 2010-05 => 25.00 [NE]
50 2010-05 3.50 2011-04 => 25.00 [NE]
50 2010-05 3.50 2011-05 => 25.66 [P5]
50 2010-05 20.00 2011-05 => 28.84 [P5]
50 2010-05 3.50 2015-04 => 29.38 [P5]
50 2010-05 3.50 2015-05 => 29.74 []
50 2010-05 3.40 2030-04 => 48.90 []
50 2010-05 3.40 2030-05 => 50.00 []
50 2010-05 3.40 2030-06 => 50.14 []
50 2010-05 3.50 2030-05 => 50.00 []
50 2010-05 3.60 2030-05 => 51.04 []
10000 2005-05 20.00 2035-04 => 1498472.00 []
10000 2005-05 20.00 2035-05 => 1522468.00 [MA]
10000 2005-05 20.00 2035-06 => 1522468.00 [MA]
10000 2005-05 20.00 2199-12 => 1522468.00 [MA]
10000 2005-05 0.00 2010-05 => 5000.00 []
10000 2005-05 0.00 2025-04 => 5000.00 []
10000 2005-05 0.00 2025-05 => 10000.00 []
";

/// The row of no bond of the register that a line `DENOM ISSUED RATE MONTH` asks for.
pub fn row_of(alloc: Global, line: &str) -> Option<Row> {
    let mut words = line.split(' ');
    let (denom, issued) = (words.next()?.parse().ok()?, words.next()?.parse().ok()?);
    let (rates, month) = (rates_of(words.next()?)?, words.next()?.parse().ok()?);
    let table = table_of(alloc, rates)?;
    Some(plain_row(denom, issued, rates, &table, month))
}

struct RowCases;

impl Cases for RowCases {
    fn answer(alloc: Global, case: &str) -> Option<String> {
        let row = row_of(alloc, case)?;
        format!(in alloc; "{} [{}]", row.value, row.note).ok()
    }
}

#[test]
fn rows_show_value_and_note(rt: HostRuntime) -> Result<(), Fail> {
    compare::<RowCases>(&rt, rt.alloc(), ROWS)
}

/// The sheet of lines, or what is missing.
pub fn sheet_of(alloc: Global, lines: &str) -> Result<Sheet, &'static str> {
    let mut rows = Vec::new(alloc);
    for line in lines.lines() {
        let row = row_of(alloc, line).ok_or("no row")?;
        add(&mut rows, row).ok_or("no memory")?;
    }
    Ok(sheet(rows))
}

const INVENTORY: &str =
    "serial,denom,issued,owner,coowner\nK2EE,75,2010-10,7,8\nL1EE,50,2010-11,7,\nM3EE,10000,2011-02,7,\n";

fn dated(alloc: Global, bond: &Bond, rate: &str) -> Option<Row> {
    let rates = rates_of(rate)?;
    let table = table_of(alloc, rates)?;
    Some(row(bond, rates, &table, "2012-02".parse().ok()?))
}

fn three_bonds(alloc: Global) -> Result<Sheet, Fail> {
    let bonds = read_inventory(alloc, &mut INVENTORY.as_bytes())?;
    let mut rows = Vec::new(alloc);
    for (bond, rate) in bonds.iter().zip(["2.00", "3.50", "3.50"]) {
        rows.push(dated(alloc, bond, rate).ok_or("no row")?)?;
    }
    Ok(sheet(rows))
}

impl Written for Sheet {
    fn text_in(&self, alloc: Global, room: usize) -> Option<String> {
        let mut device = Device::of(alloc, room, Trouble::Fails)?;
        let end = write_sheet(self, &mut device);
        ended(alloc, &end, &device.bytes)
    }
}

const THREE_BONDS: &str = "\
Serial        Series  Denom Issued  Next    Final          Price       Interest   Rate          Value Note
K2EE          EE         75 10/2010 03/2012 10/2040        37.50           0.84  2.00%          38.34 P5
L1EE          EE         50 11/2010 03/2012 11/2040        25.00           0.88  3.50%          25.88 P5
M3EE          EE      10000 02/2011 03/2012 02/2041      5000.00         132.00  3.50%        5132.00 P5
Total                                                    5062.50         133.72               5196.22
";

const EMPTY: &str = "\
Serial        Series  Denom Issued  Next    Final          Price       Interest   Rate          Value Note
Total                                                       0.00           0.00                  0.00
";

// A row that isn't issued yet and one that has matured leave columns empty.
const BEFORE_AND_AFTER: &str = "\
Serial        Series  Denom Issued  Next    Final          Price       Interest   Rate          Value Note
              EE         50 05/2010                         0.00           0.00                  0.00 NI
              EE      10000 05/2005         05/2035      5000.00     1517468.00            1522468.00 MA
Total                                                    5000.00     1517468.00            1522468.00
";

// The rate column shows the fixed rate to 20 years, the extension from then on, and nothing from 30 years on.
const EXTENDED: &str = "\
Serial        Series  Denom Issued  Next    Final          Price       Interest   Rate          Value Note
              EE         50 05/2010 05/2030 05/2040        25.00          23.90  3.40%          48.90
              EE         50 05/2010 06/2030 05/2040        25.00          25.00  4.00%          50.00
              EE         50 05/2010 05/2040 05/2040        25.00          49.04  4.00%          74.04
              EE         50 05/2010         05/2040        25.00          49.28                 74.28 MA
Total                                                     100.00         147.22                247.22
";

/// Compares how the sheet of lines is written.
fn is_written(rt: &impl Abort, alloc: Global, lines: &str, whole: &str) -> Result<(), Fail> {
    let sheet = sheet_of(alloc, lines)?;
    compare_fronts(rt, alloc, &sheet, whole)
}

#[test]
fn sheets_are_written_or_fronts_of_them(rt: HostRuntime) -> Result<(), Fail> {
    compare_fronts(&rt, rt.alloc(), &three_bonds(rt.alloc())?, THREE_BONDS)?;
    is_written(&rt, rt.alloc(), "", EMPTY)?;
    let lines = "50 2010-05 3.50 2010-04\n10000 2005-05 20.00 2035-05\n";
    is_written(&rt, rt.alloc(), lines, BEFORE_AND_AFTER)?;
    let lines =
        "50 2010-05 3.40/4.00 2030-04\n50 2010-05 3.40/4.00 2030-05\n50 2010-05 3.40/4.00 2040-04\n50 2010-05 3.40/4.00 2040-05\n";
    is_written(&rt, rt.alloc(), lines, EXTENDED)
}

/// How many rows the sheet of lines has, and its sums.
fn sums_text(alloc: Global, lines: &str) -> Option<String> {
    let sheet = sheet_of(alloc, lines).ok()?;
    let (price, value, interest) = (sheet.price, sheet.value, sheet.interest);
    format!(in alloc; "{} {price:?} {value:?} {interest:?}", sheet.rows.len()).ok()
}

#[test]
fn sums_the_largest_values(rt: HostRuntime) -> Result<(), Fail> {
    let mut lines = String::new(rt.alloc());
    add_times(&mut lines, "10000 2005-05 20.00 2035-05\n", 500).ok_or("no lines")?;
    let got = sums_text(rt.alloc(), lines.as_str()).ok_or("no sums")?;
    let wanted = "500 Total(250000000) Total(76123400000) Total(75873400000)";
    assert_same(&rt, got.as_str(), wanted, "the sums");
    Ok(())
}
