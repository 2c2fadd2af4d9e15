//! Files that are broken, too long, or can't be read. In the tables `|` means a line feed, `^` a carriage return
//! and `~` the byte FF.

use super::samples::{INVENTORY, RATES, THREE_BONDS, TWO_RATES, bonds_text, rates_text, rows_text};
use crate::comparing::{Cases, assert_same, bytes_of, compare};
use crate::device::Source;
use ee_files::{FileFault, MOST_BYTES, read_inventory, read_rates};
use std::alloc::Global;
use std::io::ErrorKind;
use std::process::Abort;
use std::test::Fail;

/// Row and code of the fault, or how many rows were read.
fn fault_text<T: Drop>(alloc: Global, rows: Result<Vec<T>, FileFault>) -> Option<String> {
    match rows {
        Ok(rows) => format!(in alloc; "{} rows", rows.len()).ok(),
        Err(fault) => format!(in alloc; "{} {:?}", fault.row, fault.code).ok(),
    }
}

fn rate_fault(alloc: Global, mut file: &[u8]) -> Option<String> {
    fault_text(alloc, read_rates(alloc, &mut file))
}

fn bond_fault(alloc: Global, mut file: &[u8]) -> Option<String> {
    fault_text(alloc, read_inventory(alloc, &mut file))
}

/// The faults of a file of rates and of an inventory.
fn both_text(alloc: Global, rates: &[u8], bonds: &[u8]) -> Option<String> {
    let (rates, bonds) = (rate_fault(alloc, rates)?, bond_fault(alloc, bonds)?);
    format!(in alloc; "{rates}, {bonds}").ok()
}

/// Files of rates, and their first fault.
const RATE_FAULTS: &str = "\
from;rate|2010-05;2.00| => 1 BadHeader
rate,from| => 1 BadHeader
from,rate,| => 1 BadHeader
from| => 1 BadHeader
From,rate| => 1 BadHeader
from, rate| => 1 BadHeader
~| => 1 BadHeader
from,rate|2010-05| => 2 WrongFieldCount
from,rate|2010-05,2.00,| => 2 WrongFieldCount
from,rate|\"2010-05,2.00\"| => 2 WrongFieldCount
from,rate|2010-05,20.01| => 2 BadValue(Rate)
from,rate|2010-05, 2.00| => 2 BadValue(Rate)
from,rate|2010-05 ,2.00| => 2 BadValue(From)
from,rate|2100-01,2.00| => 2 BadValue(From)
from,rate|,| => 2 BadValue(From)
from,rate|\"2010,05\",2.00| => 2 BadValue(From)
from,rate|2010-05,\"2|.00\"| => 2 BadValue(Rate)
from,rate|2010-05,2.00||\"2010^|05\",2| => 3 BadValue(From)
from,rate|~,2.00| => 2 BadValue(From)
from,rate|2010-05,2.00~| => 2 BadValue(Rate)
from,rate|2010-05,2.00|x,y|2010-11| => 3 BadValue(From)
from,rate|2010-05,2.00|2010-11|x,y| => 3 WrongFieldCount
from,extension,rate| => 1 BadHeader
from,rate,extension,| => 1 BadHeader
from,rate,Extension| => 1 BadHeader
from,rate,extension|2010-05,2.00| => 2 WrongFieldCount
from,rate|2010-05,2.00,3.00| => 2 WrongFieldCount
from,rate,extension|2010-05,2.00,20.01| => 2 BadValue(Extension)
from,rate,extension|2010-05,2.00, | => 2 BadValue(Extension)
from,rate,extension|2010-05,2.00,~| => 2 BadValue(Extension)
from,rate,extension|2010-05,x,y| => 2 BadValue(Rate)
from,rate,extension|x,y,z| => 2 BadValue(From)
";

struct RateFaultCases;

impl Cases for RateFaultCases {
    fn answer(alloc: Global, case: &str) -> Option<String> {
        rate_fault(alloc, &bytes_of(alloc, case)?)
    }
}

#[test]
fn first_fault_of_a_rate_file(rt: HostRuntime) -> Result<(), Fail> {
    compare::<RateFaultCases>(&rt, rt.alloc(), RATE_FAULTS)
}

/// Lines after the sample's three, and the fault.
const BOND_FAULTS: &str = "\
l1EE,50,2010-11,7,| => 5 BadValue(Serial)
~,50,2010-11,7,| => 5 BadValue(Serial)
L1EE,60,2010-11,7,| => 5 BadValue(Denom)
L1EE,50~,2010-11,7,| => 5 BadValue(Denom)
L1EE,50,2005-04,7,| => 5 BadValue(Issued)
L1EE,50,~2010-11,7,| => 5 BadValue(Issued)
L1EE,50,2010-11,0,| => 5 BadValue(Owner)
L1EE,50,2010-11,,| => 5 BadValue(Owner)
L1EE,50,2010-11,~,| => 5 BadValue(Owner)
L1EE,50,2010-11,7,0| => 5 BadValue(Coowner)
L1EE,50,2010-11,7, | => 5 BadValue(Coowner)
L1EE,50,2010-11,7,~| => 5 BadValue(Coowner)
L1EE,50,2010-11,x,y| => 5 BadValue(Owner)
";

struct BondFaultCases;

impl Cases for BondFaultCases {
    fn answer(alloc: Global, case: &str) -> Option<String> {
        let mut file = Vec::from_slice(alloc, INVENTORY.as_bytes()).ok()?;
        file.extend_from_slice(&bytes_of(alloc, case)?).ok()?;
        bond_fault(alloc, &file)
    }
}

#[test]
fn first_fault_of_an_inventory(rt: HostRuntime) -> Result<(), Fail> {
    let cut = INVENTORY.strip_suffix(",7,\n").ok_or("no end")?;
    let got = bond_fault(rt.alloc(), cut.as_bytes()).ok_or("no text")?;
    assert_same(&rt, got.as_str(), "4 WrongFieldCount", "cut");
    compare::<BondFaultCases>(&rt, rt.alloc(), BOND_FAULTS)
}

/// The number of good rows and the last rows of a file, and its result as rates and as an inventory: what comes
/// after the first 501 rows isn't read.
const LONG_FILES: &str = "\
500| => 500 rows, 500 rows
501| => 501 rows, 501 rows
502| => 501 rows, 501 rows
501|x| => 501 rows, 501 rows
500|x| => 502 WrongFieldCount, 502 WrongFieldCount
";

/// A header, a row repeated `count` times, and the last rows.
fn long_file(alloc: Global, header: &str, row: &str, count: u64, last: &[u8]) -> Option<Vec<u8>> {
    let mut file = Vec::from_slice(alloc, header.as_bytes()).ok()?;
    for _ in 0..count {
        file.extend_from_slice(row.as_bytes()).ok()?;
    }
    file.extend_from_slice(last).ok()?;
    Some(file)
}

struct LongFileCases;

impl Cases for LongFileCases {
    fn answer(alloc: Global, case: &str) -> Option<String> {
        let (count, last) = case.split_once('|')?;
        let (count, last) = (count.parse().ok()?, bytes_of(alloc, last)?);
        let rates = long_file(alloc, "from,rate\n", "2010-05,2.00\n", count, &last)?;
        let header = "serial,denom,issued,owner,coowner\n";
        let bonds = long_file(alloc, header, "L1EE,50,2010-11,7,\n", count, &last)?;
        both_text(alloc, &rates, &bonds)
    }
}

#[test]
fn rows_beyond_the_first_501_are_not_read(rt: HostRuntime) -> Result<(), Fail> {
    compare::<LongFileCases>(&rt, rt.alloc(), LONG_FILES)
}

/// The first bytes, the number of line feeds after them, and the result as rates and as an inventory: empty lines
/// make a file long, and are no records.
const EMPTY_LINES: &str = "\
1048576 => 0 rows, 0 rows
1048577 => 1 FileTooLong, 1 FileTooLong
x 1048576 => 1 FileTooLong, 1 FileTooLong
";

struct EmptyLineCases;

impl Cases for EmptyLineCases {
    fn answer(alloc: Global, case: &str) -> Option<String> {
        let (first, count) = case.split_once(' ').unwrap_or(("", case));
        let file = long_file(alloc, first, "\n", count.parse().ok()?, b"")?;
        both_text(alloc, &file, &file)
    }
}

#[test]
fn too_long_before_its_records(rt: HostRuntime) -> Result<(), Fail> {
    assert_eq!(rt; MOST_BYTES, 1_048_576);
    compare::<EmptyLineCases>(&rt, rt.alloc(), EMPTY_LINES)
}

/// The result of a sample that is read one byte at a time, with one failing read.
fn text_in_trouble(alloc: Global, file: &str, call: usize, kind: ErrorKind) -> Option<String> {
    let mut source = Source::of(file.as_bytes(), 1, Some((call, kind)));
    if file == RATES {
        return rows_text(alloc, read_rates(alloc, &mut source));
    }
    rows_text(alloc, read_inventory(alloc, &mut source))
}

/// A sample in trouble at each read in turn; the last read finds the end.
fn fails_at_each_read(
    rt: &impl Abort,
    alloc: Global,
    file: &str,
    rows: &str,
    kind: ErrorKind,
) -> Option<()> {
    let last = file.len().saturating_add(1);
    for call in 1..=last {
        let got = text_in_trouble(alloc, file, call, kind)?;
        assert_same(rt, got.as_str(), "row 1 code 73", "in trouble");
    }
    let got = text_in_trouble(alloc, file, last.saturating_add(1), kind)?;
    assert_same(rt, got.as_str(), rows, "after the end");
    Some(())
}

#[test]
fn a_failed_read_is_not_tried_again(rt: HostRuntime) -> Result<(), Fail> {
    for kind in [ErrorKind::Other, ErrorKind::Interrupted] {
        fails_at_each_read(&rt, rt.alloc(), RATES, TWO_RATES, kind).ok_or("rates")?;
        fails_at_each_read(&rt, rt.alloc(), INVENTORY, THREE_BONDS, kind).ok_or("bonds")?;
    }
    Ok(())
}
