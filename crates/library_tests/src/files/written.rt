//! Inventories that are written, the texts of faults, and want of memory.

use super::samples::{INVENTORY, RATES, THREE_BONDS, TWO_RATES, bonds_text, named, rates_text};
use crate::comparing::{
    Cases, Written, assert_same, compare_fronts, compare_refused, ended, marked, shown,
};
use crate::device::{Device, Trouble};
use ee_calculator::Bond;
use ee_files::{FileCode, FileColumn, FileFault, WriteFault, read_inventory, write_inventory};
use std::alloc::Global;
use std::test::Fail;

const EXPORT: &str =
    "serial,denom,issued,owner,coowner\nK2EE,75,2010-10,7,8\nL1EE,50,2010-11,7,\nM3EE,10000,2011-02,7,\n";

/// The bonds of the export, as `Debug` shows them.
const EXPORTED: &str =
    "[Bond { serial: Serial { letter: 11, number: 2 }, denom: SeventyFive, issued: IssueMonth { count: 65 }, owner: Customer { number: 7 }, coowner: Some(Customer { number: 8 }) }, Bond { serial: Serial { letter: 12, number: 1 }, denom: Fifty, issued: IssueMonth { count: 66 }, owner: Customer { number: 7 }, coowner: None }, Bond { serial: Serial { letter: 13, number: 3 }, denom: TenThousand, issued: IssueMonth { count: 69 }, owner: Customer { number: 7 }, coowner: None }]";

/// The bonds in the order of the export.
fn bonds_in_order(alloc: Global) -> Option<Vec<Bond>> {
    read_inventory(alloc, &mut EXPORT.as_bytes()).ok()
}

/// Bonds that are written, and the failure when there is no more room for them.
#[derive(Clone, Copy)]
struct Export<'a> {
    bonds: &'a [Bond],
    trouble: Trouble,
}

impl Written for Export<'_> {
    fn text_in(&self, alloc: Global, room: usize) -> Option<String> {
        let mut device = Device::of(alloc, room, self.trouble)?;
        let end = write_inventory(alloc, &mut device, self.bonds);
        ended(alloc, &end, &device.bytes)
    }
}

/// These bonds, as `Debug` shows them.
fn text_again(alloc: Global) -> Option<String> {
    shown(alloc, &bonds_in_order(alloc)?)
}

/// How writing bonds with this much room ends, and what is written.
fn written_text(alloc: Global, bonds: &[Bond]) -> Option<String> {
    let trouble = Trouble::Fails;
    Export { bonds, trouble }.text_in(alloc, 1_000)
}

#[test]
fn bonds_are_written_in_order_or_a_front_of_them(rt: HostRuntime) -> Result<(), Fail> {
    let bonds = bonds_in_order(rt.alloc()).ok_or("no bonds")?;
    let bonds = bonds.as_slice();
    for trouble in [Trouble::Fails, Trouble::Interrupted] {
        compare_fronts(&rt, rt.alloc(), &Export { bonds, trouble }, EXPORT)?;
    }
    Ok(())
}

#[test]
fn a_written_file_is_read_back(rt: HostRuntime) -> Result<(), Fail> {
    let read = text_again(rt.alloc()).ok_or("no bonds")?;
    assert_same(&rt, read.as_str(), EXPORTED, "bonds");
    let got = written_text(rt.alloc(), &[]).ok_or("no text")?;
    let wanted = "Ok(()) serial,denom,issued,owner,coowner\n";
    assert_same(&rt, got.as_str(), wanted, "no bonds");
    Ok(())
}

/// Each code of a fault of a file.
const CODES: [FileCode; 12] = [
    FileCode::BadHeader,
    FileCode::WrongFieldCount,
    FileCode::BadValue(FileColumn::From),
    FileCode::BadValue(FileColumn::Rate),
    FileCode::BadValue(FileColumn::Serial),
    FileCode::BadValue(FileColumn::Denom),
    FileCode::BadValue(FileColumn::Issued),
    FileCode::BadValue(FileColumn::Owner),
    FileCode::BadValue(FileColumn::Coowner),
    FileCode::ReadFailed,
    FileCode::NoMemory,
    FileCode::FileTooLong,
];

/// The number and the text of each, and the text of a fault in row 4.
const CODE_TEXTS: &str = "\
70 bad header: row 4 code 70
71 wrong number of fields: row 4 code 71
72 bad from: row 4 code 72
72 bad rate: row 4 code 72
72 bad serial: row 4 code 72
72 bad denom: row 4 code 72
72 bad issued: row 4 code 72
72 bad owner: row 4 code 72
72 bad coowner: row 4 code 72
73 the reader failed: row 4 code 73
74 out of memory: row 4 code 74
75 the file is too long: row 4 code 75
";

fn code_text(alloc: Global, code: FileCode) -> Option<String> {
    let (number, fault) = (code.code(), FileFault { row: 4, code });
    format!(in alloc; "{number} {code}: {fault}").ok()
}

#[test]
fn texts_of_codes(rt: HostRuntime) -> Result<(), Fail> {
    for (code, wanted) in CODES.iter().zip(CODE_TEXTS.lines()) {
        let got = code_text(rt.alloc(), *code).ok_or("no text")?;
        assert_same(&rt, got.as_str(), wanted, "code");
    }
    Ok(())
}

#[test]
fn texts_of_write_faults(rt: HostRuntime) -> Result<(), Fail> {
    let (failed, memory) = (WriteFault::WriteFailed, WriteFault::NoMemory);
    let got = format!(in rt.alloc(); "{failed}, {memory}")?;
    assert_same(
        &rt,
        got.as_str(),
        "the writer failed, out of memory",
        "texts",
    );
    Ok(())
}

fn rates_named(alloc: Global) -> Option<String> {
    let text = rates_text(alloc, RATES.as_bytes())?;
    named(alloc, text, TWO_RATES, "all")
}

fn bonds_named(alloc: Global) -> Option<String> {
    let text = bonds_text(alloc, INVENTORY.as_bytes())?;
    named(alloc, text, THREE_BONDS, "all")
}

fn export_text(alloc: Global) -> Option<String> {
    let got = written_text(alloc, &bonds_in_order(alloc)?)?;
    marked(alloc, got.as_str())
}

/// What the three calls answer, by a name.
struct MemoryCases;

impl Cases for MemoryCases {
    fn answer(alloc: Global, case: &str) -> Option<String> {
        match case {
            "rates" => rates_named(alloc),
            "bonds" => bonds_named(alloc),
            _ => export_text(alloc),
        }
    }
}

const READ: &str = "\
rates => all
bonds => all
";

const WRITTEN: &str =
    "export => Ok(()) serial,denom,issued,owner,coowner|K2EE,75,2010-10,7,8|L1EE,50,2010-11,7,|M3EE,10000,2011-02,7,|\n";

/// With each allocation refused in turn: the whole is written, or want of memory in row 1 and nothing. Prints a
/// line if memory was refused.
#[test]
fn refused_memory(rt: HostRuntime) -> Result<(), Fail> {
    compare_refused::<MemoryCases>(&rt, &rt, READ, "row 1 code 74")?;
    compare_refused::<MemoryCases>(&rt, &rt, WRITTEN, "Err(NoMemory) ")
}
