//! Reading inventory files.

ghost use Rattle.std.specs.Prelude.{◌+◌, ◌≡◌, ◌≤◌, ℕ, List, length, [], ◌∷◌, Some, IfOk, IfErr};
ghost use Rattle.csv.specs.Records.{fields_of};
ghost use Rattle.ee_io.specs.ReadWhole.{TakesAtMost};
ghost use Rattle.ee_files.specs.Answers.{Gives};
ghost use Rattle.ee_files.specs.Inner.Answers.{WasRead};
ghost use Rattle.ee_files.specs.BondFile.{bond_columns, bond_entry, bonds_of_file};
ghost use Rattle.ee_files.specs.Rows.{most_bytes};

use crate::columns::FileColumn;
use crate::faults::{FileCode, FileFault};
use crate::fields::{coowner_in, customer_in, denom_in, issue_in, serial_in, value_or_fault};
use crate::headers::is_bond_header;
use crate::records::{FileRow, read_rows};
use csv::ByteRecord;
use ee_calculator::Bond;
use ee_io::Source;
use std::alloc::Global;

/// Reads the first 501 bonds of an inventory file, or its first fault. The file has the header
/// `serial,denom,issued,owner,coowner`, and one record for each bond; an empty coowner means none. The file
/// is read whole first. A failed or interrupted read is `ReadFailed`, and want of memory `NoMemory`. Takes at
/// most 1,048,577 bytes from the reader, one more than a file may have, and leaves the bytes that follow.
pub fn read_inventory<R: Source>(alloc: Global, reader: &mut R) -> Result<Vec<Bond>, FileFault>
    ensures gives { (source : List ℕ) → R.remaining reader.old ≡ Some source
        → Gives (λ v. v.items) result (bonds_of_file source) }
    ensures few { IfOk result (λ rows. length rows.items ≤ 501) }
    ensures takes { (source : List ℕ) → R.remaining reader.old ≡ Some source
        → TakesAtMost (most_bytes + 1) source (R.remaining reader.new) }
    ensures failed { IfErr result (λ fault. fault.code ≡ FileCode.ReadFailed → R.may_have_failed reader.new) }
{
    read_rows(alloc, reader)
}

impl FileRow for Bond {
    ghost headers = { bond_columns ∷ [] };

    ghost entry = { λ _. bond_entry };

    fn is_header(fields: &ByteRecord) -> bool {
        is_bond_header(fields)
    }

    fn from_record(fields: &ByteRecord, _width: usize, row: u64) -> Result<Bond, FileFault> {
        bond_row(fields, row)
    }
}

#[tactic(auto, unfolding(crate::specs::BondFile::bond_entry))]
fn bond_row(fields: &ByteRecord, row: u64) -> Result<Bond, FileFault>
    ensures gives { Gives (λ row. row) result (bond_entry row (fields_of fields.now)) }
    ensures read { IfErr result WasRead }
{
    if fields.len() != 5 {
        return Err(FileFault {
            row,
            code: FileCode::WrongFieldCount,
        });
    }
    let serial = value_or_fault(serial_in(fields.get(0)), row, FileColumn::Serial)?;
    let denom = value_or_fault(denom_in(fields.get(1)), row, FileColumn::Denom)?;
    let issued = value_or_fault(issue_in(fields.get(2)), row, FileColumn::Issued)?;
    let owner = value_or_fault(customer_in(fields.get(3)), row, FileColumn::Owner)?;
    let coowner = value_or_fault(coowner_in(fields.get(4)), row, FileColumn::Coowner)?;
    Ok(Bond {
        serial,
        denom,
        issued,
        owner,
        coowner,
    })
}
