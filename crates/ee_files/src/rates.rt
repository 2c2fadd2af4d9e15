//! Reading rate files.

ghost use Rattle.std.specs.Prelude.{◌+◌, ◌≡◌, ◌≤◌, ℕ, List, length, [], ◌∷◌, Some, IfOk, IfErr};
ghost use Rattle.csv.specs.Records.{fields_of};
ghost use Rattle.ee_io.specs.ReadWhole.{TakesAtMost};
ghost use Rattle.ee_files.specs.Answers.{Gives};
ghost use Rattle.ee_files.specs.Inner.Answers.{WasRead};
ghost use Rattle.ee_files.specs.RateFile.{rate_columns, extended_columns, extension_at, rate_entry, rates_of_file};
ghost use Rattle.ee_files.specs.Rows.{most_bytes};

use crate::columns::FileColumn;
use crate::faults::{FileCode, FileFault};
use crate::fields::{extension_in, issue_in, rate_in, value_or_fault};
use crate::headers::is_rate_header;
use crate::records::{FileRow, read_rows};
use csv::ByteRecord;
use ee_io::Source;
use ee_units::Rate;
use ee_value::{RateRow, Rates};
use std::alloc::Global;

/// Reads the first 501 rows of a rate file, or its first fault. The file has the header `from,rate` or
/// `from,rate,extension`, and one record for each row; an empty extension means that the rate doesn't
/// change. The file is read whole first. A failed or interrupted read is `ReadFailed`, and want of memory
/// `NoMemory`. Takes at most 1,048,577 bytes from the reader, one more than a file may have, and leaves the
/// bytes that follow.
pub fn read_rates<R: Source>(alloc: Global, reader: &mut R) -> Result<Vec<RateRow>, FileFault>
    ensures gives { (source : List ℕ) → R.remaining reader.old ≡ Some source
        → Gives (λ v. v.items) result (rates_of_file source) }
    ensures few { IfOk result (λ rows. length rows.items ≤ 501) }
    ensures takes { (source : List ℕ) → R.remaining reader.old ≡ Some source
        → TakesAtMost (most_bytes + 1) source (R.remaining reader.new) }
    ensures failed { IfErr result (λ fault. fault.code ≡ FileCode.ReadFailed → R.may_have_failed reader.new) }
{
    read_rows(alloc, reader)
}

impl FileRow for RateRow {
    ghost headers = { rate_columns ∷ extended_columns ∷ [] };

    ghost entry = { rate_entry };

    fn is_header(fields: &ByteRecord) -> bool {
        is_rate_header(fields)
    }

    fn from_record(fields: &ByteRecord, width: usize, row: u64) -> Result<RateRow, FileFault> {
        rate_row(fields, width, row)
    }
}

#[tactic(auto, unfolding(crate::specs::RateFile::rate_entry))]
fn rate_row(fields: &ByteRecord, width: usize, row: u64) -> Result<RateRow, FileFault>
    ensures gives { Gives (λ row. row) result (rate_entry width row (fields_of fields.now)) }
    ensures read { IfErr result WasRead }
{
    if fields.len() != width {
        return Err(FileFault {
            row,
            code: FileCode::WrongFieldCount,
        });
    }
    let from = value_or_fault(issue_in(fields.get(0)), row, FileColumn::From)?;
    let fixed = value_or_fault(rate_in(fields.get(1)), row, FileColumn::Rate)?;
    let extension = extension(fields, width, row)?;
    Ok(RateRow {
        from,
        rates: Rates::new(fixed, extension),
    })
}

// The extension of a record, under a header that has one.
fn extension(fields: &ByteRecord, width: usize, row: u64) -> Result<Option<Rate>, FileFault>
    ensures gives { result ≡ extension_at width row (fields_of fields.now) }
    ensures read { IfErr result WasRead }
{
    if width == 3 {
        value_or_fault(extension_in(fields.get(2)), row, FileColumn::Extension)
    } else {
        Ok(None)
    }
}
