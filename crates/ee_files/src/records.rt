//! Records of a file, and their rows under a header.

ghost use Rattle.std.specs.Prelude.{◌+◌, ◌≡◌, ◌≤◌, ℕ, List, length, Some, Result, IfOk, IfErr};
ghost use Rattle.csv.specs.Reading.{default_config, records, strip_bom};
ghost use Rattle.csv.specs.Records.{fields_of};
ghost use Rattle.ee_io.specs.ReadWhole.{TakesAtMost};
ghost use Rattle.ee_files.specs.Answers.{Gives};
ghost use Rattle.ee_files.specs.Inner.Answers.{Unreadable, WasRead};
ghost use Rattle.ee_files.specs.Inner.Left.{HasLeft, TakesNext};
ghost use Rattle.ee_files.specs.Rows.{is_header, rows_from, rows_of_file, rows_of_records, most_bytes};
ghost use Rattle.ee_files.specs.declared.columns.FileColumn.{FileColumn};
ghost use Rattle.ee_files.specs.declared.faults.FileFault.{FileFault};

use crate::faults::{FileCode, FileFault};
use csv::{ByteRecord, Reader, ReaderBuilder};
use ee_io::{ReadFault, Source, read_whole};
use std::alloc::Global;

/// The maximum length of a file in bytes. At most one byte more is taken.
pub const MOST_BYTES: usize = 1_048_576;

/// The type of row that a record is read as.
pub trait FileRow: Copy + Drop {
    ghost headers: { List (List FileColumn) };

    ghost entry: { ℕ → ℕ → List (List ℕ) → Result Self FileFault };

    /// Whether these are the names of a header's columns.
    fn is_header(fields: &ByteRecord) -> bool
        ensures { result ≡ is_header headers (fields_of fields.now) };

    /// The row of one record, given the number of fields in the header, or its first fault from the left.
    fn from_record(fields: &ByteRecord, width: usize, row: u64) -> Result<Self, FileFault>
        ensures gives { Gives (λ row. row) result (entry width row (fields_of fields.now)) }
        ensures read { IfErr result WasRead };
}

const fn unreadable(code: FileCode) -> FileFault
    ensures { (result.row ≡ 1) × (result.code ≡ code) }
{
    FileFault { row: 1, code }
}

/// Reads the next record. The bytes are in memory, so an error is want of memory.
pub fn next_record(records: &mut Reader<&[u8]>, fields: &mut ByteRecord) -> Result<bool, FileFault>
    ensures ok { IfOk result (λ found. (rest : List (List (List ℕ))) → HasLeft records.old rest → TakesNext records.new rest found (fields_of fields.new)) }
    ensures err { IfErr result Unreadable }
    ensures read { IfErr result WasRead }
{
    let Ok(found) = records.read_byte_record(fields) else {
        return Err(unreadable(FileCode::NoMemory));
    };
    Ok(found)
}

// The rows of the remaining records, at most 501.
fn rows_under_header<T: FileRow>(
    alloc: Global,
    records: &mut Reader<&[u8]>,
    width: usize,
) -> Result<Vec<T>, FileFault>
    ensures gives { (rest : List (List (List ℕ))) → HasLeft records.old rest
        → Gives (λ v. v.items) result (rows_from (T.entry width) 2 501 rest) }
    ensures few { IfOk result (λ v. length v.items ≤ 501) }
    ensures read { IfErr result WasRead }
{
    let mut rows = Vec::new(alloc);
    let mut fields = ByteRecord::new(alloc);
    for row in 2..503u64 {
        if !next_record(records, &mut fields)? {
            return Ok(rows);
        }
        let entry = T::from_record(&fields, width, row)?;
        if rows.push(entry).is_err() {
            return Err(unreadable(FileCode::NoMemory));
        }
    }
    Ok(rows)
}

/// A reader over a text with all its records left.
pub fn reader_of(alloc: Global, bytes: &[u8]) -> Reader<&[u8]>
    ensures { HasLeft result (records default_config (strip_bom bytes.entry.now)) }
{
    ReaderBuilder::new()
        .has_headers(false)
        .flexible(true)
        .from_reader(alloc, bytes)
}

#[tactic(auto, unfolding(crate::specs::Rows::rows_of_records))]
fn rows_in<T: FileRow>(alloc: Global, bytes: &[u8]) -> Result<Vec<T>, FileFault>
    ensures gives { Gives (λ v. v.items) result
        (rows_of_records T.headers T.entry (records default_config (strip_bom bytes.now))) }
    ensures few { IfOk result (λ v. length v.items ≤ 501) }
    ensures read { IfErr result WasRead }
{
    let mut records = reader_of(alloc, bytes);
    let mut header = ByteRecord::new(alloc);
    if !next_record(&mut records, &mut header)? {
        return Ok(Vec::new(alloc));
    }
    if !T::is_header(&header) {
        return Err(FileFault {
            row: 1,
            code: FileCode::BadHeader,
        });
    }
    rows_under_header(alloc, &mut records, header.len())
}

/// The rows of a file, which is read whole first. Takes at most one byte more than a file may have.
#[tactic(auto, unfolding(crate::specs::Rows::rows_of_file))]
pub fn read_rows<T: FileRow, R: Source>(alloc: Global, reader: &mut R) -> Result<Vec<T>, FileFault>
    ensures gives { (source : List ℕ) → R.remaining reader.old ≡ Some source
        → Gives (λ v. v.items) result (rows_of_file T.headers T.entry source) }
    ensures few { IfOk result (λ v. length v.items ≤ 501) }
    ensures takes { (source : List ℕ) → R.remaining reader.old ≡ Some source
        → TakesAtMost (most_bytes + 1) source (R.remaining reader.new) }
    ensures failed { IfErr result (λ fault. fault.code ≡ FileCode.ReadFailed → R.may_have_failed reader.new) }
{
    match read_whole(alloc, reader, MOST_BYTES) {
        Ok(bytes) => rows_in(alloc, &bytes),
        Err(ReadFault::TooLong) => Err(unreadable(FileCode::FileTooLong)),
        Err(ReadFault::ReadFailed) => Err(unreadable(FileCode::ReadFailed)),
        Err(ReadFault::NoMemory) => Err(unreadable(FileCode::NoMemory)),
    }
}
