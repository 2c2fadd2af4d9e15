//! The field at a fault, as it is shown.

ghost use Rattle.std.specs.Prelude.{◌-◌, ◌≡◌, Some, IfOk, IfSome, map, string_bytes};
ghost use Rattle.csv.specs.Reading.{default_config, records, strip_bom};
ghost use Rattle.csv.specs.Records.{fields_of};
ghost use Rattle.ee_files.specs.Showing.{place_of, record_after, shown_byte, shown_in, shown_up_to};

use crate::columns::FileColumn;
use crate::faults::FileFault;
use crate::records::{next_record, reader_of};
use csv::ByteRecord;
use std::alloc::Global;

/// The most bytes of a field that are shown.
const MOST_SHOWN: usize = 40;

/// The field of a column in a record of a file's bytes, as it is shown: its first 40 bytes, with `?` for each
/// that isn't printable ASCII, and `..` behind them if it has more. Records are counted from 1, which is the
/// header. `None` if there is no such field, or if memory was refused.
pub fn show_field(alloc: Global, bytes: &[u8], row: u64, column: FileColumn) -> Option<String>
    ensures { IfSome result (λ shown. shown_in bytes.now row column ≡ Some (string_bytes shown)) }
{
    let fields = record_at(alloc, bytes, row).ok()??;
    let field = fields.get(place_of(column))?;
    shown_up_to(alloc, field, MOST_SHOWN)
}

// The record at this row; `None` if there are fewer.
fn record_at(alloc: Global, bytes: &[u8], row: u64) -> Result<Option<ByteRecord>, FileFault>
    ensures { IfOk result (λ found. IfSome found (λ fields.
        record_after (row - 1) (records default_config (strip_bom bytes.now)) ≡ Some (fields_of fields))) }
{
    let mut records = reader_of(alloc, bytes);
    let mut fields = ByteRecord::new(alloc);
    for _before in 1..row {
        if !next_record(&mut records, &mut fields)? {
            return Ok(None);
        }
    }
    if next_record(&mut records, &mut fields)? {
        Ok(Some(fields))
    } else {
        Ok(None)
    }
}

fn place_of(column: FileColumn) -> usize
    ensures { result ≡ place_of column }
{
    match column {
        FileColumn::From | FileColumn::Serial => 0,
        FileColumn::Rate | FileColumn::Denom => 1,
        FileColumn::Extension | FileColumn::Issued => 2,
        FileColumn::Owner => 3,
        FileColumn::Coowner => 4,
    }
}

// The field, or its front and two points if it has more than `most` bytes.
fn shown_up_to(alloc: Global, field: &[u8], most: usize) -> Option<String>
    ensures { IfSome result (λ shown. string_bytes shown ≡ shown_up_to most field.now) }
{
    if field.len() > most {
        let mut front = printable(alloc, &field[..most])?;
        front.extend_from_slice(b"..").ok()?;
        return String::from_utf8(front).ok();
    }
    String::from_utf8(printable(alloc, field)?).ok()
}

// The bytes, with `?` for each that isn't printable ASCII.
fn printable(alloc: Global, bytes: &[u8]) -> Option<Vec<u8>>
    ensures { IfSome result (λ shown. shown.items ≡ map shown_byte bytes.now) }
{
    let mut shown = Vec::new(alloc);
    for byte in bytes {
        shown.push(shown_byte(*byte)).ok()?;
    }
    Some(shown)
}

fn shown_byte(byte: u8) -> u8
    ensures { result ≡ shown_byte byte }
{
    match byte {
        b' '..=b'~' => byte,
        _ => b'?',
    }
}
