//! The text of a sheet, written line by line from a fixed room, so that it takes no memory.

ghost use Rattle.std.specs.Prelude.{◌≡◌, ◌*◌, ◌≤◌, ◌++◌, [], length, false, is_ok, OnErr};
ghost use Rattle.std.specs.List.{flat_map};
ghost use Rattle.ee_io.specs.Written.{WritesFront};
ghost use Rattle.ee_calculator.specs.Inner.Lines.{cell_of};
ghost use Rattle.ee_calculator.specs.Sheets.{heading as heading_cell, line as line_text, placed, row_cell, sheet_text};

use crate::cells::{Cell, heading, row_cell, total_cell};
use crate::columns::{COLUMNS, Column, LineText, push_placed};
use crate::rows::Row;
use crate::sheets::Sheet;
use ee_io::{Sink, write_whole};
use thiserror::Error;

/// A writer failed. It has taken a front of the text, and not all of it.
#[derive(Clone, Copy, Debug, PartialEq, Eq, Error)]
#[error("the writer failed")]
pub struct WriteFailed;

/// Writes the sheet's text: a line of headings, a line for each row, and a line with the totals. The
/// columns have least widths, and a line ends with a line feed. Where the writer fails, it has taken a
/// front of that text.
pub fn write_sheet<W: Sink>(sheet: &Sheet, writer: &mut W) -> Result<(), WriteFailed>
    ensures written { WritesFront (W.contents writer.old) (W.contents writer.new) (sheet_text sheet.now) (is_ok result) }
    ensures failed { OnErr result (W.may_have_failed writer.new) }
{
    if write_lines(sheet, writer) {
        Ok(())
    } else {
        Err(WriteFailed)
    }
}

/// A line of a sheet.
#[derive(Clone, Copy)]
enum SheetLine<'a> {
    Heading,
    Row(&'a Row),
    Totals(&'a Sheet),
}

#[tactic(auto, unfolding(crate::specs::Sheets::sheet_text))]
fn write_lines<W: Sink>(sheet: &Sheet, writer: &mut W) -> bool
    ensures written { WritesFront (W.contents writer.old) (W.contents writer.new) (sheet_text sheet.now) result }
    ensures failed { result ≡ false → W.may_have_failed writer.new }
{
    write_rows_below_heading(sheet, writer) && write_line(writer, SheetLine::Totals(sheet))
}

fn write_rows_below_heading<W: Sink>(sheet: &Sheet, writer: &mut W) -> bool
    ensures written { WritesFront (W.contents writer.old) (W.contents writer.new)
        (line_text heading_cell ++ flat_map (λ row. line_text (row_cell row)) sheet.now.rows.items) result }
    ensures failed { result ≡ false → W.may_have_failed writer.new }
{
    write_line(writer, SheetLine::Heading) && write_rows(writer, &sheet.rows)
}

fn write_rows<W: Sink>(writer: &mut W, rows: &[Row]) -> bool
    ensures written { WritesFront (W.contents writer.old) (W.contents writer.new)
        (flat_map (λ row. line_text (row_cell row)) rows.now) result }
    ensures failed { result ≡ false → W.may_have_failed writer.new }
{
    for row in rows {
        if !write_line(writer, SheetLine::Row(row)) {
            return false;
        }
    }
    true
}

fn write_line<W: Sink>(writer: &mut W, line: SheetLine) -> bool
    ensures written { WritesFront (W.contents writer.old) (W.contents writer.new) (line_text (cell_of line.entry)) result }
    ensures failed { result ≡ false → W.may_have_failed writer.new }
{
    write_whole(writer, line_text(line).as_str().as_bytes())
}

#[tactic(auto, unfolding(crate::specs::Sheets::line))]
fn line_text(line: SheetLine) -> LineText
    ensures { result.bytes ≡ line_text (cell_of line.entry) }
{
    let mut text = LineText::new();
    push_cells(&mut text, line, &COLUMNS);
    text.push('\n');
    text
}

fn push_cells(text: &mut LineText, line: SheetLine, columns: &[Column])
    requires empty { text.old.bytes ≡ [] }
    requires few { length columns.now ≤ 11 }
    ensures text { text.new.bytes ≡ flat_map (λ column. placed column (cell_of line.entry column)) columns.now }
    ensures short { length text.new.bytes ≤ 45 * 11 }
{
    for column in columns {
        push_placed(text, *column, cell(line, *column).as_str());
    }
}

fn cell(line: SheetLine, column: Column) -> Cell
    ensures text { result.bytes ≡ cell_of line.entry column }
    ensures short { length result.bytes ≤ 44 }
{
    match line {
        SheetLine::Heading => heading(column),
        SheetLine::Row(row) => row_cell(row, column),
        SheetLine::Totals(sheet) => total_cell(sheet, column),
    }
}
