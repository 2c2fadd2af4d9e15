//! The text of a column in a line, in a buffer of fixed size, so that it takes no memory.

ghost use Rattle.std.specs.Prelude.{◌≡◌, ◌+◌, ◌<◌, ◌≤◌, length};
ghost use Rattle.std.specs.Fmt.{decimal};
ghost use Rattle.ee_units.specs.Texts.{decimal_text, sheet_month_text, serial_text, rate_text};
ghost use Rattle.ee_calculator.specs.Sheets.{heading, row_cell, total_cell};

use crate::columns::Column;
use crate::rows::{Row, SERIES};
use crate::sheets::Sheet;
use arrayvec::ArrayString;
use ee_units::{Month, Rate, Serial};
use itoa::Buffer;

/// The text of a column; a total has at most 40 bytes.
pub type Cell = ArrayString<48>;

/// The heading of a column.
pub fn heading(column: Column) -> Cell
    ensures text { result.bytes ≡ heading column }
    ensures short { length result.bytes ≤ 44 }
{
    text(match column {
        Column::Serial => "Serial",
        Column::Series => "Series",
        Column::Denom => "Denom",
        Column::Issued => "Issued",
        Column::Next => "Next",
        Column::Final => "Final",
        Column::Price => "Price",
        Column::Interest => "Interest",
        Column::Rate => "Rate",
        Column::Value => "Value",
        Column::Note => "Note",
    })
}

/// The text of a row in a column.
pub fn row_cell(row: &Row, column: Column) -> Cell
    ensures text { result.bytes ≡ row_cell row.now column }
    ensures short { length result.bytes ≤ 44 }
{
    match column {
        Column::Serial => row.serial.map_or(Cell::new(), serial),
        Column::Series => text(SERIES),
        Column::Denom => number(row.denom.dollars()),
        Column::Issued => month(row.issued.month()),
        Column::Next => row.next_accrual.map_or(Cell::new(), month),
        Column::Final => row.final_maturity.map_or(Cell::new(), month),
        Column::Price => money(u128::from(row.price.0)),
        Column::Interest => money(u128::from(row.interest.0)),
        Column::Rate => match row.rate {
            Some(rate) => percents(rate),
            None => Cell::new(),
        },
        Column::Value => money(u128::from(row.value.0)),
        Column::Note => text(row.note.as_str()),
    }
}

/// The text of the totals in a column.
pub fn total_cell(sheet: &Sheet, column: Column) -> Cell
    ensures text { result.bytes ≡ total_cell sheet.now column }
    ensures short { length result.bytes ≤ 44 }
{
    match column {
        Column::Serial => text("Total"),
        Column::Price => money(sheet.price.0),
        Column::Interest => money(sheet.interest.0),
        Column::Value => money(sheet.value.0),
        _ => Cell::new(),
    }
}

fn text(bytes: &str) -> Cell
    requires { length bytes.now ≤ 12 }
    ensures { result.bytes ≡ bytes.now }
{
    let mut cell = Cell::new();
    cell.push_str(bytes);
    cell
}

#[tactic(auto, using(std::proofs::Common::append_assoc), unfolding(ee_units::specs::Texts::decimal_text))]
fn money(cents: u128) -> Cell
    ensures text { result.bytes ≡ decimal_text cents }
    ensures short { length result.bytes ≤ 43 }
{
    let mut cell = Cell::new();
    cell.push_str(Buffer::new().format(cents / 100));
    cell.push('.');
    let part = (cents % 100) as u8;
    cell.push(digit(part / 10));
    cell.push(digit(part % 10));
    cell
}

fn number(value: u64) -> Cell
    ensures text { result.bytes ≡ decimal value }
    ensures short { length result.bytes ≤ 40 }
{
    let mut cell = Cell::new();
    cell.push_str(Buffer::new().format(value));
    cell
}

#[tactic(auto, using(std::proofs::Common::append_assoc), unfolding(ee_units::specs::Texts::sheet_month_text))]
fn month(month: Month) -> Cell
    ensures text { result.bytes ≡ sheet_month_text month }
    ensures short { length result.bytes ≤ 43 }
{
    let count = month.count() + 4;
    let place = (count % 12 + 1) as u8;
    let mut cell = Cell::new();
    cell.push(digit(place / 10));
    cell.push(digit(place % 10));
    cell.push('/');
    cell.push_str(Buffer::new().format(2005 + count / 12));
    cell
}

#[tactic(auto, using(std::proofs::Common::append_assoc), unfolding(ee_units::specs::Texts::serial_text))]
fn serial(serial: Serial) -> Cell
    ensures text { result.bytes ≡ serial_text serial }
    ensures short { length result.bytes ≤ 43 }
{
    let mut cell = Cell::new();
    cell.push(char::from(64 + serial.letter()));
    cell.push_str(Buffer::new().format(serial.number()));
    cell.push_str("EE");
    cell
}

#[tactic(auto, using(std::proofs::Common::append_assoc), unfolding(ee_units::specs::Texts::rate_text))]
fn percents(rate: Rate) -> Cell
    ensures text { result.bytes ≡ rate_text rate }
    ensures short { length result.bytes ≤ 44 }
{
    let mut cell = money(u128::from(rate.hundredths()));
    cell.push('%');
    cell
}

fn digit(value: u8) -> char
    requires { value < 10 }
    ensures { result ≡ 48 + value }
{
    char::from(b'0' + value)
}
