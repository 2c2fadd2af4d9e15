//! The columns of a sheet.

ghost use Rattle.std.specs.Prelude.{◌≡◌, ◌+◌, ◌≤◌, ◌++◌, length, replicate};
ghost use Rattle.ee_calculator.specs.Sheets.{placed, on_left, on_right};

use arrayvec::ArrayString;

/// The columns of a sheet.
#[derive(Clone, Copy, Debug, PartialEq, Eq)]
pub enum Column {
    Serial,
    Series,
    Denom,
    Issued,
    Next,
    Final,
    Price,
    Interest,
    Rate,
    Value,
    Note,
}

/// All columns, from left to right.
pub const COLUMNS: [Column; 11] = [
    Column::Serial,
    Column::Series,
    Column::Denom,
    Column::Issued,
    Column::Next,
    Column::Final,
    Column::Price,
    Column::Interest,
    Column::Rate,
    Column::Value,
    Column::Note,
];

/// The text of a line, in a buffer of fixed size: each column has at most 45 bytes.
pub type LineText = ArrayString<512>;

/// Appends a text to its column, with the space before it and the padding.
#[tactic(auto, using(std::proofs::Common::append_assoc))]
pub fn push_placed(line: &mut LineText, column: Column, text: &str)
    requires short { length text.now ≤ 44 }
    requires room { length line.old.bytes ≤ 460 }
    ensures { line.new.bytes ≡ line.old.bytes ++ placed column text.now }
{
    if column == Column::Serial {
        push_left(line, 13, text);
        return;
    }
    if column == Column::Note && text.is_empty() {
        return;
    }
    line.push(' ');
    match column {
        Column::Denom | Column::Rate => push_right(line, 6, text),
        Column::Price => push_right(line, 12, text),
        Column::Interest | Column::Value => push_right(line, 14, text),
        Column::Series => push_left(line, 6, text),
        Column::Note => line.push_str(text),
        _ => push_left(line, 7, text),
    }
}

fn push_left(line: &mut LineText, width: usize, text: &str)
    requires width { width ≤ 14 }
    requires short { length text.now ≤ 44 }
    requires room { length line.old.bytes ≤ 461 }
    ensures { line.new.bytes ≡ line.old.bytes ++ on_left width text.now }
{
    line.push_str(text);
    line.push_str(spaces(width.saturating_sub(text.len())));
}

fn push_right(line: &mut LineText, width: usize, text: &str)
    requires width { width ≤ 14 }
    requires short { length text.now ≤ 44 }
    requires room { length line.old.bytes ≤ 461 }
    ensures { line.new.bytes ≡ line.old.bytes ++ on_right width text.now }
{
    line.push_str(spaces(width.saturating_sub(text.len())));
    line.push_str(text);
}

const SPACES: &str = "              ";

fn spaces(count: usize) -> &'static str
    requires { count ≤ 14 }
    ensures { result.now ≡ replicate count 32 }
{
    &SPACES[..count]
}
