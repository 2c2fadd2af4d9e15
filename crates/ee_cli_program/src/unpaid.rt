//! Genuine paper that this counter doesn't pay.

ghost use Rattle.std.specs.Prelude.{◌≡◌};
ghost use Rattle.std.specs.List.{list_all};
ghost use Rattle.ee_cli_program.specs.Unpaid.{early_of, is_early, is_lettered, is_of, is_of_other_series, is_serial_sign, unpaid_in};

use ee_files::FileColumn;
use ee_units::pieces::{digits, parts_at_hyphen, parts_at_slash};
use std::fmt;

/// Why a savings bond isn't paid here.
#[derive(Clone, Copy, Debug, PartialEq, Eq)]
pub enum Unpaid {
    /// It is of another series than EE.
    Series,
    /// It was issued before May 2005.
    Early,
}

/// Prints what the bond is.
impl fmt::Display for Unpaid {
    ghost use Rattle.std.specs.Prelude.{Some};
    ghost use Rattle.ee_cli_program.specs.Unpaid.{unpaid_text};

    ghost output = { λ why. Some (unpaid_text why) };

    fn fmt<W: fmt::Write>(&self, f: &mut fmt::Formatter<W>) -> fmt::Result {
        f.write_str(match *self {
            Unpaid::Series => "a bond of another series than EE",
            Unpaid::Early => "a bond of before May 2005",
        })
    }
}

/// Why a bond with this field isn't paid here, if that is why the field is at fault.
pub fn unpaid_in(column: FileColumn, field: &str) -> Option<Unpaid>
    ensures { result ≡ unpaid_in column field.now }
{
    match column {
        FileColumn::Serial if is_of_other_series(field.as_bytes()) => Some(Unpaid::Series),
        FileColumn::Issued if early_in(field).unwrap_or(false) => Some(Unpaid::Early),
        _ => None,
    }
}

// Whether a serial number is of another series than EE.
fn is_of_other_series(text: &[u8]) -> bool
    ensures { result ≡ is_of_other_series text.now }
{
    is_of(text, b"E")
        || is_of(text, b"F")
        || is_of(text, b"G")
        || is_of(text, b"H")
        || is_of(text, b"HH")
        || is_of(text, b"I")
        || is_of(text, b"J")
        || is_of(text, b"K")
}

// Whether a serial number ends with this series.
fn is_of(text: &[u8], series: &[u8]) -> bool
    ensures { result ≡ is_of series.now text.now }
{
    text.ends_with(series) && is_lettered(&text[..text.len() - series.len()])
}

// Whether these are a letter and the digits of a serial number.
fn is_lettered(front: &[u8]) -> bool
    ensures { result ≡ is_lettered front.now }
{
    match front {
        [letter, rest @ ..] => {
            letter.is_ascii_uppercase() && !rest.is_empty() && are_serial_signs(rest)
        }
        [] => false,
    }
}

// Whether these are digits or hyphens alone.
fn are_serial_signs(bytes: &[u8]) -> bool
    ensures { result ≡ list_all is_serial_sign bytes.now }
{
    bytes.iter().all(|byte| is_serial_sign(*byte))
}

// Whether the byte is a digit or a hyphen.
fn is_serial_sign(byte: u8) -> bool
    ensures { result ≡ is_serial_sign byte }
{
    byte.is_ascii_digit() || byte == b'-'
}

// Whether the month that a text spells is before May 2005; `None` if the text spells no month.
#[tactic(auto, unfolding(crate::specs::Unpaid::early_of))]
fn early_in(text: &str) -> Option<bool>
    ensures { result ≡ early_of text.now }
{
    if let Some((year, month)) = parts_at_hyphen(text) {
        return Some(is_early(digits(year, 4)?, digits(month, 2)?));
    }
    let (month, year) = parts_at_slash(text)?;
    Some(is_early(digits(year, 4)?, digits(month, 2)?))
}

fn is_early(year: u64, month: u64) -> bool
    ensures { result ≡ is_early year month }
{
    (1..=12).contains(&month) && year <= 2005 && 12 * year + month < 24_065
}
