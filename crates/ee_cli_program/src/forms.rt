//! Forms of files other than CSV with commas.

ghost use Rattle.std.specs.Prelude.{◌≡◌, find};
ghost use Rattle.ee_cli_program.specs.Forms.{form_by, form_of, is_sign, is_utf_16, separated};

use std::fmt;

/// A form of a file that isn't read.
#[derive(Clone, Copy, Debug, PartialEq, Eq)]
pub enum Form {
    /// A zip, as the workbooks of most programs are.
    Zip,
    /// A text in UTF-16.
    Utf16,
    /// Fields that semicolons separate.
    Semicolons,
    /// Fields that tabs separate.
    Tabs,
}

/// Prints the form.
impl fmt::Display for Form {
    ghost use Rattle.std.specs.Prelude.{Some};
    ghost use Rattle.ee_cli_program.specs.Forms.{form_text};

    ghost output = { λ form. Some (form_text form) };

    fn fmt<W: fmt::Write>(&self, f: &mut fmt::Formatter<W>) -> fmt::Result {
        f.write_str(match *self {
            Form::Zip => "it is a zip, or a workbook as .xlsx and .ods",
            Form::Utf16 => "it is UTF-16",
            Form::Semicolons => "its fields are separated by semicolons",
            Form::Tabs => "its fields are separated by tabs",
        })
    }
}

/// The form of a file, by its first two bytes and its first row; `None` for CSV with commas, or an unknown form.
pub fn form_of(bytes: &[u8]) -> Option<Form>
    ensures { result ≡ form_of bytes.now }
{
    match bytes {
        [first, second, ..] => form_by(*first, *second, bytes),
        _ => None,
    }
}

fn form_by(first: u8, second: u8, bytes: &[u8]) -> Option<Form>
    ensures { result ≡ form_by first second bytes.now }
{
    if first == b'P' && second == b'K' {
        Some(Form::Zip)
    } else if is_utf_16(first, second) {
        Some(Form::Utf16)
    } else {
        separated(bytes)
    }
}

// Whether a text of ASCII that begins so is UTF-16, with or without a byte order mark.
fn is_utf_16(first: u8, second: u8) -> bool
    ensures { result ≡ is_utf_16 first second }
{
    (first == 255 && second == 254) || (first == 254 && second == 255) || first == 0 || second == 0
}

// The form whose separator stands first in the first row; `None` for a comma, or no separator.
fn separated(bytes: &[u8]) -> Option<Form>
    ensures { result ≡ separated (find is_sign bytes.now) }
{
    match first_sign(bytes) {
        Some(b';') => Some(Form::Semicolons),
        Some(b'\t') => Some(Form::Tabs),
        _ => None,
    }
}

fn first_sign(bytes: &[u8]) -> Option<u8>
    ensures { result ≡ find is_sign bytes.now }
{
    bytes.iter().copied().find(|byte| is_sign(*byte))
}

// Whether the byte separates fields, or ends a row.
fn is_sign(byte: u8) -> bool
    ensures { result ≡ is_sign byte }
{
    byte == b',' || byte == b';' || byte == b'\t' || byte == b'\n' || byte == b'\r'
}
