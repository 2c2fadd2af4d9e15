//! Writing JSON one value at a time, without a tree in memory.

ghost use Rattle.std.specs.Prelude.{◌≡◌, IfSome, [], string_bytes};
ghost use Rattle.json.specs.Print.{print};
ghost use Rattle.serde_json.specs.Data.{string};
ghost use Rattle.ee_desk_texts.specs.Data.{number_data, list_data};
ghost use Rattle.ee_desk_texts.specs.Writing.{AddsMember};
ghost use Rattle.ee_desk_texts.specs.Inner.Writing.{AddsData};

use arrayvec::ArrayString;
use json::Writer;
use std::alloc::{AllocError, Global};
use std::fmt::{Display, Write};

/// A text of more bytes takes memory.
const SHORT: usize = 32;

/// Writes a string: the value as it is displayed.
pub fn write_string<D: Display>(
    alloc: Global,
    out: &mut Writer,
    value: &D,
) -> Result<(), AllocError>
    ensures { IfSome (D.output value.now) (λ text. AddsData result out.old out.new (string text)) }
{
    let mut short = ArrayString::<SHORT>::new();
    match short.write(value) {
        Ok(()) => out.string(short.as_str()),
        Err(_) => {
            let text = value.to_string(alloc)?;
            out.string(text.as_str())
        }
    }
}

/// Writes a member whose value is a string: the value as it is displayed.
pub fn write_string_member<D: Display>(
    alloc: Global,
    out: &mut Writer,
    name: &str,
    value: &D,
) -> Result<(), AllocError>
    ensures { IfSome (D.output value.now) (λ text. AddsMember result out.old out.new name.now (string text)) }
{
    out.key(name)?;
    write_string(alloc, out, value)
}

/// Writes a member whose value is this text.
pub fn write_text_member(out: &mut Writer, name: &str, text: &str) -> Result<(), AllocError>
    ensures { AddsMember result out.old out.new name.now (string text.now) }
{
    out.key(name)?;
    out.string(text)
}

/// Writes a member whose value is a whole number.
pub fn write_number_member(out: &mut Writer, name: &str, number: u64) -> Result<(), AllocError>
    ensures { AddsMember result out.old out.new name.now (number_data number) }
{
    out.key(name)?;
    out.u64(number)
}

/// A row of a list.
pub trait Row {
    ghost use Rattle.serde_json.specs.Data.{Data};

    // The row as JSON.
    ghost row_data: { Self → Data };

    /// Writes the row.
    fn write(&self, alloc: Global, out: &mut Writer) -> Result<(), AllocError>
        ensures { AddsData result out.old out.new (row_data self.now) };
}

/// Writes a member whose value is a list, row by row.
pub fn write_list_member<R: Row>(
    alloc: Global,
    out: &mut Writer,
    name: &str,
    rows: &[R],
) -> Result<(), AllocError>
    ensures { AddsMember result out.old out.new name.now (list_data R.row_data rows.now) }
{
    out.key(name)?;
    out.begin_array()?;
    for row in rows {
        row.write(alloc, out)?;
    }
    out.end_array()
}

/// The text written so far.
pub fn text_of(out: Writer) -> String
    requires { out.before ≡ [] }
    ensures { string_bytes result ≡ print out.tokens }
{
    match String::from_utf8(out.into_inner()) {
        Ok(text) => text,
        Err(_) => unreachable!(),
    }
}
