//! A row as JSON.

ghost use Rattle.serde_json.specs.Data.{string};
ghost use Rattle.ee_units.specs.Texts.{month_text, rate_text};
ghost use Rattle.ee_desk_texts.specs.Writing.{AddsMember};
ghost use Rattle.ee_desk_texts.specs.Inner.Writing.{AddsData};
ghost use Rattle.ee_wire.specs.Answers.{text_or_none, row_data};

use ee_calculator::Row;
use ee_desk_texts::{write_number_member, write_string_member, write_text_member};
use ee_units::{Month, Rate};
use json::Writer;
use std::alloc::{AllocError, Global};

fn write_month_member(
    alloc: Global,
    out: &mut Writer,
    name: &str,
    month: Option<Month>,
) -> Result<(), AllocError>
    ensures { AddsMember result out.old out.new name.now (string (text_or_none month_text month)) }
{
    match month {
        Some(month) => write_string_member(alloc, out, name, &month),
        None => write_text_member(out, name, ""),
    }
}

fn write_rate_member(
    alloc: Global,
    out: &mut Writer,
    name: &str,
    rate: Option<Rate>,
) -> Result<(), AllocError>
    ensures { AddsMember result out.old out.new name.now (string (text_or_none rate_text rate)) }
{
    match rate {
        Some(rate) => write_string_member(alloc, out, name, &rate),
        None => write_text_member(out, name, ""),
    }
}

/// Writes the row without its serial number; an empty column is an empty string.
pub fn write_row(alloc: Global, out: &mut Writer, row: &Row) -> Result<(), AllocError>
    ensures { AddsData result out.old out.new (row_data row.now) }
{
    out.begin_object()?;
    write_number_member(out, "denom", row.denom.dollars())?;
    write_month_member(alloc, out, "final", row.final_maturity)?;
    write_string_member(alloc, out, "interest", &row.interest)?;
    write_string_member(alloc, out, "issued", &row.issued)?;
    write_month_member(alloc, out, "next", row.next_accrual)?;
    write_text_member(out, "note", row.note.as_str())?;
    write_string_member(alloc, out, "price", &row.price)?;
    write_rate_member(alloc, out, "rate", row.rate)?;
    write_string_member(alloc, out, "value", &row.value)?;
    out.end_object()
}
