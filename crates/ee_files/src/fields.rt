//! The values of fields.

ghost use Rattle.std.specs.Prelude.{◌≡◌, IfErr, option_map};
ghost use Rattle.std.specs.Option.{ok_or};
ghost use Rattle.ee_units.specs.Denoms.{denom_of};
ghost use Rattle.ee_units.specs.Spelling.{customer_of, issue_of, rate_of, serial_of};
ghost use Rattle.ee_files.specs.Inner.Answers.{WasRead};
ghost use Rattle.ee_files.specs.BondFile.{coowner_of};
ghost use Rattle.ee_files.specs.RateFile.{extension_of};
ghost use Rattle.ee_files.specs.Fields.{field_value, text_of};

use crate::columns::FileColumn;
use crate::faults::{FileCode, FileFault};
use ee_units::{
    Customer, Denom, IssueMonth, Rate, Serial, read_customer, read_denom, read_issue, read_rate,
    read_serial,
};
use std::str;

/// The value, or the fault that this column in this row spells none.
pub fn value_or_fault<T>(value: Option<T>, row: u64, column: FileColumn) -> Result<T, FileFault>
    ensures gives { result ≡ ok_or value (record { row = row; code = FileCode.BadValue column }) }
    ensures read { IfErr result WasRead }
{
    value.ok_or(FileFault {
        row,
        code: FileCode::BadValue(column),
    })
}

fn text_in(field: Option<&[u8]>) -> Option<&str>
    ensures { option_map (λ s. s.now) result ≡ text_of (option_map (λ f. f.now) field.entry) }
{
    str::from_utf8(field?).ok()
}

/// The rate that a field spells, in percent; `None` without a field, or if it spells none.
pub fn rate_in(field: Option<&[u8]>) -> Option<Rate>
    ensures { result ≡ field_value rate_of (option_map (λ f. f.now) field.entry) }
{
    read_rate(text_in(field)?).ok()
}

/// The serial number that a field spells; `None` without a field, or if it spells none.
pub fn serial_in(field: Option<&[u8]>) -> Option<Serial>
    ensures { result ≡ field_value serial_of (option_map (λ f. f.now) field.entry) }
{
    read_serial(text_in(field)?).ok()
}

/// The denomination that a field spells, in dollars; `None` without a field, or if it spells none.
pub fn denom_in(field: Option<&[u8]>) -> Option<Denom>
    ensures { result ≡ field_value denom_of (option_map (λ f. f.now) field.entry) }
{
    read_denom(text_in(field)?).ok()
}

/// The issue month that a field spells; `None` without a field, or if it spells none.
pub fn issue_in(field: Option<&[u8]>) -> Option<IssueMonth>
    ensures { result ≡ field_value issue_of (option_map (λ f. f.now) field.entry) }
{
    read_issue(text_in(field)?).ok()
}

/// The customer that a field spells; `None` without a field, or if it spells none.
pub fn customer_in(field: Option<&[u8]>) -> Option<Customer>
    ensures { result ≡ field_value customer_of (option_map (λ f. f.now) field.entry) }
{
    read_customer(text_in(field)?).ok()
}

/// The extension that a field spells; an empty field means no extension. `None` without a field, or if it
/// spells no rate.
pub fn extension_in(field: Option<&[u8]>) -> Option<Option<Rate>>
    ensures { result ≡ field_value extension_of (option_map (λ f. f.now) field.entry) }
{
    let rate = text_in(field)?;
    if rate.is_empty() {
        Some(None)
    } else {
        Some(Some(read_rate(rate).ok()?))
    }
}

/// The coowner that a field spells; an empty field means no coowner. `None` without a field, or if it spells
/// no customer.
pub fn coowner_in(field: Option<&[u8]>) -> Option<Option<Customer>>
    ensures { result ≡ field_value coowner_of (option_map (λ f. f.now) field.entry) }
{
    let text = text_in(field)?;
    if text.is_empty() {
        return Some(None);
    }
    Some(Some(read_customer(text).ok()?))
}
