//! Fields of an object.
ghost use Rattle.std.specs.Prelude.{◌≡◌, codes, bytes_eq, string_bytes, map};
ghost use Rattle.std.specs.BTreeMap as tree;
ghost use Rattle.std.specs.List.{list_all, list_any};
ghost use Rattle.serde_json.specs.View.{view, items_view};
ghost use Rattle.ee_wire_calls.specs.Kinds.{desk_in, number_in, day_in, issue_in, rate_in, serial_in, denom_in, customer_in};
ghost use Rattle.ee_wire_calls.specs.Fields.{field, given_or, optional, optional_or, or_null, no_other, an_object};
ghost use Rattle.ee_wire_calls.specs.Inner.Views.{map_ok, view_at, text_at};
ghost use Rattle.serde_json.specs.Find.{as_array};

use crate::faults::Field;
use crate::kinds::{
    customer_in, day_in, denom_in, desk_in, issue_in, number_in, rate_in, serial_in,
};
use ee_desk_model::{Desk, Number};
use ee_units::{Customer, Day, Denom, IssueMonth, Rate, Serial};
use serde_json::{Map, Value};

/// The value, if it is an object; else the fault.
pub fn an_object(value: &Value, fault: Field) -> Result<&Value, Field>
    ensures { map_ok view_at result ≡ an_object fault (view value.now) }
{
    if value.is_object() {
        Ok(value)
    } else {
        Err(fault)
    }
}

/// The desk in the field `desk`. If the field is missing or null, the desk is 0. Faults name the field.
pub fn desk_field(body: &Value) -> Result<Desk, Field>
    ensures { result ≡ optional_or 0 (codes "desk") desk_in Field.Desk (view body.now) }
{
    match body.get("desk") {
        None => Ok(Desk::first()),
        Some(value) => optional_desk(value),
    }
}

fn optional_desk(value: &Value) -> Result<Desk, Field>
    ensures { result ≡ given_or 0 (or_null desk_in Field.Desk (view value.now)) }
{
    if value.is_null() {
        return Ok(Desk::first());
    }
    desk_in(value).ok_or(Field::Desk)
}

/// The request number in the field `number`. The fault names the field if it is missing, of the wrong kind or out of range;
/// the same goes for the fields below.
pub fn number_field(body: &Value) -> Result<Number, Field>
    ensures { result ≡ field (codes "number") number_in Field.Number (view body.now) }
{
    body.get("number").and_then(number_in).ok_or(Field::Number)
}

/// The day in the field `day`.
pub fn day_field(body: &Value) -> Result<Day, Field>
    ensures { result ≡ field (codes "day") day_in Field.Day (view body.now) }
{
    body.get("day").and_then(day_in).ok_or(Field::Day)
}

/// The issue month from which rates apply, in the field `from`.
pub fn from_field(row: &Value) -> Result<IssueMonth, Field>
    ensures { result ≡ field (codes "from") issue_in Field.From (view row.now) }
{
    row.get("from").and_then(issue_in).ok_or(Field::From)
}

/// The rate in the field `rate`.
pub fn rate_field(row: &Value) -> Result<Rate, Field>
    ensures { result ≡ field (codes "rate") rate_in Field.Rate (view row.now) }
{
    row.get("rate").and_then(rate_in).ok_or(Field::Rate)
}

/// The serial number in the field `serial`.
pub fn serial_field(row: &Value) -> Result<Serial, Field>
    ensures { result ≡ field (codes "serial") serial_in Field.Serial (view row.now) }
{
    row.get("serial").and_then(serial_in).ok_or(Field::Serial)
}

/// The denomination in the field `denom`.
pub fn denom_field(row: &Value) -> Result<Denom, Field>
    ensures { result ≡ field (codes "denom") denom_in Field.Denom (view row.now) }
{
    row.get("denom").and_then(denom_in).ok_or(Field::Denom)
}

/// The issue month in the field `issued`.
pub fn issued_field(row: &Value) -> Result<IssueMonth, Field>
    ensures { result ≡ field (codes "issued") issue_in Field.Issued (view row.now) }
{
    row.get("issued").and_then(issue_in).ok_or(Field::Issued)
}

/// The owner in the field `owner`.
pub fn owner_field(row: &Value) -> Result<Customer, Field>
    ensures { result ≡ field (codes "owner") customer_in Field.Owner (view row.now) }
{
    row.get("owner").and_then(customer_in).ok_or(Field::Owner)
}

/// The payee in the field `payee`.
pub fn payee_field(row: &Value) -> Result<Customer, Field>
    ensures { result ≡ field (codes "payee") customer_in Field.Payee (view row.now) }
{
    row.get("payee").and_then(customer_in).ok_or(Field::Payee)
}

/// The coowner; the field may be missing or null.
pub fn coowner_field(row: &Value) -> Result<Option<Customer>, Field>
    ensures { result ≡ optional (codes "coowner") customer_in Field.Coowner (view row.now) }
{
    match row.get("coowner") {
        None => Ok(None),
        Some(value) => optional_customer(value),
    }
}

fn optional_customer(value: &Value) -> Result<Option<Customer>, Field>
    ensures { result ≡ or_null customer_in Field.Coowner (view value.now) }
{
    if value.is_null() {
        return Ok(None);
    }
    customer_in(value).map(Some).ok_or(Field::Coowner)
}

/// The extension; the field may be missing or null.
pub fn extension_field(row: &Value) -> Result<Option<Rate>, Field>
    ensures { result ≡ optional (codes "extension") rate_in Field.Extension (view row.now) }
{
    match row.get("extension") {
        None => Ok(None),
        Some(value) => optional_rate(value),
    }
}

fn optional_rate(value: &Value) -> Result<Option<Rate>, Field>
    ensures { result ≡ or_null rate_in Field.Extension (view value.now) }
{
    if value.is_null() {
        return Ok(None);
    }
    rate_in(value).map(Some).ok_or(Field::Extension)
}

/// The list in the field with this name.
pub fn list_field<'a>(body: &'a Value, name: &str, fault: Field) -> Result<&'a Vec<Value>, Field>
    ensures { map_ok (λ v. items_view v.now.items) result ≡ field name.now as_array fault (view body.now) }
{
    body.get(name).and_then(Value::as_array).ok_or(fault)
}

fn is_named(names: &[&str], name: &str) -> bool
    ensures { result ≡ list_any (λ n. bytes_eq n.now name.now) names.now }
{
    names.iter().any(|n| *n == name)
}

fn keys_named(members: &Map<String, Value>, names: &[&str]) -> bool
    ensures { result ≡ list_all (λ k. list_any (λ n. bytes_eq n.now (string_bytes k)) names.now) (tree.keys members.now) }
{
    members.keys().all(|name| is_named(names, name.as_str()))
}

/// Refuses fields with any other name.
pub fn no_other(body: &Value, names: &[&str]) -> Result<(), Field>
    ensures { result ≡ no_other (map text_at names.now) (view body.now) }
{
    let Some(members) = body.as_object() else {
        return Ok(());
    };
    if keys_named(members, names) {
        Ok(())
    } else {
        Err(Field::Other)
    }
}
