//! Single values of a body.
ghost use Rattle.std.specs.Prelude.{◌≡◌};
ghost use Rattle.serde_json.specs.View.{view};
ghost use Rattle.ee_wire_calls.specs.Kinds.{desk_in, number_in, customer_in, denom_in, day_in, issue_in, rate_in, serial_in};

use ee_desk_model::{Desk, Number};
use ee_units::{
    Customer, Day, Denom, IssueMonth, Rate, Serial, read_day, read_issue, read_rate, read_serial,
};
use serde_json::Value;

/// A request number: a whole number from 1 to 2^63 - 1.
pub fn number_in(value: &Value) -> Option<Number>
    ensures { result ≡ number_in (view value.now) }
{
    Number::new(value.as_u64()?)
}

/// A desk: a whole number from 0 to 999.
pub fn desk_in(value: &Value) -> Option<Desk>
    ensures { result ≡ desk_in (view value.now) }
{
    match value.as_u64() {
        Some(number) if number <= 999 => Desk::new(number as u16),
        _ => None,
    }
}

/// A customer: a whole number from 1 to 999,999,999.
pub fn customer_in(value: &Value) -> Option<Customer>
    ensures { result ≡ customer_in (view value.now) }
{
    Customer::new(value.as_u64()?)
}

/// A denomination: its number of dollars, as a whole number.
pub fn denom_in(value: &Value) -> Option<Denom>
    ensures { result ≡ denom_in (view value.now) }
{
    Denom::with_dollars(value.as_u64()?)
}

/// A day, as text.
pub fn day_in(value: &Value) -> Option<Day>
    ensures { result ≡ day_in (view value.now) }
{
    read_day(value.as_str()?).ok()
}

/// An issue month, as text.
pub fn issue_in(value: &Value) -> Option<IssueMonth>
    ensures { result ≡ issue_in (view value.now) }
{
    read_issue(value.as_str()?).ok()
}

/// An annual rate in percent, as text.
pub fn rate_in(value: &Value) -> Option<Rate>
    ensures { result ≡ rate_in (view value.now) }
{
    read_rate(value.as_str()?).ok()
}

/// A serial number, as text.
pub fn serial_in(value: &Value) -> Option<Serial>
    ensures { result ≡ serial_in (view value.now) }
{
    read_serial(value.as_str()?).ok()
}
