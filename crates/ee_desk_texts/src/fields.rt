//! Values under a key of a JSON object; their texts are borrowed.

ghost use Rattle.std.specs.Prelude.{◌≡◌, option_map};
ghost use Rattle.json.specs.Value.{value_view, items_view};
ghost use Rattle.ee_desk_texts.specs.Inner.Reading.{text_at, is_whole, count_of, count_at, customer_at, day_at, rate_at, issue_at, serial_at, cents_at, items_at};

use crate::money::cents_in;
use ee_units::pieces::is_all_digits;
use ee_units::{
    Cents, Customer, Day, IssueMonth, Rate, Serial, read_day, read_issue, read_rate, read_serial,
};
use json::Value;

/// Returns the text under `key`; `None` if there is no value, or if it is no text.
pub fn text_at<'a>(value: &Value<'a>, key: &str) -> Option<&'a str>
    ensures { option_map (λ s. s.now) result ≡ text_at key.now (value_view value.now) }
{
    value.get(key)?.as_str()
}

#[tactic(auto, unfolding(crate::specs::Inner::Reading::is_whole))]
fn is_whole(text: &str) -> bool
    ensures { result ≡ is_whole text.now }
{
    !text.is_empty() && is_all_digits(text)
}

#[tactic(auto, unfolding(crate::specs::Inner::Reading::count_of))]
fn count_in(text: &str) -> Option<u64>
    ensures { result ≡ count_of text.now }
{
    if is_whole(text) {
        text.parse::<u64>().ok()
    } else {
        None
    }
}

/// Returns the number under `key`; `None` unless it is written in digits alone and fits 64 bits.
pub fn count_at(value: &Value<'_>, key: &str) -> Option<u64>
    ensures { result ≡ count_at key.now (value_view value.now) }
{
    count_in(value.get(key)?.as_number()?)
}

/// Returns the items of the array under `key`; `None` if there is no array.
pub fn items_at<'v, 'a>(value: &'v Value<'a>, key: &str) -> Option<&'v Vec<Value<'a>>>
    ensures { option_map (λ v. items_view v.now.items) result ≡ items_at key.now (value_view value.now) }
{
    match value.get(key)? {
        Value::Array(items) => Some(items),
        _ => None,
    }
}

/// Returns the customer under `key`; `None` unless its number is in range.
pub fn customer_at(value: &Value<'_>, key: &str) -> Option<Customer>
    ensures { result ≡ customer_at key.now (value_view value.now) }
{
    Customer::new(count_at(value, key)?)
}

/// Returns the day under `key`, as `read_day` reads it.
pub fn day_at(value: &Value<'_>, key: &str) -> Option<Day>
    ensures { result ≡ day_at key.now (value_view value.now) }
{
    read_day(text_at(value, key)?).ok()
}

/// Returns the rate under `key`, as `read_rate` reads it.
pub fn rate_at(value: &Value<'_>, key: &str) -> Option<Rate>
    ensures { result ≡ rate_at key.now (value_view value.now) }
{
    read_rate(text_at(value, key)?).ok()
}

/// Returns the issue month under `key`, as `read_issue` reads it.
pub fn issue_at(value: &Value<'_>, key: &str) -> Option<IssueMonth>
    ensures { result ≡ issue_at key.now (value_view value.now) }
{
    read_issue(text_at(value, key)?).ok()
}

/// Returns the serial number under `key`, as `read_serial` reads it.
pub fn serial_at(value: &Value<'_>, key: &str) -> Option<Serial>
    ensures { result ≡ serial_at key.now (value_view value.now) }
{
    read_serial(text_at(value, key)?).ok()
}

/// Returns the amount under `key`, as `cents_in` reads it.
pub fn cents_at(value: &Value<'_>, key: &str) -> Option<Cents>
    ensures { option_map (λ cents. cents.0) result ≡ cents_at key.now (value_view value.now) }
{
    cents_in(text_at(value, key)?)
}
