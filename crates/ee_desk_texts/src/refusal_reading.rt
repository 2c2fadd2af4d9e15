//! Reading refusals from their JSON.

ghost use Rattle.std.specs.Prelude.{◌≡◌};
ghost use Rattle.json.specs.Value.{value_view};
ghost use Rattle.ee_desk_texts.specs.Inner.Reading.{age_at, named_by, named_of, refusal_of_nothing, refusal_of_month, refusal_of_serial, refusal_with, refused_of};

use crate::fields::{count_at, issue_at, serial_at};
use crate::refusals::Named;
use ee_desk_model::{Refusal, Reply};
use ee_units::{Age, IssueMonth, Serial};
use json::Value;

fn age_at(value: &Value<'_>, key: &str) -> Option<Age>
    ensures { result ≡ age_at key.now (value_view value.now) }
{
    let months = count_at(value, key)?;
    if months <= 2335 {
        Age::new(months as u16)
    } else {
        None
    }
}

fn named_by(
    serial: Option<Serial>,
    ticket: Option<u64>,
    month: Option<IssueMonth>,
    age: Option<Age>,
) -> Named
    ensures { result ≡ named_by serial ticket month age }
{
    match (serial, ticket, month, age) {
        (Some(serial), Some(ticket), _, _) => Named::Paid(serial, ticket),
        (Some(serial), None, _, _) => Named::Bond(serial),
        (None, _, Some(month), _) => Named::Period(month),
        (None, _, None, Some(age)) => Named::Months(age),
        (None, _, None, None) => Named::Nothing,
    }
}

fn named_in(value: &Value<'_>) -> Named
    ensures { result ≡ named_of (value_view value.now) }
{
    let serial = serial_at(value, "serial");
    let ticket = count_at(value, "ticket");
    named_by(
        serial,
        ticket,
        issue_at(value, "month"),
        age_at(value, "month"),
    )
}

fn refusal_of_nothing(code: u64) -> Option<Refusal>
    ensures { result ≡ refusal_of_nothing code }
{
    match code {
        10 => Some(Refusal::NumberReused),
        11 => Some(Refusal::Empty),
        12 => Some(Refusal::TooMany),
        40 => Some(Refusal::DayOpen),
        41 => Some(Refusal::DayNotLater),
        42 => Some(Refusal::NoOpenDay),
        43 => Some(Refusal::DayIsOther),
        44 => Some(Refusal::DayFull),
        _ => None,
    }
}

fn refusal_of_month(code: u64, month: IssueMonth) -> Option<Refusal>
    ensures { result ≡ refusal_of_month code month }
{
    match code {
        20 => Some(Refusal::NotAnnouncementMonth(month)),
        21 => Some(Refusal::RateConflict(month)),
        _ => None,
    }
}

fn refusal_of_serial(code: u64, serial: Serial) -> Option<Refusal>
    ensures { result ≡ refusal_of_serial code serial }
{
    match code {
        13 => Some(Refusal::Repeated(serial)),
        14 => Some(Refusal::SameCoowner(serial)),
        30 => Some(Refusal::NoRate(serial)),
        31 => Some(Refusal::SerialConflict(serial)),
        50 => Some(Refusal::UnknownSerial(serial)),
        51 => Some(Refusal::NotPayee(serial)),
        53 => Some(Refusal::NotIssued(serial)),
        54 => Some(Refusal::NotEligible(serial)),
        _ => None,
    }
}

fn refusal_with(code: u64, named: Named) -> Option<Refusal>
    ensures { result ≡ refusal_with code named }
{
    match named {
        Named::Nothing => refusal_of_nothing(code),
        Named::Period(month) => refusal_of_month(code, month),
        Named::Months(age) if code == 22 => Some(Refusal::RateUnsettled(age)),
        Named::Bond(serial) => refusal_of_serial(code, serial),
        Named::Paid(serial, ticket) if code == 52 => Some(Refusal::AlreadyPaid(serial, ticket)),
        _ => None,
    }
}

/// The refusal that a JSON value represents, by its code and by what it names.
#[tactic(auto, unfolding(crate::specs::Inner::Reading::refused_of))]
pub fn refused_in(value: &Value<'_>) -> Option<Reply>
    ensures { result ≡ refused_of (value_view value.now) }
{
    let code = count_at(value, "code")?;
    Some(Reply::Refused(refusal_with(code, named_in(value))?))
}
