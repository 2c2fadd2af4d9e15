//! The parts of a path.
ghost use Rattle.std.specs.Prelude.{◌≡◌, ◌==◌};
ghost use Rattle.std.specs.List.{before_first, after_first};
ghost use Rattle.ee_wire_calls.specs.Paths.{part, segment, query_of};
ghost use Rattle.ee_wire_calls.specs.Kinds.{number_text};
ghost use Rattle.ee_units.specs.Denoms.{denom_of};
ghost use Rattle.ee_units.specs.Spelling.{customer_of, day_of, issue_of, month_of};
ghost use Rattle.ee_wire_calls.specs.declared.faults.Field.TheVariants as at;
ghost use Rattle.ee_wire_calls.specs.declared.routes.Get.TheVariants as Get;

use crate::faults::Field;
use crate::routes::Get;
use ee_desk_model::Query;
use ee_units::pieces::is_all_digits;
use ee_units::{
    Customer, Day, Denom, IssueMonth, Month, read_customer, read_day, read_denom, read_issue,
    read_month,
};

fn before_slash(text: &str) -> &str
    ensures { result.now ≡ before_first (λ b. b == 47) text.now }
{
    match text.split_once('/') {
        Some((part, _)) => part,
        None => text,
    }
}

fn after_slash(text: &str) -> &str
    ensures { result.now ≡ after_first (λ b. b == 47) text.now }
{
    match text.split_once('/') {
        Some((_, rest)) => rest,
        None => "",
    }
}

/// The part of a path after `slashes` slashes.
fn segment(path: &str, slashes: usize) -> &str
    ensures { result.now ≡ segment slashes path.now }
{
    let mut rest = path;
    for _i in 0..slashes {
        rest = after_slash(rest);
    }
    before_slash(rest)
}

/// A number of 1 to 19 digits, from 1 to 2^63 - 1.
fn number_text(text: &str) -> Option<u64>
    ensures { result ≡ number_text text.now }
{
    if text.len() > 19 || !is_all_digits(text) {
        return None;
    }
    match text.parse::<u64>() {
        Ok(n) if 1 <= n && n < 1 << 63 => Some(n),
        _ => None,
    }
}

fn customer_at(path: &str, slashes: usize) -> Result<Customer, Field>
    ensures { result ≡ part slashes customer_of at.Customer path.now }
{
    read_customer(segment(path, slashes)).or(Err(Field::Customer))
}

fn month_at(path: &str, slashes: usize) -> Result<Month, Field>
    ensures { result ≡ part slashes month_of at.Month path.now }
{
    read_month(segment(path, slashes)).or(Err(Field::Month))
}

fn day_at(path: &str, slashes: usize) -> Result<Day, Field>
    ensures { result ≡ part slashes day_of at.Day path.now }
{
    read_day(segment(path, slashes)).or(Err(Field::Day))
}

fn denom_at(path: &str, slashes: usize) -> Result<Denom, Field>
    ensures { result ≡ part slashes denom_of at.Denom path.now }
{
    read_denom(segment(path, slashes)).or(Err(Field::Denom))
}

fn issued_at(path: &str, slashes: usize) -> Result<IssueMonth, Field>
    ensures { result ≡ part slashes issue_of at.Issued path.now }
{
    read_issue(segment(path, slashes)).or(Err(Field::Issued))
}

#[tactic(auto, unfolding(crate::specs::Paths::query_of))]
fn inventory_in(path: &str) -> Result<Query, Field>
    ensures { result ≡ query_of Get.Inventory path.now }
{
    let customer = customer_at(path, 2)?;
    let month = month_at(path, 3)?;
    Ok(Query::Inventory { customer, month })
}

#[tactic(auto, unfolding(crate::specs::Paths::query_of))]
fn ticket_in(path: &str) -> Result<Query, Field>
    ensures { result ≡ query_of Get.Ticket path.now }
{
    let n = number_text(segment(path, 2)).ok_or(Field::Ticket)?;
    Ok(Query::Ticket(n))
}

#[tactic(auto, unfolding(crate::specs::Paths::query_of))]
fn batch_in(path: &str) -> Result<Query, Field>
    ensures { result ≡ query_of Get.Batch path.now }
{
    let day = day_at(path, 2)?;
    Ok(Query::Batch(day))
}

#[tactic(auto, unfolding(crate::specs::Paths::query_of))]
fn value_in(path: &str) -> Result<Query, Field>
    ensures { result ≡ query_of Get.Value path.now }
{
    let denom = denom_at(path, 2)?;
    let issued = issued_at(path, 3)?;
    let month = month_at(path, 4)?;
    Ok(Query::Value {
        denom,
        issued,
        month,
    })
}

/// The query of a path.
pub fn query_in(get: Get, path: &str) -> Result<Query, Field>
    ensures { result ≡ query_of get path.now }
{
    match get {
        Get::Inventory => inventory_in(path),
        Get::Ticket => ticket_in(path),
        Get::Batch => batch_in(path),
        Get::Value => value_in(path),
    }
}
