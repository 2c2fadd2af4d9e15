//! Reading acts from their texts.

ghost use Rattle.std.specs.Prelude.{◌≡◌, ◌≢◌, IfOk, IfSome, MatchOption, option_map};
ghost use Rattle.json.specs.Value.{value_view, items_view};
ghost use Rattle.ee_desk_texts.specs.Reading.{ReadsAct};
ghost use Rattle.ee_desk_texts.specs.Inner.Reading.{each, rate_row_of, bond_with, bond_of, serial_in, add_rates_of, add_bonds_of, open_of, redeem_of, close_of, act_of};
ghost use Rattle.ee_desk_texts.specs.Ranges.{ActFits};
ghost use Rattle.ee_desk_texts.specs.Texts.{act_text};

use crate::acts::canonical;
use crate::fields::{
    count_at, customer_at, day_at, issue_at, items_at, rate_at, serial_at, text_at,
};
use crate::quick::quick_act;
use ee_calculator::Bond;
use ee_desk_model::{Act, RateRow, Rows};
use ee_units::{Customer, Denom, Rate, Serial, read_serial};
use ee_value::Rates;
use json::{Error, Scratch, Value};
use std::alloc::{AllocError, Global};

#[tactic(auto, unfolding(crate::specs::Inner::Reading::rate_row_of))]
fn rate_row_in(value: &Value<'_>) -> Option<RateRow>
    ensures { result ≡ rate_row_of (value_view value.now) }
{
    let from = issue_at(value, "from")?;
    let fixed = rate_at(value, "rate")?;
    let extension: Option<Rate> = rate_at(value, "extension");
    Some(RateRow {
        from,
        rates: Rates::new(fixed, extension),
    })
}

fn rate_rows_in(alloc: Global, values: &[Value<'_>]) -> Result<Option<Vec<RateRow>>, AllocError>
    ensures { IfOk result (λ o. option_map (λ v. v.items) o ≡ each rate_row_of (items_view values.now)) }
{
    let mut rows = Vec::new(alloc);
    for value in values {
        let Some(row) = rate_row_in(value) else {
            return Ok(None);
        };
        rows.push(row)?;
    }
    Ok(Some(rows))
}

#[tactic(auto, unfolding(crate::specs::Inner::Reading::bond_with))]
fn bond_with(coowner: Option<Customer>, value: &Value<'_>) -> Option<Bond>
    ensures { result ≡ bond_with coowner (value_view value.now) }
{
    let denom = Denom::with_dollars(count_at(value, "denom")?)?;
    let issued = issue_at(value, "issued")?;
    let owner = customer_at(value, "owner")?;
    let serial = serial_at(value, "serial")?;
    Some(Bond {
        serial,
        denom,
        issued,
        owner,
        coowner,
    })
}

fn bonds_in(alloc: Global, values: &[Value<'_>]) -> Result<Option<Vec<Bond>>, AllocError>
    ensures { IfOk result (λ o. option_map (λ v. v.items) o ≡ each bond_of (items_view values.now)) }
{
    let mut bonds = Vec::new(alloc);
    for value in values {
        let coowner: Option<Customer> = customer_at(value, "coowner");
        let Some(bond) = bond_with(coowner, value) else {
            return Ok(None);
        };
        bonds.push(bond)?;
    }
    Ok(Some(bonds))
}

fn serial_in(value: &Value<'_>) -> Option<Serial>
    ensures { result ≡ serial_in (value_view value.now) }
{
    read_serial(value.as_str()?).ok()
}

fn serials_in(alloc: Global, values: &[Value<'_>]) -> Result<Option<Vec<Serial>>, AllocError>
    ensures { IfOk result (λ o. option_map (λ v. v.items) o ≡ each serial_in (items_view values.now)) }
{
    let mut serials = Vec::new(alloc);
    for value in values {
        let Some(serial) = serial_in(value) else {
            return Ok(None);
        };
        serials.push(serial)?;
    }
    Ok(Some(serials))
}

fn rates_act_in(alloc: Global, value: &Value<'_>) -> Result<Option<Act>, AllocError>
    ensures { IfOk result (λ o. o ≡ add_rates_of (value_view value.now)) }
{
    let Some(list) = items_at(value, "rates") else {
        return Ok(None);
    };
    let Some(rows) = rate_rows_in(alloc, list)? else {
        return Ok(None);
    };
    Ok(Some(Act::AddRates(Rows::new(rows))))
}

fn bonds_act_in(alloc: Global, value: &Value<'_>) -> Result<Option<Act>, AllocError>
    ensures { IfOk result (λ o. o ≡ add_bonds_of (value_view value.now)) }
{
    let Some(list) = items_at(value, "bonds") else {
        return Ok(None);
    };
    let Some(bonds) = bonds_in(alloc, list)? else {
        return Ok(None);
    };
    Ok(Some(Act::AddBonds(Rows::new(bonds))))
}

fn opening_in(value: &Value<'_>) -> Option<Act>
    ensures { result ≡ open_of (value_view value.now) }
{
    Some(Act::OpenDay(day_at(value, "day")?))
}

#[tactic(auto, unfolding(crate::specs::Inner::Reading::redeem_of))]
fn redemption_in(alloc: Global, value: &Value<'_>) -> Result<Option<Act>, AllocError>
    ensures { IfOk result (λ o. o ≡ redeem_of (value_view value.now)) }
{
    let Some(day) = day_at(value, "day") else {
        return Ok(None);
    };
    let Some(payee) = customer_at(value, "payee") else {
        return Ok(None);
    };
    let Some(list) = items_at(value, "serials") else {
        return Ok(None);
    };
    let Some(serials) = serials_in(alloc, list)? else {
        return Ok(None);
    };
    Ok(Some(Act::Redeem {
        day,
        payee,
        serials: Rows::new(serials),
    }))
}

fn closing_in(value: &Value<'_>) -> Option<Act>
    ensures { result ≡ close_of (value_view value.now) }
{
    Some(Act::CloseDay(day_at(value, "day")?))
}

fn act_in(alloc: Global, value: &Value<'_>) -> Result<Option<Act>, AllocError>
    ensures { IfOk result (λ o. o ≡ act_of (value_view value.now)) }
{
    match text_at(value, "act") {
        Some("rates") => rates_act_in(alloc, value),
        Some("bonds") => bonds_act_in(alloc, value),
        Some("open") => Ok(opening_in(value)),
        Some("redeem") => redemption_in(alloc, value),
        Some("close") => Ok(closing_in(value)),
        _ => Ok(None),
    }
}

// The act, if this is its text.
fn if_act(alloc: Global, act: Act, text: &str) -> Result<Option<Act>, AllocError>
    ensures { IfOk result (λ o. MatchOption o (text.now ≢ act_text act) (λ a. (a ≡ act) × ActFits a × (text.now ≡ act_text a))) }
{
    if canonical(alloc, &act)?.as_str() == text {
        Ok(Some(act))
    } else {
        Ok(None)
    }
}

/// Parses a canonical act. `None` if the text isn't exactly the canonical text of an act: another order
/// of keys, another spelling or a space makes another text.
pub fn read_act(alloc: Global, text: &str) -> Result<Option<Act>, AllocError>
    ensures { IfOk result (λ o. ReadsAct text.now o) }
{
    match quick_act_of(alloc, text)? {
        Some(act) => Ok(Some(act)),
        None => read_any_act(alloc, text),
    }
}

// The act that was read quickly, if this is its text.
fn quick_act_of(alloc: Global, text: &str) -> Result<Option<Act>, AllocError>
    ensures { IfOk result (λ o. IfSome o (λ a. ActFits a × (text.now ≡ act_text a))) }
{
    match quick_act(alloc, text)? {
        Some(quick) => if_act(alloc, quick, text),
        None => Ok(None),
    }
}

// Parses a canonical act by its JSON.
fn read_any_act(alloc: Global, text: &str) -> Result<Option<Act>, AllocError>
    ensures { IfOk result (λ o. ReadsAct text.now o) }
{
    let mut scratch = Scratch::new(alloc);
    let value = match Value::parse(alloc, text, &mut scratch) {
        Ok(value) => value,
        Err(Error::Invalid) => return Ok(None),
        Err(_) => return Err(AllocError),
    };
    match act_in(alloc, &value)? {
        Some(act) => if_act(alloc, act, text),
        None => Ok(None),
    }
}
