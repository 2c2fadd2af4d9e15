//! Bodies of POST messages.
ghost use Rattle.std.specs.Prelude.{◌≡◌};
ghost use Rattle.serde_json.specs.View.{view, items_view};
ghost use Rattle.ee_wire_calls.specs.Bodies.{rate_row, rate_rows, bond_of, bonds_of, serials_of, add_rates, add_bonds, open_day, close_day, redeem, request_of};
ghost use Rattle.ee_wire_calls.specs.Inner.Bodies.{Gives};

use crate::faults::{BodyFault, Field};
use crate::fields::{
    an_object, coowner_field, day_field, denom_field, desk_field, extension_field, from_field,
    issued_field, list_field, no_other, number_field, owner_field, payee_field, rate_field,
    serial_field,
};
use crate::kinds::serial_in;
use crate::routes::Post;
use ee_calculator::Bond;
use ee_desk_model::{Act, RateRow, Request, Rows};
use ee_units::Serial;
use ee_value::Rates;
use serde_json::Value;
use std::alloc::Global;

#[tactic(auto, unfolding(crate::specs::Bodies::rate_row))]
fn read_rate(value: &Value) -> Result<RateRow, Field>
    ensures { result ≡ rate_row (view value.now) }
{
    let row = an_object(value, Field::Rates)?;
    let from = from_field(row)?;
    let fixed = rate_field(row)?;
    let extension = extension_field(row)?;
    no_other(row, &["from", "rate", "extension"])?;
    Ok(RateRow {
        from,
        rates: Rates::new(fixed, extension),
    })
}

fn read_rates(alloc: Global, values: &[Value]) -> Result<Vec<RateRow>, BodyFault>
    ensures { Gives (λ v. v.items) result (rate_rows (items_view values.now)) }
{
    let mut rows = Vec::new(alloc);
    for value in values {
        let row = read_rate(value)?;
        rows.push(row)?;
    }
    Ok(rows)
}

#[tactic(auto, unfolding(crate::specs::Bodies::bond_of))]
fn read_bond(value: &Value) -> Result<Bond, Field>
    ensures { result ≡ bond_of (view value.now) }
{
    let row = an_object(value, Field::Bonds)?;
    let serial = serial_field(row)?;
    let denom = denom_field(row)?;
    let issued = issued_field(row)?;
    let owner = owner_field(row)?;
    let coowner = coowner_field(row)?;
    no_other(row, &["serial", "denom", "issued", "owner", "coowner"])?;
    Ok(Bond {
        serial,
        denom,
        issued,
        owner,
        coowner,
    })
}

fn read_bonds(alloc: Global, values: &[Value]) -> Result<Vec<Bond>, BodyFault>
    ensures { Gives (λ v. v.items) result (bonds_of (items_view values.now)) }
{
    let mut rows = Vec::new(alloc);
    for value in values {
        let bond = read_bond(value)?;
        // The borrow checker needs the type of the coowner to occur in this body.
        let coowner = bond.coowner;
        rows.push(Bond { coowner, ..bond })?;
    }
    Ok(rows)
}

fn read_serials(alloc: Global, values: &[Value]) -> Result<Vec<Serial>, BodyFault>
    ensures { Gives (λ v. v.items) result (serials_of (items_view values.now)) }
{
    let mut serials = Vec::new(alloc);
    for value in values {
        let serial = serial_in(value).ok_or(Field::Serials)?;
        serials.push(serial)?;
    }
    Ok(serials)
}

#[tactic(auto, unfolding(crate::specs::Bodies::add_rates))]
fn add_rates(alloc: Global, body: &Value) -> Result<Request, BodyFault>
    ensures { Gives (λ q. q) result (add_rates (view body.now)) }
{
    let body = an_object(body, Field::Body)?;
    let desk = desk_field(body)?;
    let number = number_field(body)?;
    let rows = read_rates(alloc, list_field(body, "rates", Field::Rates)?)?;
    no_other(body, &["desk", "number", "rates"])?;
    Ok(Request {
        desk,
        number,
        act: Act::AddRates(Rows::new(rows)),
    })
}

#[tactic(auto, unfolding(crate::specs::Bodies::add_bonds))]
fn add_bonds(alloc: Global, body: &Value) -> Result<Request, BodyFault>
    ensures { Gives (λ q. q) result (add_bonds (view body.now)) }
{
    let body = an_object(body, Field::Body)?;
    let desk = desk_field(body)?;
    let number = number_field(body)?;
    let rows = read_bonds(alloc, list_field(body, "bonds", Field::Bonds)?)?;
    no_other(body, &["desk", "number", "bonds"])?;
    Ok(Request {
        desk,
        number,
        act: Act::AddBonds(Rows::new(rows)),
    })
}

#[tactic(auto, unfolding(crate::specs::Bodies::open_day))]
fn open_day(body: &Value) -> Result<Request, Field>
    ensures { result ≡ open_day (view body.now) }
{
    let body = an_object(body, Field::Body)?;
    let desk = desk_field(body)?;
    let number = number_field(body)?;
    let day = day_field(body)?;
    no_other(body, &["desk", "number", "day"])?;
    Ok(Request {
        desk,
        number,
        act: Act::OpenDay(day),
    })
}

#[tactic(auto, unfolding(crate::specs::Bodies::close_day))]
fn close_day(body: &Value) -> Result<Request, Field>
    ensures { result ≡ close_day (view body.now) }
{
    let body = an_object(body, Field::Body)?;
    let desk = desk_field(body)?;
    let number = number_field(body)?;
    let day = day_field(body)?;
    no_other(body, &["desk", "number", "day"])?;
    Ok(Request {
        desk,
        number,
        act: Act::CloseDay(day),
    })
}

#[tactic(auto, unfolding(crate::specs::Bodies::redeem))]
fn redeem(alloc: Global, body: &Value) -> Result<Request, BodyFault>
    ensures { Gives (λ q. q) result (redeem (view body.now)) }
{
    let body = an_object(body, Field::Body)?;
    let desk = desk_field(body)?;
    let number = number_field(body)?;
    let day = day_field(body)?;
    let payee = payee_field(body)?;
    let serials = read_serials(alloc, list_field(body, "serials", Field::Serials)?)?;
    no_other(body, &["desk", "number", "day", "payee", "serials"])?;
    Ok(Request {
        desk,
        number,
        act: Act::Redeem {
            day,
            payee,
            serials: Rows::new(serials),
        },
    })
}

/// The request of a body.
pub fn request_in(alloc: Global, post: Post, body: &Value) -> Result<Request, BodyFault>
    ensures { Gives (λ q. q) result (request_of post (view body.now)) }
{
    match post {
        Post::Rates => add_rates(alloc, body),
        Post::Bonds => add_bonds(alloc, body),
        Post::DayOpen => Ok(open_day(body)?),
        Post::DayClose => Ok(close_day(body)?),
        Post::Redeem => redeem(alloc, body),
    }
}
