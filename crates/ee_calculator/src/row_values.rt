//! The row of a bond in a month.

ghost use Rattle.std.specs.Prelude.{◌≡◌, ◌+◌, ◌-◌, ◌<◌, ◌≤◌, Some, None};
ghost use Rattle.ee_calculator.specs.Rows.{columns_in, columns_of, columns_with, shown};
ghost use Rattle.ee_units.specs.Denoms.{units_of};
ghost use Rattle.ee_value.specs.Payment.{IsQuoteOf};

use crate::bonds::Bond;
use crate::notes::{FINAL_MATURITY, Note};
use crate::rows::Row;
use ee_units::{Age, Cents, Denom, IssueMonth, Month, Rate, calendar, price};
use ee_value::{Quote, Rates, UnitTable, bond_value};

/// The row of a bond in a month. `table` holds the unit values at `rates`, the rates of the bond's issue
/// period.
pub fn row(bond: &Bond, rates: Rates, table: &UnitTable, month: Month) -> Row
    requires { table.now ≡ rates }
    ensures columns { columns_in result ≡ columns_of (units_of bond.now.denom) bond.now.issued rates month }
    ensures serial { result.serial ≡ Some bond.now.serial }
    ensures denom { result.denom ≡ bond.now.denom }
    ensures issued { result.issued ≡ bond.now.issued }
{
    let mut row = plain_row(bond.denom, bond.issued, rates, table, month);
    row.serial = Some(bond.serial);
    row
}

/// The row, without a serial number, of a bond of this denomination and issue month. `table` holds the unit
/// values at `rates`.
#[tactic(auto, unfolding(crate::specs::Rows::columns_of, crate::specs::Rows::value_in))]
pub fn plain_row(
    denom: Denom,
    issued: IssueMonth,
    rates: Rates,
    table: &UnitTable,
    month: Month,
) -> Row
    requires { table.now ≡ rates }
    ensures columns { columns_in result ≡ columns_of (units_of denom) issued rates month }
    ensures serial { result.serial ≡ None }
    ensures denom { result.denom ≡ denom }
    ensures issued { result.issued ≡ issued }
{
    match calendar::age(issued, month) {
        Some(age) => issued_row(denom, issued, rates, bond_value(table, denom, age), month),
        None => unissued_row(denom, issued),
    }
}

/// The row, without a serial number, of a bond of this denomination and issue month in a month not before
/// its issue, given what it pays in that month.
#[tactic(auto, unfolding(crate::specs::Rows::columns_of, crate::specs::Rows::value_in))]
pub fn issued_row(denom: Denom, issued: IssueMonth, rates: Rates, quote: Quote, month: Month) -> Row
    requires issued { issued ≤ month }
    requires quoted { IsQuoteOf rates (units_of denom) (month - issued) quote }
    ensures columns { columns_in result ≡ columns_of (units_of denom) issued rates month }
    ensures serial { result.serial ≡ None }
    ensures denom { result.denom ≡ denom }
    ensures issued { result.issued ≡ issued }
{
    let age = Age::from_months(month.count() - issued.count());
    let note = Note::at(Some(age));
    let price = price(denom);
    let rate = rates.rate_in(age.months() / 6);
    match quote {
        Quote::NotEligible => earning(denom, issued, rate, month, price, price, note),
        Quote::Pays {
            cents,
            matured: true,
            ..
        } => matured(denom, issued, price, cents),
        Quote::Pays { cents, .. } => earning(denom, issued, rate, month, price, cents, note),
    }
}

/// The row, without a serial number, of a bond in a month before its issue.
pub const fn unissued_row(denom: Denom, issued: IssueMonth) -> Row
    ensures columns { columns_in result ≡ shown Note.Ni 0 0 0 0 0 }
    ensures serial { result.serial ≡ None }
    ensures denom { result.denom ≡ denom }
    ensures issued { result.issued ≡ issued }
{
    Row {
        serial: None,
        denom,
        issued,
        next_accrual: None,
        final_maturity: None,
        price: Cents(0),
        interest: Cents(0),
        rate: None,
        value: Cents(0),
        note: Note::Ni,
    }
}

fn earning(
    denom: Denom,
    issued: IssueMonth,
    rate: Rate,
    month: Month,
    price: Cents,
    value: Cents,
    note: Note,
) -> Row
    requires worth { price.0 ≤ value.0 }
    requires early { month < issued + 360 }
    ensures columns { columns_in result ≡ columns_with note price.0 (value.0 - price.0) value.0
        (Some rate) (Some (month + 1)) (Some (issued + 360)) }
    ensures serial { result.serial ≡ None }
    ensures denom { result.denom ≡ denom }
    ensures issued { result.issued ≡ issued }
{
    Row {
        serial: None,
        denom,
        issued,
        next_accrual: Month::new(u64::from(month.count()) + 1),
        final_maturity: Month::new(u64::from(issued.count() + FINAL_MATURITY)),
        price,
        interest: Cents(value.0 - price.0),
        rate: Some(rate),
        value,
        note,
    }
}

fn matured(denom: Denom, issued: IssueMonth, price: Cents, value: Cents) -> Row
    requires { price.0 ≤ value.0 }
    ensures columns { columns_in result ≡ shown Note.Ma price.0 value.0 0 0 (issued + 360) }
    ensures serial { result.serial ≡ None }
    ensures denom { result.denom ≡ denom }
    ensures issued { result.issued ≡ issued }
{
    Row {
        serial: None,
        denom,
        issued,
        next_accrual: None, // interest has stopped
        final_maturity: Month::new(u64::from(issued.count() + FINAL_MATURITY)),
        price,
        interest: Cents(value.0 - price.0),
        rate: None,
        value,
        note: Note::Ma,
    }
}
