//! The value of a bond, and rates that leave a value unsettled.

ghost use Rattle.std.specs.Prelude.{◌≡◌, ◌+◌, ◌≤◌, IfOk, IfSome, IsSome, true, None};
ghost use Rattle.ee_desk_model.specs.Values.{value_of, unsettled};
ghost use Rattle.ee_value.specs.Inner.Payment.{highest_value};

use crate::views::View;
use ee_calculator::Bond;
use ee_desk_model::{RateRow, Terms, UnitTables};
use ee_units::{Age, Cents, Month};
use ee_value::{Quote, Rates, ValueFault, bond_value};
use std::alloc::{AllocError, Global};

/// Whether the view has exactly these rates: they then leave no value unsettled.
fn has_rates(view: &View, row: &RateRow) -> bool
    ensures { result ≡ true → unsettled row.now.rates ≡ None }
{
    match view.rates(row.from) {
        Some(rates) => rates == row.rates,
        None => false,
    }
}

/// The least age at which a value at the row's rates is unsettled. Keeps the table of new rates.
pub fn unsettled(
    alloc: Global,
    tables: &mut UnitTables,
    view: &View,
    row: &RateRow,
) -> Result<Option<Age>, AllocError>
    ensures { IfOk result (λ age. age ≡ unsettled row.now.rates) }
{
    if has_rates(view, row) {
        return Ok(None);
    }
    match tables.add(alloc, row.rates) {
        Ok(_terms) => Ok(None),
        Err(fault) => unsettled_age(fault),
    }
}

fn unsettled_age(fault: ValueFault) -> Result<Option<Age>, AllocError>
    ensures { IfOk result (λ age. IfSome age (λ months. fault ≡ ValueFault.Unsettled months) × IsSome age) }
{
    match fault {
        ValueFault::Unsettled { age } => Ok(Some(age)),
        ValueFault::NoMemory => Err(AllocError),
    }
}

/// The terms of rates that leave no value unsettled, with their kept table.
pub fn settled_terms(
    alloc: Global,
    tables: &mut UnitTables,
    rates: Rates,
) -> Result<Terms, AllocError>
    requires { unsettled rates ≡ None }
    ensures { IfOk result (λ terms. terms ≡ rates) }
{
    match tables.add(alloc, rates) {
        Ok(terms) => Ok(terms),
        Err(ValueFault::Unsettled { .. }) => unreachable!(),
        Err(ValueFault::NoMemory) => Err(AllocError),
    }
}

/// The value of a bond in a month at least 12 months after its issue.
pub fn worth(terms: &Terms, bond: &Bond, month: Month) -> Cents
    requires { bond.now.issued + 12 ≤ month }
    ensures value { result.0 ≡ value_of terms.now bond.now month }
    ensures small { result.0 ≤ highest_value }
{
    let age = Age::from_months(month.count() - bond.issued.count());
    match bond_value(terms.table(), bond.denom, age) {
        Quote::Pays { cents, .. } => cents,
        Quote::NotEligible => unreachable!(),
    }
}
