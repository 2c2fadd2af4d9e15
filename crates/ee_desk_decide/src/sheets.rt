//! Rows of bonds, at the terms of their issue periods. Makes no table of unit values.

ghost use Rattle.std.specs.Prelude.{◌≡◌, ◌++◌, [], map, Some, None, IfOk, OnOk};
ghost use Rattle.std.specs.Option.{option_map, option_copied};
ghost use Rattle.std.specs.FinMap as finite;
ghost use Rattle.std.specs.List.{filter_map, cons_option};
ghost use Rattle.ee_desk_model.specs.Queries as is;
ghost use Rattle.ee_desk_model.specs.Queries.{shown_in_row};
ghost use Rattle.ee_desk_decide.specs.Noted.{rates_in};

use ee_calculator::{Bond, Row, plain_row, row};
use ee_desk_model::Terms;
use ee_units::calendar::period_of;
use ee_units::{Denom, IssueMonth, Month, Rate};
use std::alloc::{AllocError, Global};
use std::collections::BTreeMap;

/// The row of a bond at these terms.
fn row_at(terms: &Terms, bond: &Bond, month: Month) -> Row
    ensures { shown_in_row result ≡ is.plain_row (Some bond.now.serial) bond.now.denom bond.now.issued month terms.now }
{
    row(bond, terms.rates(), terms.table(), month)
}

/// The terms of a period.
fn terms_at(terms: &BTreeMap<IssueMonth, Terms>, period: IssueMonth) -> Option<&Terms>
    ensures { option_copied result ≡ finite.get (rates_in terms.now.entries) period }
{
    terms.get(&period)
}

/// The row of a bond, if its issue period has terms.
fn row_of(terms: &BTreeMap<IssueMonth, Terms>, bond: &Bond, month: Month) -> Option<Row>
    ensures { option_map shown_in_row result ≡ is.row_of (rates_in terms.now.entries) month bond.now }
{
    match terms_at(terms, period_of(bond.issued)) {
        Some(terms) => Some(row_at(terms, bond, month)),
        None => None,
    }
}

/// The rate that a row shows.
fn rate_in(row: &Option<Row>) -> Option<Rate> {
    match row {
        Some(row) => row.rate,
        None => None,
    }
}

fn push_some<T: Drop>(items: &mut Vec<T>, item: Option<T>) -> Result<(), AllocError>
    ensures { OnOk result (items.new.items ≡ items.old.items ++ cons_option item []) }
{
    if let Some(item) = item {
        items.push(item)?;
    }
    Ok(())
}

/// The rows, in a month, of the bonds whose issue periods have terms, in the order of the bonds.
pub fn rows_of(
    alloc: Global,
    terms: &BTreeMap<IssueMonth, Terms>,
    bonds: &[Bond],
    month: Month,
) -> Result<Vec<Row>, AllocError>
    ensures { IfOk result (λ rows. map shown_in_row rows.items ≡ filter_map (is.row_of (rates_in terms.now.entries) month) bonds.now) }
{
    let mut rows = Vec::new(alloc);
    for bond in bonds {
        let row = row_of(terms, bond, month);
        // The proof of this loop needs the type of a row's rate to occur.
        let _rate = rate_in(&row);
        push_some(&mut rows, row)?;
    }
    Ok(rows)
}

/// The row, in a month, of an unregistered bond, if its issue period has terms.
pub fn quote(terms: Option<&Terms>, denom: Denom, issued: IssueMonth, month: Month) -> Option<Row>
    ensures { option_map shown_in_row result ≡ option_map (is.plain_row None denom issued month) (option_copied terms.entry) }
{
    match terms {
        Some(terms) => Some(plain_row(denom, issued, terms.rates(), terms.table(), month)),
        None => None,
    }
}
