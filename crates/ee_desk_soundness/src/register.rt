//! Checking whether rates and bonds are those of sound books.

ghost use Rattle.std.specs.Prelude.{◌≡◌, ◌↔◌, true, map, IfOk, IfErr, is_some};
ghost use Rattle.std.specs.List.{AllByRecursion};
ghost use Rattle.std.specs.FinMap as finite;
ghost use Rattle.std.specs.Ordering.{nat_cmp};
ghost use Rattle.ee_units.specs.Calendar.{period_start};
ghost use Rattle.ee_desk_soundness.specs.Marks.{bond_of};
ghost use Rattle.ee_desk_soundness.specs.Checks.{HaveRisingMonths, entry_of_row};
ghost use Rattle.ee_desk_soundness.specs.Inner.Checks.{IsRightRow, IsRightOwn};

use crate::faults::PartsFault;
use ee_calculator::Bond;
use ee_desk_model::{Held, RateRow, Terms, UnitTables};
use ee_units::IssueMonth;
use ee_units::calendar::{is_announcement, period_of};
use std::alloc::Global;
use std::collections::BTreeMap;

/// The terms of a row, if books may have it.
fn right_terms(alloc: Global, tables: &mut UnitTables, row: &RateRow) -> Result<Terms, PartsFault>
    ensures value { IfOk result (λ terms. terms ≡ row.now.rates) }
    ensures right { IfOk result (λ _. IsRightRow row.now) }
    ensures unsound { IfErr result (λ fault. fault ≡ PartsFault.Unsound → IsRightRow row.now → ⊥) }
{
    let _range = row.rates.rate_in(0);
    let _month = row.from.count();
    if !is_announcement(row.from) {
        return Err(PartsFault::Unsound);
    }
    let rates = row.rates;
    let terms = tables.add(alloc, rates)?;
    Ok(terms)
}

/// The terms of rows by month, if the rows are sorted by month and books may have each.
pub fn terms_by_month(
    alloc: Global,
    tables: &mut UnitTables,
    rows: &[RateRow],
) -> Result<BTreeMap<IssueMonth, Terms>, PartsFault>
    requires { HaveRisingMonths rows.now }
    ensures entries { IfOk result (λ terms. terms.entries ≡ map entry_of_row rows.now) }
    ensures right { IfOk result (λ _. AllByRecursion IsRightRow rows.now) }
    ensures unsound { IfErr result (λ fault. fault ≡ PartsFault.Unsound → AllByRecursion IsRightRow rows.now → ⊥) }
{
    let mut terms = BTreeMap::new(alloc);
    for row in rows {
        let one = right_terms(alloc, tables, row)?;
        terms.insert(row.from, one)?;
    }
    Ok(terms)
}

/// Whether there are rates for a bond's issue period.
fn is_rated(rates: &BTreeMap<IssueMonth, Terms>, bond: &Bond) -> bool
    ensures { result ≡ is_some (finite.get (finite.from_entries {R = nat_cmp} rates.now.entries) (period_start bond.now.issued)) }
{
    rates.contains_key(&period_of(bond.issued))
}

/// Whether there are rates for a bond's issue period, and its coowner isn't the owner.
fn is_right_bond(rates: &BTreeMap<IssueMonth, Terms>, bond: &Bond) -> bool
    ensures { (result ≡ true) ↔ IsRightOwn (finite.from_entries rates.now.entries) bond.now }
{
    let _month = bond.issued.count();
    is_rated(rates, bond) && !bond.has_coowner(bond.owner)
}

/// Whether books with these rates may have these bonds.
pub fn are_right_bonds(rates: &BTreeMap<IssueMonth, Terms>, bonds: &[Held]) -> bool
    ensures { (result ≡ true) ↔ AllByRecursion (IsRightOwn (finite.from_entries rates.now.entries)) (map bond_of bonds.now) }
{
    for held in bonds {
        if !is_right_bond(rates, &held.bond) {
            return false;
        }
    }
    true
}
