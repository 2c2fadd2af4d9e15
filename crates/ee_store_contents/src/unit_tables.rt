//! Tables of unit values for the rates that books have.

ghost use Rattle.std.specs.Prelude.{◌≡◌, map, IfOk};
ghost use Rattle.std.specs.BTreeMap as tree;
ghost use Rattle.ee_desk_model.specs.UnitTables.{tables_in};

use ee_desk_model::{Terms, UnitTables};
use ee_units::IssueMonth;
use std::alloc::{AllocError, Global};
use std::collections::BTreeMap;

/// The tables of these terms: one for each pair of rates.
pub fn kept_tables(
    alloc: Global,
    terms: &BTreeMap<IssueMonth, Terms>,
) -> Result<UnitTables, AllocError>
    ensures { IfOk result (λ tables. tables ≡ tables_in (map (λ rates. (rates, rates)) (tree.values terms.now))) }
{
    let mut tables = UnitTables::new(alloc);
    for own in terms.values() {
        let _kept = tables.keep(own)?;
    }
    Ok(tables)
}
