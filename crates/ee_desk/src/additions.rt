//! Adding rows to a map, all or none.

ghost use Rattle.std.specs.Prelude.{◌≡◌, drop, OnOk, OnErr};
ghost use Rattle.ee_desk_decide.specs.Noted.{rates_in, held_in};
ghost use Rattle.ee_desk_decide.specs.Inner.NewRows.{rate_row, with_row, AreNew};
ghost use Rattle.ee_desk.specs.Inner.Added.{held_row, without_row, with_changes, without_changes, every_second, AgreeBeside};

use ee_desk_model::{Change, Held, Terms, UnitTables};
use ee_units::{IssueMonth, Serial};
use std::alloc::AllocError;
use std::collections::BTreeMap;

/// Adds rates with new periods: all of them, or none. Equal rates share one table. The table of rates that
/// are removed again is kept, which changes nothing.
pub fn add_rates(
    tables: &mut UnitTables,
    rates: &mut BTreeMap<IssueMonth, Terms>,
    changes: &[Change],
) -> Result<(), AllocError>
    requires { AreNew rate_row (rates_in rates.old.entries) changes.now }
    ensures ok { OnOk result (rates_in rates.new.entries ≡ with_changes rate_row (rates_in rates.old.entries) changes.now) }
    ensures err { OnErr result (rates_in rates.new.entries ≡ rates_in rates.old.entries) }
{
    for (i, change) in changes.iter().enumerate() {
        match add_rate(tables, rates, change) {
            Ok(_) => {}
            Err(_) => {
                take_rates(rates, &changes[..i]);
                return Err(AllocError);
            }
        }
    }
    Ok(())
}

fn add_rate(
    tables: &mut UnitTables,
    rates: &mut BTreeMap<IssueMonth, Terms>,
    change: &Change,
) -> Result<(), AllocError>
    ensures ok { OnOk result (rates_in rates.new.entries ≡ with_row (rates_in rates.old.entries) (rate_row change.now)) }
    ensures err { OnErr result (rates.new.entries ≡ rates.old.entries) }
{
    if let Change::Rates(from, terms) = change {
        let kept = tables.keep(terms)?;
        rates.insert(*from, kept)?;
    }
    Ok(())
}

fn take_rate(rates: &mut BTreeMap<IssueMonth, Terms>, change: &Change)
    ensures { rates_in rates.new.entries ≡ without_row (rates_in rates.old.entries) (rate_row change.now) }
{
    if let Change::Rates(from, _) = change {
        let _ = rates.remove(from);
    }
}

/// Removes the rates of these changes.
fn take_rates(rates: &mut BTreeMap<IssueMonth, Terms>, changes: &[Change])
    ensures { rates_in rates.new.entries ≡ without_changes rate_row (rates_in rates.old.entries) changes.now }
{
    for change in changes {
        take_rate(rates, change);
    }
}

/// Registers bonds with new serial numbers: all of them, or none. Adds every second bond first, then the
/// others between them, so that rows in order of serial number fill the leaves of the map.
pub fn add_bonds(bonds: &mut BTreeMap<Serial, Held>, changes: &[Change]) -> Result<(), AllocError>
    requires { AreNew held_row (held_in bonds.old.entries) changes.now }
    ensures ok { OnOk result (held_in bonds.new.entries ≡ with_changes held_row (held_in bonds.old.entries) changes.now) }
    ensures err { OnErr result (held_in bonds.new.entries ≡ held_in bonds.old.entries) }
{
    match add_in_turns(bonds, changes) {
        Ok(_) => Ok(()),
        Err(_) => {
            take_bonds(bonds, changes);
            Err(AllocError)
        }
    }
}

/// Registers every second bond, from the first, and then the others.
fn add_in_turns(bonds: &mut BTreeMap<Serial, Held>, changes: &[Change]) -> Result<(), AllocError>
    ensures ok { OnOk result (held_in bonds.new.entries
        ≡ with_changes held_row (with_changes held_row (held_in bonds.old.entries) (every_second changes.now)) (every_second (drop 1 changes.now))) }
    ensures err { OnErr result (AgreeBeside held_row changes.now (held_in bonds.new.entries) (held_in bonds.old.entries)) }
{
    add_every_second(bonds, changes)?;
    add_every_second(bonds, after_first(changes))
}

fn after_first(changes: &[Change]) -> &[Change]
    ensures { result.now ≡ drop 1 changes.now }
{
    match changes.split_first() {
        Some((_, rest)) => rest,
        None => changes,
    }
}

/// Registers every second bond, from the first.
fn add_every_second(
    bonds: &mut BTreeMap<Serial, Held>,
    changes: &[Change],
) -> Result<(), AllocError>
    ensures ok { OnOk result (held_in bonds.new.entries ≡ with_changes held_row (held_in bonds.old.entries) (every_second changes.now)) }
    ensures beside { AgreeBeside held_row changes.now (held_in bonds.new.entries) (held_in bonds.old.entries) }
{
    let mut rest = changes;
    while let Some((change, others)) = rest.split_first() {
        add_bond(bonds, change)?;
        rest = after_first(others);
    }
    Ok(())
}

fn add_bond(bonds: &mut BTreeMap<Serial, Held>, change: &Change) -> Result<(), AllocError>
    ensures ok { OnOk result (held_in bonds.new.entries ≡ with_row (held_in bonds.old.entries) (held_row change.now)) }
    ensures err { OnErr result (bonds.new.entries ≡ bonds.old.entries) }
{
    if let Change::Bond(bond) = change {
        let held = Held {
            bond: *bond,
            ticket: None,
        };
        bonds.insert(bond.serial, held)?;
    }
    Ok(())
}

fn take_bond(bonds: &mut BTreeMap<Serial, Held>, change: &Change)
    ensures { held_in bonds.new.entries ≡ without_row (held_in bonds.old.entries) (held_row change.now) }
{
    if let Change::Bond(bond) = change {
        let _ = bonds.remove(&bond.serial);
    }
}

/// Removes the bonds of these changes.
fn take_bonds(bonds: &mut BTreeMap<Serial, Held>, changes: &[Change])
    ensures { held_in bonds.new.entries ≡ without_changes held_row (held_in bonds.old.entries) changes.now }
{
    for change in changes {
        take_bond(bonds, change);
    }
}
