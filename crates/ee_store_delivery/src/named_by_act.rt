//! What an act names: serial numbers of bonds, and periods of rates.

ghost use Rattle.std.specs.Prelude.{◌≡◌, [], ◌++◌, IfOk, OnOk, map};
ghost use Rattle.std.specs.Option.{option_map};
ghost use Rattle.std.specs.List.{filter_map, cons_option};
ghost use Rattle.std.specs.FinMap as finite;
ghost use Rattle.ee_units.specs.Calendar.{period_start};
ghost use Rattle.ee_desk_model.specs.PlainBooks.{PlainBooks};
ghost use Rattle.ee_desk_model.specs.Seen.{held_of};
ghost use Rattle.ee_desk_model.specs.Views as is;
ghost use Rattle.ee_desk_model.specs.Views.{picked, period_of_held};
ghost use Rattle.ee_store_books.specs.Found.{bonds_found};

use ee_calculator::Bond;
use ee_desk_model::{Act, Held, RateRow};
use ee_units::calendar::period_of;
use ee_units::{IssueMonth, Serial};
use std::alloc::{AllocError, Global};
use std::collections::BTreeMap;

fn serials_of_bonds(alloc: Global, bonds: &[Bond]) -> Result<Vec<Serial>, AllocError>
    ensures { IfOk result (λ serials. serials.items ≡ map (λ bond. bond.serial) bonds.now) }
{
    let mut serials = Vec::new(alloc);
    for bond in bonds {
        serials.push(bond.serial)?;
    }
    Ok(serials)
}

/// The serial numbers that an act names.
pub fn serials_of(alloc: Global, act: &Act) -> Result<Vec<Serial>, AllocError>
    ensures { IfOk result (λ serials. serials.items ≡ is.serials_of act.now) }
{
    match act {
        Act::AddBonds(bonds) => serials_of_bonds(alloc, bonds.as_slice()),
        Act::Redeem { serials, .. } => Vec::from_slice(alloc, serials.as_slice()),
        Act::AddRates(_) | Act::OpenDay(_) | Act::CloseDay(_) => Ok(Vec::new(alloc)),
    }
}

fn periods_of_rates(alloc: Global, rows: &[RateRow]) -> Result<Vec<IssueMonth>, AllocError>
    ensures { IfOk result (λ periods. periods.items ≡ map (λ row. row.from) rows.now) }
{
    let mut periods = Vec::new(alloc);
    for row in rows {
        periods.push(row.from)?;
    }
    Ok(periods)
}

fn periods_of_bonds(alloc: Global, bonds: &[Bond]) -> Result<Vec<IssueMonth>, AllocError>
    ensures { IfOk result (λ periods. periods.items ≡ map (λ bond. period_start bond.issued) bonds.now) }
{
    let mut periods = Vec::new(alloc);
    for bond in bonds {
        periods.push(period_of(bond.issued))?;
    }
    Ok(periods)
}

/// The entry that was found for a serial number.
fn found_of(found: &BTreeMap<Serial, Held>, serial: Serial) -> Option<Held>
    ensures { result ≡ finite.get (bonds_found found.now.entries) serial }
{
    found.get(&serial).copied()
}

fn push_period(periods: &mut Vec<IssueMonth>, held: Option<Held>) -> Result<(), AllocError>
    ensures { OnOk result (periods.new.items ≡ periods.old.items ++ cons_option (option_map period_of_held held) []) }
{
    if let Some(held) = held {
        periods.push(period_of(held.bond.issued))?;
    }
    Ok(())
}

/// The issue periods of the bonds that were found.
fn periods_found(
    alloc: Global,
    found: &BTreeMap<Serial, Held>,
    serials: &[Serial],
) -> Result<Vec<IssueMonth>, AllocError>
    ensures { IfOk result
        (λ periods. periods.items ≡ filter_map (λ serial. option_map period_of_held (finite.get (bonds_found found.now.entries) serial)) serials.now) }
{
    let mut periods = Vec::new(alloc);
    for serial in serials {
        push_period(&mut periods, found_of(found, *serial))?;
    }
    Ok(periods)
}

/// The periods whose rates an act needs, given the bonds that it names.
pub fn periods_of(
    alloc: Global,
    found: &BTreeMap<Serial, Held>,
    act: &Act,
) -> Result<Vec<IssueMonth>, AllocError>
    ensures { IfOk result (λ periods. (books : PlainBooks) → bonds_found found.now.entries ≡ picked (held_of books) (is.serials_of act.now)
        → periods.items ≡ is.periods_of books act.now) }
{
    match act {
        Act::AddRates(rows) => periods_of_rates(alloc, rows.as_slice()),
        Act::AddBonds(bonds) => periods_of_bonds(alloc, bonds.as_slice()),
        Act::Redeem { serials, .. } => periods_found(alloc, found, serials.as_slice()),
        Act::OpenDay(_) | Act::CloseDay(_) => Ok(Vec::new(alloc)),
    }
}
