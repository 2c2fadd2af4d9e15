//! What an act sees of the books.

ghost use Rattle.std.specs.Prelude.{◌≡◌, ◌≤◌, IfOk, OnOk, map, length};
ghost use Rattle.std.specs.Option.{option_map};
ghost use Rattle.std.specs.List.{filter_map};
ghost use Rattle.std.specs.FinMap as finite;
ghost use Rattle.ee_units.specs.Calendar.{period_start};
ghost use Rattle.ee_desk_model.specs.Seen.{held_of};
ghost use Rattle.ee_desk_model.specs.Views as is;
ghost use Rattle.ee_desk_model.specs.Views.{picked, period_of_held};
ghost use Rattle.ee_desk_decide.specs.Noted.{rates_in, held_in};
ghost use Rattle.ee_desk_decide.specs.Inner.Noted.{noted, noted_at};
ghost use Rattle.ee_desk.specs.Inner.Kept.{AreCounts};
ghost use Rattle.ee_desk_model.specs.Limits.{highest_ticket};

use crate::ledger::Ledger;
use ee_calculator::Bond;
use ee_desk_decide::{DayCounts, View, ViewParts, length_refusal, note_bond};
use ee_desk_model::{Act, Held, RateRow, Terms};
use ee_units::calendar::period_of;
use ee_units::{IssueMonth, Serial};
use std::alloc::{AllocError, Global};
use std::collections::BTreeMap;

/// Notes the terms of a period, if there are any.
fn note_rate(
    found: &mut BTreeMap<IssueMonth, Terms>,
    ledger: &Ledger,
    period: IssueMonth,
) -> Result<(), AllocError>
    ensures { OnOk result (rates_in found.new.entries ≡ noted (finite.get ledger.now.rates) (rates_in found.old.entries) period) }
{
    if let Some(terms) = ledger.terms(period) {
        let shared = terms.share()?;
        found.insert(period, shared)?;
    }
    Ok(())
}

/// Notes the terms of a bond's issue period, if the bond is registered.
fn note_bond_rate(
    found: &mut BTreeMap<IssueMonth, Terms>,
    ledger: &Ledger,
    serial: Serial,
) -> Result<(), AllocError>
    ensures { OnOk result (rates_in found.new.entries
        ≡ noted_at (finite.get ledger.now.rates) (rates_in found.old.entries) (option_map period_of_held (held_of ledger.now serial))) }
{
    match ledger.held(serial) {
        Some(held) => note_rate(found, ledger, period_of(held.bond.issued)),
        None => Ok(()),
    }
}

/// Notes the entry of a serial number, if it is registered.
fn note_held(
    found: &mut BTreeMap<Serial, Held>,
    ledger: &Ledger,
    serial: Serial,
) -> Result<(), AllocError>
    ensures { OnOk result (held_in found.new.entries ≡ noted (held_of ledger.now) (held_in found.old.entries) serial) }
{
    match ledger.held(serial) {
        Some(held) => note_bond(found, serial, &held),
        None => Ok(()),
    }
}

/// The rates of the months of rows.
fn rates_of_rows(
    alloc: Global,
    ledger: &Ledger,
    rows: &[RateRow],
) -> Result<BTreeMap<IssueMonth, Terms>, AllocError>
    ensures { IfOk result (λ m. rates_in m.entries ≡ picked (finite.get ledger.now.rates) (map (λ row. row.from) rows.now)) }
{
    let mut found = BTreeMap::new(alloc);
    for row in rows {
        note_rate(&mut found, ledger, row.from)?;
    }
    Ok(found)
}

/// The rates of the issue periods of the registered bonds that are named.
fn rates_of_serials(
    alloc: Global,
    ledger: &Ledger,
    serials: &[Serial],
) -> Result<BTreeMap<IssueMonth, Terms>, AllocError>
    ensures { IfOk result (λ m. rates_in m.entries ≡ picked (finite.get ledger.now.rates) (filter_map
        (λ s. option_map period_of_held (held_of ledger.now s)) serials.now)) }
{
    let mut found = BTreeMap::new(alloc);
    for serial in serials {
        note_bond_rate(&mut found, ledger, *serial)?;
    }
    Ok(found)
}

/// The entries of the serial numbers that are named.
fn held_of_serials(
    alloc: Global,
    ledger: &Ledger,
    serials: &[Serial],
) -> Result<BTreeMap<Serial, Held>, AllocError>
    ensures { IfOk result (λ m. held_in m.entries ≡ picked (held_of ledger.now) serials.now) }
{
    let mut found = BTreeMap::new(alloc);
    for serial in serials {
        note_held(&mut found, ledger, *serial)?;
    }
    Ok(found)
}

/// The rates of the issue periods of rows.
fn rates_of_bonds(
    alloc: Global,
    ledger: &Ledger,
    bonds: &[Bond],
) -> Result<BTreeMap<IssueMonth, Terms>, AllocError>
    ensures { IfOk result (λ m. rates_in m.entries ≡ picked (finite.get ledger.now.rates) (map (λ bond. period_start bond.issued) bonds.now)) }
{
    let mut found = BTreeMap::new(alloc);
    for bond in bonds {
        note_rate(&mut found, ledger, period_of(bond.issued))?;
    }
    Ok(found)
}

/// The entries of the serial numbers of rows.
fn held_of_bonds(
    alloc: Global,
    ledger: &Ledger,
    bonds: &[Bond],
) -> Result<BTreeMap<Serial, Held>, AllocError>
    ensures { IfOk result (λ m. held_in m.entries ≡ picked (held_of ledger.now) (map (λ bond. bond.serial) bonds.now)) }
{
    let mut found = BTreeMap::new(alloc);
    for bond in bonds {
        note_held(&mut found, ledger, bond.serial)?;
    }
    Ok(found)
}

fn no_rates(alloc: Global) -> BTreeMap<IssueMonth, Terms>
    ensures { rates_in result.entries ≡ finite.empty }
{
    BTreeMap::new(alloc)
}

fn no_bonds(alloc: Global) -> BTreeMap<Serial, Held>
    ensures { held_in result.entries ≡ finite.empty }
{
    BTreeMap::new(alloc)
}

/// The rates that an act names.
fn rates_of(
    alloc: Global,
    ledger: &Ledger,
    act: &Act,
) -> Result<BTreeMap<IssueMonth, Terms>, AllocError>
    ensures { IfOk result (λ m. rates_in m.entries ≡ picked (finite.get ledger.now.rates) (is.periods_of ledger.now act.now)) }
{
    match act {
        Act::AddRates(rows) => rates_of_rows(alloc, ledger, rows.as_slice()),
        Act::AddBonds(bonds) => rates_of_bonds(alloc, ledger, bonds.as_slice()),
        Act::Redeem { serials, .. } => rates_of_serials(alloc, ledger, serials.as_slice()),
        Act::OpenDay(_) | Act::CloseDay(_) => Ok(no_rates(alloc)),
    }
}

/// The bonds that an act names.
fn bonds_of(alloc: Global, ledger: &Ledger, act: &Act) -> Result<BTreeMap<Serial, Held>, AllocError>
    ensures { IfOk result (λ m. held_in m.entries ≡ picked (held_of ledger.now) (is.serials_of act.now)) }
{
    match act {
        Act::AddBonds(bonds) => held_of_bonds(alloc, ledger, bonds.as_slice()),
        Act::Redeem { serials, .. } => held_of_serials(alloc, ledger, serials.as_slice()),
        Act::AddRates(_) | Act::OpenDay(_) | Act::CloseDay(_) => Ok(no_bonds(alloc)),
    }
}

/// The open day's tickets, for acts that count them.
fn counted(ledger: &Ledger, act: &Act) -> DayCounts
    ensures { AreCounts (is.counted ledger.now act.now) result }
{
    match act {
        Act::Redeem { .. } | Act::CloseDay(_) => ledger.counts(),
        Act::AddRates(_) | Act::AddBonds(_) | Act::OpenDay(_) => DayCounts::of_tickets(0),
    }
}

/// The counts of the open day that an act depends on: a redemption depends on the number of tickets.
fn needed_counts(ledger: &Ledger, act: &Act) -> DayCounts
    ensures { AreCounts (is.needed_counts ledger.now act.now) result }
{
    match act {
        Act::Redeem { .. } => DayCounts::of_tickets(ledger.counts().tickets),
        Act::CloseDay(_) => ledger.counts(),
        Act::AddRates(_) | Act::AddBonds(_) | Act::OpenDay(_) => DayCounts::of_tickets(0),
    }
}

/// What an act names in a ledger, with these counts of the open day's tickets.
fn view_with(
    alloc: Global,
    ledger: &Ledger,
    act: &Act,
    counts: DayCounts,
) -> Result<View, AllocError>
    requires { length ledger.now.tickets ≤ highest_ticket }
    ensures { IfOk result (λ v. v
        ≡ record (is.view_of ledger.now act.now) { day_tickets = counts.tickets; day_bonds = counts.bonds; day_total = counts.total.0 }) }
{
    let rates = rates_of(alloc, ledger, act)?;
    let bonds = bonds_of(alloc, ledger, act)?;
    let tickets = ledger.tickets().len() as u64;
    Ok(View::new(ViewParts {
        rates,
        bonds,
        day: ledger.day(),
        last_day: ledger.last_day(),
        tickets,
        day_tickets: counts.tickets,
        day_bonds: counts.bonds,
        day_total: counts.total,
    }))
}

/// What an act names in a ledger.
pub fn view_of(alloc: Global, ledger: &Ledger, act: &Act) -> Result<View, AllocError>
    requires { length ledger.now.tickets ≤ highest_ticket }
    ensures { IfOk result (λ v. v ≡ is.view_of ledger.now act.now) }
{
    let counts = counted(ledger, act);
    view_with(alloc, ledger, act, counts)
}

/// What an act depends on, if the length of its list doesn't refuse it.
fn needed_within(alloc: Global, ledger: &Ledger, act: &Act) -> Result<View, AllocError>
    requires { length ledger.now.tickets ≤ highest_ticket }
    ensures { IfOk result (λ v. v ≡ is.needed_within ledger.now act.now) }
{
    let counts = needed_counts(ledger, act);
    view_with(alloc, ledger, act, counts)
}

/// What an act depends on: nothing of the ledger if the length of its list refuses it.
pub fn needed_of(alloc: Global, ledger: &Ledger, act: &Act) -> Result<View, AllocError>
    requires { length ledger.now.tickets ≤ highest_ticket }
    ensures { IfOk result (λ v. v ≡ is.needed_of ledger.now act.now) }
{
    match length_refusal(act) {
        Some(_) => Ok(View::of_nothing(alloc)),
        None => needed_within(alloc, ledger, act),
    }
}
