//! Books as lists.

ghost use Rattle.std.specs.Prelude.{◌≡◌, ◌↔◌, true, IfOk, IfErr, map};
ghost use Rattle.std.specs.List.{list_any};
ghost use Rattle.std.specs.List.Sorted.{IsStrictlySortedBy};
ghost use Rattle.std.specs.BTreeMap as tree;
ghost use Rattle.std.specs.Ordering.{nat_cmp};
ghost use Rattle.ee_desk_model.specs.PlainBooks.{ticket_of};
ghost use Rattle.ee_desk_model.specs.Serials.{same_serial, serial_cmp};
ghost use Rattle.ee_desk_soundness.specs.Checks.{parts_in, HaveRisingSerials, IsBefore};
ghost use Rattle.ee_desk_soundness.specs.Inner.Checks.{IsAfter};
ghost use Rattle.ee_desk_soundness.specs.Made.{IsMadeOf};
ghost use Rattle.ee_desk_soundness.specs.Marks.{bond_of};
ghost use Rattle.ee_desk_soundness.specs.Parts.{row_of_entry, AreUnsound};
ghost use Rattle.ee_desk.specs.Inner.Marks.{by_serial};
ghost use Rattle.ee_desk.specs.Parts.{as_lists};
ghost use Rattle.ee_desk.specs.Inner.Parts.{held_bond};

use ee_calculator::Bond;
use ee_desk_model::{Batch, Held, Line, RateRow, Rows, Terms, Ticket};
use ee_desk_soundness::{Indexes, PartsFault, checked};
use ee_units::{Day, IssueMonth, Serial};
use std::alloc::{AllocError, Global};
use std::collections::BTreeMap;

/// Books as lists: rates sorted by month and bonds sorted by serial number, each key once; tickets by
/// number, batches by day.
#[derive(Drop)]
pub struct Parts {
    pub rates: Rows<RateRow>,
    pub bonds: Rows<Bond>,
    /// The open day.
    pub day: Option<Day>,
    /// The last closed day.
    pub last_day: Option<Day>,
    pub tickets: Rows<Ticket>,
    pub batches: Rows<Batch>,
}

/// The rates of a map, in order of month.
pub fn rate_rows(
    alloc: Global,
    terms: &BTreeMap<IssueMonth, Terms>,
) -> Result<Vec<RateRow>, AllocError>
    ensures rows { IfOk result (λ rows. rows.items ≡ map row_of_entry terms.now.entries) }
    ensures ordered { IsStrictlySortedBy nat_cmp (tree.keys terms.now) }
{
    let mut rows = Vec::new(alloc);
    for (from, own) in terms.iter() {
        let rates = own.rates();
        rows.push(RateRow { from: *from, rates })?;
    }
    Ok(rows)
}

/// The bonds of a map, in order of serial.
pub fn held_bonds(alloc: Global, held: &BTreeMap<Serial, Held>) -> Result<Vec<Bond>, AllocError>
    ensures bonds { IfOk result (λ bonds. bonds.items ≡ map (λ one. one.bond) (tree.values held.now)) }
    ensures ordered { IsStrictlySortedBy serial_cmp (tree.keys held.now) }
{
    let mut bonds = Vec::new(alloc);
    for one in held.values() {
        let bond = one.bond;
        bonds.push(bond)?;
    }
    Ok(bonds)
}

/// The same tickets once more.
pub fn copy_tickets(alloc: Global, tickets: &[Ticket]) -> Result<Vec<Ticket>, AllocError>
    ensures { IfOk result (λ copies. copies.items ≡ tickets.now) }
{
    let mut copies = Vec::new(alloc);
    for ticket in tickets {
        let copy = ticket.copy()?;
        copies.push(copy)?;
    }
    Ok(copies)
}

fn is_later_serial(last: Option<Serial>, serial: Serial) -> bool
    ensures { (result ≡ true) ↔ IsAfter IsBefore last serial }
{
    match last {
        Some(last) => last < serial,
        None => true,
    }
}

/// Whether each serial number is before those after it in the list.
fn serials_rise(bonds: &[Bond]) -> bool
    ensures { (result ≡ true) ↔ HaveRisingSerials bonds.now }
{
    let mut last: Option<Serial> = None;
    for bond in bonds {
        if !is_later_serial(last, bond.serial) {
            return false;
        }
        last = Some(bond.serial);
    }
    true
}

/// Whether one of these lines pays a serial number.
fn pay(lines: &[Line], serial: Serial) -> bool
    ensures { result ≡ list_any (λ line. same_serial serial line.serial) lines.now }
{
    for line in lines {
        if serial == line.serial {
            return true;
        }
    }
    false
}

/// The number of the ticket that pays a serial number.
fn ticket_of(tickets: &[Ticket], serial: Serial) -> Option<u64>
    ensures { result ≡ ticket_of tickets.now serial }
{
    for ticket in tickets {
        if pay(ticket.lines.as_slice(), serial) {
            return Some(ticket.ticket);
        }
    }
    None
}

/// Each bond with the ticket that pays it.
fn held_rows(alloc: Global, bonds: &[Bond], tickets: &[Ticket]) -> Result<Vec<Held>, AllocError>
    ensures { IfOk result (λ rows. rows.items ≡ map (held_bond tickets.now) bonds.now) }
{
    let mut rows = Vec::new(alloc);
    for bond in bonds {
        let ticket = ticket_of(tickets, bond.serial);
        rows.push(Held {
            bond: *bond,
            ticket,
        })?;
    }
    Ok(rows)
}

/// The bonds of rows by serial number.
pub fn held_map(alloc: Global, rows: &[Held]) -> Result<BTreeMap<Serial, Held>, AllocError>
    requires { HaveRisingSerials (map bond_of rows.now) }
    ensures { IfOk result (λ map. map.entries ≡ by_serial rows.now) }
{
    let mut map = BTreeMap::new(alloc);
    for held in rows {
        map.insert(held.bond.serial, *held)?;
    }
    Ok(map)
}

/// What is made of parts while they are checked: their bonds as rows, and their indexes.
#[derive(Drop)]
pub struct Checked {
    pub rows: Vec<Held>,
    pub indexes: Indexes,
}

/// What is made of parts in these lists while they are checked.
fn checked_lists(
    alloc: Global,
    rates: &[RateRow],
    bonds: &[Bond],
    day: Option<Day>,
    last: Option<Day>,
    tickets: &[Ticket],
    batches: &[Batch],
) -> Result<Checked, PartsFault>
    ensures rows { IfOk result (λ own. own.rows.items ≡ map (held_bond tickets.now) bonds.now) }
    ensures ok { IfOk result (λ own. IsMadeOf (parts_in rates.now bonds.now day last tickets.now batches.now) own.indexes) }
    ensures unsound { IfErr result (λ fault. fault ≡ PartsFault.Unsound → AreUnsound (parts_in rates.now bonds.now day last tickets.now batches.now)) }
{
    if !serials_rise(bonds) {
        return Err(PartsFault::Unsound);
    }
    let rows = held_rows(alloc, bonds, tickets)?;
    match checked(alloc, rates, rows.as_slice(), day, last, tickets, batches) {
        Ok(indexes) => Ok(Checked { rows, indexes }),
        Err(fault) => Err(fault),
    }
}

/// What is made of these parts while they are checked. Fails if no sound books have these parts, or if memory
/// is refused.
pub fn checked_parts(alloc: Global, parts: &Parts) -> Result<Checked, PartsFault>
    ensures rows { IfOk result (λ own. own.rows.items ≡ map (held_bond parts.now.tickets) parts.now.bonds) }
    ensures ok { IfOk result (λ own. IsMadeOf (as_lists parts.now) own.indexes) }
    ensures unsound { IfErr result (λ fault. fault ≡ PartsFault.Unsound → AreUnsound (as_lists parts.now)) }
{
    checked_lists(
        alloc,
        parts.rates.as_slice(),
        parts.bonds.as_slice(),
        parts.day,
        parts.last_day,
        parts.tickets.as_slice(),
        parts.batches.as_slice(),
    )
}
