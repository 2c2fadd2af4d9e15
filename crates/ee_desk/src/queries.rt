//! Queries on the records of a desk, which change nothing.

ghost use Rattle.std.specs.Prelude.{◌≡◌, ◌==◌, IfOk, find};
ghost use Rattle.std.specs.List.{filter_map};
ghost use Rattle.std.specs.List.Sorted.{IsStrictlySortedBy};
ghost use Rattle.std.specs.BTreeMap as tree;
ghost use Rattle.ee_desk_model.specs.Serials.{serial_cmp};
ghost use Rattle.ee_desk.specs.Inner.Kept.{own_bond};

use ee_calculator::Bond;
use ee_desk_model::{Batch, Held, Ticket};
use ee_units::{Customer, Day, Serial};
use std::alloc::{AllocError, Global};
use std::collections::BTreeMap;

/// A copy of the ticket with this number.
pub fn ticket_numbered(tickets: &[Ticket], number: u64) -> Result<Option<Ticket>, AllocError>
    ensures { IfOk result (λ t. t ≡ find (λ ticket. ticket.ticket == number) tickets.now) }
{
    for ticket in tickets {
        if ticket.ticket == number {
            return Ok(Some(ticket.copy()?));
        }
    }
    Ok(None)
}

/// The batch of a day.
pub fn batch_on(batches: &[Batch], day: Day) -> Option<Batch>
    ensures { result ≡ find (λ batch. batch.day == day) batches.now }
{
    for batch in batches {
        if batch.day == day {
            return Some(*batch);
        }
    }
    None
}

/// The unpaid bonds of an owner, in order of serial number.
pub fn own_bonds(
    alloc: Global,
    bonds: &BTreeMap<Serial, Held>,
    customer: Customer,
) -> Result<Vec<Bond>, AllocError>
    ensures own { IfOk result (λ v. v.items ≡ filter_map (own_bond customer) (tree.values bonds.now)) }
    ensures ordered { IsStrictlySortedBy serial_cmp (tree.keys bonds.now) }
{
    let mut own = Vec::new(alloc);
    for held in bonds.values() {
        if held.bond.owner == customer && held.ticket.is_none() {
            let bond = held.bond;
            own.push(bond)?;
        }
    }
    Ok(own)
}
