//! Code for proofs alone: its calls read the invariants of types, so that the plain numbers of parts of books are in
//! range in the clauses above it. When it runs, it changes nothing.

ghost use Rattle.std.specs.Prelude.{IfSome, map};
ghost use Rattle.std.specs.List.{AllByRecursion};
ghost use Rattle.ee_desk_model.specs.Sound.{IsDay};
ghost use Rattle.ee_desk_model.specs.Ranges.{BondFits};
ghost use Rattle.ee_desk_texts.specs.Ranges.{TicketFits, BatchFits};
ghost use Rattle.ee_desk_soundness.specs.Marks.{bond_of};
ghost use Rattle.ee_store_contents.specs.Inner.Contents.{PartsFit, parts_of_read};

use crate::parts::ReadParts;
use ee_desk_model::{Batch, Held, Ticket};
use ee_desk_texts::{batch_fits, bonds_fit, day_fits, rate_rows_fit, ticket_fits};
use ee_units::Day;

fn optional_day_fits(day: Option<Day>)
    ensures { IfSome day IsDay }
{
    if let Some(day) = day {
        day_fits(day);
    }
}

fn tickets_fit(tickets: &[Ticket])
    ensures { AllByRecursion TicketFits tickets.now }
{
    for ticket in tickets {
        ticket_fits(ticket);
    }
}

fn held_fit(bonds: &[Held])
    ensures { AllByRecursion BondFits (map bond_of bonds.now) }
{
    for held in bonds {
        bonds_fit(&[held.bond]);
    }
}

fn batches_fit(batches: &[Batch])
    ensures { AllByRecursion BatchFits batches.now }
{
    for batch in batches {
        batch_fits(*batch);
    }
}

/// Parts are in range, by their types.
pub fn parts_fit(parts: &ReadParts)
    ensures { PartsFit (parts_of_read parts.now) }
{
    optional_day_fits(parts.day);
    optional_day_fits(parts.last_day);
    rate_rows_fit(&parts.rates);
    held_fit(&parts.bonds);
    tickets_fit(&parts.tickets);
    batches_fit(&parts.batches);
}
