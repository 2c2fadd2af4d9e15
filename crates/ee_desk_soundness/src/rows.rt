//! Checking whether the rows of bonds name the tickets that pay them.

ghost use Rattle.std.specs.Prelude.{◌≡◌, ◌↔◌, true, find, length, count_by};
ghost use Rattle.std.specs.List.{AllByRecursion};
ghost use Rattle.std.specs.FinMap as finite;
ghost use Rattle.ee_desk_model.specs.Paid.{paid_lines};
ghost use Rattle.ee_desk_model.specs.Serials.{same_serial};
ghost use Rattle.ee_desk_model.specs.Sound.{NumberedFrom};
ghost use Rattle.ee_desk_soundness.specs.Inner.Checks.{IsOn, IsPaidBy, IsRightlyPaid};
ghost use Rattle.ee_desk_soundness.specs.Inner.Marks.{is_marked};

use crate::lines::pays_bond;
use ee_calculator::Bond;
use ee_desk_model::{Held, Line, Terms, Ticket};
use ee_units::{IssueMonth, Serial};
use std::collections::BTreeMap;

/// The first line with a serial number.
fn line_of(lines: &[Line], serial: Serial) -> Option<Line>
    ensures { result ≡ find (λ line. same_serial serial line.serial) lines.now }
{
    for line in lines {
        if serial == line.serial {
            return Some(*line);
        }
    }
    None
}

/// Whether a ticket has a line for a bond, which pays it correctly.
fn is_on(rates: &BTreeMap<IssueMonth, Terms>, ticket: &Ticket, bond: &Bond) -> bool
    ensures { (result ≡ true) ↔ IsOn (finite.from_entries rates.now.entries) bond.now ticket.now }
{
    match line_of(ticket.lines.as_slice(), bond.serial) {
        Some(line) => pays_bond(rates, bond, ticket, &line),
        None => false,
    }
}

/// Whether the ticket with a number pays a bond correctly. The tickets are numbered from 1.
fn is_paid_by(
    rates: &BTreeMap<IssueMonth, Terms>,
    tickets: &[Ticket],
    bond: &Bond,
    number: u64,
) -> bool
    requires { NumberedFrom 1 tickets.now }
    ensures { (result ≡ true) ↔ IsPaidBy (finite.from_entries rates.now.entries) tickets.now bond.now number }
{
    if number < 1 {
        return false;
    }
    let place = number - 1;
    if place >= tickets.len() as u64 {
        return false;
    }
    is_on(rates, &tickets[place as usize], bond)
}

/// Whether a row names no ticket, or one that pays its bond correctly.
fn is_rightly_paid(rates: &BTreeMap<IssueMonth, Terms>, tickets: &[Ticket], held: &Held) -> bool
    requires { NumberedFrom 1 tickets.now }
    ensures { (result ≡ true) ↔ IsRightlyPaid (finite.from_entries rates.now.entries) tickets.now held.now }
{
    match held.ticket {
        Some(number) => is_paid_by(rates, tickets, &held.bond, number),
        None => true,
    }
}

/// Whether each row names no ticket, or one that pays its bond correctly.
pub fn are_rightly_paid(
    rates: &BTreeMap<IssueMonth, Terms>,
    tickets: &[Ticket],
    rows: &[Held],
) -> bool
    requires { NumberedFrom 1 tickets.now }
    ensures { (result ≡ true) ↔ AllByRecursion (IsRightlyPaid (finite.from_entries rates.now.entries) tickets.now) rows.now }
{
    for held in rows {
        if !is_rightly_paid(rates, tickets, held) {
            return false;
        }
    }
    true
}

/// How many rows name a ticket.
fn marked(rows: &[Held]) -> usize
    ensures { result ≡ count_by is_marked rows.now }
{
    let mut count = 0;
    for held in rows {
        if held.ticket.is_some() {
            count += 1;
        }
    }
    count
}

/// Whether as many rows name a ticket as the tickets have lines.
pub fn are_as_many(rows: &[Held], tickets: &[Ticket]) -> bool
    ensures { (result ≡ true) ↔ (count_by is_marked rows.now ≡ length (paid_lines tickets.now)) }
{
    let mut left = marked(rows);
    for ticket in tickets {
        let lines = ticket.lines.as_slice();
        if lines.len() > left {
            return false;
        }
        left -= lines.len();
    }
    left == 0
}
