//! Checking whether each ticket by itself is one of sound books.

ghost use Rattle.std.specs.Prelude.{◌≡◌, ◌↔◌, ◌+◌, ◌≤◌, true, sum_by};
ghost use Rattle.std.specs.List.{AllByRecursion};
ghost use Rattle.std.specs.FinMap as finite;
ghost use Rattle.ee_desk_model.specs.Values.{value_of};
ghost use Rattle.ee_desk_model.specs.PlainBooks.{cents_of};
ghost use Rattle.ee_desk_model.specs.Sound.{NumberedFrom};
ghost use Rattle.ee_desk_soundness.specs.Inner.Checks.{PaysBond, IsWhole};

use ee_calculator::Bond;
use ee_desk_model::{Line, MOST_SERIALS, Terms, Ticket};
use ee_units::calendar::{month_of, period_of};
use ee_units::{Age, Cents, IssueMonth, Month};
use ee_value::{Quote, bond_value};
use std::collections::BTreeMap;

/// The age from which a bond can be redeemed, in months.
const FIRST_REDEMPTION: u16 = 12;

/// Whether a bond is at least 12 months old in a month, and worth these cents.
fn is_worth(terms: &Terms, bond: &Bond, month: Month, cents: Cents) -> bool
    ensures { (result ≡ true) ↔ ((bond.now.issued + 12 ≤ month) × (cents.0 ≡ value_of terms.now bond.now month)) }
{
    let issued = bond.issued.count();
    if month.count() < issued + FIRST_REDEMPTION {
        return false;
    }
    let age = Age::from_months(month.count() - issued);
    match bond_value(terms.table(), bond.denom, age) {
        Quote::Pays { cents: worth, .. } => cents == worth,
        Quote::NotEligible => false,
    }
}

/// Whether a ticket's line pays a bond correctly.
pub fn pays_bond(
    rates: &BTreeMap<IssueMonth, Terms>,
    bond: &Bond,
    ticket: &Ticket,
    line: &Line,
) -> bool
    ensures { (result ≡ true) ↔ PaysBond (finite.from_entries rates.now.entries) bond.now ticket.now line.now }
{
    match rates.get(&period_of(bond.issued)) {
        Some(terms) => bond.is_payee(ticket.payee)
            && is_worth(terms, bond, month_of(ticket.day), line.cents),
        None => false,
    }
}

/// Whether lines add up to this total.
fn sums_to(lines: &[Line], total: Cents) -> bool
    ensures { (result ≡ true) ↔ (total.0 ≡ sum_by cents_of lines.now) }
{
    let mut left = total.0;
    for line in lines {
        if line.cents.0 > left {
            return false;
        }
        left -= line.cents.0;
    }
    left == 0
}

/// Whether a ticket has 1 to 100 lines, and their sum.
fn is_whole(ticket: &Ticket) -> bool
    ensures { (result ≡ true) ↔ IsWhole ticket.now }
{
    let lines = ticket.lines.as_slice();
    !lines.is_empty() && lines.len() <= MOST_SERIALS && sums_to(lines, ticket.total)
}

/// Whether each ticket has 1 to 100 lines, and their sum.
pub fn are_whole(tickets: &[Ticket]) -> bool
    ensures { (result ≡ true) ↔ AllByRecursion IsWhole tickets.now }
{
    for ticket in tickets {
        if !is_whole(ticket) {
            return false;
        }
    }
    true
}

/// Whether tickets are numbered 1, 2, 3 and so on.
pub fn are_numbered(tickets: &[Ticket]) -> bool
    ensures { (result ≡ true) ↔ NumberedFrom 1 tickets.now }
{
    for (i, ticket) in tickets.iter().enumerate() {
        if ticket.ticket != i as u64 + 1 {
            return false;
        }
    }
    true
}
