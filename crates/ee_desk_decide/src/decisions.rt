//! Deciding an act on what it sees.
ghost use Rattle.std.specs.Prelude.{◌≡◌, ◌+◌, ◌≤◌, ◌<◌, [], ◌∷◌, ◌-◌, map, length, IfOk, None, Some};
ghost use Rattle.ee_units.specs.Calendar.{month_of_day};
ghost use Rattle.ee_desk_model.specs.Views.{shown_by};
ghost use Rattle.ee_desk_model.specs.Seen as seen;
ghost use Rattle.ee_desk_model.specs.Refusals.{first_of, near, refusal_of, refusal_of_serial};
ghost use Rattle.ee_desk_model.specs.Effects as is;
ghost use Rattle.ee_desk_model.specs.declared.changes.Change.TheVariants as change;
ghost use Rattle.ee_value.specs.Inner.Payment.{highest_value};

use crate::checks::{known_rate, refusal};
use crate::values::{settled_terms, worth};
use crate::views::View;
use ee_calculator::Bond;
use ee_desk_model::{
    Act, Batch, Change, Effects, Line, RateRow, Refusal, Reply, Rows, Ticket, UnitTables,
};
use ee_units::calendar::{month_of, period_of};
use ee_units::{Cents, Customer, Day, Month, Serial};
use std::alloc::{AllocError, Global};

/// The value of a bond in a month, at the rates in the view.
fn worth_by(view: &View, bond: &Bond, month: Month) -> Cents
    requires { bond.now.issued + 12 ≤ month }
    ensures value { result.0 ≡ seen.value_in (shown_by view.now) month bond.now }
    ensures small { result.0 ≤ highest_value }
{
    match view.terms(period_of(bond.issued)) {
        Some(terms) => worth(terms, bond, month),
        None => Cents(0),
    }
}

/// The line that pays a bond.
fn line_for(view: &View, month: Month, payee: Customer, serial: Serial) -> Line
    requires { refusal_of_serial (shown_by view.now) month payee serial ≡ None }
    ensures line { result ≡ seen.line_for (shown_by view.now) month serial }
    ensures small { result.cents.0 ≤ highest_value }
{
    let cents = match view.held(serial) {
        Some(held) => worth_by(view, &held.bond, month),
        None => Cents(0),
    };
    Line { serial, cents }
}

/// The next ticket, which pays these serial numbers.
fn ticket_for(
    alloc: Global,
    view: &View,
    day: Day,
    payee: Customer,
    serials: &[Serial],
) -> Result<Ticket, AllocError>
    requires few { length serials.now ≤ 100 }
    requires payable { first_of (refusal_of_serial (shown_by view.now) (month_of_day day) payee) serials.now ≡ None }
    ensures { IfOk result (λ t. t ≡ seen.ticket_for (shown_by view.now) day payee serials.now) }
{
    let mut lines = Vec::new(alloc);
    let mut total = 0;
    let month = month_of(day);
    for serial in serials {
        let line = line_for(view, month, payee, *serial);
        let cents = line.cents;
        lines.push(line)?;
        total += cents.0;
    }
    Ok(Ticket {
        ticket: view.tickets() + 1,
        day,
        payee,
        lines: Rows::new(lines),
        total: Cents(total),
    })
}

/// One change for each new row, with the kept table of its rates.
fn new_rates(
    alloc: Global,
    tables: &mut UnitTables,
    view: &View,
    rows: &[RateRow],
) -> Result<Vec<Change>, AllocError>
    requires { first_of near rows.now ≡ None }
    ensures changes { IfOk result (λ c. c.items ≡ map is.rate_change (is.new_rates (shown_by view.now) [] rows.now)) }
    ensures few { IfOk result (λ c. length c.items ≤ length rows.now) }
{
    let mut changes = Vec::new(alloc);
    for (i, row) in rows.iter().enumerate() {
        if known_rate(view, &rows[..i], row.from).is_none() {
            let terms = settled_terms(alloc, tables, row.rates)?;
            changes.push(Change::Rates(row.from, terms))?;
        }
    }
    Ok(changes)
}

/// One change for each new bond.
fn new_bonds(alloc: Global, view: &View, bonds: &[Bond]) -> Result<Vec<Change>, AllocError>
    ensures changes { IfOk result (λ c. c.items ≡ map change.Bond (is.new_bonds (shown_by view.now) bonds.now)) }
    ensures few { IfOk result (λ c. length c.items ≤ length bonds.now) }
{
    let mut changes = Vec::new(alloc);
    for bond in bonds {
        if view.held(bond.serial).is_none() {
            changes.push(Change::Bond(*bond))?;
        }
    }
    Ok(changes)
}

/// The effects of adding rows: these changes, and the counts of new and known rows.
fn added(changes: Vec<Change>, asked: usize) -> Effects
    requires { length changes.items ≤ asked }
    ensures { result ≡ record { changes = changes.items; reply = Reply.Added (length changes.items) (asked - length changes.items) } }
{
    let new = changes.len() as u64;
    Effects {
        changes: Rows::new(changes),
        reply: Reply::Added {
            new,
            same: asked as u64 - new,
        },
    }
}

fn accept_redeem(
    alloc: Global,
    view: &View,
    day: Day,
    payee: Customer,
    serials: &[Serial],
) -> Result<Effects, AllocError>
    requires few { length serials.now ≤ 100 }
    requires payable { first_of (refusal_of_serial (shown_by view.now) (month_of_day day) payee) serials.now ≡ None }
    ensures changes { IfOk result (λ e. e.changes ≡ change.Ticket (seen.ticket_for (shown_by view.now) day payee serials.now) ∷ []) }
    ensures reply { IfOk result (λ e. e.reply ≡ Reply.Ticket (seen.ticket_for (shown_by view.now) day payee serials.now)) }
{
    let ticket = ticket_for(alloc, view, day, payee, serials)?;
    let reply = Reply::Ticket(ticket.copy()?);
    let changes = Rows::new(vec![in alloc; Change::Ticket(ticket)]?);
    Ok(Effects { changes, reply })
}

fn accept_close(alloc: Global, view: &View, day: Day) -> Result<Effects, AllocError>
    ensures { IfOk result (λ e. e ≡ is.accepted (shown_by view.now) (Act.CloseDay day)) }
{
    let counts = view.counts();
    let batch = Batch {
        day,
        tickets: counts.tickets,
        bonds: counts.bonds,
        total: counts.total,
    };
    let changes = Rows::new(vec![in alloc; Change::Batch(batch)]?);
    Ok(Effects {
        changes,
        reply: Reply::Batch(batch),
    })
}

fn accept_open(alloc: Global, day: Day) -> Result<Effects, AllocError>
    ensures { IfOk result (λ e. e ≡ record { changes = change.Day day ∷ []; reply = Reply.Opened day }) }
{
    let changes = Rows::new(vec![in alloc; Change::Day(day)]?);
    Ok(Effects {
        changes,
        reply: Reply::Opened(day),
    })
}

fn refused(alloc: Global, refusal: Refusal) -> Effects
    ensures { result ≡ record { changes = []; reply = Reply.Refused refusal } }
{
    Effects {
        changes: Rows::new(Vec::new(alloc)),
        reply: Reply::Refused(refusal),
    }
}

/// The effects of an act that isn't refused.
fn accepted(
    alloc: Global,
    tables: &mut UnitTables,
    view: &View,
    act: &Act,
) -> Result<Effects, AllocError>
    requires { refusal_of (shown_by view.now) act.now ≡ None }
    ensures { IfOk result (λ e. e ≡ is.accepted (shown_by view.now) act.now) }
{
    match act {
        Act::AddRates(rows) => {
            let changes = new_rates(alloc, tables, view, rows.as_slice())?;
            Ok(added(changes, rows.as_slice().len()))
        }
        Act::AddBonds(bonds) => {
            let changes = new_bonds(alloc, view, bonds.as_slice())?;
            Ok(added(changes, bonds.as_slice().len()))
        }
        Act::OpenDay(day) => accept_open(alloc, *day),
        Act::Redeem {
            day,
            payee,
            serials,
        } => accept_redeem(alloc, view, *day, *payee, serials.as_slice()),
        Act::CloseDay(day) => accept_close(alloc, view, *day),
    }
}

/// The effects of an act, decided on what it sees of the books: its first refusal and no change, or the
/// changes of the whole act and its reply. Fails only if memory is refused.
pub fn decide(alloc: Global, view: &View, act: &Act) -> Result<Effects, AllocError>
    ensures { IfOk result (λ e. e ≡ is.effects_of (shown_by view.now) act.now) }
{
    let mut tables = UnitTables::new(alloc);
    match refusal(alloc, &mut tables, view, act)? {
        Some(refusal) => Ok(refused(alloc, refusal)),
        None => accepted(alloc, &mut tables, view, act),
    }
}
