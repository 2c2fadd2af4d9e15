//! Tickets, each with its lines.

ghost use Rattle.std.specs.Prelude.{◌≡◌, ◌+◌, ◌<◌, IfOk, option_map};
ghost use Rattle.ee_store_contents.specs.Inner.Reading.{line_at, lines_at, ticket_with, ticket_in, tickets_in};

use ee_desk_model::{Line, Rows, Ticket};
use ee_store_load::{StoredLine, StoredTicket};
use ee_store_rows::line_with;
use ee_units::{Cents, Customer, Day};
use std::alloc::{AllocError, Global};

fn line_in(ticket: u64, place: u64, row: &StoredLine) -> Option<Line>
    ensures { result ≡ line_at ticket place row.now }
{
    if row.ticket == ticket && row.place == place {
        line_with(row.letter, row.number, row.cents)
    } else {
        None
    }
}

/// The lines of a ticket, with the places 1, 2, 3 and so on.
fn lines_in(
    alloc: Global,
    ticket: u64,
    rows: &[StoredLine],
) -> Result<Option<Vec<Line>>, AllocError>
    ensures { IfOk result (λ o. option_map (λ v. v.items) o ≡ lines_at ticket 1 rows.now) }
{
    let mut lines = Vec::with_capacity(alloc, rows.len())?;
    for (i, row) in rows.iter().enumerate() {
        let Some(line) = line_in(ticket, i as u64 + 1, row) else {
            return Ok(None);
        };
        lines.push(line)?;
    }
    Ok(Some(lines))
}

#[tactic(auto, unfolding(crate::specs::Inner::Reading::ticket_with))]
fn ticket_with(row: &StoredTicket, lines: Vec<Line>) -> Option<Ticket>
    ensures { result ≡ ticket_with row.now lines.items }
{
    let day = Day::new(row.day)?;
    let payee: Customer = Customer::new(row.payee)?;
    Some(Ticket {
        ticket: row.ticket,
        day,
        payee,
        lines: Rows::new(lines),
        total: Cents(row.total),
    })
}

/// A ticket with these lines.
fn ticket_in(
    alloc: Global,
    row: &StoredTicket,
    own: &[StoredLine],
) -> Result<Option<Ticket>, AllocError>
    ensures { IfOk result (λ o. o ≡ ticket_in row.now own.now) }
{
    match lines_in(alloc, row.ticket, own)? {
        Some(lines) => Ok(ticket_with(row, lines)),
        None => Ok(None),
    }
}

/// The tickets of rows, each with its lines; `None` if a line is left over.
pub fn tickets_in(
    alloc: Global,
    rows: &[StoredTicket],
    lines: &[StoredLine],
) -> Result<Option<Vec<Ticket>>, AllocError>
    ensures { IfOk result (λ o. option_map (λ v. v.items) o ≡ tickets_in rows.now lines.now) }
{
    let mut tickets = Vec::with_capacity(alloc, rows.len())?;
    let mut rest = lines;
    for row in rows {
        if row.bonds > rest.len() as u64 {
            return Ok(None);
        }
        let (own, later) = rest.split_at(row.bonds as usize);
        let Some(ticket) = ticket_in(alloc, row, own)? else {
            return Ok(None);
        };
        tickets.push(ticket)?;
        rest = later;
    }
    if rest.is_empty() {
        Ok(Some(tickets))
    } else {
        Ok(None)
    }
}
