//! Reading the texts that a store has most of, redemptions and their tickets, without a tree of JSON.
//!
//! Nothing is promised of what is read: a caller takes it only if its text is the text that was read, and
//! otherwise reads the text as JSON. So a mistake here would cost time alone.

use crate::money::cents_in;
use ee_desk_model::{Act, Line, Reply, Rows, Ticket};
use ee_units::{Cents, Customer, Day, Serial, read_customer, read_day, read_serial};
use std::alloc::{AllocError, Global};

/// What a redemption has before its list, and the list.
fn redemption_parts(text: &str) -> Option<(Day, Customer, &str)> {
    let rest = text.strip_prefix(r#"{"act":"redeem","day":""#)?;
    let (day, rest) = rest.split_once(r#"","payee":"#)?;
    let (payee, rest) = rest.split_once(r#","serials":[""#)?;
    let list = rest.strip_suffix(r#""]}"#)?;
    Some((read_day(day).ok()?, read_customer(payee).ok()?, list))
}

/// Reads a redemption. `None` for most other texts.
pub fn quick_act(alloc: Global, text: &str) -> Result<Option<Act>, AllocError> {
    let Some((day, payee, list)) = redemption_parts(text) else {
        return Ok(None);
    };
    let mut serials: Vec<Serial> = Vec::new(alloc);
    for serial in list.split(r#"",""#) {
        let Ok(serial) = read_serial(serial) else {
            return Ok(None);
        };
        serials.push(serial)?;
    }
    Ok(Some(Act::Redeem {
        day,
        payee,
        serials: Rows::new(serials),
    }))
}

/// What a ticket has beside its lines, and these.
#[derive(Drop)]
struct TicketParts<'a> {
    ticket: u64,
    day: Day,
    payee: Customer,
    total: Cents,
    lines: &'a str,
}

fn ticket_parts(text: &str) -> Option<TicketParts<'_>> {
    let rest = text.strip_prefix(r#"{"day":""#)?;
    let (day, rest) = rest.split_once(r#"","lines":[{"paid":""#)?;
    let (lines, rest) = rest.split_once(r#""}],"payee":"#)?;
    let (payee, rest) = rest.split_once(r#","ticket":"#)?;
    let (ticket, rest) = rest.split_once(r#","total":""#)?;
    let total = rest.strip_suffix(r#""}"#)?;
    Some(TicketParts {
        ticket: ticket.parse::<u64>().ok()?,
        day: read_day(day).ok()?,
        payee: read_customer(payee).ok()?,
        total: cents_in(total)?,
        lines,
    })
}

fn line_of(text: &str) -> Option<Line> {
    let (paid, serial) = text.split_once(r#"","serial":""#)?;
    Some(Line {
        serial: read_serial(serial).ok()?,
        cents: cents_in(paid)?,
    })
}

/// Reads a ticket. `None` for most other texts.
pub fn quick_reply(alloc: Global, text: &str) -> Result<Option<Reply>, AllocError> {
    let Some(parts) = ticket_parts(text) else {
        return Ok(None);
    };
    let mut lines: Vec<Line> = Vec::new(alloc);
    for line in parts.lines.split(r#""},{"paid":""#) {
        let Some(line) = line_of(line) else {
            return Ok(None);
        };
        lines.push(line)?;
    }
    Ok(Some(Reply::Ticket(Ticket {
        ticket: parts.ticket,
        day: parts.day,
        payee: parts.payee,
        lines: Rows::new(lines),
        total: parts.total,
    })))
}
