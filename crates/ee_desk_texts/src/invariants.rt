//! Code for proofs alone: its calls read the invariants of types, so that the plain numbers of acts and replies are in
//! range in the clauses above it. When it runs, it changes nothing.

ghost use Rattle.std.specs.Prelude.{IfSome};
ghost use Rattle.std.specs.List.{AllByRecursion};
ghost use Rattle.ee_desk_model.specs.Sound.{IsDay};
ghost use Rattle.ee_desk_texts.specs.Data.{names};
ghost use Rattle.ee_desk_model.specs.Ranges.{IsSerial, IsCustomer, BondFits};
ghost use Rattle.ee_desk_texts.specs.Ranges.{RateRowFits, ActFits, LineFits, TicketFits, BatchFits, NamedFits, ReplyFits};

use crate::refusals::{Named, names};
use ee_calculator::Bond;
use ee_desk_model::{Act, Batch, Line, RateRow, Reply, Ticket};
use ee_units::{Customer, Day, Serial};

/// A day is in range, by its type.
pub fn day_fits(day: Day)
    ensures { IsDay day }
{
    let _count = day.count();
}

fn serial_fits(serial: Serial)
    ensures { IsSerial serial }
{
    let _letter = serial.letter();
    let _number = serial.number();
}

fn customer_fits(customer: Customer)
    ensures { IsCustomer customer }
{
    let _number = customer.number();
}

fn coowner_fits(coowner: Option<Customer>)
    ensures { IfSome coowner IsCustomer }
{
    if let Some(coowner) = coowner {
        customer_fits(coowner);
    }
}

fn rate_row_fits(row: &RateRow)
    ensures { RateRowFits row.now }
{
    let _month = row.from.count();
    let _rate = row.rates.rate_in(0);
}

/// Rates are in range, by their types.
pub fn rate_rows_fit(rows: &[RateRow])
    ensures { AllByRecursion RateRowFits rows.now }
{
    for row in rows {
        rate_row_fits(row);
    }
}

fn bond_fits(bond: &Bond)
    ensures { BondFits bond.now }
{
    serial_fits(bond.serial);
    let _month = bond.issued.count();
    customer_fits(bond.owner);
    coowner_fits(bond.coowner);
}

/// Bonds are in range, by their types.
pub fn bonds_fit(bonds: &[Bond])
    ensures { AllByRecursion BondFits bonds.now }
{
    for bond in bonds {
        bond_fits(bond);
    }
}

fn serials_fit(serials: &[Serial])
    ensures { AllByRecursion IsSerial serials.now }
{
    for serial in serials {
        serial_fits(*serial);
    }
}

/// An act is in range, by its types.
pub fn act_fits(act: &Act)
    ensures { ActFits act.now }
{
    match act {
        Act::AddRates(rows) => rate_rows_fit(rows.as_slice()),
        Act::AddBonds(bonds) => bonds_fit(bonds.as_slice()),
        Act::OpenDay(day) | Act::CloseDay(day) => day_fits(*day),
        Act::Redeem {
            day,
            payee,
            serials,
        } => {
            day_fits(*day);
            customer_fits(*payee);
            serials_fit(serials.as_slice());
        }
    }
}

fn line_fits(line: &Line)
    ensures { LineFits line.now }
{
    serial_fits(line.serial);
    let _cents = line.cents.0;
}

fn lines_fit(lines: &[Line])
    ensures { AllByRecursion LineFits lines.now }
{
    for line in lines {
        line_fits(line);
    }
}

/// A ticket is in range, by its types.
pub fn ticket_fits(ticket: &Ticket)
    ensures { TicketFits ticket.now }
{
    let _number = ticket.ticket;
    day_fits(ticket.day);
    customer_fits(ticket.payee);
    lines_fit(ticket.lines.as_slice());
    let _total = ticket.total.0;
}

/// A batch is in range, by its types.
pub fn batch_fits(batch: Batch)
    ensures { BatchFits batch }
{
    day_fits(batch.day);
}

fn named_fits(named: Named)
    ensures { NamedFits named }
{
    match named {
        Named::Nothing => {}
        Named::Period(month) => {
            let _month = month.count();
        }
        Named::Months(age) => {
            let _months = age.months();
        }
        Named::Bond(serial) | Named::Paid(serial, _) => serial_fits(serial),
    }
}

/// A reply is in range, by its types.
pub fn reply_fits(reply: &Reply)
    ensures { ReplyFits reply.now }
{
    match reply {
        Reply::Added { new, same } => {
            let _counts = (*new, *same);
        }
        Reply::Opened(day) => day_fits(*day),
        Reply::Ticket(ticket) => ticket_fits(ticket),
        Reply::Batch(batch) => batch_fits(*batch),
        Reply::Refused(refusal) => named_fits(names(refusal)),
    }
}
