//! Values as the rows of the tables.

ghost use Rattle.std.specs.Prelude.{◌≡◌, ◌≤◌, IfOk, IfErr, IfSome, All, map, length, Some, None};
ghost use Rattle.std.specs.List.{AllByRecursion};
ghost use Rattle.std.specs.Result.{IsOk};
ghost use Rattle.ee_store_tables.specs.AsRows.{
  Fits,
  FitsLine,
  FitsTicket,
  FitsBatch,
  FitsUnpaid,
  row_of_line,
  row_of_ticket,
  row_of_batch,
  key_of_unpaid,
  row_of_unpaid,
};
ghost use Rattle.ee_store_rows.specs.Rows as standing;

use ee_calculator::Bond;
use ee_desk_model::{Batch, Line, Ticket};
use ee_store_tables::{BatchRow, Failure, PaidRow, TicketRow, UnpaidBond};
use ee_units::Customer;
use std::alloc::Global;

/// A number that fits a column of the store: `StoreFailed` above 2^63 - 1.
pub fn whole(number: u64) -> Result<u64, Failure>
    ensures value { IfOk result (λ n. (n ≡ number) × Fits n) }
    ensures fits { Fits number → IsOk result }
{
    if number <= 9_223_372_036_854_775_807 {
        Ok(number)
    } else {
        Err(Failure::StoreFailed)
    }
}

/// An optional number that fits a column of the store: `StoreFailed` above 2^63 - 1.
pub fn whole_option(number: Option<u64>) -> Result<Option<u64>, Failure>
    ensures value { IfOk result (λ n. (n ≡ number) × IfSome n Fits) }
    ensures fits { IfSome number Fits → IsOk result }
{
    match number {
        None => Ok(None),
        Some(number) => Ok(Some(whole(number)?)),
    }
}

fn line_row(line: &Line) -> Result<PaidRow, Failure>
    ensures row { IfOk result (λ row. (row_of_line row ≡ standing.paid_row line.now) × FitsLine row) }
    ensures fits { Fits line.now.cents.0 → IsOk result }
{
    let cents = whole(line.cents.0)?;
    Ok(PaidRow {
        letter: line.serial.letter() as u64,
        number: line.serial.number(),
        cents,
    })
}

/// The rows of at most 100 lines.
pub fn line_rows(alloc: Global, lines: &[Line]) -> Result<Vec<PaidRow>, Failure>
    ensures rows { IfOk result (λ rows. map row_of_line rows.items ≡ map standing.paid_row lines.now) }
    ensures fit { IfOk result (λ rows. All FitsLine rows.items) }
    ensures served { AllByRecursion (λ line. Fits line.cents.0) lines.now → IfErr result (λ e. e ≡ Failure.NoMemory) }
{
    let mut rows = Vec::new(alloc);
    for line in lines {
        let row = line_row(line)?;
        if rows.push(row).is_err() {
            return Err(Failure::NoMemory);
        }
    }
    Ok(rows)
}

/// The row of a ticket: `StoreFailed` if its total exceeds 2^63 - 1 cents, which no column holds.
pub fn ticket_row(ticket: &Ticket) -> Result<TicketRow, Failure>
    ensures row { IfOk result (λ row. (row_of_ticket row ≡ standing.ticket_row ticket.now) × FitsTicket row) }
    ensures fits { length ticket.now.lines ≤ 100 → Fits ticket.now.total.0 → IsOk result }
{
    let bonds = whole(ticket.lines.as_slice().len() as u64)?;
    let total = whole(ticket.total.0)?;
    Ok(TicketRow {
        day: ticket.day.count() as u64,
        payee: ticket.payee.number() as u64,
        bonds,
        total,
    })
}

/// The row of a batch: `StoreFailed` if one of its numbers exceeds 2^63 - 1, which no column holds.
pub fn batch_row(batch: &Batch) -> Result<BatchRow, Failure>
    ensures row { IfOk result (λ row. (row_of_batch row ≡ standing.batch_row batch.now) × FitsBatch row) }
    ensures fits { Fits batch.now.tickets → Fits batch.now.bonds → Fits batch.now.total.0 → IsOk result }
{
    let tickets = whole(batch.tickets)?;
    let bonds = whole(batch.bonds)?;
    let total = whole(batch.total.0)?;
    Ok(BatchRow {
        tickets,
        bonds,
        total,
    })
}

fn coowner_number(coowner: Option<Customer>) -> Option<u64>
    ensures value { result ≡ coowner }
    ensures fits { IfSome result Fits }
{
    match coowner {
        None => None,
        Some(coowner) => Some(coowner.number() as u64),
    }
}

/// The row of an unpaid bond.
pub fn bond_row(bond: &Bond) -> UnpaidBond
    ensures key { key_of_unpaid result ≡ standing.key_of bond.now.serial }
    ensures row { row_of_unpaid result ≡ standing.bond_row (record { bond = bond.now; ticket = None }) }
    ensures fits { FitsUnpaid result }
{
    let coowner = coowner_number(bond.coowner);
    UnpaidBond {
        letter: bond.serial.letter() as u64,
        number: bond.serial.number(),
        denom: bond.denom.dollars(),
        issued: bond.issued.count() as u64,
        owner: bond.owner.number() as u64,
        coowner,
    }
}
