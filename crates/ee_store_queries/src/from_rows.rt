//! The batches, tickets and bonds in the rows of the tables.

ghost use Rattle.std.specs.Prelude.{◌≡◌, List, IfOk, IfErr, IfSome, IsSome, All, map};
ghost use Rattle.std.specs.List.{AllByRecursion};
ghost use Rattle.std.specs.Option.{option_map};
ghost use Rattle.ee_calculator.specs.declared.bonds.Bond.{Bond};
ghost use Rattle.ee_desk_model.specs.Sound.{IsDay};
ghost use Rattle.ee_desk_model.specs.Ranges.{IsCustomer, IsSerial, BondFits};
ghost use Rattle.ee_store_tables.specs.AsRows.{row_of_batch};
ghost use Rattle.ee_store_rows.specs.Rows.{batch_row, paid_row};
ghost use Rattle.ee_store_queries.specs.Inner.Asking.{row_of_placed, unpaid_row};

use ee_calculator::Bond;
use ee_desk_model::{Batch, Line, Rows, Ticket};
use ee_store_rows::{held_from, line_with};
use ee_store_tables::{BatchRow, BondRow, Failure, PlacedLine, TicketRow, UnpaidBond};
use ee_units::{Cents, Customer, Day, Serial};
use std::alloc::Global;

/// The batch of a day that a look-up found.
pub fn batch_shown(day: Day, found: Option<BatchRow>) -> Option<Batch>
    ensures row { option_map batch_row result ≡ option_map row_of_batch found }
    ensures day { IfSome result (λ batch. batch.day ≡ day) }
{
    let row = found?;
    Some(Batch {
        day,
        tickets: row.tickets,
        bonds: row.bonds,
        total: Cents(row.total),
    })
}

/// The lines of a ticket, in the order of their rows.
fn lines_shown(alloc: Global, rows: &[PlacedLine]) -> Result<Vec<Line>, Failure>
    ensures shown { IfOk result (λ lines. map paid_row lines.items ≡ map row_of_placed rows.now) }
    ensures read { All (λ row. IsSerial (record { letter = row.letter; number = row.number })) rows.now → IfErr result (λ e. e ≡ Failure.NoMemory) }
{
    let mut lines = Vec::new(alloc);
    for row in rows {
        let Some(line) = line_with(row.letter, row.number, row.cents) else {
            return Err(Failure::StoreFailed);
        };
        if lines.push(line).is_err() {
            return Err(Failure::NoMemory);
        }
    }
    Ok(lines)
}

/// A ticket with its lines, from their rows.
pub fn ticket_shown(
    alloc: Global,
    number: u64,
    row: TicketRow,
    lines: &[PlacedLine],
) -> Result<Ticket, Failure>
    ensures ticket { IfOk result (λ ticket. (ticket.ticket ≡ number) × (ticket.day ≡ row.day) × (ticket.payee ≡ row.payee) × (ticket.total.0 ≡ row.total)) }
    ensures lines { IfOk result (λ ticket. map paid_row ticket.lines ≡ map row_of_placed lines.now) }
    ensures read { IsDay row.day → IsCustomer row.payee → All (λ line. IsSerial (record { letter = line.letter; number = line.number })) lines.now
        → IfErr result (λ e. e ≡ Failure.NoMemory) }
{
    let Some(day) = Day::new(row.day) else {
        return Err(Failure::StoreFailed);
    };
    let Some(payee) = Customer::new(row.payee) else {
        return Err(Failure::StoreFailed);
    };
    let lines = lines_shown(alloc, lines)?;
    Ok(Ticket {
        ticket: number,
        day,
        payee,
        lines: Rows::new(lines),
        total: Cents(row.total),
    })
}

fn bond_shown(row: &UnpaidBond) -> Option<Bond>
    ensures shown { IfSome result (λ bond. unpaid_row bond ≡ row.now) }
    ensures read { (bond : Bond) → row.now ≡ unpaid_row bond → BondFits bond → IsSome result }
{
    let serial = Serial::new(row.letter, row.number)?;
    let unpaid = BondRow {
        denom: row.denom,
        issued: row.issued,
        owner: row.owner,
        coowner: row.coowner,
        ticket: None,
    };
    let held = held_from(serial, unpaid)?;
    Some(held.bond)
}

/// Unpaid bonds, in the order of their rows.
pub fn bonds_shown(alloc: Global, rows: &[UnpaidBond]) -> Result<Vec<Bond>, Failure>
    ensures shown { IfOk result (λ bonds. map unpaid_row bonds.items ≡ rows.now) }
    ensures read { (bonds : List Bond) → rows.now ≡ map unpaid_row bonds → AllByRecursion BondFits bonds → IfErr result (λ e. e ≡ Failure.NoMemory) }
{
    let mut bonds = Vec::new(alloc);
    for row in rows {
        let Some(bond) = bond_shown(row) else {
            return Err(Failure::StoreFailed);
        };
        // The proof of this loop needs the type of a bond's owner to occur.
        let _owner: Customer = bond.owner;
        if bonds.push(bond).is_err() {
            return Err(Failure::NoMemory);
        }
    }
    Ok(bonds)
}
