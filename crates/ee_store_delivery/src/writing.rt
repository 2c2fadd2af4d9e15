//! Writing changes to the books as rows.

ghost use Rattle.std.specs.Prelude.{◌≡◌, All, IfErr, IfOk, IfSome, length, Some, None};
ghost use Rattle.sqlite.specs.Held.{state};
ghost use Rattle.ee_store_tables.specs.AsRows.{Fits, FitsUnpaid};
ghost use Rattle.ee_store_tables.specs.Rows.{HasRoom};
ghost use Rattle.ee_store_tables.specs.Statements.{WritesInside, WritesIfAny, Makes, FailsByCause, KeepsRoom};
ghost use Rattle.ee_store_delivery.specs.Inner.Causes.{LeavesRoom};
ghost use Rattle.ee_store_delivery.specs.Inner.Written.{with_named, changed_rows, applied_rows, CanPayTicket, CanClose, CanWrite, CanWriteAll, added_rows, all_added_rows, BeginWith};

use crate::to_rows::{batch_row, bond_row, line_rows, ticket_row, whole, whole_option};
use ee_calculator::Bond;
use ee_desk_model::{Batch, Change, Terms, Ticket};
use ee_store_tables::{
    Failure, PeriodRate, UnpaidBond, add_batch, add_bond, add_extension, add_new_bonds, add_rate,
    add_ticket, pay_lines, set_day,
};
use ee_units::{Day, IssueMonth, Rate};
use sqlite::{Alter, Transaction};
use std::alloc::Global;

/// Writes the extension of a period, if there is one.
fn write_extension<S: Alter>(
    tx: &mut Transaction<'_, S>,
    period: u64,
    extension: Option<Rate>,
) -> Result<(), Failure>
    requires { Fits period }
    ensures same_reference { tx.new.conn.ghost_name ≡ tx.old.conn.ghost_name }
    ensures writes_if_any { WritesIfAny (state S.Store tx.old.conn.now) (state S.Store tx.new.conn.now) result }
    ensures written { Makes (state S.Store tx.old.conn.now) (state S.Store tx.new.conn.now) result (λ rows. with_named rows period extension) }
    ensures room { KeepsRoom (state S.Store tx.old.conn.now) (state S.Store tx.new.conn.now) result }
    ensures cause { FailsByCause (state S.Store tx.old.conn.now) (state S.Store tx.new.conn.now) result (λ _. HasRoom 0 (state S.Store tx.old.conn.now)) }
{
    match extension {
        None => Ok(()),
        Some(extension) => {
            let rate = extension.hundredths() as u64;
            add_extension(tx, PeriodRate { period, rate })
        }
    }
}

/// Writes the terms of a period: its fixed rate, and its extension if there is one.
fn write_terms<S: Alter>(
    tx: &mut Transaction<'_, S>,
    from: IssueMonth,
    terms: &Terms,
) -> Result<(), Failure>
    ensures same_reference { tx.new.conn.ghost_name ≡ tx.old.conn.ghost_name }
    ensures writes_inside { WritesInside (state S.Store tx.old.conn.now) (state S.Store tx.new.conn.now) result }
    ensures written { Makes (state S.Store tx.old.conn.now) (state S.Store tx.new.conn.now) result
        (λ rows. changed_rows None rows (Change.Rates from terms.now)) }
    ensures room { LeavesRoom (state S.Store tx.old.conn.now) (state S.Store tx.new.conn.now) result 0 }
    ensures cause { FailsByCause (state S.Store tx.old.conn.now) (state S.Store tx.new.conn.now) result (λ _. HasRoom 0 (state S.Store tx.old.conn.now)) }
{
    let rates = terms.rates();
    let period = from.count() as u64;
    let row = PeriodRate {
        period,
        rate: rates.fixed.hundredths() as u64,
    };
    add_rate(tx, row)?;
    write_extension(tx, period, rates.named_extension())
}

/// Writes a new bond.
fn write_bond<S: Alter>(tx: &mut Transaction<'_, S>, bond: &Bond) -> Result<(), Failure>
    ensures same_reference { tx.new.conn.ghost_name ≡ tx.old.conn.ghost_name }
    ensures writes_inside { WritesInside (state S.Store tx.old.conn.now) (state S.Store tx.new.conn.now) result }
    ensures written { Makes (state S.Store tx.old.conn.now) (state S.Store tx.new.conn.now) result (λ rows. changed_rows None rows (Change.Bond bond.now)) }
    ensures room { LeavesRoom (state S.Store tx.old.conn.now) (state S.Store tx.new.conn.now) result 1 }
    ensures cause { FailsByCause (state S.Store tx.old.conn.now) (state S.Store tx.new.conn.now) result (λ _. HasRoom 1 (state S.Store tx.old.conn.now)) }
{
    let row = bond_row(bond);
    add_bond(tx, row)?;
    Ok(())
}

/// Writes a ticket with its lines, and marks its bonds as paid.
fn write_ticket<S: Alter>(
    tx: &mut Transaction<'_, S>,
    alloc: Global,
    ticket: &Ticket,
) -> Result<(), Failure>
    ensures same_reference { tx.new.conn.ghost_name ≡ tx.old.conn.ghost_name }
    ensures writes_if_any { WritesIfAny (state S.Store tx.old.conn.now) (state S.Store tx.new.conn.now) result }
    ensures written { Makes (state S.Store tx.old.conn.now) (state S.Store tx.new.conn.now) result (λ rows. changed_rows None rows (Change.Ticket ticket.now)) }
    ensures room { LeavesRoom (state S.Store tx.old.conn.now) (state S.Store tx.new.conn.now) result (length ticket.now.lines) }
    ensures cause { FailsByCause (state S.Store tx.old.conn.now) (state S.Store tx.new.conn.now) result
        (λ rows. CanPayTicket rows ticket.now × HasRoom (length ticket.now.lines) (state S.Store tx.old.conn.now)) }
{
    let number = whole(ticket.ticket)?;
    let row = ticket_row(ticket)?;
    let lines = line_rows(alloc, ticket.lines.as_slice())?;
    if lines.len() > 100 {
        return Err(Failure::StoreFailed);
    }
    add_ticket(tx, number, row)?;
    pay_lines(tx, number, 1, &lines)?;
    Ok(())
}

/// Writes the batch that closes its day.
fn write_batch<S: Alter>(tx: &mut Transaction<'_, S>, batch: &Batch) -> Result<(), Failure>
    ensures same_reference { tx.new.conn.ghost_name ≡ tx.old.conn.ghost_name }
    ensures writes_inside { WritesInside (state S.Store tx.old.conn.now) (state S.Store tx.new.conn.now) result }
    ensures written { Makes (state S.Store tx.old.conn.now) (state S.Store tx.new.conn.now) result (λ rows. changed_rows None rows (Change.Batch batch.now)) }
    ensures room { LeavesRoom (state S.Store tx.old.conn.now) (state S.Store tx.new.conn.now) result 0 }
    ensures cause { FailsByCause (state S.Store tx.old.conn.now) (state S.Store tx.new.conn.now) result
        (λ rows. CanClose rows batch.now × HasRoom 0 (state S.Store tx.old.conn.now)) }
{
    let row = batch_row(batch)?;
    let day = batch.day.count() as u64;
    add_batch(tx, day, row)?;
    set_day(tx, None, Some(day))?;
    Ok(())
}

/// Writes the day that is opened, given the last closed day.
fn write_day<S: Alter>(
    tx: &mut Transaction<'_, S>,
    last_day: Option<u64>,
    day: Day,
) -> Result<(), Failure>
    ensures same_reference { tx.new.conn.ghost_name ≡ tx.old.conn.ghost_name }
    ensures writes_inside { WritesInside (state S.Store tx.old.conn.now) (state S.Store tx.new.conn.now) result }
    ensures written { Makes (state S.Store tx.old.conn.now) (state S.Store tx.new.conn.now) result (λ rows. changed_rows last_day rows (Change.Day day)) }
    ensures room { LeavesRoom (state S.Store tx.old.conn.now) (state S.Store tx.new.conn.now) result 0 }
    ensures cause { FailsByCause (state S.Store tx.old.conn.now) (state S.Store tx.new.conn.now) result
        (λ _. IfSome last_day Fits × HasRoom 0 (state S.Store tx.old.conn.now)) }
{
    let last = whole_option(last_day)?;
    set_day(tx, Some(day.count() as u64), last)?;
    Ok(())
}

/// Writes a change, given the last closed day.
fn write_change<S: Alter>(
    tx: &mut Transaction<'_, S>,
    alloc: Global,
    last_day: Option<u64>,
    change: &Change,
) -> Result<(), Failure>
    ensures same_reference { tx.new.conn.ghost_name ≡ tx.old.conn.ghost_name }
    ensures writes_if_any { WritesIfAny (state S.Store tx.old.conn.now) (state S.Store tx.new.conn.now) result }
    ensures written { Makes (state S.Store tx.old.conn.now) (state S.Store tx.new.conn.now) result (λ rows. changed_rows last_day rows change.now) }
    ensures room { LeavesRoom (state S.Store tx.old.conn.now) (state S.Store tx.new.conn.now) result (added_rows change.now) }
    ensures cause { FailsByCause (state S.Store tx.old.conn.now) (state S.Store tx.new.conn.now) result
        (λ rows. CanWrite last_day rows change.now × HasRoom (added_rows change.now) (state S.Store tx.old.conn.now)) }
{
    match change {
        Change::Rates(from, terms) => write_terms(tx, *from, terms),
        Change::Bond(bond) => write_bond(tx, bond),
        Change::Day(day) => write_day(tx, last_day, *day),
        Change::Ticket(ticket) => write_ticket(tx, alloc, ticket),
        Change::Batch(batch) => write_batch(tx, batch),
    }
}

/// Writes changes in order, one by one, given the last closed day.
fn write_each<S: Alter>(
    tx: &mut Transaction<'_, S>,
    alloc: Global,
    last_day: Option<u64>,
    changes: &[Change],
) -> Result<(), Failure>
    ensures same_reference { tx.new.conn.ghost_name ≡ tx.old.conn.ghost_name }
    ensures writes_if_any { WritesIfAny (state S.Store tx.old.conn.now) (state S.Store tx.new.conn.now) result }
    ensures written { Makes (state S.Store tx.old.conn.now) (state S.Store tx.new.conn.now) result (λ rows. applied_rows last_day rows changes.now) }
    ensures room { LeavesRoom (state S.Store tx.old.conn.now) (state S.Store tx.new.conn.now) result (all_added_rows changes.now) }
    ensures cause { FailsByCause (state S.Store tx.old.conn.now) (state S.Store tx.new.conn.now) result
        (λ rows. CanWriteAll last_day rows changes.now × HasRoom (all_added_rows changes.now) (state S.Store tx.old.conn.now)) }
{
    for change in changes {
        write_change(tx, alloc, last_day, change)?;
    }
    Ok(())
}

/// The rows of the bonds that changes begin with.
fn first_bonds(alloc: Global, changes: &[Change]) -> Result<Vec<UnpaidBond>, Failure>
    ensures rows { IfOk result (λ rows. BeginWith changes.now rows.items) }
    ensures fit { IfOk result (λ rows. All FitsUnpaid rows.items) }
    ensures memory { IfErr result (λ e. e ≡ Failure.NoMemory) }
{
    let mut rows = Vec::new(alloc);
    for change in changes {
        let Change::Bond(bond) = change else {
            return Ok(rows);
        };
        if rows.push(bond_row(bond)).is_err() {
            return Err(Failure::NoMemory);
        }
    }
    Ok(rows)
}

/// Writes changes in order, given the last closed day. The bonds that they begin with are registered
/// together.
pub fn write_changes<S: Alter>(
    tx: &mut Transaction<'_, S>,
    alloc: Global,
    last_day: Option<u64>,
    changes: &[Change],
) -> Result<(), Failure>
    ensures same_reference { tx.new.conn.ghost_name ≡ tx.old.conn.ghost_name }
    ensures writes_if_any { WritesIfAny (state S.Store tx.old.conn.now) (state S.Store tx.new.conn.now) result }
    ensures written { Makes (state S.Store tx.old.conn.now) (state S.Store tx.new.conn.now) result (λ rows. applied_rows last_day rows changes.now) }
    ensures room { LeavesRoom (state S.Store tx.old.conn.now) (state S.Store tx.new.conn.now) result (all_added_rows changes.now) }
    ensures cause { FailsByCause (state S.Store tx.old.conn.now) (state S.Store tx.new.conn.now) result
        (λ rows. CanWriteAll last_day rows changes.now × HasRoom (all_added_rows changes.now) (state S.Store tx.old.conn.now)) }
{
    let bonds = first_bonds(alloc, changes)?;
    add_new_bonds(tx, alloc, &bonds)?;
    let (_, rest) = changes.split_at(bonds.len());
    write_each(tx, alloc, last_day, rest)
}
