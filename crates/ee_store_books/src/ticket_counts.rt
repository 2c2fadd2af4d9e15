//! Counts of tickets, read in a transaction.

ghost use Rattle.std.specs.Prelude.{◌≡◌, ◌-◌, ◌^◌, ◌<◌, IfOk, Some, length, sum_by, ⊤};
ghost use Rattle.std.specs.Result.{IsOk};
ghost use Rattle.std.specs.Option.{option_map_or, unwrap_or};
ghost use Rattle.sqlite.specs.Held.{state};
ghost use Rattle.ee_desk_model.specs.PlainBooks.{batch_of, batch_so_far};
ghost use Rattle.ee_desk_model.specs.Views as is;
ghost use Rattle.ee_store_books.specs.Causes.{FailsByCause};
ghost use Rattle.ee_store_books.specs.Seen.{FindsIn, OnlyReads};

use ee_desk_decide::DayCounts;
use ee_desk_model::Act;
use ee_store_tables::{Failure, TicketSum, day_tickets, first_ticket, last_ticket};
use ee_units::{Cents, Day};
use sqlite::{Alter, Transaction};
use std::alloc::Global;

fn or_zero(number: Option<u64>) -> u64
    ensures { result ≡ unwrap_or number 0 }
{
    match number {
        None => 0,
        Some(number) => number,
    }
}

/// The number of tickets across all days.
pub fn tickets_in<S: Alter>(tx: &mut Transaction<'_, S>) -> Result<u64, Failure>
    ensures same_reference { tx.new.conn.ghost_name ≡ tx.old.conn.ghost_name }
    ensures only_reads { OnlyReads (state S.Store tx.old.conn.now) (state S.Store tx.new.conn.now) result }
    ensures found { FindsIn (state S.Store tx.old.conn.now) (state S.Store tx.new.conn.now) result (λ content count. count ≡ length content.books.tickets) }
    ensures cause { FailsByCause (state S.Store tx.old.conn.now) (state S.Store tx.new.conn.now) result (λ _. ⊤) }
{
    let last = last_ticket(tx)?;
    Ok(or_zero(last))
}

/// The sums over tickets.
fn counts_of(sums: &[TicketSum]) -> Result<DayCounts, Failure>
    ensures tickets { IfOk result (λ counts. counts.tickets ≡ length sums.now) }
    ensures bonds { IfOk result (λ counts. counts.bonds ≡ sum_by (λ s. s.bonds) sums.now) }
    ensures total { IfOk result (λ counts. counts.total.0 ≡ sum_by (λ s. s.total) sums.now) }
    ensures fits { sum_by (λ s. s.bonds) sums.now < 2 ^ 64 → sum_by (λ s. s.total) sums.now < 2 ^ 64 → IsOk result }
{
    let mut bonds: u64 = 0;
    let mut total: u64 = 0;
    for sum in sums {
        match (bonds.checked_add(sum.bonds), total.checked_add(sum.total)) {
            (Some(more_bonds), Some(more)) => {
                bonds = more_bonds;
                total = more;
            }
            _ => return Err(Failure::StoreFailed),
        }
    }
    Ok(DayCounts {
        tickets: sums.len() as u64,
        bonds,
        total: Cents(total),
    })
}

/// The tickets of a day.
fn day_in<S: Alter>(
    tx: &mut Transaction<'_, S>,
    alloc: Global,
    day: Day,
) -> Result<DayCounts, Failure>
    ensures same_reference { tx.new.conn.ghost_name ≡ tx.old.conn.ghost_name }
    ensures only_reads { OnlyReads (state S.Store tx.old.conn.now) (state S.Store tx.new.conn.now) result }
    ensures found { FindsIn (state S.Store tx.old.conn.now) (state S.Store tx.new.conn.now) result
        (λ content counts. (counts.tickets ≡ (batch_of day content.books.tickets).tickets)
        × (counts.bonds ≡ (batch_of day content.books.tickets).bonds) × (counts.total.0 ≡ (batch_of day content.books.tickets).total.0)) }
    ensures cause { FailsByCause (state S.Store tx.old.conn.now) (state S.Store tx.new.conn.now) result (λ _. ⊤) }
{
    let sums = day_tickets(tx, alloc, day.count() as u64)?;
    let all = sums.as_slice();
    counts_of(all)
}

/// The tickets of the open day, if one is open.
fn open_day_in<S: Alter>(
    tx: &mut Transaction<'_, S>,
    alloc: Global,
    day: Option<Day>,
) -> Result<DayCounts, Failure>
    ensures same_reference { tx.new.conn.ghost_name ≡ tx.old.conn.ghost_name }
    ensures only_reads { OnlyReads (state S.Store tx.old.conn.now) (state S.Store tx.new.conn.now) result }
    ensures found { FindsIn (state S.Store tx.old.conn.now) (state S.Store tx.new.conn.now) result
        (λ content counts. (counts.tickets ≡ (batch_so_far day content.books.tickets).tickets)
        × (counts.bonds ≡ (batch_so_far day content.books.tickets).bonds) × (counts.total.0 ≡ (batch_so_far day content.books.tickets).total.0)) }
    ensures cause { FailsByCause (state S.Store tx.old.conn.now) (state S.Store tx.new.conn.now) result (λ _. ⊤) }
{
    match day {
        Some(day) => day_in(tx, alloc, day),
        None => Ok(DayCounts::of_tickets(0)),
    }
}

/// The number of tickets from the first of a day to the last of all.
fn from_first(first: Option<u64>, last: u64) -> u64
    ensures { result ≡ option_map_or (λ n. last - (n - 1)) first 0 }
{
    match first {
        None => 0,
        Some(first) => last.saturating_sub(first.saturating_sub(1)),
    }
}

/// Counts the open day's tickets: the last of all `tickets`.
fn length_of_day_in<S: Alter>(
    tx: &mut Transaction<'_, S>,
    day: Day,
    tickets: u64,
) -> Result<u64, Failure>
    ensures same_reference { tx.new.conn.ghost_name ≡ tx.old.conn.ghost_name }
    ensures only_reads { OnlyReads (state S.Store tx.old.conn.now) (state S.Store tx.new.conn.now) result }
    ensures found { FindsIn (state S.Store tx.old.conn.now) (state S.Store tx.new.conn.now) result (λ content count. Some day ≡ content.books.day
        → tickets ≡ length content.books.tickets
        → count ≡ (batch_of day content.books.tickets).tickets) }
    ensures cause { FailsByCause (state S.Store tx.old.conn.now) (state S.Store tx.new.conn.now) result (λ _. ⊤) }
{
    let first = first_ticket(tx, day.count() as u64)?;
    Ok(from_first(first, tickets))
}

/// Counts the open day's tickets; 0 if no day is open.
fn length_of_open_day_in<S: Alter>(
    tx: &mut Transaction<'_, S>,
    day: Option<Day>,
    tickets: u64,
) -> Result<u64, Failure>
    ensures same_reference { tx.new.conn.ghost_name ≡ tx.old.conn.ghost_name }
    ensures only_reads { OnlyReads (state S.Store tx.old.conn.now) (state S.Store tx.new.conn.now) result }
    ensures found { FindsIn (state S.Store tx.old.conn.now) (state S.Store tx.new.conn.now) result (λ content count. day ≡ content.books.day
        → tickets ≡ length content.books.tickets
        → count ≡ (batch_so_far day content.books.tickets).tickets) }
    ensures cause { FailsByCause (state S.Store tx.old.conn.now) (state S.Store tx.new.conn.now) result (λ _. ⊤) }
{
    match day {
        Some(day) => length_of_day_in(tx, day, tickets),
        None => Ok(0),
    }
}

/// The open day's tickets, for acts that count them, out of `tickets` across all days. A redemption needs
/// how many there are; a closing also needs what they paid.
pub fn counted_in<S: Alter>(
    tx: &mut Transaction<'_, S>,
    alloc: Global,
    act: &Act,
    day: Option<Day>,
    tickets: u64,
) -> Result<DayCounts, Failure>
    ensures same_reference { tx.new.conn.ghost_name ≡ tx.old.conn.ghost_name }
    ensures only_reads { OnlyReads (state S.Store tx.old.conn.now) (state S.Store tx.new.conn.now) result }
    ensures found { FindsIn (state S.Store tx.old.conn.now) (state S.Store tx.new.conn.now) result (λ content counts. day ≡ content.books.day
        → tickets ≡ length content.books.tickets
        → (counts.tickets ≡ (is.needed_counts content.books act.now).tickets)
        × (counts.bonds ≡ (is.needed_counts content.books act.now).bonds) × (counts.total.0 ≡ (is.needed_counts content.books act.now).total.0)) }
    ensures cause { FailsByCause (state S.Store tx.old.conn.now) (state S.Store tx.new.conn.now) result (λ _. ⊤) }
{
    match act {
        Act::Redeem { .. } => {
            let count = length_of_open_day_in(tx, day, tickets)?;
            Ok(DayCounts::of_tickets(count))
        }
        Act::CloseDay(_) => open_day_in(tx, alloc, day),
        Act::AddRates(_) | Act::AddBonds(_) | Act::OpenDay(_) => Ok(DayCounts::of_tickets(0)),
    }
}
