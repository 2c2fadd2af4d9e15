//! The table `tickets`: each ticket without its lines.

ghost use Rattle.std.specs.Prelude.{◌≡◌, Option, option_map, IfOk, map, [], ◌∷◌, ⊤, IfErr, None};
ghost use Rattle.std.specs.Option.{option_to_list};
ghost use Rattle.std.specs.FinMap.{get, entries};
ghost use Rattle.sqlite.specs.Held.{state};
ghost use Rattle.ee_store_tables.specs.AsRows.{Fits, FitsTicket, row_of_ticket, sum_of, sum_columns};
ghost use Rattle.ee_store_tables.specs.Rows as table;
ghost use Rattle.ee_store_tables.specs.Rows.{number as number_in_store, ticket_columns, with_ticket, tickets_on, first_number, last_number, HasRoom};
ghost use Rattle.ee_store_tables.specs.Statements.{OnlyQueries, WritesInside, Makes, Finds, FailsByCause, KeepsRoom};
ghost use Rattle.ee_store_tables.specs.Inner.Statements.{QueryFailsByCause, IsMemory};

use crate::failures::Failure;
use crate::reading::{QueryRow, read_each, read_number};
use crate::records::{TicketRow, TicketSum};
use crate::values::whole;
use sqlite::{Alter, Error, Row, Transaction};
use std::alloc::Global;

/// Adds a ticket with its number.
pub fn add_ticket<S: Alter>(
    tx: &mut Transaction<'_, S>,
    number: u64,
    ticket: TicketRow,
) -> Result<(), Failure>
    requires number { Fits number }
    requires ticket { FitsTicket ticket }
    ensures same_reference { tx.new.conn.ghost_name ≡ tx.old.conn.ghost_name }
    ensures writes_inside { WritesInside (state S.Store tx.old.conn.now) (state S.Store tx.new.conn.now) result }
    ensures added { Makes (state S.Store tx.old.conn.now) (state S.Store tx.new.conn.now) result (λ rows. with_ticket rows number (row_of_ticket ticket)) }
    ensures room { KeepsRoom (state S.Store tx.old.conn.now) (state S.Store tx.new.conn.now) result }
    ensures cause { FailsByCause (state S.Store tx.old.conn.now) (state S.Store tx.new.conn.now) result
        (λ rows. HasRoom 0 (state S.Store tx.old.conn.now) × (get rows.tickets number ≡ None)) }
{
    tx.execute(
        "INSERT INTO tickets (ticket, day, payee, bonds, total) VALUES (?1, ?2, ?3, ?4, ?5)",
        &[
            whole(number),
            whole(ticket.day),
            whole(ticket.payee),
            whole(ticket.bonds),
            whole(ticket.total),
        ],
    )?;
    Ok(())
}

/// The row of the ticket with this number, if there is one.
fn ticket_rows<S: Alter>(tx: &mut Transaction<'_, S>, number: u64) -> Result<Vec<Row>, Error>
    requires { Fits number }
    ensures same_reference { tx.new.conn.ghost_name ≡ tx.old.conn.ghost_name }
    ensures only_queries { OnlyQueries (state S.Store tx.old.conn.now) (state S.Store tx.new.conn.now) result }
    ensures found { Finds (state S.Store tx.old.conn.now) (state S.Store tx.new.conn.now) result
        (λ rows found. found.items ≡ option_to_list (option_map ticket_columns (get rows.tickets number))) }
    ensures cause { QueryFailsByCause (state S.Store tx.old.conn.now) (state S.Store tx.new.conn.now) result }
{
    tx.query_all(
        "SELECT day, payee, bonds, total FROM tickets WHERE ticket = ?1",
        &[whole(number)],
    )
}

/// The ticket that a look-up found.
fn read_ticket(rows: &[Row]) -> Result<Option<TicketRow>, Error>
    ensures found { IfOk result
        (λ found. (ticket : Option table.TicketRow) → rows.now ≡ option_to_list (option_map ticket_columns ticket) → option_map row_of_ticket found ≡ ticket) }
    ensures memory { IfErr result (λ e. (ticket : Option table.TicketRow) → rows.now ≡ option_to_list (option_map ticket_columns ticket) → IsMemory e) }
{
    match rows.first() {
        None => Ok(None),
        Some(row) => Ok(Some(TicketRow {
            day: row.get(0)?,
            payee: row.get(1)?,
            bonds: row.get(2)?,
            total: row.get(3)?,
        })),
    }
}

/// Finds the ticket with this number, without its lines.
pub fn find_ticket<S: Alter>(
    tx: &mut Transaction<'_, S>,
    number: u64,
) -> Result<Option<TicketRow>, Failure>
    requires { Fits number }
    ensures same_reference { tx.new.conn.ghost_name ≡ tx.old.conn.ghost_name }
    ensures only_queries { OnlyQueries (state S.Store tx.old.conn.now) (state S.Store tx.new.conn.now) result }
    ensures found { Finds (state S.Store tx.old.conn.now) (state S.Store tx.new.conn.now) result
        (λ rows found. option_map row_of_ticket found ≡ get rows.tickets number) }
    ensures cause { FailsByCause (state S.Store tx.old.conn.now) (state S.Store tx.new.conn.now) result (λ _. ⊤) }
{
    let rows = ticket_rows(tx, number)?;
    let found = read_ticket(&rows)?;
    Ok(found)
}

impl QueryRow for TicketSum {
    ghost shown = { sum_columns };

    fn read(row: &Row) -> Result<TicketSum, Failure> {
        if row.column_count() != 3 {
            return Err(Failure::StoreFailed);
        }
        Ok(TicketSum {
            ticket: row.get(0)?,
            bonds: row.get(1)?,
            total: row.get(2)?,
        })
    }
}

/// The rows of a day's tickets.
fn day_rows<S: Alter>(tx: &mut Transaction<'_, S>, day: u64) -> Result<Vec<Row>, Error>
    requires { Fits day }
    ensures same_reference { tx.new.conn.ghost_name ≡ tx.old.conn.ghost_name }
    ensures only_queries { OnlyQueries (state S.Store tx.old.conn.now) (state S.Store tx.new.conn.now) result }
    ensures found { Finds (state S.Store tx.old.conn.now) (state S.Store tx.new.conn.now) result
        (λ rows found. found.items ≡ map sum_columns (map sum_of (tickets_on rows day))) }
    ensures cause { QueryFailsByCause (state S.Store tx.old.conn.now) (state S.Store tx.new.conn.now) result }
{
    tx.query_all(
        "SELECT ticket, bonds, total FROM tickets WHERE day = ?1 ORDER BY ticket",
        &[whole(day)],
    )
}

/// Finds the sums of a day's tickets, by number.
pub fn day_tickets<S: Alter>(
    tx: &mut Transaction<'_, S>,
    alloc: Global,
    day: u64,
) -> Result<Vec<TicketSum>, Failure>
    requires { Fits day }
    ensures same_reference { tx.new.conn.ghost_name ≡ tx.old.conn.ghost_name }
    ensures only_queries { OnlyQueries (state S.Store tx.old.conn.now) (state S.Store tx.new.conn.now) result }
    ensures found { Finds (state S.Store tx.old.conn.now) (state S.Store tx.new.conn.now) result
        (λ rows found. found.items ≡ map sum_of (tickets_on rows day)) }
    ensures cause { FailsByCause (state S.Store tx.old.conn.now) (state S.Store tx.new.conn.now) result (λ _. ⊤) }
{
    let rows = day_rows(tx, day)?;
    read_each(alloc, &rows)
}

/// The row of the number of a day's first ticket.
fn first_rows<S: Alter>(tx: &mut Transaction<'_, S>, day: u64) -> Result<Vec<Row>, Error>
    requires { Fits day }
    ensures same_reference { tx.new.conn.ghost_name ≡ tx.old.conn.ghost_name }
    ensures only_queries { OnlyQueries (state S.Store tx.old.conn.now) (state S.Store tx.new.conn.now) result }
    ensures found { Finds (state S.Store tx.old.conn.now) (state S.Store tx.new.conn.now) result
        (λ rows found. found.items ≡ option_to_list (option_map (λ n. number_in_store n ∷ []) (first_number (tickets_on rows day)))) }
    ensures cause { QueryFailsByCause (state S.Store tx.old.conn.now) (state S.Store tx.new.conn.now) result }
{
    tx.query_all(
        "SELECT ticket FROM tickets WHERE day = ?1 ORDER BY ticket LIMIT 1",
        &[whole(day)],
    )
}

/// Finds the number of a day's first ticket, if the day has one.
pub fn first_ticket<S: Alter>(tx: &mut Transaction<'_, S>, day: u64) -> Result<Option<u64>, Failure>
    requires { Fits day }
    ensures same_reference { tx.new.conn.ghost_name ≡ tx.old.conn.ghost_name }
    ensures only_queries { OnlyQueries (state S.Store tx.old.conn.now) (state S.Store tx.new.conn.now) result }
    ensures found { Finds (state S.Store tx.old.conn.now) (state S.Store tx.new.conn.now) result (λ rows found. found ≡ first_number (tickets_on rows day)) }
    ensures cause { FailsByCause (state S.Store tx.old.conn.now) (state S.Store tx.new.conn.now) result (λ _. ⊤) }
{
    let rows = first_rows(tx, day)?;
    let found = read_number(&rows)?;
    Ok(found)
}

/// The row of the last ticket's number.
fn last_rows<S: Alter>(tx: &mut Transaction<'_, S>) -> Result<Vec<Row>, Error>
    ensures same_reference { tx.new.conn.ghost_name ≡ tx.old.conn.ghost_name }
    ensures only_queries { OnlyQueries (state S.Store tx.old.conn.now) (state S.Store tx.new.conn.now) result }
    ensures found { Finds (state S.Store tx.old.conn.now) (state S.Store tx.new.conn.now) result
        (λ rows found. found.items ≡ option_to_list (option_map (λ n. number_in_store n ∷ []) (last_number (entries rows.tickets)))) }
    ensures cause { QueryFailsByCause (state S.Store tx.old.conn.now) (state S.Store tx.new.conn.now) result }
{
    tx.query_all(
        "SELECT ticket FROM tickets ORDER BY ticket DESC LIMIT 1",
        &[],
    )
}

/// Finds the number of the last ticket, if there is one.
pub fn last_ticket<S: Alter>(tx: &mut Transaction<'_, S>) -> Result<Option<u64>, Failure>
    ensures same_reference { tx.new.conn.ghost_name ≡ tx.old.conn.ghost_name }
    ensures only_queries { OnlyQueries (state S.Store tx.old.conn.now) (state S.Store tx.new.conn.now) result }
    ensures found { Finds (state S.Store tx.old.conn.now) (state S.Store tx.new.conn.now) result (λ rows found. found ≡ last_number (entries rows.tickets)) }
    ensures cause { FailsByCause (state S.Store tx.old.conn.now) (state S.Store tx.new.conn.now) result (λ _. ⊤) }
{
    let rows = last_rows(tx)?;
    let found = read_number(&rows)?;
    Ok(found)
}
