//! Queries: what each finds in a transaction, and any of them as one transaction, which is read and rolled back.

ghost use Rattle.std.specs.Prelude.{◌≡◌, ◌<◌, map, ⊤, IfOk};
ghost use Rattle.std.specs.List.{filter_map};
ghost use Rattle.sqlite.specs.Held.{state};
ghost use Rattle.ee_desk_model.specs.Queries.{ticket_numbered, batch_on, bonds_of, row_of, shown_in_row, IsInventory, IsQuote, ShowsQuery, IsKind};
ghost use Rattle.ee_store_tables.specs.AsRows.{Fits};
ghost use Rattle.ee_store_tables.specs.Statements.{StaysInside, CommitsNothing, LeavesNoMore};
ghost use Rattle.ee_store_books.specs.Causes.{FailsByCause, IsReady};
ghost use Rattle.ee_store_books.specs.Seen.{FindsIn, LeavesRows};
ghost use Rattle.ee_store_queries.specs.Asking.{AnswersOrFails, ShowsContent, KeepsContent, KeepsRoom};
ghost use Rattle.ee_desk_model.specs.Limits.{highest_number};

use crate::from_rows::{batch_shown, bonds_shown, ticket_shown};
use crate::periods::periods_in;
use ee_calculator::{Bond, Row, Sheet, sheet};
use ee_desk_decide::{quote, rows_of};
use ee_desk_model::{Batch, Query, Shown, Ticket, UnitTables};
use ee_store_books::{find_terms, terms_in, tickets_in};
use ee_store_tables::{Failure, bonds_of_owner, find_batch, find_ticket, ticket_lines};
use ee_units::calendar::period_of;
use ee_units::{Customer, Day, Denom, IssueMonth, Month};
use sqlite::{Alter, Connection, Transaction};
use std::alloc::Global;

/// The batch of a day, if that day is closed.
fn batch_in<S: Alter>(tx: &mut Transaction<'_, S>, day: Day) -> Result<Option<Batch>, Failure>
    ensures same_reference { tx.new.conn.ghost_name ≡ tx.old.conn.ghost_name }
    ensures found { FindsIn (state S.Store tx.old.conn.now) (state S.Store tx.new.conn.now) result (λ content batch. batch ≡ batch_on content.books day) }
    ensures commit { CommitsNothing (state S.Store tx.old.conn.now) (state S.Store tx.new.conn.now) }
    ensures crash { LeavesNoMore (state S.Store tx.old.conn.now) (state S.Store tx.new.conn.now) }
    ensures cause { FailsByCause (state S.Store tx.old.conn.now) (state S.Store tx.new.conn.now) result (λ _. ⊤) }
{
    let found = find_batch(tx, day.count() as u64)?;
    Ok(batch_shown(day, found))
}

/// The ticket with a number that fits a column of the store, if there is one.
fn find_numbered<S: Alter>(
    tx: &mut Transaction<'_, S>,
    alloc: Global,
    number: u64,
) -> Result<Option<Ticket>, Failure>
    requires { Fits number }
    ensures same_reference { tx.new.conn.ghost_name ≡ tx.old.conn.ghost_name }
    ensures found { FindsIn (state S.Store tx.old.conn.now) (state S.Store tx.new.conn.now) result
        (λ content ticket. ticket ≡ ticket_numbered content.books number) }
    ensures commit { CommitsNothing (state S.Store tx.old.conn.now) (state S.Store tx.new.conn.now) }
    ensures crash { LeavesNoMore (state S.Store tx.old.conn.now) (state S.Store tx.new.conn.now) }
    ensures cause { FailsByCause (state S.Store tx.old.conn.now) (state S.Store tx.new.conn.now) result (λ _. ⊤) }
{
    let Some(row) = find_ticket(tx, number)? else {
        return Ok(None);
    };
    let lines = ticket_lines(tx, alloc, number)?;
    let rows = lines.as_slice();
    let ticket = ticket_shown(alloc, number, row, rows)?;
    Ok(Some(ticket))
}

/// There is no ticket with a number above those so far.
fn none_beyond<S: Alter>(
    tx: &mut Transaction<'_, S>,
    number: u64,
) -> Result<Option<Ticket>, Failure>
    ensures same_reference { tx.new.conn.ghost_name ≡ tx.old.conn.ghost_name }
    ensures found { FindsIn (state S.Store tx.old.conn.now) (state S.Store tx.new.conn.now) result
        (λ content ticket. ticket ≡ ticket_numbered content.books number) }
    ensures commit { CommitsNothing (state S.Store tx.old.conn.now) (state S.Store tx.new.conn.now) }
    ensures crash { LeavesNoMore (state S.Store tx.old.conn.now) (state S.Store tx.new.conn.now) }
    ensures cause { FailsByCause (state S.Store tx.old.conn.now) (state S.Store tx.new.conn.now) result (λ _. highest_number < number) }
{
    let count = tickets_in(tx)?;
    if count < number {
        Ok(None)
    } else {
        Err(Failure::StoreFailed)
    }
}

/// The ticket with this number, if there is one.
fn ticket_in<S: Alter>(
    tx: &mut Transaction<'_, S>,
    alloc: Global,
    number: u64,
) -> Result<Option<Ticket>, Failure>
    ensures same_reference { tx.new.conn.ghost_name ≡ tx.old.conn.ghost_name }
    ensures found { FindsIn (state S.Store tx.old.conn.now) (state S.Store tx.new.conn.now) result
        (λ content ticket. ticket ≡ ticket_numbered content.books number) }
    ensures commit { CommitsNothing (state S.Store tx.old.conn.now) (state S.Store tx.new.conn.now) }
    ensures crash { LeavesNoMore (state S.Store tx.old.conn.now) (state S.Store tx.new.conn.now) }
    ensures cause { FailsByCause (state S.Store tx.old.conn.now) (state S.Store tx.new.conn.now) result (λ _. ⊤) }
{
    if number <= 9_223_372_036_854_775_807 {
        find_numbered(tx, alloc, number)
    } else {
        none_beyond(tx, number)
    }
}

/// The row, in a month, of an unregistered bond, if its issue period has rates.
fn quote_in<S: Alter>(
    tx: &mut Transaction<'_, S>,
    alloc: Global,
    tables: &mut UnitTables,
    denom: Denom,
    issued: IssueMonth,
    month: Month,
) -> Result<Option<Row>, Failure>
    ensures same_reference { tx.new.conn.ghost_name ≡ tx.old.conn.ghost_name }
    ensures found { FindsIn (state S.Store tx.old.conn.now) (state S.Store tx.new.conn.now) result
        (λ content row. IsQuote content.books denom issued month row) }
    ensures commit { CommitsNothing (state S.Store tx.old.conn.now) (state S.Store tx.new.conn.now) }
    ensures crash { LeavesNoMore (state S.Store tx.old.conn.now) (state S.Store tx.new.conn.now) }
    ensures cause { FailsByCause (state S.Store tx.old.conn.now) (state S.Store tx.new.conn.now) result (λ _. ⊤) }
{
    let terms = find_terms(tx, alloc, tables, period_of(issued))?;
    Ok(quote(terms.as_ref(), denom, issued, month))
}

/// The unpaid bonds whose owner is this customer, in order of serial number.
fn bonds_in<S: Alter>(
    tx: &mut Transaction<'_, S>,
    alloc: Global,
    customer: Customer,
) -> Result<Vec<Bond>, Failure>
    ensures same_reference { tx.new.conn.ghost_name ≡ tx.old.conn.ghost_name }
    ensures inside { StaysInside (state S.Store tx.old.conn.now) (state S.Store tx.new.conn.now) result }
    ensures found { FindsIn (state S.Store tx.old.conn.now) (state S.Store tx.new.conn.now) result
        (λ content bonds. bonds.items ≡ bonds_of content.books customer) }
    ensures rows { LeavesRows (state S.Store tx.old.conn.now) (state S.Store tx.new.conn.now) result }
    ensures commit { CommitsNothing (state S.Store tx.old.conn.now) (state S.Store tx.new.conn.now) }
    ensures crash { LeavesNoMore (state S.Store tx.old.conn.now) (state S.Store tx.new.conn.now) }
    ensures cause { FailsByCause (state S.Store tx.old.conn.now) (state S.Store tx.new.conn.now) result (λ _. ⊤) }
{
    let rows = bonds_of_owner(tx, alloc, customer.number() as u64)?;
    let own = rows.as_slice();
    bonds_shown(alloc, own)
}

/// The rows of bonds in a month, at the rates of their issue periods.
fn rows_in<S: Alter>(
    tx: &mut Transaction<'_, S>,
    alloc: Global,
    tables: &mut UnitTables,
    bonds: &[Bond],
    month: Month,
) -> Result<Vec<Row>, Failure>
    ensures same_reference { tx.new.conn.ghost_name ≡ tx.old.conn.ghost_name }
    ensures found { FindsIn (state S.Store tx.old.conn.now) (state S.Store tx.new.conn.now) result
        (λ content rows. map shown_in_row rows.items ≡ filter_map (row_of content.books.rates month) bonds.now) }
    ensures commit { CommitsNothing (state S.Store tx.old.conn.now) (state S.Store tx.new.conn.now) }
    ensures crash { LeavesNoMore (state S.Store tx.old.conn.now) (state S.Store tx.new.conn.now) }
    ensures cause { FailsByCause (state S.Store tx.old.conn.now) (state S.Store tx.new.conn.now) result (λ _. ⊤) }
{
    let periods = periods_in(alloc, bonds)?;
    let asked = periods.as_slice();
    let terms = terms_in(tx, alloc, tables, asked)?;
    let rows = rows_of(alloc, &terms, bonds, month)?;
    Ok(rows)
}

/// The sheet, in a month, of the unpaid bonds whose owner is this customer, in order of serial number.
fn inventory_in<S: Alter>(
    tx: &mut Transaction<'_, S>,
    alloc: Global,
    tables: &mut UnitTables,
    customer: Customer,
    month: Month,
) -> Result<Sheet, Failure>
    ensures same_reference { tx.new.conn.ghost_name ≡ tx.old.conn.ghost_name }
    ensures found { FindsIn (state S.Store tx.old.conn.now) (state S.Store tx.new.conn.now) result
        (λ content sheet. IsInventory content.books customer month sheet) }
    ensures commit { CommitsNothing (state S.Store tx.old.conn.now) (state S.Store tx.new.conn.now) }
    ensures crash { LeavesNoMore (state S.Store tx.old.conn.now) (state S.Store tx.new.conn.now) }
    ensures cause { FailsByCause (state S.Store tx.old.conn.now) (state S.Store tx.new.conn.now) result (λ _. ⊤) }
{
    let bonds = bonds_in(tx, alloc, customer)?;
    let own = bonds.as_slice();
    let rows = rows_in(tx, alloc, tables, own, month)?;
    Ok(sheet(rows))
}

/// What the books show for a query.
fn shown_in<S: Alter>(
    tx: &mut Transaction<'_, S>,
    alloc: Global,
    tables: &mut UnitTables,
    query: &Query,
) -> Result<Shown, Failure>
    ensures same_reference { tx.new.conn.ghost_name ≡ tx.old.conn.ghost_name }
    ensures found { FindsIn (state S.Store tx.old.conn.now) (state S.Store tx.new.conn.now) result
        (λ content shown. ShowsQuery content.books query.now shown) }
    ensures kind { IfOk result (IsKind query.now) }
    ensures commit { CommitsNothing (state S.Store tx.old.conn.now) (state S.Store tx.new.conn.now) }
    ensures crash { LeavesNoMore (state S.Store tx.old.conn.now) (state S.Store tx.new.conn.now) }
    ensures cause { FailsByCause (state S.Store tx.old.conn.now) (state S.Store tx.new.conn.now) result (λ _. ⊤) }
{
    match *query {
        Query::Inventory { customer, month } => {
            let sheet = inventory_in(tx, alloc, tables, customer, month)?;
            Ok(Shown::Sheet(sheet))
        }
        Query::Bonds(customer) => {
            let bonds = bonds_in(tx, alloc, customer)?;
            Ok(Shown::Bonds(bonds))
        }
        Query::Ticket(number) => {
            let ticket = ticket_in(tx, alloc, number)?;
            Ok(Shown::Ticket(ticket))
        }
        Query::Batch(day) => {
            let batch = batch_in(tx, day)?;
            Ok(Shown::Batch(batch))
        }
        Query::Value {
            denom,
            issued,
            month,
        } => {
            let row = quote_in(tx, alloc, tables, denom, issued, month)?;
            Ok(Shown::Row(row))
        }
    }
}

/// Shows what the books have, in one transaction, which is read and rolled back.
pub fn ask<S: Alter>(
    conn: &mut Connection<S>,
    alloc: Global,
    tables: &mut UnitTables,
    query: &Query,
) -> Result<Shown, Failure>
    ensures shown { ShowsContent (state S.Store conn.old) (state S.Store conn.new) result (λ content shown. ShowsQuery content.books query.now shown) }
    ensures kind { IfOk result (IsKind query.now) }
    ensures kept { KeepsContent (state S.Store conn.old) (state S.Store conn.new) }
    ensures crash { LeavesNoMore (state S.Store conn.old) (state S.Store conn.new) }
    ensures ready { IsReady (state S.Store conn.old) → IsReady (state S.Store conn.new) }
    ensures room { KeepsRoom (state S.Store conn.old) (state S.Store conn.new) }
    ensures cause { AnswersOrFails (state S.Store conn.old) (state S.Store conn.new) result }
{
    if !conn.is_autocommit() {
        return Err(Failure::StoreFailed);
    }
    let mut tx = conn.transaction();
    shown_in(&mut tx, alloc, tables, query)
}
