//! The table `paid`: the lines of tickets, each in its place.

ghost use Rattle.std.specs.Prelude.{◌≡◌, ◌+◌, [], ◌∷◌, length, map, All, IfSome, ⊤};
ghost use Rattle.sqlite.specs.Held.{state};
ghost use Rattle.ee_store_tables.specs.AsRows.{Fits, FitsLine, row_of_line, placed_of, placed_columns};
ghost use Rattle.ee_store_tables.specs.Rows.{with_paid, with_lines, lines_on, CanPay, CanPayAll, HasRoom};
ghost use Rattle.ee_store_tables.specs.Inner.Places.{with_places, all_marked, CanPlaceAll};
ghost use Rattle.ee_store_tables.specs.Statements.{OnlyQueries, WritesInside, WritesIfAny, Makes, Finds, FailsByCause, KeepsRoom, TakesRoom};
ghost use Rattle.ee_store_tables.specs.Inner.Statements.{QueryFailsByCause};

use crate::bonds::mark_bond;
use crate::failures::Failure;
use crate::reading::{QueryRow, read_each};
use crate::records::{PaidRow, PlacedLine, SerialKey};
use crate::values::whole;
use sqlite::{Alter, Error, Row, Transaction};
use std::alloc::Global;

/// Adds a line to a ticket, in its place.
pub fn add_paid<S: Alter>(
    tx: &mut Transaction<'_, S>,
    ticket: u64,
    place: u64,
    line: PaidRow,
) -> Result<(), Failure>
    requires ticket { Fits ticket }
    requires place { Fits place }
    requires line { FitsLine line }
    ensures same_reference { tx.new.conn.ghost_name ≡ tx.old.conn.ghost_name }
    ensures writes_inside { WritesInside (state S.Store tx.old.conn.now) (state S.Store tx.new.conn.now) result }
    ensures added { Makes (state S.Store tx.old.conn.now) (state S.Store tx.new.conn.now) result (λ rows. with_paid rows (ticket, place) (row_of_line line)) }
    ensures room { TakesRoom (state S.Store tx.old.conn.now) (state S.Store tx.new.conn.now) result 1 }
    ensures cause { FailsByCause (state S.Store tx.old.conn.now) (state S.Store tx.new.conn.now) result
        (λ rows. HasRoom 1 (state S.Store tx.old.conn.now) × CanPay rows ticket place (row_of_line line)) }
{
    tx.execute(
        "INSERT INTO paid (ticket, place, letter, number, cents) VALUES (?1, ?2, ?3, ?4, ?5)",
        &[
            whole(ticket),
            whole(place),
            whole(line.letter),
            whole(line.number),
            whole(line.cents),
        ],
    )?;
    Ok(())
}

/// Adds four lines to a ticket, in consecutive places from this one, by one statement.
fn add_four<S: Alter>(
    tx: &mut Transaction<'_, S>,
    ticket: u64,
    place: u64,
    first: PaidRow,
    second: PaidRow,
    third: PaidRow,
    fourth: PaidRow,
) -> Result<(), Failure>
    requires ticket { Fits ticket }
    requires places { Fits (place + 4) }
    requires first { FitsLine first }
    requires second { FitsLine second }
    requires third { FitsLine third }
    requires fourth { FitsLine fourth }
    ensures same_reference { tx.new.conn.ghost_name ≡ tx.old.conn.ghost_name }
    ensures writes_inside { WritesInside (state S.Store tx.old.conn.now) (state S.Store tx.new.conn.now) result }
    ensures added { Makes (state S.Store tx.old.conn.now) (state S.Store tx.new.conn.now) result
        (λ rows. with_places rows ticket place (row_of_line first ∷ row_of_line second ∷ row_of_line third ∷ row_of_line fourth ∷ [])) }
    ensures room { TakesRoom (state S.Store tx.old.conn.now) (state S.Store tx.new.conn.now) result 4 }
    ensures cause { FailsByCause (state S.Store tx.old.conn.now) (state S.Store tx.new.conn.now) result
        (λ rows. HasRoom 4 (state S.Store tx.old.conn.now)
        × CanPlaceAll rows ticket place (row_of_line first ∷ row_of_line second ∷ row_of_line third ∷ row_of_line fourth ∷ [])) }
{
    let next = place + 1;
    let after_next = next + 1;
    let last = after_next + 1;
    tx.execute(
        "INSERT INTO paid (ticket, place, letter, number, cents) VALUES (?1, ?2, ?3, ?4, ?5), (?1, ?6, ?7, ?8, ?9), (?1, ?10, ?11, ?12, ?13), (?1, ?14, ?15, ?16, ?17)",
        &[
            whole(ticket),
            whole(place),
            whole(first.letter),
            whole(first.number),
            whole(first.cents),
            whole(next),
            whole(second.letter),
            whole(second.number),
            whole(second.cents),
            whole(after_next),
            whole(third.letter),
            whole(third.number),
            whole(third.cents),
            whole(last),
            whole(fourth.letter),
            whole(fourth.number),
            whole(fourth.cents),
        ],
    )?;
    Ok(())
}

/// The first four lines, and those after them.
#[derive(Clone, Copy)]
struct FirstFour<'a> {
    first: PaidRow,
    second: PaidRow,
    third: PaidRow,
    fourth: PaidRow,
    rest: &'a [PaidRow],
}

/// The first four lines; `None` if there are fewer.
fn first_four(lines: &[PaidRow]) -> Option<FirstFour<'_>>
    ensures { IfSome result (λ it. lines.now ≡ it.first ∷ it.second ∷ it.third ∷ it.fourth ∷ it.rest.now) }
{
    let (first, rest) = lines.split_first()?;
    let (second, rest) = rest.split_first()?;
    let (third, rest) = rest.split_first()?;
    let (fourth, rest) = rest.split_first()?;
    Some(FirstFour {
        first: *first,
        second: *second,
        third: *third,
        fourth: *fourth,
        rest,
    })
}

/// Adds lines to a ticket, in consecutive places from this one, one by one.
fn add_each<S: Alter>(
    tx: &mut Transaction<'_, S>,
    ticket: u64,
    place: u64,
    lines: &[PaidRow],
) -> Result<(), Failure>
    requires ticket { Fits ticket }
    requires places { Fits (place + length lines.now) }
    requires lines { All FitsLine lines.now }
    ensures same_reference { tx.new.conn.ghost_name ≡ tx.old.conn.ghost_name }
    ensures writes_if_any { WritesIfAny (state S.Store tx.old.conn.now) (state S.Store tx.new.conn.now) result }
    ensures added { Makes (state S.Store tx.old.conn.now) (state S.Store tx.new.conn.now) result
        (λ rows. with_places rows ticket place (map row_of_line lines.now)) }
    ensures room { TakesRoom (state S.Store tx.old.conn.now) (state S.Store tx.new.conn.now) result (length lines.now) }
    ensures cause { FailsByCause (state S.Store tx.old.conn.now) (state S.Store tx.new.conn.now) result
        (λ rows. HasRoom (length lines.now) (state S.Store tx.old.conn.now) × CanPlaceAll rows ticket place (map row_of_line lines.now)) }
{
    match lines.split_first() {
        None => Ok(()),
        Some((line, rest)) => {
            add_paid(tx, ticket, place, *line)?;
            add_each(tx, ticket, place + 1, rest)
        }
    }
}

/// Adds lines to a ticket, in consecutive places from this one: groups of four by one statement each, and the
/// rest one by one.
fn add_lines<S: Alter>(
    tx: &mut Transaction<'_, S>,
    ticket: u64,
    place: u64,
    lines: &[PaidRow],
) -> Result<(), Failure>
    requires ticket { Fits ticket }
    requires places { Fits (place + length lines.now) }
    requires lines { All FitsLine lines.now }
    ensures same_reference { tx.new.conn.ghost_name ≡ tx.old.conn.ghost_name }
    ensures writes_if_any { WritesIfAny (state S.Store tx.old.conn.now) (state S.Store tx.new.conn.now) result }
    ensures added { Makes (state S.Store tx.old.conn.now) (state S.Store tx.new.conn.now) result
        (λ rows. with_places rows ticket place (map row_of_line lines.now)) }
    ensures room { TakesRoom (state S.Store tx.old.conn.now) (state S.Store tx.new.conn.now) result (length lines.now) }
    ensures cause { FailsByCause (state S.Store tx.old.conn.now) (state S.Store tx.new.conn.now) result
        (λ rows. HasRoom (length lines.now) (state S.Store tx.old.conn.now) × CanPlaceAll rows ticket place (map row_of_line lines.now)) }
{
    match first_four(lines) {
        None => add_each(tx, ticket, place, lines),
        Some(four) => {
            add_four(
                tx,
                ticket,
                place,
                four.first,
                four.second,
                four.third,
                four.fourth,
            )?;
            add_lines(tx, ticket, place + 4, four.rest)
        }
    }
}

/// Marks the bonds of lines as paid on a ticket.
fn mark_lines<S: Alter>(
    tx: &mut Transaction<'_, S>,
    ticket: u64,
    lines: &[PaidRow],
) -> Result<(), Failure>
    requires ticket { Fits ticket }
    requires lines { All FitsLine lines.now }
    ensures same_reference { tx.new.conn.ghost_name ≡ tx.old.conn.ghost_name }
    ensures writes_if_any { WritesIfAny (state S.Store tx.old.conn.now) (state S.Store tx.new.conn.now) result }
    ensures marked { Makes (state S.Store tx.old.conn.now) (state S.Store tx.new.conn.now) result
        (λ rows. all_marked rows ticket (map row_of_line lines.now)) }
    ensures room { KeepsRoom (state S.Store tx.old.conn.now) (state S.Store tx.new.conn.now) result }
    ensures cause { FailsByCause (state S.Store tx.old.conn.now) (state S.Store tx.new.conn.now) result (λ _. HasRoom 0 (state S.Store tx.old.conn.now)) }
{
    match lines.split_first() {
        None => Ok(()),
        Some((line, rest)) => {
            let serial = SerialKey {
                letter: line.letter,
                number: line.number,
            };
            mark_bond(tx, serial, ticket)?;
            mark_lines(tx, ticket, rest)
        }
    }
}

/// Adds lines to a ticket, in consecutive places from this one, and marks their bonds as paid.
pub fn pay_lines<S: Alter>(
    tx: &mut Transaction<'_, S>,
    ticket: u64,
    place: u64,
    lines: &[PaidRow],
) -> Result<(), Failure>
    requires ticket { Fits ticket }
    requires places { Fits (place + length lines.now) }
    requires lines { All FitsLine lines.now }
    ensures same_reference { tx.new.conn.ghost_name ≡ tx.old.conn.ghost_name }
    ensures writes_if_any { WritesIfAny (state S.Store tx.old.conn.now) (state S.Store tx.new.conn.now) result }
    ensures added { Makes (state S.Store tx.old.conn.now) (state S.Store tx.new.conn.now) result
        (λ rows. with_lines rows ticket place (map row_of_line lines.now)) }
    ensures room { TakesRoom (state S.Store tx.old.conn.now) (state S.Store tx.new.conn.now) result (length lines.now) }
    ensures cause { FailsByCause (state S.Store tx.old.conn.now) (state S.Store tx.new.conn.now) result
        (λ rows. HasRoom (length lines.now) (state S.Store tx.old.conn.now) × CanPayAll rows ticket place (map row_of_line lines.now)) }
{
    add_lines(tx, ticket, place, lines)?;
    mark_lines(tx, ticket, lines)
}

impl QueryRow for PlacedLine {
    ghost shown = { placed_columns };

    fn read(row: &Row) -> Result<PlacedLine, Failure> {
        if row.column_count() != 4 {
            return Err(Failure::StoreFailed);
        }
        Ok(PlacedLine {
            place: row.get(0)?,
            letter: row.get(1)?,
            number: row.get(2)?,
            cents: row.get(3)?,
        })
    }
}

/// The rows of a ticket's lines.
fn line_rows<S: Alter>(tx: &mut Transaction<'_, S>, ticket: u64) -> Result<Vec<Row>, Error>
    requires { Fits ticket }
    ensures same_reference { tx.new.conn.ghost_name ≡ tx.old.conn.ghost_name }
    ensures only_queries { OnlyQueries (state S.Store tx.old.conn.now) (state S.Store tx.new.conn.now) result }
    ensures found { Finds (state S.Store tx.old.conn.now) (state S.Store tx.new.conn.now) result
        (λ rows found. found.items ≡ map placed_columns (map placed_of (lines_on rows ticket))) }
    ensures cause { QueryFailsByCause (state S.Store tx.old.conn.now) (state S.Store tx.new.conn.now) result }
{
    tx.query_all(
        "SELECT place, letter, number, cents FROM paid WHERE ticket = ?1 ORDER BY place",
        &[whole(ticket)],
    )
}

/// Finds the lines of a ticket, by place.
pub fn ticket_lines<S: Alter>(
    tx: &mut Transaction<'_, S>,
    alloc: Global,
    ticket: u64,
) -> Result<Vec<PlacedLine>, Failure>
    requires { Fits ticket }
    ensures same_reference { tx.new.conn.ghost_name ≡ tx.old.conn.ghost_name }
    ensures only_queries { OnlyQueries (state S.Store tx.old.conn.now) (state S.Store tx.new.conn.now) result }
    ensures found { Finds (state S.Store tx.old.conn.now) (state S.Store tx.new.conn.now) result
        (λ rows found. found.items ≡ map placed_of (lines_on rows ticket)) }
    ensures cause { FailsByCause (state S.Store tx.old.conn.now) (state S.Store tx.new.conn.now) result (λ _. ⊤) }
{
    let rows = line_rows(tx, ticket)?;
    read_each(alloc, &rows)
}
