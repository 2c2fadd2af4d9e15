//! The statements on the tables of a store, each found by what was written.

use crate::answering::in_memory;
use crate::comparing::assert_same;
use crate::version_1::{ANSWERS, EXTENSIONS, SEVEN_TABLES};
use ee_store_tables::{
    BatchRow, Failure, PaidRow, PeriodRate, ReplyRow, SerialKey, TicketRow, UnpaidBond, add_answer,
    add_batch, add_bond, add_extension, add_rate, add_ticket, bonds_of_owner, day_tickets,
    find_answer, find_batch, find_bond, find_desk, find_extension, find_rate, find_ticket,
    first_ticket, last_ticket, pay_lines, set_day, set_version, ticket_lines,
};
use sqlite::{Alter, Connection, Error, Transaction};
use std::alloc::Global;
use std::fmt::{Debug, Write};
use std::process::Abort;

/// 2015-05-04.
const DAY: u64 = 16_559;

/// The last number of a request.
const LAST: u64 = 9_223_372_036_854_775_807;

const A1: SerialKey = SerialKey {
    letter: 1,
    number: 1,
};

fn make_tables<S: Alter>(conn: &mut Connection<S>) -> Result<(), Error> {
    conn.execute_batch(SEVEN_TABLES)?;
    conn.execute_batch(EXTENSIONS)?;
    conn.execute_batch(ANSWERS)?;
    conn.execute_batch("DROP TABLE replies; INSERT INTO desk (id, version) VALUES (1, 1)")
}

/// Rates and bonds; a second rate or extension for a period and a second bond of a serial number change nothing.
fn register<S: Alter>(tx: &mut Transaction<'_, S>) -> Result<(), Failure> {
    let period = 60;
    add_rate(tx, PeriodRate { period, rate: 350 })?;
    add_rate(tx, PeriodRate { period, rate: 200 })?;
    add_extension(tx, PeriodRate { period, rate: 400 })?;
    add_extension(tx, PeriodRate { period, rate: 300 })?;
    let first = UnpaidBond {
        letter: 1,
        number: 1,
        denom: 50,
        issued: 60,
        owner: 7,
        coowner: None,
    };
    let last = UnpaidBond {
        letter: 26,
        number: 9_999_999_999,
        denom: 10_000,
        issued: 60,
        owner: 7,
        coowner: Some(8),
    };
    add_bond(tx, last)?;
    add_bond(tx, first)?;
    add_bond(tx, UnpaidBond { denom: 75, ..first })?;
    set_version(tx, 2)?;
    set_day(tx, Some(DAY), Some(DAY - 1))
}

/// A ticket of one bond, the batch of its day, and a reply under the last number of the last desk.
fn redeem<S: Alter>(tx: &mut Transaction<'_, S>, entry: &ReplyRow) -> Result<(), Failure> {
    let ticket = TicketRow {
        day: DAY,
        payee: 7,
        bonds: 1,
        total: 2974,
    };
    add_ticket(tx, 1, ticket)?;
    let lines = [PaidRow {
        letter: 1,
        number: 1,
        cents: 2974,
    }];
    pay_lines(tx, 1, 1, &lines)?;
    let batch = BatchRow {
        tickets: 1,
        bonds: 1,
        total: LAST,
    };
    add_batch(tx, DAY, batch)?;
    add_answer(tx, 999, LAST, entry)
}

/// Adds a line: a name, and a value as `Debug` shows it.
fn add<T: Debug>(rt: &impl Abort, text: &mut String, name: &str, value: &T) {
    writeln!(text, "{name}: {value:?}").expect(rt, name);
}

/// Adds what is registered.
fn add_register<S: Alter>(rt: &impl Abort, text: &mut String, tx: &mut Transaction<'_, S>) {
    add(rt, text, "desk", &find_desk(tx));
    add(rt, text, "rate of 60", &find_rate(tx, 60));
    add(rt, text, "rate of 66", &find_rate(tx, 66));
    add(rt, text, "extension of 60", &find_extension(tx, 60));
    add(rt, text, "extension of 66", &find_extension(tx, 66));
}

/// Adds the bonds, the one on its ticket and the other unpaid.
fn add_bonds<S: Alter>(
    rt: &impl Abort,
    alloc: Global,
    text: &mut String,
    tx: &mut Transaction<'_, S>,
) {
    add(rt, text, "bond", &find_bond(tx, A1));
    add(rt, text, "of 7", &bonds_of_owner(tx, alloc, 7));
    add(rt, text, "of 8", &bonds_of_owner(tx, alloc, 8));
}

/// Adds the ticket, alone and among those of its day.
fn add_tickets<S: Alter>(
    rt: &impl Abort,
    alloc: Global,
    text: &mut String,
    tx: &mut Transaction<'_, S>,
) {
    add(rt, text, "ticket", &find_ticket(tx, 1));
    add(rt, text, "first", &first_ticket(tx, DAY));
    add(rt, text, "first after", &first_ticket(tx, DAY + 1));
    add(rt, text, "last", &last_ticket(tx));
    add(rt, text, "of the day", &day_tickets(tx, alloc, DAY));
}

/// Adds the ticket's lines, the batch and the reply.
fn add_rest<S: Alter>(
    rt: &impl Abort,
    alloc: Global,
    text: &mut String,
    tx: &mut Transaction<'_, S>,
) {
    add(rt, text, "lines", &ticket_lines(tx, alloc, 1));
    add(rt, text, "batch", &find_batch(tx, DAY));
    let found = find_answer(tx, 999, LAST).expect(rt, "the reply");
    let entry = found.expect(rt, "the reply");
    add(rt, text, "reply", &entry.reply);
}

/// Adds whether there is a reply at another desk, or under another number.
fn add_others<S: Alter>(rt: &impl Abort, text: &mut String, tx: &mut Transaction<'_, S>) {
    let name = "at the first desk";
    let is_there = find_answer(tx, 0, LAST).expect(rt, name).is_some();
    add(rt, text, name, &is_there);
    let name = "under the first number";
    let is_there = find_answer(tx, 999, 1).expect(rt, name).is_some();
    add(rt, text, name, &is_there);
}

/// Adds all that.
fn add_found<S: Alter>(
    rt: &impl Abort,
    alloc: Global,
    text: &mut String,
    tx: &mut Transaction<'_, S>,
) {
    add_register(rt, text, tx);
    add_bonds(rt, alloc, text, tx);
    add_tickets(rt, alloc, text, tx);
    add_rest(rt, alloc, text, tx);
    add_others(rt, text, tx);
}

/// What is found of all that.
const FOUND: &str =
    r#"desk: Ok(Some(DeskRow { version: 2, day: Some(16559), last_day: Some(16558) }))
rate of 60: Ok(Some(350))
rate of 66: Ok(None)
extension of 60: Ok(Some(400))
extension of 66: Ok(None)
bond: Ok(Some(BondRow { denom: 50, issued: 60, owner: 7, coowner: None, ticket: Some(1) }))
of 7: Ok([UnpaidBond { letter: 26, number: 9999999999, denom: 10000, issued: 60, owner: 7, coowner: Some(8) }])
of 8: Ok([])
ticket: Ok(Some(TicketRow { day: 16559, payee: 7, bonds: 1, total: 2974 }))
first: Ok(Some(1))
first after: Ok(None)
last: Ok(Some(1))
of the day: Ok([TicketSum { ticket: 1, bonds: 1, total: 2974 }])
lines: Ok([PlacedLine { place: 1, letter: 1, number: 1, cents: 2974 }])
batch: Ok(Some(BatchRow { tickets: 1, bonds: 1, total: 9223372036854775807 }))
reply: "paid"
at the first desk: false
under the first number: false
again: Err(StoreFailed)
"#;

/// The reply to that redemption.
fn reply(rt: &impl Abort, alloc: Global) -> ReplyRow {
    ReplyRow {
        act: String::from_str(alloc, "redeem").expect(rt, "an act"),
        reply: String::from_str(alloc, "paid").expect(rt, "a reply"),
    }
}

/// What is found after a ticket was redeemed, whose reply is written once.
fn found<S: Alter>(rt: &impl Abort, alloc: Global, tx: &mut Transaction<'_, S>) -> String {
    let entry = reply(rt, alloc);
    let mut text = String::new(alloc);
    redeem(tx, &entry).expect(rt, "a redemption");
    add_found(rt, alloc, &mut text, tx);
    add(rt, &mut text, "again", &redeem(tx, &entry));
    text
}

/// No ticket is found.
fn finds_no_ticket<S: Alter>(rt: &impl Abort, alloc: Global, tx: &mut Transaction<'_, S>) {
    let mut text = String::new(alloc);
    add(rt, &mut text, "last", &last_ticket(tx));
    assert_same(rt, text.as_str(), "last: Ok(None)\n", "before a ticket");
}

#[test]
fn a_ticket_is_written_and_looked_up(rt: HostRuntime) {
    let mut conn = in_memory(&rt, rt.alloc());
    make_tables(&mut conn).expect(&rt, "the tables");
    if !conn.is_autocommit() {
        rt.panic("a transaction was begun");
    }
    let mut tx = conn.transaction();
    finds_no_ticket(&rt, rt.alloc(), &mut tx);
    register(&mut tx).expect(&rt, "rates and bonds");
    let text = found(&rt, rt.alloc(), &mut tx);
    assert_same(&rt, text.as_str(), FOUND, "what is found");
}
