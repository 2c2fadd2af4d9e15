//! Stores of version 1 with many replies, and with little memory.

use crate::answering::{assert_answers, has_rows, in_memory};
use crate::comparing::{assert_holds, prepared};
use crate::five_requests::{FIVE, served};
use crate::version_1::{EXTENSIONS, Earlier, SEVEN_TABLES, make_earlier, rows_after, rows_before};
use ee_store::{NotAdopted, OpenFault, SqlKeeper};
use sqlite::types::ValueRef;
use sqlite::{Alter, Connection, MemStore};
use std::alloc::Global;
use std::fmt::Write;
use std::io::Eprint;
use std::process::Abort;

/// How many replies a store has; each third number is used.
const COUNT: u64 = 10_000;

/// The act and the reply of each.
const ACT: &str = r#"{"act":"close","day":"2012-02-06"}"#;

const REPLY: &str = r#"{"code":42,"refused":"NoOpenDay"}"#;

/// Kept numbers at the first desk, one that is used again, the same at another desk, and one between.
const TALK: &str = r#"> POST /day/close {"number":3,"day":"2012-02-06"}
409 {"code":42,"refused":"NoOpenDay"}
> POST /day/open {"number":30000,"day":"2012-02-06"}
409 {"code":10,"refused":"NumberReused"}
> POST /day/open {"desk":1,"number":30000,"day":"2012-02-06"}
200 {"opened":"2012-02-06"}
> POST /day/close {"number":30000,"day":"2012-02-06"}
409 {"code":42,"refused":"NoOpenDay"}
> POST /day/close {"number":29999,"day":"2012-02-06"}
200 {"bonds":0,"day":"2012-02-06","tickets":0,"total":"0.00"}
> POST /day/close {"number":15000,"day":"2012-02-06"}
409 {"code":42,"refused":"NoOpenDay"}
"#;

/// Adds a reply of that number.
fn add_reply<S: Alter>(rt: &impl Abort, conn: &mut Connection<S>, number: i64) {
    let values = [
        ValueRef::Int(number),
        ValueRef::Text(ACT.as_bytes()),
        ValueRef::Text(REPLY.as_bytes()),
    ];
    conn.execute("INSERT INTO replies VALUES (?1, ?2, ?3)", &values)
        .expect(rt, "a reply");
}

/// Adds the replies to an earlier store.
fn add_replies<S: Alter>(rt: &impl Abort, conn: &mut Connection<S>) {
    conn.execute_batch("BEGIN; INSERT INTO desk VALUES (1, 1, NULL, NULL)")
        .expect(rt, "a desk");
    let mut number: i64 = 0;
    for _ in 0..COUNT {
        number = number.saturating_add(3);
        add_reply(rt, conn, number);
    }
    conn.execute_batch("COMMIT").expect(rt, "the replies");
}

/// The rows of version 2.
fn wanted(rt: &impl Abort, alloc: Global) -> String {
    let mut text = String::new(alloc);
    text.push_str("desk 1 2 - -\nreplies is missing\n")
        .expect(rt, "memory for a text");
    for place in 1..=COUNT {
        let number = place.saturating_mul(3);
        writeln!(text, "answers 0 {number} {ACT} {REPLY}").expect(rt, "memory for a row");
    }
    text
}

/// An earlier store with these replies.
fn with_many(rt: &impl Abort, alloc: Global) -> Connection<MemStore> {
    let mut conn = in_memory(rt, alloc);
    conn.execute_batch(SEVEN_TABLES).expect(rt, "seven tables");
    conn.execute_batch(EXTENSIONS).expect(rt, "extensions");
    add_replies(rt, &mut conn);
    conn
}

/// Each of ten thousand replies is one of the first desk then.
#[test]
fn ten_thousand_replies(rt: HostRuntime) {
    let alloc = rt.alloc();
    let mut conn = assert_answers(&rt, alloc, with_many(&rt, alloc), "", "", "opened");
    let rows = wanted(&rt, alloc);
    has_rows(&rt, alloc, &mut conn, rows.as_str(), "other rows");
    let _conn = assert_answers(&rt, alloc, conn, TALK, TALK, "a talk");
}

/// Opens an earlier store. If memory is refused for that, the store has the same rows as before.
fn opened(
    rt: &(impl Abort + Eprint),
    alloc: Global,
    conn: Connection<MemStore>,
) -> Connection<MemStore> {
    match SqlKeeper::adopt(conn, alloc) {
        Ok(keeper) => keeper.close(),
        Err(NotAdopted { fault, mut conn }) => {
            assert_holds(rt, fault == OpenFault::NoMemory, "another fault");
            let rows = rows_before(rt, alloc, Earlier::Seven);
            has_rows(rt, alloc, &mut conn, rows.as_str(), "refused");
            conn
        }
    }
}

/// The five requests twice: at the first time or at the second each has its first reply.
fn answers_again(
    rt: &(impl Abort + Eprint),
    alloc: Global,
    conn: Connection<MemStore>,
) -> Connection<MemStore> {
    let (first, conn) = served(alloc, conn, FIVE);
    let first = prepared(rt, first);
    let (second, conn) = served(alloc, conn, FIVE);
    let second = prepared(rt, second);
    assert_holds(
        rt,
        first.as_str() == FIVE || second.as_str() == FIVE,
        second.as_str(),
    );
    conn
}

/// The store is opened, at once or after memory was refused, and gives each number its first reply, unless memory
/// is refused for that. `tests/faults/test_refused_memory.py` refuses each request for memory in turn.
#[test]
fn refused_memory(rt: HostRuntime) {
    let alloc = rt.alloc();
    let mut conn = in_memory(&rt, alloc);
    make_earlier(&rt, &mut conn, Earlier::Seven);
    let conn = opened(&rt, alloc, conn);
    let mut conn = answers_again(&rt, alloc, conn);
    let rows = rows_after(&rt, alloc, false, false);
    has_rows(&rt, alloc, &mut conn, rows.as_str(), "opened");
}
