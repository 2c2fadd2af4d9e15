//! The answers of a store in memory, and its rows.

use crate::comparing::{assert_same, prepared};
use crate::five_requests::{FIVE, rows_text, served};
use sqlite::{Connection, MemStore};
use std::alloc::Global;
use std::io::Eprint;
use std::process::Abort;

/// An empty store in memory.
pub fn in_memory(rt: &impl Abort, alloc: Global) -> Connection<MemStore> {
    Connection::open_in_memory(alloc).expect(rt, "a store in memory")
}

/// The talk over a store gives this result; the store is handed back.
pub fn assert_answers(
    rt: &(impl Abort + Eprint),
    alloc: Global,
    conn: Connection<MemStore>,
    talk: &str,
    wanted: &str,
    case: &str,
) -> Connection<MemStore> {
    let (text, conn) = served(alloc, conn, talk);
    assert_same(rt, prepared(rt, text).as_str(), wanted, case);
    conn
}

/// A store has these rows, and no others.
pub fn has_rows(
    rt: &(impl Abort + Eprint),
    alloc: Global,
    conn: &mut Connection<MemStore>,
    rows: &str,
    case: &str,
) {
    assert_same(
        rt,
        prepared(rt, rows_text(alloc, conn)).as_str(),
        rows,
        case,
    );
}

/// A store that is changed by these statements is refused for that cause, and stays as it is.
pub fn refused(
    rt: &(impl Abort + Eprint),
    alloc: Global,
    mut conn: Connection<MemStore>,
    statements: &str,
    fault: &str,
) -> Connection<MemStore> {
    conn.execute_batch(statements).expect(rt, statements);
    let before = prepared(rt, rows_text(alloc, &mut conn));
    let mut conn = assert_answers(rt, alloc, conn, FIVE, fault, statements);
    has_rows(rt, alloc, &mut conn, before.as_str(), statements);
    conn
}
