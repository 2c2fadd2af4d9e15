//! Stores that are changed by other statements than this program's.

use crate::answering::{assert_answers, in_memory, refused};
use crate::comparing::{assert_holds, assert_same, parts, prepared};
use crate::five_requests::{FIVE, add_rows, rows_text};
use crate::version_1::{ANSWERS, EXTENSIONS};
use sqlite::{Alter, Connection, MemStore};
use std::alloc::Global;
use std::io::Eprint;
use std::process::Abort;
use std::test::Fail;

/// A change of the rows after that day, how it is undone, the answer to the changed store, and a row that
/// the change made.
const CHANGES: &str =
    r#"UPDATE desk SET version = 7 => UPDATE desk SET version = 2 => WrongVersion => desk 1 7 - 15376
UPDATE desk SET version = 0 => UPDATE desk SET version = 2 => WrongVersion => desk 1 0 - 15376
UPDATE desk SET version = 3 => UPDATE desk SET version = 2 => WrongVersion => desk 1 3 - 15376
UPDATE desk SET version = 1 => UPDATE desk SET version = 2 => Unusable => desk 1 1 - 15376
UPDATE bonds SET ticket = 2 WHERE letter = 12 => UPDATE bonds SET ticket = 1 => Unusable => bonds 12 1 50 66 7 - 2
UPDATE answers SET reply = '{"code":10,"refused":"NumberReused"}' WHERE number = 3 => UPDATE answers SET reply = '{"opened":"2012-02-06"}' WHERE number = 3 => Unusable => answers 0 3 {"act":"open","day":"2012-02-06"} {"code":10,"refused":"NumberReused"}
UPDATE answers SET reply = 'none' WHERE number = 3 => UPDATE answers SET reply = '{"opened":"2012-02-06"}' WHERE number = 3 => Unusable => answers 0 3 {"act":"open","day":"2012-02-06"} none
UPDATE answers SET desk = 1000 WHERE number = 3 => UPDATE answers SET desk = 0 WHERE number = 3 => Unusable => answers 1000 3 {"act":"open","day":"2012-02-06"} {"opened":"2012-02-06"}
UPDATE answers SET desk = -1 WHERE number = 3 => UPDATE answers SET desk = 0 WHERE number = 3 => Unusable => answers -1 3 {"act":"open","day":"2012-02-06"} {"opened":"2012-02-06"}
UPDATE answers SET number = 0 WHERE number = 3 => UPDATE answers SET number = 3 WHERE number = 0 => Unusable => answers 0 0 {"act":"open","day":"2012-02-06"} {"opened":"2012-02-06"}
UPDATE paid SET cents = 2589 WHERE place = 1 => UPDATE paid SET cents = 2588 WHERE place = 1 => Unusable => paid 1 1 12 1 2589
INSERT INTO extensions VALUES (72, 400) => DELETE FROM extensions => Unusable => extensions 72 400
INSERT INTO extensions VALUES (60, 200) => DELETE FROM extensions => Unusable => extensions 60 200
INSERT INTO extensions VALUES (60, 2001) => DELETE FROM extensions => Unusable => extensions 60 2001
"#;

/// Changes of the hidden row numbers after that day, and the answer to a sixth request: none fails but that for which
/// no number is left.
const NUMBERS: &str = r#"UPDATE paid SET rowid = -1 WHERE place = 1 => 200 {"opened":"2012-02-07"}
UPDATE answers SET rowid = 4611686018427387904 WHERE number = 3 => 200 {"opened":"2012-02-07"}
UPDATE bonds SET rowid = 9223372036854775807 WHERE letter = 12 => 200 {"opened":"2012-02-07"}
UPDATE answers SET rowid = 9223372036854775807 WHERE number = 3 => StoreFailed 503 {"code":2,"unserved":"StoreFailed"}
"#;

/// The sixth request, and its reply.
const SIXTH: &str = r#"> POST /day/open {"number":6,"day":"2012-02-07"}"#;

const OPENED: &str = r#"200 {"opened":"2012-02-07"}"#;

/// Changes of the tables after that day, each on top of those before, and the answer to the changed store: a
/// table less, the same tables in another order, a table more, another version beside that, and no version.
const OTHER_TABLES: &str = r#"DROP TABLE batches => Unusable
CREATE TABLE batches (day INTEGER NOT NULL PRIMARY KEY, tickets INTEGER NOT NULL, bonds INTEGER NOT NULL, total INTEGER NOT NULL) STRICT; INSERT INTO batches VALUES (15376, 1, 3, 519622) => Unusable
CREATE TABLE notes (note TEXT) => Unusable
UPDATE desk SET version = 3 => WrongVersion
DROP TABLE desk => Unusable
"#;

/// Changes of the tables after that day, each by itself, and the answer: the table of version 1 in the place of the
/// answers, no extensions, no answers, one number twice at a desk, other keys, an index on the program's table, and
/// a table that refers to one of the program's.
const OTHER_FORMS: &str =
    r#"DROP TABLE answers; CREATE TABLE replies (number INTEGER NOT NULL PRIMARY KEY, act TEXT NOT NULL, reply TEXT NOT NULL) STRICT => Unusable
DROP TABLE extensions => Unusable
DROP TABLE answers => Unusable
DROP TABLE answers; CREATE TABLE answers (desk INTEGER NOT NULL, number INTEGER NOT NULL, act TEXT NOT NULL, reply TEXT NOT NULL) STRICT; INSERT INTO answers VALUES (0, 3, '{"act":"open","day":"2012-02-06"}', '{"opened":"2012-02-06"}'), (0, 3, '{"act":"open","day":"2012-02-06"}', '{"opened":"2012-02-06"}') => Unusable
DROP TABLE answers; CREATE TABLE answers (desk INTEGER NOT NULL, number INTEGER NOT NULL PRIMARY KEY, act TEXT NOT NULL, reply TEXT NOT NULL) STRICT => Unusable
CREATE INDEX answers_number ON answers (number) => Unusable
CREATE TABLE notes (ticket INTEGER REFERENCES tickets (ticket)) => Unusable
"#;

/// What others make in a store after that day, a query of it, and its row, which stays.
const OF_OTHERS: &str =
    r#"CREATE TABLE notes (note TEXT); INSERT INTO notes VALUES ('kept') => SELECT note FROM notes => notes kept
CREATE TABLE notes (note TEXT UNIQUE); CREATE INDEX by_note ON notes (note); INSERT INTO notes VALUES ('kept') => SELECT note FROM notes WHERE note = 'kept' => notes kept
CREATE TABLE replies (number INTEGER NOT NULL PRIMARY KEY, act TEXT NOT NULL, reply TEXT NOT NULL) STRICT; INSERT INTO replies VALUES (1, '', '') => SELECT number FROM replies => notes 1
CREATE VIEW notes AS SELECT desk, number FROM answers => SELECT desk, number FROM notes WHERE number = 6 => notes 0 6
"#;

/// Tables that a store has alone, which is none of this program then.
const ALONE: [&str; 4] = [
    EXTENSIONS,
    ANSWERS,
    "CREATE TABLE replies (number INTEGER NOT NULL PRIMARY KEY, act TEXT NOT NULL, reply TEXT NOT NULL) STRICT",
    "CREATE TABLE notes (note TEXT)",
];

/// Changes a store, which is then refused and keeps all its rows; the change undone, it gives the first
/// replies.
fn is_refused(
    rt: &(impl Abort + Eprint),
    alloc: Global,
    conn: Connection<MemStore>,
    case: &str,
) -> Connection<MemStore> {
    let (statements, case) = parts(rt, case);
    let (undo, case) = parts(rt, case);
    let (fault, row) = parts(rt, case);
    let mut conn = refused(rt, alloc, conn, statements, fault);
    has_row(rt, alloc, &mut conn, row);
    conn.execute_batch(undo).expect(rt, undo);
    assert_answers(rt, alloc, conn, FIVE, FIVE, undo)
}

/// The line for a row of a store.
fn has_row(rt: &(impl Abort + Eprint), alloc: Global, conn: &mut Connection<MemStore>, row: &str) {
    let got = prepared(rt, rows_text(alloc, conn));
    let has_it = got.lines().any(|line| line == row);
    assert_holds(rt, has_it, got.as_str());
}

/// A store that is closed and taken over again gives each number its first reply. A changed one is refused,
/// and stays as it is.
#[test]
fn changed_stores_are_refused(rt: HostRuntime) {
    let mut conn = with_five(&rt, rt.alloc());
    for case in CHANGES.lines() {
        conn = is_refused(&rt, rt.alloc(), conn, case);
    }
}

/// A store is opened whatever row numbers it has. It gives each number its first reply, and serves a new one if the
/// rows of that have numbers.
#[test]
fn any_row_numbers_are_served(rt: HostRuntime) {
    for case in NUMBERS.lines() {
        let (change, answer) = parts(&rt, case);
        let mut conn = with_five(&rt, rt.alloc());
        conn.execute_batch(change).expect(&rt, change);
        let conn = assert_answers(&rt, rt.alloc(), conn, FIVE, FIVE, change);
        let talk = prepared(&rt, sixth_text(rt.alloc(), answer));
        let _conn = assert_answers(&rt, rt.alloc(), conn, talk.as_str(), talk.as_str(), change);
    }
}

/// The sixth request with its answer.
fn sixth_text(alloc: Global, answer: &str) -> Result<String, Fail> {
    Ok(format!(in alloc; "{SIXTH}\n{answer}\n")?)
}

/// A store that the five requests were sent to.
fn with_five(rt: &(impl Abort + Eprint), alloc: Global) -> Connection<MemStore> {
    assert_answers(rt, alloc, in_memory(rt, alloc), FIVE, FIVE, "a new store")
}

/// Each change of the tables by itself.
fn other_forms_are_refused(rt: &(impl Abort + Eprint), alloc: Global) {
    for case in OTHER_FORMS.lines() {
        let (statements, fault) = parts(rt, case);
        let _conn = refused(rt, alloc, with_five(rt, alloc), statements, fault);
    }
}

/// Each of the tables that a store has alone.
fn tables_alone_are_refused(rt: &(impl Abort + Eprint), alloc: Global) {
    for statement in ALONE {
        let _conn = refused(rt, alloc, in_memory(rt, alloc), statement, "Unusable");
    }
}

/// A store that begins with other tables than those of this program, in order, or has more indexes on them, is
/// refused and doesn't change; its version is tested first.
#[test]
fn other_tables_are_refused(rt: HostRuntime) {
    let mut conn = with_five(&rt, rt.alloc());
    for case in OTHER_TABLES.lines() {
        let (statements, fault) = parts(&rt, case);
        conn = refused(&rt, rt.alloc(), conn, statements, fault);
    }
    other_forms_are_refused(&rt, rt.alloc());
    tables_alone_are_refused(&rt, rt.alloc());
}

/// A store whose tables are followed by others' is served, and these stay as they are.
#[test]
fn tables_of_others_are_kept(rt: HostRuntime) {
    for case in OF_OTHERS.lines() {
        let (statements, case) = parts(&rt, case);
        let (query, row) = parts(&rt, case);
        let mut conn = with_five(&rt, rt.alloc());
        conn.execute_batch(statements).expect(&rt, statements);
        let conn = assert_answers(&rt, rt.alloc(), conn, FIVE, FIVE, statements);
        let talk = prepared(&rt, sixth_text(rt.alloc(), OPENED));
        let talk = talk.as_str();
        let mut conn = assert_answers(&rt, rt.alloc(), conn, talk, talk, statements);
        let rows = prepared(&rt, of_query(rt.alloc(), &mut conn, query));
        assert_same(&rt, rows.trim_end(), row, statements);
    }
}

/// The rows of a query on what others made.
fn of_query(alloc: Global, conn: &mut Connection<MemStore>, query: &str) -> Result<String, Fail> {
    let mut text = String::new(alloc);
    add_rows(&mut text, conn, "notes", query)?;
    Ok(text)
}
