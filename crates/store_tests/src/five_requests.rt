//! Five requests over a store, and all rows of its tables.

use crate::talk::replay;
use ee_store::{NotAdopted, OpenFault, SqlKeeper};
use sqlite::types::ValueRef;
use sqlite::{Alter, Connection, Error, ErrorCode, Row};
use std::alloc::Global;
use std::fmt::Write;
use std::test::Fail;

/// The five requests of a day, each new.
pub const FIVE: &str =
    r#"> POST /rates {"number":1,"rates":[{"from":"2010-05","rate":"2.00"},{"from":"2010-11","rate":"3.50"}]}
200 {"new":2,"same":0}
> POST /bonds {"number":2,"bonds":[{"serial":"L1EE","denom":50,"issued":"2010-11","owner":7},{"serial":"K2EE","denom":75,"issued":"2010-10","owner":7,"coowner":8},{"serial":"M3EE","denom":10000,"issued":"2011-02","owner":7}]}
200 {"new":3,"same":0}
> POST /day/open {"number":3,"day":"2012-02-06"}
200 {"opened":"2012-02-06"}
> POST /redeem {"number":4,"day":"2012-02-06","payee":7,"serials":["L1EE","K2EE","M3EE"]}
200 {"day":"2012-02-06","lines":[{"paid":"25.88","serial":"L1EE"},{"paid":"38.34","serial":"K2EE"},{"paid":"5132.00","serial":"M3EE"}],"payee":7,"ticket":1,"total":"5196.22"}
> POST /day/close {"number":5,"day":"2012-02-06"}
200 {"bonds":3,"day":"2012-02-06","tickets":1,"total":"5196.22"}
"#;

/// The queries for all rows of each table, by key: those of version 2, and the replies of version 1.
const QUERIES: &str = "\
desk: SELECT id, version, day, last_day FROM desk ORDER BY id
rates: SELECT period, rate FROM rates ORDER BY period
bonds: SELECT letter, number, denom, issued, owner, coowner, ticket FROM bonds ORDER BY letter, number
tickets: SELECT ticket, day, payee, bonds, total FROM tickets ORDER BY ticket
paid: SELECT ticket, place, letter, number, cents FROM paid ORDER BY ticket, place
batches: SELECT day, tickets, bonds, total FROM batches ORDER BY day
replies: SELECT number, act, reply FROM replies ORDER BY number
extensions: SELECT period, rate FROM extensions ORDER BY period
answers: SELECT desk, number, act, reply FROM answers ORDER BY desk, number
";

/// Appends a row of a table as a line: the table's name, and the values; `-` means a missing value.
fn add_row(text: &mut String, table: &str, row: &Row) -> Result<(), Fail> {
    write!(text, "{table}")?;
    for at in 0..row.column_count() {
        match row.get_ref(at)? {
            ValueRef::Int(value) => write!(text, " {value}")?,
            ValueRef::Text(bytes) => write!(text, " {}", std::str::from_utf8(bytes)?)?,
            _ => write!(text, " -")?,
        }
    }
    writeln!(text)?;
    Ok(())
}

/// Adds the rows of a query, or that their table is missing.
pub fn add_rows<S: Alter>(
    text: &mut String,
    conn: &mut Connection<S>,
    table: &str,
    query: &str,
) -> Result<(), Fail> {
    match conn.query_all(query, &[]) {
        Ok(rows) => {
            for row in &rows {
                add_row(text, table, row)?;
            }
        }
        Err(Error::SqliteFailure(ErrorCode::OutOfMemory)) => return Err("NoMemory".into()),
        Err(_) => writeln!(text, "{table} is missing")?,
    }
    Ok(())
}

/// All rows of a store, each on a line.
pub fn rows_text<S: Alter>(alloc: Global, conn: &mut Connection<S>) -> Result<String, Fail> {
    let mut text = String::new(alloc);
    for line in QUERIES.lines() {
        let (table, query) = line.split_once(": ").ok_or("query")?;
        add_rows(&mut text, conn, table, query)?;
    }
    Ok(text)
}

/// Serves a talk over the store of a connection, and hands it back.
pub fn served<S: Alter>(
    alloc: Global,
    conn: Connection<S>,
    talk: &str,
) -> (Result<String, Fail>, Connection<S>) {
    match SqlKeeper::adopt(conn, alloc) {
        Ok(mut keeper) => {
            let text = replay(alloc, &mut keeper, talk);
            (text, keeper.close())
        }
        Err(NotAdopted { fault, conn }) => (fault_text(alloc, fault), conn),
    }
}

/// Why a store wasn't taken over.
fn fault_text(alloc: Global, fault: OpenFault) -> Result<String, Fail> {
    Ok(format!(in alloc; "{fault:?}")?)
}
