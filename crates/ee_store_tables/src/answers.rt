//! The table `answers`: each request's act and reply, under its desk and number.

ghost use Rattle.std.specs.Prelude.{◌≡◌, ◌+◌, ℕ, Option, option_map, IsTrue, OnOk, IfOk, IfErr, IfSome, None};
ghost use Rattle.std.specs.Option.{option_to_list};
ghost use Rattle.std.specs.FinMap.{get};
ghost use Rattle.sqlite.specs.Held.{state};
ghost use Rattle.sqlite.specs.Effect.{IsDatabase};
ghost use Rattle.sqlite.specs.State.{HasCleanDisk, KeepsCommit};
ghost use Rattle.ee_store_tables.specs.AsRows.{Fits, row_of_reply};
ghost use Rattle.ee_store_tables.specs.Rows as table;
ghost use Rattle.ee_store_tables.specs.Rows.{IsText, IsInside, Rises, reply_columns, with_answer, FitsRow, HasRoom};
ghost use Rattle.ee_store_tables.specs.Statements.{OnlyQueries, WritesInside, LeavesOpen, StaysInside, LeavesNoMore, LeavesSound, Makes, Finds, FailsByCause, TakesRoom};
ghost use Rattle.ee_store_tables.specs.Inner.Statements.{QueryFailsByCause, IsMemory};
ghost use Rattle.ee_store_tables.specs.Tables.{answers_tree};

use crate::failures::Failure;
use crate::records::ReplyRow;
use crate::values::whole;
use sqlite::types::ToSql;
use sqlite::{Alter, Error, Row, Transaction};

/// Adds the texts of an act and a reply, under a desk and a number.
pub fn add_answer_texts<S: Alter>(
    tx: &mut Transaction<'_, S>,
    desk: u64,
    number: u64,
    act: &str,
    reply: &str,
) -> Result<(), Failure>
    requires desk { Fits desk }
    requires number { Fits number }
    ensures same_reference { tx.new.conn.ghost_name ≡ tx.old.conn.ghost_name }
    ensures open { LeavesOpen (state S.Store tx.new.conn.now) result }
    ensures inside { StaysInside (state S.Store tx.old.conn.now) (state S.Store tx.new.conn.now) result }
    ensures added { Makes (state S.Store tx.old.conn.now) (state S.Store tx.new.conn.now) result
        (λ rows. with_answer rows (desk, number) (record { act = act.now; reply = reply.now })) }
    ensures sound { LeavesSound (state S.Store tx.old.conn.now) (state S.Store tx.new.conn.now) result }
    ensures room { TakesRoom (state S.Store tx.old.conn.now) (state S.Store tx.new.conn.now) result 1 }
    ensures rises { HasCleanDisk (state S.Store tx.new.conn.now) → IsInside (state S.Store tx.old.conn.now) → OnOk result ((n : ℕ)
        → Rises 1 (n + 1) ((state S.Store tx.old.conn.now).now.trees answers_tree) → IsTrue (state S.Store tx.new.conn.now).is_open
        → Rises 1 n ((state S.Store tx.new.conn.now).now.trees answers_tree)) }
    ensures commit { HasCleanDisk (state S.Store tx.new.conn.now) → KeepsCommit (state S.Store tx.old.conn.now) (state S.Store tx.new.conn.now) }
    ensures cause { FailsByCause (state S.Store tx.old.conn.now) (state S.Store tx.new.conn.now) result
        (λ rows. (IsTrue (state S.Store tx.old.conn.now).is_open
        → IsDatabase (state S.Store tx.old.conn.now).now × Rises 1 1 ((state S.Store tx.old.conn.now).now.trees answers_tree)) × (get rows.answers (desk, number) ≡ None)
        × FitsRow (record { act = act.now; reply = reply.now })) }
    ensures crash { LeavesNoMore (state S.Store tx.old.conn.now) (state S.Store tx.new.conn.now) }
{
    tx.execute(
        "INSERT INTO answers (desk, number, act, reply) VALUES (?1, ?2, ?3, ?4)",
        &[whole(desk), whole(number), act.to_sql(), reply.to_sql()],
    )?;
    Ok(())
}

/// Adds an act and a reply, under a desk and a number.
pub fn add_answer<S: Alter>(
    tx: &mut Transaction<'_, S>,
    desk: u64,
    number: u64,
    entry: &ReplyRow,
) -> Result<(), Failure>
    requires desk { Fits desk }
    requires number { Fits number }
    ensures same_reference { tx.new.conn.ghost_name ≡ tx.old.conn.ghost_name }
    ensures writes_inside { WritesInside (state S.Store tx.old.conn.now) (state S.Store tx.new.conn.now) result }
    ensures added { Makes (state S.Store tx.old.conn.now) (state S.Store tx.new.conn.now) result
        (λ rows. with_answer rows (desk, number) (row_of_reply entry.now)) }
    ensures sound { LeavesSound (state S.Store tx.old.conn.now) (state S.Store tx.new.conn.now) result }
    ensures room { TakesRoom (state S.Store tx.old.conn.now) (state S.Store tx.new.conn.now) result 1 }
    ensures cause { FailsByCause (state S.Store tx.old.conn.now) (state S.Store tx.new.conn.now) result
        (λ rows. HasRoom 1 (state S.Store tx.old.conn.now) × (get rows.answers (desk, number) ≡ None) × FitsRow (row_of_reply entry.now)) }
{
    add_answer_texts(tx, desk, number, entry.act.as_str(), entry.reply.as_str())
}

/// The row under the desk and the number, if there is one.
fn answer_rows<S: Alter>(
    tx: &mut Transaction<'_, S>,
    desk: u64,
    number: u64,
) -> Result<Vec<Row>, Error>
    requires desk { Fits desk }
    requires number { Fits number }
    ensures same_reference { tx.new.conn.ghost_name ≡ tx.old.conn.ghost_name }
    ensures only_queries { OnlyQueries (state S.Store tx.old.conn.now) (state S.Store tx.new.conn.now) result }
    ensures found { Finds (state S.Store tx.old.conn.now) (state S.Store tx.new.conn.now) result
        (λ rows found. found.items ≡ option_to_list (option_map reply_columns (get rows.answers (desk, number)))) }
    ensures cause { QueryFailsByCause (state S.Store tx.old.conn.now) (state S.Store tx.new.conn.now) result }
{
    tx.query_all(
        "SELECT act, reply FROM answers WHERE desk = ?1 AND number = ?2",
        &[whole(desk), whole(number)],
    )
}

/// The entry that a look-up found.
fn read_entry(rows: &[Row]) -> Result<Option<ReplyRow>, Error>
    ensures found { IfOk result
        (λ found. (kept : Option table.ReplyRow) → rows.now ≡ option_to_list (option_map reply_columns kept) → option_map row_of_reply found ≡ kept) }
    ensures memory { IfErr result
        (λ e. (kept : Option table.ReplyRow) → IfSome kept IsText → rows.now ≡ option_to_list (option_map reply_columns kept) → IsMemory e) }
{
    match rows.first() {
        None => Ok(None),
        Some(row) => Ok(Some(ReplyRow {
            act: row.get(0)?,
            reply: row.get(1)?,
        })),
    }
}

/// Finds the entry under the desk and the number.
pub fn find_answer<S: Alter>(
    tx: &mut Transaction<'_, S>,
    desk: u64,
    number: u64,
) -> Result<Option<ReplyRow>, Failure>
    requires desk { Fits desk }
    requires number { Fits number }
    ensures same_reference { tx.new.conn.ghost_name ≡ tx.old.conn.ghost_name }
    ensures only_queries { OnlyQueries (state S.Store tx.old.conn.now) (state S.Store tx.new.conn.now) result }
    ensures found { Finds (state S.Store tx.old.conn.now) (state S.Store tx.new.conn.now) result
        (λ rows found. option_map row_of_reply found ≡ get rows.answers (desk, number)) }
    ensures cause { FailsByCause (state S.Store tx.old.conn.now) (state S.Store tx.new.conn.now) result
        (λ rows. IfSome (get rows.answers (desk, number)) IsText) }
{
    let rows = answer_rows(tx, desk, number)?;
    let found = read_entry(&rows)?;
    Ok(found)
}
