//! The table `desk`: one row, with the version of the tables and the days.

ghost use Rattle.std.specs.Prelude.{◌≡◌, Option, option_map, IsTrue, IfOk, IfSome, ⊤, IfErr};
ghost use Rattle.std.specs.Option.{option_to_list};
ghost use Rattle.std.specs.FinMap.{get};
ghost use Rattle.sqlite.specs.Held.{state};
ghost use Rattle.sqlite.specs.Effect.{IsDatabase};
ghost use Rattle.sqlite.specs.State.{HasCleanDisk, KeepsCommit};
ghost use Rattle.ee_store_tables.specs.AsRows.{Fits, row_of_desk};
ghost use Rattle.ee_store_tables.specs.Rows as table;
ghost use Rattle.ee_store_tables.specs.Rows.{desk_columns, with_day, with_version, HasRoom};
ghost use Rattle.ee_store_tables.specs.Statements.{OnlyQueries, WritesInside, LeavesOpen, StaysInside, LeavesNoMore, LeavesSound, Makes, Finds, FailsByCause, KeepsRoom};
ghost use Rattle.ee_store_tables.specs.Inner.Statements.{QueryFailsByCause, IsMemory};

use crate::failures::Failure;
use crate::records::DeskRow;
use crate::values::{optional, whole};
use sqlite::{Alter, Error, Row, Transaction};

/// Sets the open day and the last closed day.
pub fn set_day<S: Alter>(
    tx: &mut Transaction<'_, S>,
    day: Option<u64>,
    last_day: Option<u64>,
) -> Result<(), Failure>
    requires day { IfSome day Fits }
    requires last_day { IfSome last_day Fits }
    ensures same_reference { tx.new.conn.ghost_name ≡ tx.old.conn.ghost_name }
    ensures writes_inside { WritesInside (state S.Store tx.old.conn.now) (state S.Store tx.new.conn.now) result }
    ensures set { Makes (state S.Store tx.old.conn.now) (state S.Store tx.new.conn.now) result (λ rows. with_day rows day last_day) }
    ensures room { KeepsRoom (state S.Store tx.old.conn.now) (state S.Store tx.new.conn.now) result }
    ensures cause { FailsByCause (state S.Store tx.old.conn.now) (state S.Store tx.new.conn.now) result (λ _. HasRoom 0 (state S.Store tx.old.conn.now)) }
{
    tx.execute(
        "UPDATE desk SET day = ?2, last_day = ?3 WHERE id = ?1",
        &[whole(1), optional(day), optional(last_day)],
    )?;
    Ok(())
}

/// Sets the version in the desk's row.
pub fn set_version<S: Alter>(tx: &mut Transaction<'_, S>, version: u64) -> Result<(), Failure>
    requires { Fits version }
    ensures same_reference { tx.new.conn.ghost_name ≡ tx.old.conn.ghost_name }
    ensures open { LeavesOpen (state S.Store tx.new.conn.now) result }
    ensures inside { StaysInside (state S.Store tx.old.conn.now) (state S.Store tx.new.conn.now) result }
    ensures set { Makes (state S.Store tx.old.conn.now) (state S.Store tx.new.conn.now) result (λ rows. record rows { desk = with_version rows.desk version }) }
    ensures sound { LeavesSound (state S.Store tx.old.conn.now) (state S.Store tx.new.conn.now) result }
    ensures room { KeepsRoom (state S.Store tx.old.conn.now) (state S.Store tx.new.conn.now) result }
    ensures commit { HasCleanDisk (state S.Store tx.new.conn.now) → KeepsCommit (state S.Store tx.old.conn.now) (state S.Store tx.new.conn.now) }
    ensures cause { FailsByCause (state S.Store tx.old.conn.now) (state S.Store tx.new.conn.now) result
        (λ _. IsTrue (state S.Store tx.old.conn.now).is_open → IsDatabase (state S.Store tx.old.conn.now).now) }
    ensures crash { LeavesNoMore (state S.Store tx.old.conn.now) (state S.Store tx.new.conn.now) }
{
    tx.execute(
        "UPDATE desk SET version = ?2 WHERE id = ?1",
        &[whole(1), whole(version)],
    )?;
    Ok(())
}

/// The desk's row, if it exists.
fn desk_rows<S: Alter>(tx: &mut Transaction<'_, S>) -> Result<Vec<Row>, Error>
    ensures same_reference { tx.new.conn.ghost_name ≡ tx.old.conn.ghost_name }
    ensures only_queries { OnlyQueries (state S.Store tx.old.conn.now) (state S.Store tx.new.conn.now) result }
    ensures found { Finds (state S.Store tx.old.conn.now) (state S.Store tx.new.conn.now) result
        (λ rows found. found.items ≡ option_to_list (option_map desk_columns (get rows.desk 1))) }
    ensures cause { QueryFailsByCause (state S.Store tx.old.conn.now) (state S.Store tx.new.conn.now) result }
{
    tx.query_all(
        "SELECT version, day, last_day FROM desk WHERE id = ?1",
        &[whole(1)],
    )
}

/// The desk's row that a look-up found.
fn read_desk(rows: &[Row]) -> Result<Option<DeskRow>, Error>
    ensures found { IfOk result
        (λ found. (desk : Option table.DeskRow) → rows.now ≡ option_to_list (option_map desk_columns desk) → option_map row_of_desk found ≡ desk) }
    ensures memory { IfErr result (λ e. (desk : Option table.DeskRow) → rows.now ≡ option_to_list (option_map desk_columns desk) → IsMemory e) }
{
    match rows.first() {
        None => Ok(None),
        Some(row) => Ok(Some(DeskRow {
            version: row.get(0)?,
            day: row.get(1)?,
            last_day: row.get(2)?,
        })),
    }
}

/// Finds the desk's row: the version of the tables, the open day, and the last closed day.
pub fn find_desk<S: Alter>(tx: &mut Transaction<'_, S>) -> Result<Option<DeskRow>, Failure>
    ensures same_reference { tx.new.conn.ghost_name ≡ tx.old.conn.ghost_name }
    ensures only_queries { OnlyQueries (state S.Store tx.old.conn.now) (state S.Store tx.new.conn.now) result }
    ensures found { Finds (state S.Store tx.old.conn.now) (state S.Store tx.new.conn.now) result
        (λ rows found. option_map row_of_desk found ≡ get rows.desk 1) }
    ensures cause { FailsByCause (state S.Store tx.old.conn.now) (state S.Store tx.new.conn.now) result (λ _. ⊤) }
{
    let rows = desk_rows(tx)?;
    let found = read_desk(&rows)?;
    Ok(found)
}
