//! The table `batches`: the sums of each closed day.

ghost use Rattle.std.specs.Prelude.{◌≡◌, Option, option_map, IfOk, ⊤, IfErr, None};
ghost use Rattle.std.specs.Option.{option_to_list};
ghost use Rattle.std.specs.FinMap.{get};
ghost use Rattle.sqlite.specs.Held.{state};
ghost use Rattle.ee_store_tables.specs.AsRows.{Fits, FitsBatch, row_of_batch};
ghost use Rattle.ee_store_tables.specs.Rows as table;
ghost use Rattle.ee_store_tables.specs.Rows.{batch_columns, with_batch, HasRoom};
ghost use Rattle.ee_store_tables.specs.Statements.{OnlyQueries, WritesInside, Makes, Finds, FailsByCause, KeepsRoom};
ghost use Rattle.ee_store_tables.specs.Inner.Statements.{QueryFailsByCause, IsMemory};

use crate::failures::Failure;
use crate::records::BatchRow;
use crate::values::whole;
use sqlite::{Alter, Error, Row, Transaction};

/// Adds the batch of a day.
pub fn add_batch<S: Alter>(
    tx: &mut Transaction<'_, S>,
    day: u64,
    batch: BatchRow,
) -> Result<(), Failure>
    requires day { Fits day }
    requires batch { FitsBatch batch }
    ensures same_reference { tx.new.conn.ghost_name ≡ tx.old.conn.ghost_name }
    ensures writes_inside { WritesInside (state S.Store tx.old.conn.now) (state S.Store tx.new.conn.now) result }
    ensures added { Makes (state S.Store tx.old.conn.now) (state S.Store tx.new.conn.now) result (λ rows. with_batch rows day (row_of_batch batch)) }
    ensures room { KeepsRoom (state S.Store tx.old.conn.now) (state S.Store tx.new.conn.now) result }
    ensures cause { FailsByCause (state S.Store tx.old.conn.now) (state S.Store tx.new.conn.now) result
        (λ rows. HasRoom 0 (state S.Store tx.old.conn.now) × (get rows.batches day ≡ None)) }
{
    tx.execute(
        "INSERT INTO batches (day, tickets, bonds, total) VALUES (?1, ?2, ?3, ?4)",
        &[
            whole(day),
            whole(batch.tickets),
            whole(batch.bonds),
            whole(batch.total),
        ],
    )?;
    Ok(())
}

/// The row of a day's batch, if the day is closed.
fn batch_rows<S: Alter>(tx: &mut Transaction<'_, S>, day: u64) -> Result<Vec<Row>, Error>
    requires { Fits day }
    ensures same_reference { tx.new.conn.ghost_name ≡ tx.old.conn.ghost_name }
    ensures only_queries { OnlyQueries (state S.Store tx.old.conn.now) (state S.Store tx.new.conn.now) result }
    ensures found { Finds (state S.Store tx.old.conn.now) (state S.Store tx.new.conn.now) result
        (λ rows found. found.items ≡ option_to_list (option_map batch_columns (get rows.batches day))) }
    ensures cause { QueryFailsByCause (state S.Store tx.old.conn.now) (state S.Store tx.new.conn.now) result }
{
    tx.query_all(
        "SELECT tickets, bonds, total FROM batches WHERE day = ?1",
        &[whole(day)],
    )
}

/// The batch that a look-up found.
fn read_batch(rows: &[Row]) -> Result<Option<BatchRow>, Error>
    ensures found { IfOk result
        (λ found. (batch : Option table.BatchRow) → rows.now ≡ option_to_list (option_map batch_columns batch) → option_map row_of_batch found ≡ batch) }
    ensures memory { IfErr result (λ e. (batch : Option table.BatchRow) → rows.now ≡ option_to_list (option_map batch_columns batch) → IsMemory e) }
{
    match rows.first() {
        None => Ok(None),
        Some(row) => Ok(Some(BatchRow {
            tickets: row.get(0)?,
            bonds: row.get(1)?,
            total: row.get(2)?,
        })),
    }
}

/// Finds the batch of a day.
pub fn find_batch<S: Alter>(
    tx: &mut Transaction<'_, S>,
    day: u64,
) -> Result<Option<BatchRow>, Failure>
    requires { Fits day }
    ensures same_reference { tx.new.conn.ghost_name ≡ tx.old.conn.ghost_name }
    ensures only_queries { OnlyQueries (state S.Store tx.old.conn.now) (state S.Store tx.new.conn.now) result }
    ensures found { Finds (state S.Store tx.old.conn.now) (state S.Store tx.new.conn.now) result
        (λ rows found. option_map row_of_batch found ≡ get rows.batches day) }
    ensures cause { FailsByCause (state S.Store tx.old.conn.now) (state S.Store tx.new.conn.now) result (λ _. ⊤) }
{
    let rows = batch_rows(tx, day)?;
    let found = read_batch(&rows)?;
    Ok(found)
}
