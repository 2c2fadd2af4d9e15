//! The table `extensions`: each period's rate of extended maturity, if it differs from the fixed rate.

ghost use Rattle.std.specs.Prelude.{◌≡◌, option_map, ⊤};
ghost use Rattle.std.specs.Option.{option_to_list};
ghost use Rattle.std.specs.FinMap.{get};
ghost use Rattle.sqlite.specs.Held.{state};
ghost use Rattle.ee_store_tables.specs.AsRows.{Fits, FitsRate, entry_of_rate};
ghost use Rattle.ee_store_tables.specs.Rows.{rate_columns, with_extension, HasRoom};
ghost use Rattle.ee_store_tables.specs.Statements.{OnlyQueries, WritesInside, Makes, Finds, FailsByCause, KeepsRoom};
ghost use Rattle.ee_store_tables.specs.Inner.Statements.{QueryFailsByCause};

use crate::failures::Failure;
use crate::reading::read_number;
use crate::records::PeriodRate;
use crate::values::whole;
use sqlite::{Alter, Error, Row, Transaction};

/// Adds an extension. If its period has one, nothing changes.
pub fn add_extension<S: Alter>(
    tx: &mut Transaction<'_, S>,
    extension: PeriodRate,
) -> Result<(), Failure>
    requires { FitsRate extension }
    ensures same_reference { tx.new.conn.ghost_name ≡ tx.old.conn.ghost_name }
    ensures writes_inside { WritesInside (state S.Store tx.old.conn.now) (state S.Store tx.new.conn.now) result }
    ensures added { Makes (state S.Store tx.old.conn.now) (state S.Store tx.new.conn.now) result
        (λ rows. with_extension rows (entry_of_rate extension)) }
    ensures room { KeepsRoom (state S.Store tx.old.conn.now) (state S.Store tx.new.conn.now) result }
    ensures cause { FailsByCause (state S.Store tx.old.conn.now) (state S.Store tx.new.conn.now) result (λ _. HasRoom 0 (state S.Store tx.old.conn.now)) }
{
    tx.execute(
        "INSERT INTO extensions (period, rate) VALUES (?1, ?2) ON CONFLICT (period) DO NOTHING",
        &[whole(extension.period), whole(extension.rate)],
    )?;
    Ok(())
}

/// The row of a period's extension, if it has one.
fn extension_rows<S: Alter>(tx: &mut Transaction<'_, S>, period: u64) -> Result<Vec<Row>, Error>
    requires { Fits period }
    ensures same_reference { tx.new.conn.ghost_name ≡ tx.old.conn.ghost_name }
    ensures only_queries { OnlyQueries (state S.Store tx.old.conn.now) (state S.Store tx.new.conn.now) result }
    ensures found { Finds (state S.Store tx.old.conn.now) (state S.Store tx.new.conn.now) result
        (λ rows found. found.items ≡ option_to_list (option_map rate_columns (get rows.extensions period))) }
    ensures cause { QueryFailsByCause (state S.Store tx.old.conn.now) (state S.Store tx.new.conn.now) result }
{
    tx.query_all(
        "SELECT rate FROM extensions WHERE period = ?1",
        &[whole(period)],
    )
}

/// Finds the extension of a period in hundredths of a percent, if it has one.
pub fn find_extension<S: Alter>(
    tx: &mut Transaction<'_, S>,
    period: u64,
) -> Result<Option<u64>, Failure>
    requires { Fits period }
    ensures same_reference { tx.new.conn.ghost_name ≡ tx.old.conn.ghost_name }
    ensures only_queries { OnlyQueries (state S.Store tx.old.conn.now) (state S.Store tx.new.conn.now) result }
    ensures found { Finds (state S.Store tx.old.conn.now) (state S.Store tx.new.conn.now) result (λ rows found. found ≡ get rows.extensions period) }
    ensures cause { FailsByCause (state S.Store tx.old.conn.now) (state S.Store tx.new.conn.now) result (λ _. ⊤) }
{
    let rows = extension_rows(tx, period)?;
    let found = read_number(&rows)?;
    Ok(found)
}
