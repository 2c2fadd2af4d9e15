//! The table `rates`: the fixed rate of each period.

ghost use Rattle.std.specs.Prelude.{◌≡◌, option_map, ⊤};
ghost use Rattle.std.specs.Option.{option_to_list};
ghost use Rattle.std.specs.FinMap.{get};
ghost use Rattle.sqlite.specs.Held.{state};
ghost use Rattle.ee_store_tables.specs.AsRows.{Fits, FitsRate, entry_of_rate};
ghost use Rattle.ee_store_tables.specs.Rows.{rate_columns, with_rate, HasRoom};
ghost use Rattle.ee_store_tables.specs.Statements.{OnlyQueries, WritesInside, Makes, Finds, FailsByCause, KeepsRoom};
ghost use Rattle.ee_store_tables.specs.Inner.Statements.{QueryFailsByCause};

use crate::failures::Failure;
use crate::reading::read_number;
use crate::records::PeriodRate;
use crate::values::whole;
use sqlite::{Alter, Error, Row, Transaction};

/// Adds a rate. If its period has one, nothing changes.
pub fn add_rate<S: Alter>(tx: &mut Transaction<'_, S>, rate: PeriodRate) -> Result<(), Failure>
    requires { FitsRate rate }
    ensures same_reference { tx.new.conn.ghost_name ≡ tx.old.conn.ghost_name }
    ensures writes_inside { WritesInside (state S.Store tx.old.conn.now) (state S.Store tx.new.conn.now) result }
    ensures added { Makes (state S.Store tx.old.conn.now) (state S.Store tx.new.conn.now) result (λ rows. with_rate rows (entry_of_rate rate)) }
    ensures room { KeepsRoom (state S.Store tx.old.conn.now) (state S.Store tx.new.conn.now) result }
    ensures cause { FailsByCause (state S.Store tx.old.conn.now) (state S.Store tx.new.conn.now) result (λ _. HasRoom 0 (state S.Store tx.old.conn.now)) }
{
    tx.execute(
        "INSERT INTO rates (period, rate) VALUES (?1, ?2) ON CONFLICT (period) DO NOTHING",
        &[whole(rate.period), whole(rate.rate)],
    )?;
    Ok(())
}

/// The row of a period's rate, if it has one.
fn rate_rows<S: Alter>(tx: &mut Transaction<'_, S>, period: u64) -> Result<Vec<Row>, Error>
    requires { Fits period }
    ensures same_reference { tx.new.conn.ghost_name ≡ tx.old.conn.ghost_name }
    ensures only_queries { OnlyQueries (state S.Store tx.old.conn.now) (state S.Store tx.new.conn.now) result }
    ensures found { Finds (state S.Store tx.old.conn.now) (state S.Store tx.new.conn.now) result
        (λ rows found. found.items ≡ option_to_list (option_map rate_columns (get rows.rates period))) }
    ensures cause { QueryFailsByCause (state S.Store tx.old.conn.now) (state S.Store tx.new.conn.now) result }
{
    tx.query_all("SELECT rate FROM rates WHERE period = ?1", &[whole(period)])
}

/// Finds the rate of a period, in hundredths of a percent.
pub fn find_rate<S: Alter>(tx: &mut Transaction<'_, S>, period: u64) -> Result<Option<u64>, Failure>
    requires { Fits period }
    ensures same_reference { tx.new.conn.ghost_name ≡ tx.old.conn.ghost_name }
    ensures only_queries { OnlyQueries (state S.Store tx.old.conn.now) (state S.Store tx.new.conn.now) result }
    ensures found { Finds (state S.Store tx.old.conn.now) (state S.Store tx.new.conn.now) result (λ rows found. found ≡ get rows.rates period) }
    ensures cause { FailsByCause (state S.Store tx.old.conn.now) (state S.Store tx.new.conn.now) result (λ _. ⊤) }
{
    let rows = rate_rows(tx, period)?;
    let found = read_number(&rows)?;
    Ok(found)
}
