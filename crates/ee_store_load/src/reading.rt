//! Reading the rows of a table one after another. Each key is tested to be above the one before it.

ghost use Rattle.std.specs.Prelude.{◌≡◌, ◌≢◌, List, Bool, true, IsTrue, IfOk, IfErr, map, ℕ, [], ◌∷◌, ◌++◌};
ghost use Rattle.std.specs.Option.{option_copied, option_map_or};
ghost use Rattle.sqlite.specs.State.{HasCleanDisk, Shown};
ghost use Rattle.sqlite.specs.Given.{IsPlain};
ghost use Rattle.sqlite.specs.Held.{state};
ghost use Rattle.sqlite.specs.Listing.{understood};
ghost use Rattle.sqlite.specs.Schema.{Schema};
ghost use Rattle.sqlite.specs.Term.{Term};
ghost use Rattle.sqlite_value.specs.declared.keys.Key.{Key};
ghost use Rattle.sqlite.specs.Order.{Row as Columns};
ghost use Rattle.ee_store_schema.specs.Faults.{FailsForCause};
ghost use Rattle.ee_store_schema.specs.Inner.Forms.{SeesSchema};
ghost use Rattle.ee_store_schema.specs.Inner.Asking.{IsNeverRefused};
ghost use Rattle.ee_store_load.specs.Reading.{rises};
ghost use Rattle.ee_store_load.specs.Inner.Reading.{whole_table, AsksForAll, ShowsAll, ShowsUnreadable, CanBeRead, OnlyAsks, OnlyLoads};

use ee_store_schema::OpenFault;
use sqlite::{Alter, Connection, Row};
use std::alloc::Global;

/// A row of a table, as a query of the whole table shows it.
pub trait StoredRow: Sized {
    // What the query shows.
    ghost shown: { Self → Columns };

    // The row comes before the other, by key.
    ghost stands_before: { Self → Self → Bool };

    // A row that this program writes, as the query shows it.
    ghost is_readable: { Columns → Type 0 };

    /// Reads a row that the query showed.
    fn read(row: &Row) -> Result<Self, OpenFault>
        ensures exact { IfOk result (λ found. row.now ≡ shown found) }
        ensures usable { IfErr result (λ e. e ≡ OpenFault.Unusable → ¬ is_readable row.now) }
        ensures other { IfErr result (λ e. e ≢ OpenFault.WrongVersion) }
        ensures cause { IfErr result (λ e. e ≢ OpenFault.StoreFailed) };

    /// Whether the key is below the other's.
    fn precedes(&self, next: &Self) -> bool
        ensures { result ≡ stands_before self.now next.now };
}

/// A value that is built from rows as they are read.
pub(crate) trait Gather<T>: Sized {
    // The value is built from these rows.
    ghost is_of: { Self → List T → Type 0 };

    /// Adds the next row.
    fn take(self, alloc: Global, next: T) -> Result<Self, OpenFault>
        ensures taken { IfOk result (λ more. (rows : List T) → is_of self rows → is_of more (rows ++ next ∷ [])) }
        ensures memory { IfErr result (λ e. e ≡ OpenFault.NoMemory) };
}

/// Whether the key of a row is above that of the row before it, if there is one.
pub(crate) fn follows<T: StoredRow>(last: Option<&T>, next: &T) -> bool
    ensures { result ≡ option_map_or (λ (it : T). T.stands_before it next.now) (option_copied last.entry) true }
{
    match last {
        Some(last) => last.precedes(next),
        None => true,
    }
}

/// Reads the rows of a query one after another, so that its answer is never held as a whole.
pub(crate) fn gather_rows<S: Alter, T: StoredRow + Drop, G: Gather<T> + Drop>(
    conn: &mut Connection<S>,
    alloc: Global,
    sql: &str,
    first: G,
) -> Result<G, OpenFault>
    requires asks { OnlyAsks sql.now }
    requires begins { G.is_of first [] }
    ensures shown { HasCleanDisk (state S.Store conn.new) → IfOk result (λ gathered. (rows : List T)
        × Shown sql.now [] (state S.Store conn.old) (state S.Store conn.new) (map T.shown rows) × G.is_of gathered rows) }
    ensures made { IfOk result (λ gathered. (rows : List T) × G.is_of gathered rows) }
    ensures usable { HasCleanDisk (state S.Store conn.new) → IfErr result (λ e. e ≡ OpenFault.Unusable
        → IsPlain (understood (state S.Store conn.old).now.schema sql.now)
        → ShowsUnreadable T.is_readable sql.now (state S.Store conn.old)) }
    ensures only_loads { OnlyLoads (state S.Store conn.old) (state S.Store conn.new) result }
    ensures cause { FailsForCause (λ s. IsNeverRefused s.now.schema sql.now []) (state S.Store conn.old) (state S.Store conn.new) result }
{
    let mut gathered = first;
    let mut rows = conn.query(sql, &[])?;
    'rows: for _ in 0..usize::MAX {
        let Some(row) = rows.next()? else {
            return Ok(gathered);
        };
        let next = T::read(row)?;
        gathered = gathered.take(alloc, next)?;
    }
    // No store has that many rows.
    Err(OpenFault::NoMemory)
}

/// The rows of a table, and whether their keys rise.
#[derive(Drop)]
struct TableRows<T> {
    all: Vec<T>,
    rise: bool,
}

impl<T: StoredRow + Drop> Gather<T> for TableRows<T> {
    ghost is_of = { λ it rows. (it.all.items ≡ rows) × (it.rise ≡ rises T.stands_before rows) };

    fn take(self, _alloc: Global, next: T) -> Result<TableRows<T>, OpenFault> {
        let TableRows { mut all, rise } = self;
        let rise = rise & follows(all.last(), &next);
        if all.push(next).is_err() {
            return Err(OpenFault::NoMemory);
        }
        Ok(TableRows { all, rise })
    }
}

/// Reads the rows of a table, by key.
pub(crate) fn read_table<S: Alter, T: StoredRow + Drop>(
    conn: &mut Connection<S>,
    alloc: Global,
    sql: &str,
) -> Result<Vec<T>, OpenFault>
    requires { OnlyAsks sql.now }
    ensures found { HasCleanDisk (state S.Store conn.new) → IfOk result (λ found. (schema : Schema) (tree : ℕ) (terms : List Term) (order : List (Term × Key))
        → AsksForAll schema sql.now tree terms order → SeesSchema schema (state S.Store conn.old) → IsTrue (state S.Store conn.old).is_open
        × ShowsAll (state S.Store conn.old).now.trees tree terms (map T.shown found.items)) }
    ensures rises { IfOk result (λ found. rises T.stands_before found.items ≡ true) }
    ensures usable { HasCleanDisk (state S.Store conn.new) → IfErr result (λ e. e ≡ OpenFault.Unusable
        → (schema : Schema) (tree : ℕ) (terms : List Term) (order : List (Term × Key)) → AsksForAll schema sql.now tree terms order
        → SeesSchema schema (state S.Store conn.old) → IsTrue (state S.Store conn.old).is_open
        → ¬ CanBeRead T.is_readable T.shown T.stands_before (state S.Store conn.old).now.trees (whole_table tree terms order)) }
    ensures only_loads { OnlyLoads (state S.Store conn.old) (state S.Store conn.new) result }
    ensures cause { (schema : Schema) → IsNeverRefused schema sql.now []
        → FailsForCause (SeesSchema schema) (state S.Store conn.old) (state S.Store conn.new) result }
{
    let none = TableRows {
        all: Vec::new(alloc),
        rise: true,
    };
    let found: TableRows<T> = gather_rows(conn, alloc, sql, none)?;
    if !found.rise {
        return Err(OpenFault::Unusable);
    }
    Ok(found.all)
}
