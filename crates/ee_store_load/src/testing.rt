//! Reading the rows of a table one after another. Each is tested and dropped before the next.

ghost use Rattle.std.specs.Prelude.{◌≡◌, ◌↔◌, List, [], true, IsTrue, IfOk, IfErr, map, ℕ};
ghost use Rattle.std.specs.List.{AllByRecursion};
ghost use Rattle.sqlite.specs.State.{HasCleanDisk};
ghost use Rattle.sqlite.specs.Held.{state};
ghost use Rattle.sqlite.specs.Schema.{Schema};
ghost use Rattle.sqlite.specs.Term.{Term};
ghost use Rattle.sqlite_value.specs.declared.keys.Key.{Key};
ghost use Rattle.ee_store_schema.specs.Faults.{FailsForCause};
ghost use Rattle.ee_store_schema.specs.Inner.Forms.{SeesSchema};
ghost use Rattle.ee_store_schema.specs.Inner.Asking.{IsNeverRefused};
ghost use Rattle.ee_store_load.specs.Reading.{rises};
ghost use Rattle.ee_store_load.specs.Inner.Reading.{whole_table, AsksForAll, ShowsAll, CanBeRead, OnlyAsks, OnlyLoads};
ghost use Rattle.ee_store_load.specs.Testing.{Tells};

use crate::reading::{Gather, StoredRow, follows, gather_rows};
use ee_store_schema::OpenFault;
use sqlite::{Alter, Connection};
use std::alloc::{AllocError, Global};
use std::marker::PhantomData;

/// A test of a row.
pub trait RowTest<T> {
    // The row passes.
    ghost passes: { T → Type 0 };

    /// Whether the row passes.
    fn test(alloc: Global, row: &T) -> Result<bool, AllocError>
        ensures { IfOk result (λ right. (right ≡ true) ↔ passes row.now) };
}

/// Any row passes.
pub(crate) struct AnyRow;

impl<T> RowTest<T> for AnyRow {
    ghost use Rattle.std.specs.Prelude.{⊤};

    ghost passes = { λ _. ⊤ };

    fn test(_alloc: Global, _row: &T) -> Result<bool, AllocError> {
        Ok(true)
    }
}

/// What is known about the rows read so far: the last row, whether their keys rise, and whether each passed its test.
#[derive(Drop)]
struct TestedRows<T, P> {
    last: Option<T>,
    rise: bool,
    pass: bool,
    test: PhantomData<P>,
}

impl<T: StoredRow + Drop, P: RowTest<T>> Gather<T> for TestedRows<T, P> {
    ghost is_of = { λ it rows. Tells T.stands_before P.passes it.last it.rise it.pass rows };

    fn take(self, alloc: Global, next: T) -> Result<TestedRows<T, P>, OpenFault> {
        let Ok(right) = P::test(alloc, &next) else {
            return Err(OpenFault::NoMemory);
        };
        Ok(TestedRows {
            rise: self.rise & follows(self.last.as_ref(), &next),
            pass: self.pass & right,
            last: Some(next),
            test: PhantomData,
        })
    }
}

/// Whether each row of a table passes a test. Reads the rows by key, and keeps none.
pub(crate) fn test_table<S: Alter, T: StoredRow + Drop, P: RowTest<T>>(
    conn: &mut Connection<S>,
    alloc: Global,
    sql: &str,
) -> Result<bool, OpenFault>
    requires { OnlyAsks sql.now }
    ensures found { HasCleanDisk (state S.Store conn.new) → IfOk result (λ pass. (rows : List T)
        × ((schema : Schema) (tree : ℕ) (terms : List Term) (order : List (Term × Key))
        → AsksForAll schema sql.now tree terms order → SeesSchema schema (state S.Store conn.old) → IsTrue (state S.Store conn.old).is_open
        × ShowsAll (state S.Store conn.old).now.trees tree terms (map T.shown rows))
        × (rises T.stands_before rows ≡ true) × ((pass ≡ true) ↔ AllByRecursion P.passes rows)) }
    ensures usable { HasCleanDisk (state S.Store conn.new) → IfErr result (λ e. e ≡ OpenFault.Unusable
        → (schema : Schema) (tree : ℕ) (terms : List Term) (order : List (Term × Key)) → AsksForAll schema sql.now tree terms order
        → SeesSchema schema (state S.Store conn.old) → IsTrue (state S.Store conn.old).is_open
        → ¬ CanBeRead T.is_readable T.shown T.stands_before (state S.Store conn.old).now.trees (whole_table tree terms order)) }
    ensures only_loads { OnlyLoads (state S.Store conn.old) (state S.Store conn.new) result }
    ensures cause { (schema : Schema) → IsNeverRefused schema sql.now []
        → FailsForCause (SeesSchema schema) (state S.Store conn.old) (state S.Store conn.new) result }
{
    let none = TestedRows {
        last: None,
        rise: true,
        pass: true,
        test: PhantomData,
    };
    let found: TestedRows<T, P> = gather_rows(conn, alloc, sql, none)?;
    if !found.rise {
        return Err(OpenFault::Unusable);
    }
    Ok(found.pass)
}

/// Whether each of these rows passes a test.
pub(crate) fn all_pass<T, P: RowTest<T>>(alloc: Global, rows: &[T]) -> Result<bool, OpenFault>
    ensures exact { IfOk result (λ pass. (pass ≡ true) ↔ AllByRecursion P.passes rows.now) }
    ensures memory { IfErr result (λ e. e ≡ OpenFault.NoMemory) }
{
    for row in rows {
        let Ok(right) = P::test(alloc, row) else {
            return Err(OpenFault::NoMemory);
        };
        if !right {
            return Ok(false);
        }
    }
    Ok(true)
}
