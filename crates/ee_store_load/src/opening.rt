//! Opening a store: finding out whether it has any table, and reading its rows.

ghost use Rattle.std.specs.Prelude.{◌≡◌, ◌⊎◌, false, IsTrue, IfOk, IfErr, OnOk};
ghost use Rattle.sqlite.specs.State.{HasCleanDisk, KeepsCommit};
ghost use Rattle.sqlite.specs.Held.{state};
ghost use Rattle.ee_store_tables.specs.Rows.{Rows};
ghost use Rattle.ee_store_tables.specs.Statements.{LeavesNoMore};
ghost use Rattle.ee_store_schema.specs.declared.forms.Form.{Form};
ghost use Rattle.ee_store_schema.specs.Faults.{FailsForCause, StaysOutside};
ghost use Rattle.ee_store_schema.specs.Forms.{IsOurs, HadIn};
ghost use Rattle.ee_store_schema.specs.Making.{IsBlank};
ghost use Rattle.ee_store_load.specs.Whole.{AreRead, AreInOrder};
ghost use Rattle.ee_store_load.specs.Opening.{HasTables, IsOfForm, IsOtherVersion, AreReadable, IsTold};

use crate::ours::{form_of, has_no_tables};
use crate::testing::RowTest;
use crate::version::known_version;
use crate::whole::{AllRows, read_all};
use ee_store_schema::{OpenFault, StoredAnswer};
use sqlite::{Alter, Connection};
use std::alloc::Global;

/// Whether a store has no table, index or view, and its connection is in no transaction.
pub fn is_blank<S: Alter>(conn: &Connection<S>) -> bool
    ensures blank { IsTrue result → ((state S.Store conn.now).in_transaction ≡ false) × IsBlank (state S.Store conn.now) }
    ensures tables { result ≡ false → (state S.Store conn.now).in_transaction ≡ false → HasTables (state S.Store conn.now) }
{
    conn.is_autocommit() && has_no_tables(conn.schema())
}

/// Why a store with other tables isn't opened.
fn refusal<S: Alter>(conn: &mut Connection<S>) -> OpenFault
    ensures told { HasCleanDisk (state S.Store conn.new) → IsTold (state S.Store conn.old) result }
    ensures kept { HasCleanDisk (state S.Store conn.new) → KeepsCommit (state S.Store conn.old) (state S.Store conn.new) }
    ensures outside { StaysOutside (state S.Store conn.old) (state S.Store conn.new) }
    ensures crash { LeavesNoMore (state S.Store conn.old) (state S.Store conn.new) }
{
    match known_version(conn) {
        Ok(_) => OpenFault::Unusable,
        Err(fault) => fault,
    }
}

/// Reads the rows of a store. Writes nothing.
///
/// A store is read if its tables are those of version 2, in the order in which they are created, with their
/// indexes. Tables without foreign keys, indexes on them, and views may follow these, and aren't read. A store of
/// version 1 is read if it has exactly its own tables, with or without that of extensions. Its rows are read as the
/// rows of version 2 that they become: their replies belong to the first desk, and without the table there are no
/// extensions; only the desk's row still has version 1 (`migrate` makes version 2 of them).
/// Any other store is refused, including one with our tables in another order, with fewer of them, or with none
/// (`is_blank`). The version is tested before anything else is read. The rows of each table come by key. Each
/// kept reply is tested by `P`; those of version 2 are dropped right after, so at most two of them are in
/// memory. The time is proportional to the rows, and the memory to those that are returned.
///
/// - `found`: a store with tables in this form has these rows, and they were read. All of them are returned but
///   the kept replies, for which the result says whether each passed. A store determines its rows.
/// - `those`: the rows that the store had before were read.
/// - `order`, `first`: the rows of each table come in order, and are those of the form that is returned.
/// - `version`, `tested`, `unusable`: what each refusal says of the rows that the store had.
/// - `others`: for a store that has no such tables the fault is `WrongVersion` only if `sqlite` shows another
///   version for the desk's row. If the desk is the first table, it is `WrongVersion` exactly then.
/// - `inside`, `cause`: when the store fails: in a transaction, or for want of memory or by its device.
/// - `kept`, `outside`, `ended`, `open`, `crash`: what the call leaves: the last commit as it was, no transaction,
///   a store that is still open, and after a crash nothing that could not be left before.
///
/// # Errors
///
/// `WrongVersion` if the desk's row has neither version, whatever the other tables are. `Unusable` if the
/// tables aren't those of its version, the desk's row is missing, or a row has a value that no row of this
/// program has. `NoMemory` if memory is refused, and otherwise `StoreFailed`, for example in a transaction.
/// Outside a transaction and without a limit on steps, a store with the tables of either version gives
/// `StoreFailed` only if its device fails during the call or it was shut before.
pub fn open_rows<S: Alter, P: RowTest<StoredAnswer>>(
    conn: &mut Connection<S>,
    alloc: Global,
) -> Result<AllRows, OpenFault>
    ensures found { HasCleanDisk (state S.Store conn.new) → IfOk result (λ all. (rows : Rows)
        × HadIn all.form (state S.Store conn.new) rows × AreRead P.passes all rows) }
    ensures those { HasCleanDisk (state S.Store conn.new) → IfOk result (λ all. (form : Form) (rows : Rows) → HadIn form (state S.Store conn.old) rows
        → IsTrue (state S.Store conn.old).is_open → AreRead P.passes all rows) }
    ensures order { IfOk result AreInOrder }
    ensures open { HasCleanDisk (state S.Store conn.new) → OnOk result (IsTrue (state S.Store conn.old).is_open × IsTrue (state S.Store conn.new).is_open) }
    ensures first { HasCleanDisk (state S.Store conn.new) → OnOk result ((form : Form) (rows : Rows) → HadIn form (state S.Store conn.old) rows
        → IsTrue (state S.Store conn.old).is_open → IsOfForm form rows) }
    ensures version { HasCleanDisk (state S.Store conn.new) → IfErr result (λ e. e ≡ OpenFault.WrongVersion → (form : Form) (rows : Rows)
        → HadIn form (state S.Store conn.old) rows → IsTrue (state S.Store conn.old).is_open → IsOtherVersion rows) }
    ensures tested { HasCleanDisk (state S.Store conn.new) → IfErr result (λ e. e ≡ OpenFault.Unusable → (form : Form) (rows : Rows)
        → HadIn form (state S.Store conn.old) rows → IsTrue (state S.Store conn.old).is_open → ¬ IsOtherVersion rows) }
    ensures unusable { HasCleanDisk (state S.Store conn.new) → IfErr result (λ e. e ≡ OpenFault.Unusable → (form : Form) (rows : Rows)
        → HadIn form (state S.Store conn.old) rows → IsTrue (state S.Store conn.old).is_open → ¬ AreReadable form rows) }
    ensures others { HasCleanDisk (state S.Store conn.new) → IfErr result (λ e. IsTrue (state S.Store conn.old).is_open → ¬ IsOurs (state S.Store conn.old)
        → IsTold (state S.Store conn.old) e) }
    ensures inside { IfErr result (λ e. (e ≡ OpenFault.StoreFailed) ⊎ ((state S.Store conn.old).in_transaction ≡ false)) }
    ensures kept { HasCleanDisk (state S.Store conn.new) → KeepsCommit (state S.Store conn.old) (state S.Store conn.new) }
    ensures outside { StaysOutside (state S.Store conn.old) (state S.Store conn.new) }
    ensures ended { HasCleanDisk (state S.Store conn.new) → OnOk result ((state S.Store conn.new).in_transaction ≡ false) }
    ensures cause { FailsForCause (λ s. (s.in_transaction ≡ false) × IsOurs s) (state S.Store conn.old) (state S.Store conn.new) result }
    ensures crash { LeavesNoMore (state S.Store conn.old) (state S.Store conn.new) }
{
    if !conn.is_autocommit() {
        return Err(OpenFault::StoreFailed);
    }
    match form_of(conn.schema()) {
        Some(form) => read_all::<S, P>(conn, alloc, form),
        None => Err(refusal(conn)),
    }
}
