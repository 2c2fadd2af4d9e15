//! The version of the tables, which is tested before anything else is read.

ghost use Rattle.std.specs.Prelude.{◌≡◌, ◌≢◌, ◌⊎◌, [], ◌∷◌, Some, IfOk, IfErr, OnOk, IsTrue, Option, None, option_map, slice_get};
ghost use Rattle.std.specs.Ordering.{nat_cmp};
ghost use Rattle.std.specs.Option.{option_to_list};
ghost use Rattle.std.specs.FinMap.{FinMap, get};
ghost use Rattle.sqlite.specs.Held.{state};
ghost use Rattle.sqlite.specs.Order.{Row, column};
ghost use Rattle.sqlite.specs.State.{HasCleanDisk, IsUnchanged, KeepsCommit, Begins};
ghost use Rattle.ee_store_tables.specs.Rows.{Rows, DeskRow, number};
ghost use Rattle.ee_store_tables.specs.Statements.{LeavesNoMore};
ghost use Rattle.ee_store_schema.specs.declared.forms.Form.{Form};
ghost use Rattle.ee_store_schema.specs.Faults.{FailsForCause, StaysOutside};
ghost use Rattle.ee_store_schema.specs.Inner.Forms.{HasOurTables, SeesIn};
ghost use Rattle.ee_store_load.specs.Opening.{IsOther, IsOtherVersion, version_text, given_id, SeesDesk, IsTold};
ghost use Rattle.ee_store_load.specs.Inner.Opening.{version_shown, versions_of, versions_in, Names};

use ee_store_schema::OpenFault;
use sqlite::types::ValueRef;
use sqlite::{Alter, Connection, Row};

/// The version of the tables that this program creates.
pub const STORE_VERSION: u64 = 2;

/// The version before it, of stores that this program opens too.
const FIRST_VERSION: u64 = 1;

/// The version in the desk's row, if the row exists.
fn version_rows<S: Alter>(conn: &mut Connection<S>) -> Result<Vec<Row>, OpenFault>
    ensures found { HasCleanDisk (state S.Store conn.new) → IfOk result (λ found. (form : Form) (rows : Rows) → SeesIn form (state S.Store conn.old) rows
        → found.items ≡ versions_in rows) }
    ensures any { HasCleanDisk (state S.Store conn.new) → IfOk result (λ found. (desk : FinMap nat_cmp DeskRow) → SeesDesk (state S.Store conn.old) desk
        → found.items ≡ versions_of desk) }
    ensures shown { HasCleanDisk (state S.Store conn.new) → IfOk result (λ found. (row : Row) → slice_get found.items 0 ≡ Some row
        → Begins version_text given_id (state S.Store conn.old) (row ∷ [])) }
    ensures same { HasCleanDisk (state S.Store conn.new) → OnOk result (IsUnchanged (state S.Store conn.old) (state S.Store conn.new)) }
    ensures kept { HasCleanDisk (state S.Store conn.new) → KeepsCommit (state S.Store conn.old) (state S.Store conn.new) }
    ensures outside { StaysOutside (state S.Store conn.old) (state S.Store conn.new) }
    ensures usable { HasCleanDisk (state S.Store conn.new) → IfErr result (λ e. HasOurTables (state S.Store conn.old)
        → IsTrue (state S.Store conn.old).is_open → e ≢ OpenFault.Unusable) }
    ensures asked { HasCleanDisk (state S.Store conn.new) → IfErr result (λ e. (desk : FinMap nat_cmp DeskRow) → SeesDesk (state S.Store conn.old) desk
        → e ≢ OpenFault.Unusable) }
    ensures other { IfErr result (λ e. e ≢ OpenFault.WrongVersion) }
    ensures cause { FailsForCause HasOurTables (state S.Store conn.old) (state S.Store conn.new) result }
    ensures crash { LeavesNoMore (state S.Store conn.old) (state S.Store conn.new) }
{
    let rows = conn.query_all(
        "SELECT version FROM desk WHERE id = ?1",
        &[ValueRef::Int(1)],
    )?;
    Ok(rows)
}

/// The version that the query found.
fn read_version(rows: &[Row]) -> Result<u64, OpenFault>
    ensures found { IfOk result (λ version. (desk : Option DeskRow) → rows.now ≡ option_to_list (option_map version_shown desk)
        → option_map (λ d. d.version) desk ≡ Some version) }
    ensures first { IfOk result (λ version. (row : Row) × (slice_get rows.now 0 ≡ Some row) × (column row 0 ≡ number version)) }
    ensures usable { IfErr result (λ e. e ≡ OpenFault.Unusable → (desk : Option DeskRow) → rows.now ≡ option_to_list (option_map version_shown desk)
        → desk ≡ None) }
    ensures other { IfErr result (λ e. e ≢ OpenFault.WrongVersion) }
    ensures cause { IfErr result (λ e. e ≢ OpenFault.StoreFailed) }
{
    match rows.first() {
        None => Err(OpenFault::Unusable),
        Some(row) => Ok(row.get(0)?),
    }
}

/// The version of the tables, if it is one that this program knows.
pub(crate) fn known_version<S: Alter>(conn: &mut Connection<S>) -> Result<u64, OpenFault>
    ensures named { HasCleanDisk (state S.Store conn.new) → IfOk result (λ version. (form : Form) (rows : Rows) → SeesIn form (state S.Store conn.old) rows
        → Names version rows) }
    ensures known { IfOk result (λ version. (version ≡ 1) ⊎ (version ≡ 2)) }
    ensures other { HasCleanDisk (state S.Store conn.new) → IfErr result (λ e. e ≡ OpenFault.WrongVersion → (form : Form) (rows : Rows)
        → SeesIn form (state S.Store conn.old) rows → IsOtherVersion rows) }
    ensures usable { HasCleanDisk (state S.Store conn.new) → IfErr result (λ e. e ≡ OpenFault.Unusable → (form : Form) (rows : Rows)
        → HasOurTables (state S.Store conn.old) → SeesIn form (state S.Store conn.old) rows → IsTrue (state S.Store conn.old).is_open
        → get rows.desk 1 ≡ None) }
    ensures known_desk { HasCleanDisk (state S.Store conn.new) → OnOk result ((desk : FinMap nat_cmp DeskRow) → SeesDesk (state S.Store conn.old) desk
        → ¬ IsOther desk) }
    ensures told { HasCleanDisk (state S.Store conn.new) → IfErr result (IsTold (state S.Store conn.old)) }
    ensures same { HasCleanDisk (state S.Store conn.new) → OnOk result (IsUnchanged (state S.Store conn.old) (state S.Store conn.new)) }
    ensures kept { HasCleanDisk (state S.Store conn.new) → KeepsCommit (state S.Store conn.old) (state S.Store conn.new) }
    ensures outside { StaysOutside (state S.Store conn.old) (state S.Store conn.new) }
    ensures cause { FailsForCause HasOurTables (state S.Store conn.old) (state S.Store conn.new) result }
    ensures crash { LeavesNoMore (state S.Store conn.old) (state S.Store conn.new) }
{
    let rows = version_rows(conn)?;
    let version = read_version(&rows)?;
    if version == STORE_VERSION || version == FIRST_VERSION {
        Ok(version)
    } else {
        Err(OpenFault::WrongVersion)
    }
}
