//! Reading the whole store.

ghost use Rattle.std.specs.Prelude.{◌≡◌, false, IsTrue, IfOk, IfErr, OnOk};
ghost use Rattle.sqlite.specs.State.{HasCleanDisk, IsUnchanged, KeepsCommit, Survives};
ghost use Rattle.sqlite.specs.Held.{state};
ghost use Rattle.ee_store_tables.specs.Rows.{Rows};
ghost use Rattle.ee_store_schema.specs.declared.forms.Form.{Form};
ghost use Rattle.ee_store_schema.specs.Forms.{HoldsIn, HasForm, HadIn};
ghost use Rattle.ee_store_schema.specs.Inner.Forms.{SeesForm, HasOurTables, SeesIn};
ghost use Rattle.ee_store_load.specs.Opening.{IsOfForm, IsOtherVersion, AreReadable};
ghost use Rattle.ee_store_load.specs.Shown.{AreBonds, AreWritten};
ghost use Rattle.ee_store_schema.specs.Faults.{FailsForCause, StaysOutside};
ghost use Rattle.ee_store_load.specs.Inner.Reading.{IsSoundNow, OnlyLoads};
ghost use Rattle.ee_store_load.specs.Whole.{AreRead, AreInOrder};
ghost use Rattle.ee_store_load.specs.Inner.Whole.{HoldsRegister, HoldsPayments, HoldsRecords, ListsAll, ListsRegister, ListsPayments, ListsRecords};

use crate::entries::{StoredBatch, StoredDesk, StoredLine, StoredRate, StoredTicket};
use crate::tables::{
    KeptReplies, read_batches, read_bonds, read_desk, read_extensions, read_lines, read_rates,
    read_tickets, test_answers,
};
use crate::testing::RowTest;
use crate::version::known_version;
use ee_desk_model::Held;
use ee_store_schema::{Form, OpenFault, StoredAnswer};
use sqlite::{Alter, Connection};
use std::alloc::Global;

/// What was read of a store: the rows of each table by key, and the kept replies only if they are to be migrated.
#[derive(Drop)]
pub struct AllRows {
    /// The form of the tables that they were read from.
    pub form: Form,
    /// The row of the desk.
    pub desk: Vec<StoredDesk>,
    /// The fixed rates.
    pub rates: Vec<StoredRate>,
    /// The registered bonds, each with the ticket that paid it.
    pub bonds: Vec<Held>,
    /// The tickets.
    pub tickets: Vec<StoredTicket>,
    /// The lines of the tickets.
    pub lines: Vec<StoredLine>,
    /// The batches.
    pub batches: Vec<StoredBatch>,
    /// The extensions: the rates of extended maturity that differ from the fixed rates.
    pub extensions: Vec<StoredRate>,
    /// What was read of the kept acts and replies.
    pub replies: KeptReplies,
}

/// The rows of the register.
#[derive(Drop)]
pub(crate) struct RegisterRows {
    desk: Vec<StoredDesk>,
    rates: Vec<StoredRate>,
    bonds: Vec<Held>,
}

/// The rows of the payments.
#[derive(Drop)]
pub(crate) struct PaymentRows {
    tickets: Vec<StoredTicket>,
    lines: Vec<StoredLine>,
}

/// The rows of what is kept.
#[derive(Drop)]
pub(crate) struct KeptRows {
    batches: Vec<StoredBatch>,
    replies: KeptReplies,
}

/// Reads the desk, the rates and the bonds.
fn read_register<S: Alter>(
    conn: &mut Connection<S>,
    alloc: Global,
) -> Result<RegisterRows, OpenFault>
    ensures found { HasCleanDisk (state S.Store conn.new) → HasOurTables (state S.Store conn.old) → IsSoundNow (state S.Store conn.old)
        → IfOk result (λ found. HoldsRegister (state S.Store conn.old).now.trees found) }
    ensures listed { IfOk result ListsRegister }
    ensures usable { HasCleanDisk (state S.Store conn.new) → IfErr result (λ e. e ≡ OpenFault.Unusable → HasOurTables (state S.Store conn.old)
        → IsTrue (state S.Store conn.old).is_open → (form : Form) (rows : Rows) → AreBonds rows.bonds → ¬ HoldsIn form (state S.Store conn.old).now.trees rows) }
    ensures only_loads { OnlyLoads (state S.Store conn.old) (state S.Store conn.new) result }
    ensures cause { FailsForCause HasOurTables (state S.Store conn.old) (state S.Store conn.new) result }
{
    let desk = read_desk(conn, alloc)?;
    let rates = read_rates(conn, alloc)?;
    let bonds = read_bonds(conn, alloc)?;
    Ok(RegisterRows { desk, rates, bonds })
}

/// Reads the tickets and their lines.
fn read_payments<S: Alter>(
    conn: &mut Connection<S>,
    alloc: Global,
) -> Result<PaymentRows, OpenFault>
    ensures found { HasCleanDisk (state S.Store conn.new) → HasOurTables (state S.Store conn.old) → IsSoundNow (state S.Store conn.old)
        → IfOk result (λ found. HoldsPayments (state S.Store conn.old).now.trees found) }
    ensures listed { IfOk result ListsPayments }
    ensures usable { HasCleanDisk (state S.Store conn.new) → IfErr result (λ e. e ≡ OpenFault.Unusable → HasOurTables (state S.Store conn.old)
        → IsTrue (state S.Store conn.old).is_open → (form : Form) (rows : Rows) → ¬ HoldsIn form (state S.Store conn.old).now.trees rows) }
    ensures only_loads { OnlyLoads (state S.Store conn.old) (state S.Store conn.new) result }
    ensures cause { FailsForCause HasOurTables (state S.Store conn.old) (state S.Store conn.new) result }
{
    let tickets = read_tickets(conn, alloc)?;
    let lines = read_lines(conn, alloc)?;
    Ok(PaymentRows { tickets, lines })
}

/// Reads the batches, and tests the kept replies.
fn read_records<S: Alter, P: RowTest<StoredAnswer>>(
    conn: &mut Connection<S>,
    alloc: Global,
    form: Form,
) -> Result<KeptRows, OpenFault>
    ensures found { HasCleanDisk (state S.Store conn.new) → SeesForm form (state S.Store conn.old) → IsSoundNow (state S.Store conn.old)
        → IfOk result (HoldsRecords P.passes form (state S.Store conn.old).now.trees) }
    ensures listed { IfOk result ListsRecords }
    ensures usable { HasCleanDisk (state S.Store conn.new) → IfErr result (λ e. e ≡ OpenFault.Unusable → SeesForm form (state S.Store conn.old)
        → IsTrue (state S.Store conn.old).is_open → (rows : Rows) → AreWritten rows.answers
        → ¬ HoldsIn form (state S.Store conn.old).now.trees rows) }
    ensures only_loads { OnlyLoads (state S.Store conn.old) (state S.Store conn.new) result }
    ensures cause { FailsForCause (SeesForm form) (state S.Store conn.old) (state S.Store conn.new) result }
{
    let batches = read_batches(conn, alloc)?;
    let replies = test_answers::<S, P>(conn, alloc, form)?;
    Ok(KeptRows { batches, replies })
}

/// Reads all tables.
fn read_in<S: Alter, P: RowTest<StoredAnswer>>(
    conn: &mut Connection<S>,
    alloc: Global,
    form: Form,
) -> Result<AllRows, OpenFault>
    ensures found { HasCleanDisk (state S.Store conn.new) → SeesForm form (state S.Store conn.old) → IsSoundNow (state S.Store conn.old)
        → IfOk result (λ all. (rows : Rows) × HoldsIn form (state S.Store conn.old).now.trees rows × AreRead P.passes all rows) }
    ensures listed { IfOk result ListsAll }
    ensures form { IfOk result (λ all. all.form ≡ form) }
    ensures usable { HasCleanDisk (state S.Store conn.new) → IfErr result (λ e. e ≡ OpenFault.Unusable → SeesForm form (state S.Store conn.old)
        → IsTrue (state S.Store conn.old).is_open → (rows : Rows) → AreBonds rows.bonds → AreWritten rows.answers → ¬ HoldsIn form (state S.Store conn.old).now.trees rows) }
    ensures only_loads { OnlyLoads (state S.Store conn.old) (state S.Store conn.new) result }
    ensures cause { FailsForCause (SeesForm form) (state S.Store conn.old) (state S.Store conn.new) result }
{
    let register = read_register(conn, alloc)?;
    let payments = read_payments(conn, alloc)?;
    let records = read_records::<S, P>(conn, alloc, form)?;
    let extensions = read_extensions(conn, alloc, form)?;
    Ok(AllRows {
        form,
        desk: register.desk,
        rates: register.rates,
        bonds: register.bonds,
        tickets: payments.tickets,
        lines: payments.lines,
        batches: records.batches,
        extensions,
        replies: records.replies,
    })
}

/// Tests the version, then reads all tables.
fn read_of_version<S: Alter, P: RowTest<StoredAnswer>>(
    conn: &mut Connection<S>,
    alloc: Global,
    form: Form,
) -> Result<AllRows, OpenFault>
    ensures found { HasCleanDisk (state S.Store conn.new) → SeesForm form (state S.Store conn.old) → IsSoundNow (state S.Store conn.old)
        → IfOk result (λ all. (rows : Rows) × HoldsIn form (state S.Store conn.old).now.trees rows × AreRead P.passes all rows) }
    ensures listed { IfOk result ListsAll }
    ensures form { IfOk result (λ all. all.form ≡ form) }
    ensures first { HasCleanDisk (state S.Store conn.new) → OnOk result ((rows : Rows) → SeesIn form (state S.Store conn.old) rows → IsOfForm form rows) }
    ensures other { HasCleanDisk (state S.Store conn.new) → IfErr result (λ e. e ≡ OpenFault.WrongVersion → (rows : Rows)
        → SeesIn form (state S.Store conn.old) rows → IsOtherVersion rows) }
    ensures usable { HasCleanDisk (state S.Store conn.new) → IfErr result (λ e. e ≡ OpenFault.Unusable → SeesForm form (state S.Store conn.old)
        → IsTrue (state S.Store conn.old).is_open → (rows : Rows) → SeesIn form (state S.Store conn.old) rows → ¬ AreReadable form rows) }
    ensures tested { HasCleanDisk (state S.Store conn.new) → IfErr result (λ e. e ≡ OpenFault.Unusable → SeesForm form (state S.Store conn.old)
        → IsTrue (state S.Store conn.old).is_open → (rows : Rows) → SeesIn form (state S.Store conn.old) rows → ¬ IsOtherVersion rows) }
    ensures same { HasCleanDisk (state S.Store conn.new) → OnOk result (IsUnchanged (state S.Store conn.old) (state S.Store conn.new)) }
    ensures kept { HasCleanDisk (state S.Store conn.new) → KeepsCommit (state S.Store conn.old) (state S.Store conn.new) }
    ensures outside { StaysOutside (state S.Store conn.old) (state S.Store conn.new) }
    ensures cause { FailsForCause (SeesForm form) (state S.Store conn.old) (state S.Store conn.new) result }
    ensures crash { Survives (state S.Store conn.old) (state S.Store conn.new) (λ _. ⊥) }
{
    let version = known_version(conn)?;
    if version != form.version() {
        return Err(OpenFault::Unusable);
    }
    read_in::<S, P>(conn, alloc, form)
}

/// Reads all rows of a store with tables in this form, and tests its kept replies.
///
/// Tests the version first. The store keeps what was committed, and a stop leaves what it could leave before.
/// The time is proportional to the rows, and the memory to all of them but the kept replies of version 2.
///
/// # Errors
///
/// `WrongVersion` if the desk's row has neither version. `Unusable` if it has the version of another form, a row
/// has a value that no row of this program has, or a table or the desk's row is missing. `NoMemory` if memory is
/// refused, and otherwise `StoreFailed`, for example if the connection is in a transaction.
pub(crate) fn read_all<S: Alter, P: RowTest<StoredAnswer>>(
    conn: &mut Connection<S>,
    alloc: Global,
    form: Form,
) -> Result<AllRows, OpenFault>
    ensures found { HasCleanDisk (state S.Store conn.new) → IfOk result (λ all. HasForm form (state S.Store conn.old)
        → (rows : Rows) × HadIn form (state S.Store conn.new) rows × AreRead P.passes all rows) }
    ensures those { HasCleanDisk (state S.Store conn.new) → IfOk result (λ all. (rows : Rows) → HadIn form (state S.Store conn.old) rows
        → IsTrue (state S.Store conn.old).is_open → AreRead P.passes all rows) }
    ensures order { IfOk result AreInOrder }
    ensures form { IfOk result (λ all. all.form ≡ form) }
    ensures first { HasCleanDisk (state S.Store conn.new) → OnOk result ((rows : Rows) → HadIn form (state S.Store conn.old) rows → IsOfForm form rows) }
    ensures version { HasCleanDisk (state S.Store conn.new) → IfErr result (λ e. e ≡ OpenFault.WrongVersion → (rows : Rows)
        → HadIn form (state S.Store conn.old) rows → IsOtherVersion rows) }
    ensures tested { HasCleanDisk (state S.Store conn.new) → IfErr result (λ e. e ≡ OpenFault.Unusable → (rows : Rows)
        → HadIn form (state S.Store conn.old) rows → IsTrue (state S.Store conn.old).is_open → ¬ IsOtherVersion rows) }
    ensures usable { HasCleanDisk (state S.Store conn.new) → IfErr result (λ e. e ≡ OpenFault.Unusable → (rows : Rows)
        → HadIn form (state S.Store conn.old) rows → IsTrue (state S.Store conn.old).is_open → ¬ AreReadable form rows) }
    ensures open { HasCleanDisk (state S.Store conn.new) → OnOk result (IsTrue (state S.Store conn.old).is_open × IsTrue (state S.Store conn.new).is_open) }
    ensures kept { HasCleanDisk (state S.Store conn.new) → KeepsCommit (state S.Store conn.old) (state S.Store conn.new) }
    ensures outside { StaysOutside (state S.Store conn.old) (state S.Store conn.new) }
    ensures cause { FailsForCause (λ s. (s.in_transaction ≡ false) × HasForm form s) (state S.Store conn.old) (state S.Store conn.new) result }
    ensures ended { HasCleanDisk (state S.Store conn.new) → OnOk result ((state S.Store conn.new).in_transaction ≡ false) }
    ensures crash { Survives (state S.Store conn.old) (state S.Store conn.new) (λ _. ⊥) }
{
    if !conn.is_autocommit() {
        return Err(OpenFault::StoreFailed);
    }
    // For the proof alone: a connection that has a schema sees a database, which `open` needs.
    let _schema = conn.schema();
    read_of_version::<S, P>(conn, alloc, form)
}
