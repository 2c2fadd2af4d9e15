//! Reading each whole table, and testing the kept replies as they are read.

ghost use Rattle.std.specs.Prelude.{◌≡◌, ◌≢◌, IsTrue, IfOk, IfErr, OnOk, map, ℕ};
ghost use Rattle.std.specs.FinMap.{FinMap, entries};
ghost use Rattle.std.specs.Ordering.{nat_cmp};
ghost use Rattle.sqlite.specs.State.{HasCleanDisk, IsUnchanged, KeepsCommit, Survives};
ghost use Rattle.sqlite.specs.Held.{state};
ghost use Rattle.ee_store_tables.specs.Keyed.{pair_cmp, HoldsMap, HoldsPairs};
ghost use Rattle.ee_store_tables.specs.Rows.{
  Rows,
  DeskRow,
  BondRow,
  TicketRow,
  PaidRow,
  BatchRow,
  ReplyRow,
  desk_columns,
  rate_columns,
  bond_columns,
  ticket_columns,
  paid_columns,
  batch_columns,
  reply_columns,
};
ghost use Rattle.ee_store_schema.specs.Faults.{FailsForCause, StaysOutside};
ghost use Rattle.ee_store_schema.specs.declared.forms.Form.TheVariants.{Current, First};
ghost use Rattle.ee_store_schema.specs.Forms.{at_first_desk, HoldsIn, HoldsReplies};
ghost use Rattle.ee_store_schema.specs.Inner.Forms.{HasOurTables, SeesForm};
ghost use Rattle.ee_store_schema.specs.Migrating.{answer_entry};
ghost use Rattle.ee_store_load.specs.Inner.Reading.{IsSoundNow, OnlyLoads};
ghost use Rattle.ee_store_load.specs.Shown.{AreBonds, AreWritten, desk_map, rate_map, bond_map, ticket_map, line_map, batch_map, answer_map, desk_entry, rate_entry, bond_entry, ticket_entry, line_entry, batch_entry};
ghost use Rattle.ee_store_load.specs.Inner.Shown.{reply_map, first_answer, reply_entry};
ghost use Rattle.ee_store_load.specs.Inner.Whole.{HasFirstTables, HoldsKept, HoldsTested, HoldsExtensions};

use crate::entries::{
    Rowid, StoredBatch, StoredDesk, StoredLine, StoredRate, StoredReply, StoredTicket,
};
use crate::reading::read_table;
use crate::testing::{AnyRow, RowTest, all_pass, test_table};
use ee_desk_model::Held;
use ee_store_schema::{Form, OpenFault, StoredAnswer};
use sqlite::{Alter, Connection};
use std::alloc::Global;

/// Reads the desk's row.
pub(crate) fn read_desk<S: Alter>(
    conn: &mut Connection<S>,
    alloc: Global,
) -> Result<Vec<StoredDesk>, OpenFault>
    ensures found { HasCleanDisk (state S.Store conn.new) → HasOurTables (state S.Store conn.old) → IsSoundNow (state S.Store conn.old)
        → IfOk result (λ found. HoldsMap desk_columns ((state S.Store conn.old).now.trees 0) (desk_map found.items)) }
    ensures listed { IfOk result (λ found. entries (desk_map found.items) ≡ map desk_entry found.items) }
    ensures usable { HasCleanDisk (state S.Store conn.new) → IfErr result (λ e. e ≡ OpenFault.Unusable → HasOurTables (state S.Store conn.old)
        → IsTrue (state S.Store conn.old).is_open → (m : FinMap nat_cmp DeskRow) → ¬ HoldsMap desk_columns ((state S.Store conn.old).now.trees 0) m) }
    ensures only_loads { OnlyLoads (state S.Store conn.old) (state S.Store conn.new) result }
    ensures cause { FailsForCause HasOurTables (state S.Store conn.old) (state S.Store conn.new) result }
{
    read_table(
        conn,
        alloc,
        "SELECT id, version, day, last_day FROM desk ORDER BY id",
    )
}

/// Reads the rates, by period.
pub(crate) fn read_rates<S: Alter>(
    conn: &mut Connection<S>,
    alloc: Global,
) -> Result<Vec<StoredRate>, OpenFault>
    ensures found { HasCleanDisk (state S.Store conn.new) → HasOurTables (state S.Store conn.old) → IsSoundNow (state S.Store conn.old)
        → IfOk result (λ found. HoldsMap rate_columns ((state S.Store conn.old).now.trees 1) (rate_map found.items)) }
    ensures listed { IfOk result (λ found. entries (rate_map found.items) ≡ map rate_entry found.items) }
    ensures usable { HasCleanDisk (state S.Store conn.new) → IfErr result (λ e. e ≡ OpenFault.Unusable → HasOurTables (state S.Store conn.old)
        → IsTrue (state S.Store conn.old).is_open → (m : FinMap nat_cmp ℕ) → ¬ HoldsMap rate_columns ((state S.Store conn.old).now.trees 1) m) }
    ensures only_loads { OnlyLoads (state S.Store conn.old) (state S.Store conn.new) result }
    ensures cause { FailsForCause HasOurTables (state S.Store conn.old) (state S.Store conn.new) result }
{
    read_table(
        conn,
        alloc,
        "SELECT period, rate FROM rates ORDER BY period",
    )
}

/// Reads the tickets, by number.
pub(crate) fn read_tickets<S: Alter>(
    conn: &mut Connection<S>,
    alloc: Global,
) -> Result<Vec<StoredTicket>, OpenFault>
    ensures found { HasCleanDisk (state S.Store conn.new) → HasOurTables (state S.Store conn.old) → IsSoundNow (state S.Store conn.old)
        → IfOk result (λ found. HoldsMap ticket_columns ((state S.Store conn.old).now.trees 5) (ticket_map found.items)) }
    ensures listed { IfOk result (λ found. entries (ticket_map found.items) ≡ map ticket_entry found.items) }
    ensures usable { HasCleanDisk (state S.Store conn.new) → IfErr result (λ e. e ≡ OpenFault.Unusable → HasOurTables (state S.Store conn.old)
        → IsTrue (state S.Store conn.old).is_open → (m : FinMap nat_cmp TicketRow) → ¬ HoldsMap ticket_columns ((state S.Store conn.old).now.trees 5) m) }
    ensures only_loads { OnlyLoads (state S.Store conn.old) (state S.Store conn.new) result }
    ensures cause { FailsForCause HasOurTables (state S.Store conn.old) (state S.Store conn.new) result }
{
    read_table(
        conn,
        alloc,
        "SELECT ticket, day, payee, bonds, total FROM tickets ORDER BY ticket",
    )
}

/// Reads the batches, by day.
pub(crate) fn read_batches<S: Alter>(
    conn: &mut Connection<S>,
    alloc: Global,
) -> Result<Vec<StoredBatch>, OpenFault>
    ensures found { HasCleanDisk (state S.Store conn.new) → HasOurTables (state S.Store conn.old) → IsSoundNow (state S.Store conn.old)
        → IfOk result (λ found. HoldsMap batch_columns ((state S.Store conn.old).now.trees 10) (batch_map found.items)) }
    ensures listed { IfOk result (λ found. entries (batch_map found.items) ≡ map batch_entry found.items) }
    ensures usable { HasCleanDisk (state S.Store conn.new) → IfErr result (λ e. e ≡ OpenFault.Unusable → HasOurTables (state S.Store conn.old)
        → IsTrue (state S.Store conn.old).is_open → (m : FinMap nat_cmp BatchRow) → ¬ HoldsMap batch_columns ((state S.Store conn.old).now.trees 10) m) }
    ensures only_loads { OnlyLoads (state S.Store conn.old) (state S.Store conn.new) result }
    ensures cause { FailsForCause HasOurTables (state S.Store conn.old) (state S.Store conn.new) result }
{
    read_table(
        conn,
        alloc,
        "SELECT day, tickets, bonds, total FROM batches ORDER BY day",
    )
}

/// Reads the replies of version 1, by number.
fn read_replies<S: Alter>(
    conn: &mut Connection<S>,
    alloc: Global,
) -> Result<Vec<StoredReply>, OpenFault>
    ensures found { HasCleanDisk (state S.Store conn.new) → HasFirstTables (state S.Store conn.old) → IsSoundNow (state S.Store conn.old)
        → IfOk result (λ found. HoldsMap reply_columns ((state S.Store conn.old).now.trees 11) (reply_map found.items)) }
    ensures listed { IfOk result (λ found. entries (reply_map found.items) ≡ map reply_entry found.items) }
    ensures usable { HasCleanDisk (state S.Store conn.new) → IfErr result (λ e. e ≡ OpenFault.Unusable → HasFirstTables (state S.Store conn.old)
        → IsTrue (state S.Store conn.old).is_open → (m : FinMap nat_cmp ReplyRow) → AreWritten (at_first_desk m)
        → ¬ HoldsMap reply_columns ((state S.Store conn.old).now.trees 11) m) }
    ensures only_loads { OnlyLoads (state S.Store conn.old) (state S.Store conn.new) result }
    ensures cause { FailsForCause HasFirstTables (state S.Store conn.old) (state S.Store conn.new) result }
{
    read_table(
        conn,
        alloc,
        "SELECT number, act, reply FROM replies ORDER BY number",
    )
}

/// The replies of version 1 under desk and number: they belong to the first desk.
fn with_first_desk(alloc: Global, replies: Vec<StoredReply>) -> Result<Vec<StoredAnswer>, OpenFault>
    ensures first { IfOk result (λ found. found.items ≡ map first_answer replies.items) }
    ensures memory { IfErr result (λ e. e ≡ OpenFault.NoMemory) }
{
    let mut found = Vec::new(alloc);
    for reply in replies {
        let answer = StoredAnswer {
            desk: 0,
            number: reply.number,
            act: reply.act,
            reply: reply.reply,
        };
        if found.push(answer).is_err() {
            return Err(OpenFault::NoMemory);
        }
    }
    Ok(found)
}

/// Reads the kept replies of a store of version 1, by number.
fn read_first_answers<S: Alter>(
    conn: &mut Connection<S>,
    alloc: Global,
) -> Result<Vec<StoredAnswer>, OpenFault>
    ensures found { HasCleanDisk (state S.Store conn.new) → HasFirstTables (state S.Store conn.old) → IsSoundNow (state S.Store conn.old)
        → IfOk result (λ found. HoldsReplies (state S.Store conn.old).now.trees (answer_map found.items)) }
    ensures listed { IfOk result (λ found. entries (answer_map found.items) ≡ map answer_entry found.items) }
    ensures usable { HasCleanDisk (state S.Store conn.new) → IfErr result (λ e. e ≡ OpenFault.Unusable → HasFirstTables (state S.Store conn.old)
        → IsTrue (state S.Store conn.old).is_open → (m : FinMap pair_cmp ReplyRow) → AreWritten m
        → ¬ HoldsReplies (state S.Store conn.old).now.trees m) }
    ensures only_loads { OnlyLoads (state S.Store conn.old) (state S.Store conn.new) result }
    ensures cause { FailsForCause HasFirstTables (state S.Store conn.old) (state S.Store conn.new) result }
{
    let replies = read_replies(conn, alloc)?;
    with_first_desk(alloc, replies)
}

/// What was read of a store's kept replies.
#[derive(Drop)]
pub struct KeptReplies {
    /// Whether each passed its test.
    pub pass: bool,
    /// The replies of a store of version 1, which is to be migrated. None for version 2, since each is dropped as soon as it is tested.
    pub earlier: Vec<StoredAnswer>,
}

/// Tests the kept replies of a store of version 1.
fn test_first_answers<S: Alter, P: RowTest<StoredAnswer>>(
    conn: &mut Connection<S>,
    alloc: Global,
) -> Result<KeptReplies, OpenFault>
    ensures found { HasCleanDisk (state S.Store conn.new) → HasFirstTables (state S.Store conn.old) → IsSoundNow (state S.Store conn.old)
        → IfOk result (HoldsTested P.passes First (state S.Store conn.old).now.trees) }
    ensures listed { IfOk result (λ found. entries (answer_map found.earlier.items) ≡ map answer_entry found.earlier.items) }
    ensures usable { HasCleanDisk (state S.Store conn.new) → IfErr result (λ e. e ≡ OpenFault.Unusable → HasFirstTables (state S.Store conn.old)
        → IsTrue (state S.Store conn.old).is_open → (m : FinMap pair_cmp ReplyRow) → AreWritten m
        → ¬ HoldsReplies (state S.Store conn.old).now.trees m) }
    ensures only_loads { OnlyLoads (state S.Store conn.old) (state S.Store conn.new) result }
    ensures cause { FailsForCause HasFirstTables (state S.Store conn.old) (state S.Store conn.new) result }
{
    let earlier = read_first_answers(conn, alloc)?;
    let pass = all_pass::<StoredAnswer, P>(alloc, &earlier)?;
    Ok(KeptReplies { pass, earlier })
}

/// Tests the kept replies of a store of version 2, each as it is read. Reads the rowids as `read_bonds` does.
fn test_current_answers<S: Alter, P: RowTest<StoredAnswer>>(
    conn: &mut Connection<S>,
    alloc: Global,
) -> Result<KeptReplies, OpenFault>
    ensures found { HasCleanDisk (state S.Store conn.new) → SeesForm Current (state S.Store conn.old) → IsSoundNow (state S.Store conn.old)
        → IfOk result (HoldsTested P.passes Current (state S.Store conn.old).now.trees) }
    ensures listed { IfOk result (λ found. entries (answer_map found.earlier.items) ≡ map answer_entry found.earlier.items) }
    ensures usable { HasCleanDisk (state S.Store conn.new) → IfErr result (λ e. e ≡ OpenFault.Unusable → SeesForm Current (state S.Store conn.old)
        → IsTrue (state S.Store conn.old).is_open → (m : FinMap pair_cmp ReplyRow) → AreWritten m
        → ¬ HoldsPairs reply_columns ((state S.Store conn.old).now.trees 13) m) }
    ensures only_loads { OnlyLoads (state S.Store conn.old) (state S.Store conn.new) result }
    ensures cause { FailsForCause (SeesForm Current) (state S.Store conn.old) (state S.Store conn.new) result }
{
    let pass = test_table::<S, StoredAnswer, P>(
        conn,
        alloc,
        "SELECT desk, number, act, reply FROM answers ORDER BY desk, number",
    )?;
    test_table::<S, Rowid, AnyRow>(conn, alloc, "SELECT rowid FROM answers ORDER BY rowid")?;
    Ok(KeptReplies {
        pass,
        earlier: Vec::new(alloc),
    })
}

/// Tests the kept replies, by desk and number.
pub(crate) fn test_answers<S: Alter, P: RowTest<StoredAnswer>>(
    conn: &mut Connection<S>,
    alloc: Global,
    form: Form,
) -> Result<KeptReplies, OpenFault>
    ensures found { HasCleanDisk (state S.Store conn.new) → SeesForm form (state S.Store conn.old) → IsSoundNow (state S.Store conn.old)
        → IfOk result (HoldsTested P.passes form (state S.Store conn.old).now.trees) }
    ensures listed { IfOk result (λ found. entries (answer_map found.earlier.items) ≡ map answer_entry found.earlier.items) }
    ensures usable { HasCleanDisk (state S.Store conn.new) → IfErr result (λ e. e ≡ OpenFault.Unusable → SeesForm form (state S.Store conn.old)
        → IsTrue (state S.Store conn.old).is_open → (m : FinMap pair_cmp ReplyRow) → AreWritten m
        → ¬ HoldsKept form (state S.Store conn.old).now.trees m) }
    ensures only_loads { OnlyLoads (state S.Store conn.old) (state S.Store conn.new) result }
    ensures cause { FailsForCause (SeesForm form) (state S.Store conn.old) (state S.Store conn.new) result }
{
    match form {
        Form::Current => test_current_answers::<S, P>(conn, alloc),
        Form::First | Form::Earliest => test_first_answers::<S, P>(conn, alloc),
    }
}

/// Reads the bonds, by serial number. Then reads the rowids in order, since no clause of `sqlite` says that they are
/// whole numbers and differ.
pub(crate) fn read_bonds<S: Alter>(
    conn: &mut Connection<S>,
    alloc: Global,
) -> Result<Vec<Held>, OpenFault>
    ensures found { HasCleanDisk (state S.Store conn.new) → HasOurTables (state S.Store conn.old) → IsSoundNow (state S.Store conn.old)
        → IfOk result (λ found. HoldsPairs bond_columns ((state S.Store conn.old).now.trees 2) (bond_map found.items)) }
    ensures listed { IfOk result (λ found. entries (bond_map found.items) ≡ map bond_entry found.items) }
    ensures usable { HasCleanDisk (state S.Store conn.new) → IfErr result (λ e. e ≡ OpenFault.Unusable → HasOurTables (state S.Store conn.old)
        → IsTrue (state S.Store conn.old).is_open → (m : FinMap pair_cmp BondRow) → AreBonds m → ¬ HoldsPairs bond_columns ((state S.Store conn.old).now.trees 2) m) }
    ensures only_loads { OnlyLoads (state S.Store conn.old) (state S.Store conn.new) result }
    ensures cause { FailsForCause HasOurTables (state S.Store conn.old) (state S.Store conn.new) result }
{
    let rows = read_table(
        conn,
        alloc,
        "SELECT letter, number, denom, issued, owner, coowner, ticket FROM bonds ORDER BY letter, number",
    )?;
    test_table::<S, Rowid, AnyRow>(conn, alloc, "SELECT rowid FROM bonds ORDER BY rowid")?;
    Ok(rows)
}

/// Reads the lines of the tickets, by ticket and place. Reads the rowids as `read_bonds` does.
pub(crate) fn read_lines<S: Alter>(
    conn: &mut Connection<S>,
    alloc: Global,
) -> Result<Vec<StoredLine>, OpenFault>
    ensures found { HasCleanDisk (state S.Store conn.new) → HasOurTables (state S.Store conn.old) → IsSoundNow (state S.Store conn.old)
        → IfOk result (λ found. HoldsPairs paid_columns ((state S.Store conn.old).now.trees 7) (line_map found.items)) }
    ensures listed { IfOk result (λ found. entries (line_map found.items) ≡ map line_entry found.items) }
    ensures usable { HasCleanDisk (state S.Store conn.new) → IfErr result (λ e. e ≡ OpenFault.Unusable → HasOurTables (state S.Store conn.old)
        → IsTrue (state S.Store conn.old).is_open → (m : FinMap pair_cmp PaidRow) → ¬ HoldsPairs paid_columns ((state S.Store conn.old).now.trees 7) m) }
    ensures only_loads { OnlyLoads (state S.Store conn.old) (state S.Store conn.new) result }
    ensures cause { FailsForCause HasOurTables (state S.Store conn.old) (state S.Store conn.new) result }
{
    let rows = read_table(
        conn,
        alloc,
        "SELECT ticket, place, letter, number, cents FROM paid ORDER BY ticket, place",
    )?;
    test_table::<S, Rowid, AnyRow>(conn, alloc, "SELECT rowid FROM paid ORDER BY rowid")?;
    Ok(rows)
}

/// Reads the extensions, by period; none if the store lacks their table.
pub(crate) fn read_extensions<S: Alter>(
    conn: &mut Connection<S>,
    alloc: Global,
    form: Form,
) -> Result<Vec<StoredRate>, OpenFault>
    ensures found { HasCleanDisk (state S.Store conn.new) → SeesForm form (state S.Store conn.old) → IsSoundNow (state S.Store conn.old)
        → IfOk result (λ found. HoldsExtensions form (state S.Store conn.old).now.trees found.items) }
    ensures listed { IfOk result (λ found. entries (rate_map found.items) ≡ map rate_entry found.items) }
    ensures usable { HasCleanDisk (state S.Store conn.new) → IfErr result (λ e. e ≡ OpenFault.Unusable → SeesForm form (state S.Store conn.old)
        → IsTrue (state S.Store conn.old).is_open → (rows : Rows) → ¬ HoldsIn form (state S.Store conn.old).now.trees rows) }
    ensures same { HasCleanDisk (state S.Store conn.new) → IsTrue (state S.Store conn.old).is_open
        → OnOk result (IsUnchanged (state S.Store conn.old) (state S.Store conn.new)) }
    ensures kept { HasCleanDisk (state S.Store conn.new) → KeepsCommit (state S.Store conn.old) (state S.Store conn.new) }
    ensures outside { StaysOutside (state S.Store conn.old) (state S.Store conn.new) }
    ensures other { IfErr result (λ e. e ≢ OpenFault.WrongVersion) }
    ensures cause { FailsForCause (SeesForm form) (state S.Store conn.old) (state S.Store conn.new) result }
    ensures crash { Survives (state S.Store conn.old) (state S.Store conn.new) (λ _. ⊥) }
{
    match form {
        Form::Current | Form::First => read_table(
            conn,
            alloc,
            "SELECT period, rate FROM extensions ORDER BY period",
        ),
        Form::Earliest => Ok(Vec::new(alloc)),
    }
}
