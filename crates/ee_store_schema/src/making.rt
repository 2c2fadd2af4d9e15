//! Creating the tables in an empty store: those of version 1, and from them those of version 2.

ghost use Rattle.std.specs.Prelude.{◌≡◌, ◌≢◌, false, IsTrue, IfErr, OnOk, OnErr};
ghost use Rattle.sqlite.specs.State.{HasCleanDisk, KeepsCommit, Survives};
ghost use Rattle.sqlite.specs.Held.{state};
ghost use Rattle.sqlite.specs.Schema.{Schema};
ghost use Rattle.sqlite.specs.Tree.{Trees};
ghost use Rattle.sqlite.specs.Effect.{IsDatabase};
ghost use Rattle.ee_store_tables.specs.Rows.{Stores, Sees, Has};
ghost use Rattle.ee_store_tables.specs.Tables.{counter_schema};
ghost use Rattle.ee_store_schema.specs.Faults.{FailsForCause, StaysOutside};
ghost use Rattle.ee_store_schema.specs.Forms.{first_tables, earliest_tables};
ghost use Rattle.ee_store_schema.specs.Inner.Forms.{SeesSchema};
ghost use Rattle.ee_store_schema.specs.Making.{IsBlank, first_rows, no_tables};
ghost use Rattle.ee_store_schema.specs.Inner.Making.{SeesTables, IsAmid, IsOver, GainsTable, LeavesTables, ReplacesReplies, AddsTable, AddsIndex, TakesTable, TakesIndex, register_tables, payment_tables, both_tables, MakesInside};

use crate::faults::OpenFault;
use sqlite::{Alter, Connection, Transaction};

/// Creates a table, beside the tables that exist and their rows.
fn define_table<S: Alter>(tx: &mut Transaction<'_, S>, sql: &str) -> Result<(), OpenFault>
    ensures same_reference { tx.new.conn.ghost_name ≡ tx.old.conn.ghost_name }
    ensures makes_inside { MakesInside (state S.Store tx.old.conn.now) (state S.Store tx.new.conn.now) result }
    ensures gained { HasCleanDisk (state S.Store tx.new.conn.now) → OnOk result ((before after : Schema) → AddsTable before sql.now after
        → SeesSchema before (state S.Store tx.old.conn.now) → IsTrue (state S.Store tx.new.conn.now).is_open
        → GainsTable before after (state S.Store tx.old.conn.now) (state S.Store tx.new.conn.now)) }
    ensures added { HasCleanDisk (state S.Store tx.new.conn.now) → OnOk result ((before after : Schema) → AddsTable before sql.now after
        → SeesTables (state S.Store tx.old.conn.now) before → SeesTables (state S.Store tx.new.conn.now) after) }
    ensures usable { HasCleanDisk (state S.Store tx.new.conn.now) → IfErr result (λ e. (before after : Schema) → AddsTable before sql.now after
        → SeesSchema before (state S.Store tx.old.conn.now) → IsTrue (state S.Store tx.old.conn.now).is_open → e ≢ OpenFault.Unusable) }
    ensures cause { (before after : Schema) → AddsTable before sql.now after → TakesTable before sql.now
        → FailsForCause (IsOver before) (state S.Store tx.old.conn.now) (state S.Store tx.new.conn.now) result }
{
    tx.execute(sql, &[])?;
    Ok(())
}

/// Creates an index.
fn define_index<S: Alter>(tx: &mut Transaction<'_, S>, sql: &str) -> Result<(), OpenFault>
    ensures same_reference { tx.new.conn.ghost_name ≡ tx.old.conn.ghost_name }
    ensures makes_inside { MakesInside (state S.Store tx.old.conn.now) (state S.Store tx.new.conn.now) result }
    ensures added { HasCleanDisk (state S.Store tx.new.conn.now) → OnOk result ((before after : Schema) → AddsIndex before sql.now after
        → SeesTables (state S.Store tx.old.conn.now) before → SeesTables (state S.Store tx.new.conn.now) after) }
    ensures usable { HasCleanDisk (state S.Store tx.new.conn.now) → IfErr result (λ e. (before after : Schema) → AddsIndex before sql.now after
        → SeesTables (state S.Store tx.old.conn.now) before → IsTrue (state S.Store tx.old.conn.now).is_open → e ≢ OpenFault.Unusable) }
    ensures cause { (before after : Schema) (adds : AddsIndex before sql.now after) → TakesIndex before sql.now adds.table
        → FailsForCause (IsAmid before) (state S.Store tx.old.conn.now) (state S.Store tx.new.conn.now) result }
{
    tx.execute(sql, &[])?;
    Ok(())
}

/// Creates the tables of the register: the desk, the rates and the bonds.
fn make_register<S: Alter>(tx: &mut Transaction<'_, S>) -> Result<(), OpenFault>
    ensures same_reference { tx.new.conn.ghost_name ≡ tx.old.conn.ghost_name }
    ensures makes_inside { MakesInside (state S.Store tx.old.conn.now) (state S.Store tx.new.conn.now) result }
    ensures added { HasCleanDisk (state S.Store tx.new.conn.now) → OnOk result (SeesTables (state S.Store tx.old.conn.now) no_tables
        → SeesTables (state S.Store tx.new.conn.now) register_tables) }
    ensures usable { HasCleanDisk (state S.Store tx.new.conn.now) → IfErr result (λ e. SeesTables (state S.Store tx.old.conn.now) no_tables
        → IsTrue (state S.Store tx.old.conn.now).is_open → e ≢ OpenFault.Unusable) }
    ensures cause { FailsForCause (IsAmid no_tables) (state S.Store tx.old.conn.now) (state S.Store tx.new.conn.now) result }
{
    define_table(
        tx,
        "CREATE TABLE desk (id INTEGER NOT NULL PRIMARY KEY, version INTEGER NOT NULL, day INTEGER, last_day INTEGER) STRICT",
    )?;
    define_table(
        tx,
        "CREATE TABLE rates (period INTEGER NOT NULL PRIMARY KEY, rate INTEGER NOT NULL) STRICT",
    )?;
    define_table(
        tx,
        "CREATE TABLE bonds (letter INTEGER NOT NULL, number INTEGER NOT NULL, denom INTEGER NOT NULL, issued INTEGER NOT NULL, owner INTEGER NOT NULL, coowner INTEGER, ticket INTEGER, PRIMARY KEY (letter, number)) STRICT",
    )?;
    define_index(
        tx,
        "CREATE INDEX bonds_owner ON bonds (owner, letter, number)",
    )
}

/// Creates the tables of payments: the tickets and their lines.
fn make_payments<S: Alter>(tx: &mut Transaction<'_, S>) -> Result<(), OpenFault>
    ensures same_reference { tx.new.conn.ghost_name ≡ tx.old.conn.ghost_name }
    ensures makes_inside { MakesInside (state S.Store tx.old.conn.now) (state S.Store tx.new.conn.now) result }
    ensures added { HasCleanDisk (state S.Store tx.new.conn.now) → OnOk result (SeesTables (state S.Store tx.old.conn.now) register_tables
        → SeesTables (state S.Store tx.new.conn.now) payment_tables) }
    ensures usable { HasCleanDisk (state S.Store tx.new.conn.now) → IfErr result (λ e. SeesTables (state S.Store tx.old.conn.now) register_tables
        → IsTrue (state S.Store tx.old.conn.now).is_open → e ≢ OpenFault.Unusable) }
    ensures cause { FailsForCause (IsAmid register_tables) (state S.Store tx.old.conn.now) (state S.Store tx.new.conn.now) result }
{
    define_table(
        tx,
        "CREATE TABLE tickets (ticket INTEGER NOT NULL PRIMARY KEY, day INTEGER NOT NULL, payee INTEGER NOT NULL, bonds INTEGER NOT NULL, total INTEGER NOT NULL) STRICT",
    )?;
    define_index(tx, "CREATE INDEX tickets_day ON tickets (day, ticket)")?;
    define_table(
        tx,
        "CREATE TABLE paid (ticket INTEGER NOT NULL, place INTEGER NOT NULL, letter INTEGER NOT NULL, number INTEGER NOT NULL, cents INTEGER NOT NULL, PRIMARY KEY (ticket, place), UNIQUE (letter, number)) STRICT",
    )
}

/// Creates the table of extensions, the last of version 1.
pub(crate) fn define_extensions<S: Alter>(tx: &mut Transaction<'_, S>) -> Result<(), OpenFault>
    ensures same_reference { tx.new.conn.ghost_name ≡ tx.old.conn.ghost_name }
    ensures makes_inside { MakesInside (state S.Store tx.old.conn.now) (state S.Store tx.new.conn.now) result }
    ensures gained { HasCleanDisk (state S.Store tx.new.conn.now) → OnOk result (SeesSchema earliest_tables (state S.Store tx.old.conn.now)
        → IsTrue (state S.Store tx.new.conn.now).is_open
        → GainsTable earliest_tables first_tables (state S.Store tx.old.conn.now) (state S.Store tx.new.conn.now)) }
    ensures added { HasCleanDisk (state S.Store tx.new.conn.now) → OnOk result (SeesTables (state S.Store tx.old.conn.now) earliest_tables
        → SeesTables (state S.Store tx.new.conn.now) first_tables) }
    ensures usable { HasCleanDisk (state S.Store tx.new.conn.now) → IfErr result (λ e. SeesSchema earliest_tables (state S.Store tx.old.conn.now)
        → IsTrue (state S.Store tx.old.conn.now).is_open → e ≢ OpenFault.Unusable) }
    ensures cause { FailsForCause (IsOver earliest_tables) (state S.Store tx.old.conn.now) (state S.Store tx.new.conn.now) result }
{
    define_table(
        tx,
        "CREATE TABLE extensions (period INTEGER NOT NULL PRIMARY KEY, rate INTEGER NOT NULL) STRICT",
    )
}

/// Creates the table of replies under desk and number, the first step to version 2.
fn define_answers<S: Alter>(tx: &mut Transaction<'_, S>) -> Result<(), OpenFault>
    ensures same_reference { tx.new.conn.ghost_name ≡ tx.old.conn.ghost_name }
    ensures makes_inside { MakesInside (state S.Store tx.old.conn.now) (state S.Store tx.new.conn.now) result }
    ensures gained { HasCleanDisk (state S.Store tx.new.conn.now) → OnOk result (SeesSchema first_tables (state S.Store tx.old.conn.now)
        → IsTrue (state S.Store tx.new.conn.now).is_open
        → GainsTable first_tables both_tables (state S.Store tx.old.conn.now) (state S.Store tx.new.conn.now)) }
    ensures added { HasCleanDisk (state S.Store tx.new.conn.now) → OnOk result (SeesTables (state S.Store tx.old.conn.now) first_tables
        → SeesTables (state S.Store tx.new.conn.now) both_tables) }
    ensures usable { HasCleanDisk (state S.Store tx.new.conn.now) → IfErr result (λ e. SeesSchema first_tables (state S.Store tx.old.conn.now)
        → IsTrue (state S.Store tx.old.conn.now).is_open → e ≢ OpenFault.Unusable) }
    ensures cause { FailsForCause (IsOver first_tables) (state S.Store tx.old.conn.now) (state S.Store tx.new.conn.now) result }
{
    define_table(
        tx,
        "CREATE TABLE answers (desk INTEGER NOT NULL, number INTEGER NOT NULL, act TEXT NOT NULL, reply TEXT NOT NULL, PRIMARY KEY (desk, number)) STRICT",
    )
}

/// Drops the table of replies under a number alone.
fn drop_replies<S: Alter>(tx: &mut Transaction<'_, S>) -> Result<(), OpenFault>
    ensures same_reference { tx.new.conn.ghost_name ≡ tx.old.conn.ghost_name }
    ensures makes_inside { MakesInside (state S.Store tx.old.conn.now) (state S.Store tx.new.conn.now) result }
    ensures dropped { HasCleanDisk (state S.Store tx.new.conn.now) → OnOk result (SeesSchema both_tables (state S.Store tx.old.conn.now)
        → IsTrue (state S.Store tx.new.conn.now).is_open → LeavesTables counter_schema (state S.Store tx.old.conn.now) (state S.Store tx.new.conn.now)) }
    ensures left { HasCleanDisk (state S.Store tx.new.conn.now) → OnOk result (SeesTables (state S.Store tx.old.conn.now) both_tables
        → SeesTables (state S.Store tx.new.conn.now) counter_schema) }
    ensures usable { HasCleanDisk (state S.Store tx.new.conn.now) → IfErr result (λ e. SeesSchema both_tables (state S.Store tx.old.conn.now)
        → IsTrue (state S.Store tx.old.conn.now).is_open → e ≢ OpenFault.Unusable) }
    ensures cause { FailsForCause (IsOver both_tables) (state S.Store tx.old.conn.now) (state S.Store tx.new.conn.now) result }
{
    tx.execute("DROP TABLE replies", &[])?;
    Ok(())
}

/// Makes the tables of version 2 from those of version 1, without replies.
pub(crate) fn replace_replies<S: Alter>(tx: &mut Transaction<'_, S>) -> Result<(), OpenFault>
    ensures same_reference { tx.new.conn.ghost_name ≡ tx.old.conn.ghost_name }
    ensures makes_inside { MakesInside (state S.Store tx.old.conn.now) (state S.Store tx.new.conn.now) result }
    ensures replaced { HasCleanDisk (state S.Store tx.new.conn.now) → OnOk result (SeesSchema first_tables (state S.Store tx.old.conn.now)
        → ReplacesReplies (state S.Store tx.old.conn.now) (state S.Store tx.new.conn.now)) }
    ensures left { HasCleanDisk (state S.Store tx.new.conn.now) → OnOk result (SeesTables (state S.Store tx.old.conn.now) first_tables
        → SeesTables (state S.Store tx.new.conn.now) counter_schema) }
    ensures usable { HasCleanDisk (state S.Store tx.new.conn.now) → IfErr result (λ e. SeesSchema first_tables (state S.Store tx.old.conn.now)
        → IsTrue (state S.Store tx.old.conn.now).is_open → e ≢ OpenFault.Unusable) }
    ensures cause { FailsForCause (IsOver first_tables) (state S.Store tx.old.conn.now) (state S.Store tx.new.conn.now) result }
{
    define_answers(tx)?;
    drop_replies(tx)
}

/// Writes the one row of the desk, of version 2, at which nothing was done yet.
fn add_desk<S: Alter>(tx: &mut Transaction<'_, S>) -> Result<(), OpenFault>
    ensures same_reference { tx.new.conn.ghost_name ≡ tx.old.conn.ghost_name }
    ensures makes_inside { MakesInside (state S.Store tx.old.conn.now) (state S.Store tx.new.conn.now) result }
    ensures added { HasCleanDisk (state S.Store tx.new.conn.now) → OnOk result (SeesTables (state S.Store tx.old.conn.now) counter_schema
        → Sees (state S.Store tx.new.conn.now) first_rows) }
    ensures sound { HasCleanDisk (state S.Store tx.new.conn.now) → OnOk result (SeesTables (state S.Store tx.old.conn.now) counter_schema
        → IsTrue (state S.Store tx.new.conn.now).is_open → IsDatabase (state S.Store tx.new.conn.now).now) }
    ensures usable { HasCleanDisk (state S.Store tx.new.conn.now) → IfErr result (λ e. SeesTables (state S.Store tx.old.conn.now) counter_schema
        → IsTrue (state S.Store tx.old.conn.now).is_open → e ≢ OpenFault.Unusable) }
    ensures cause { FailsForCause (IsAmid counter_schema) (state S.Store tx.old.conn.now) (state S.Store tx.new.conn.now) result }
{
    tx.execute(
        "INSERT INTO desk (id, version, day, last_day) VALUES (1, 2, NULL, NULL)",
        &[],
    )?;
    Ok(())
}

/// Creates the tables of the batches and the replies, and then that of the extensions.
fn make_records<S: Alter>(tx: &mut Transaction<'_, S>) -> Result<(), OpenFault>
    ensures same_reference { tx.new.conn.ghost_name ≡ tx.old.conn.ghost_name }
    ensures makes_inside { MakesInside (state S.Store tx.old.conn.now) (state S.Store tx.new.conn.now) result }
    ensures added { HasCleanDisk (state S.Store tx.new.conn.now) → OnOk result (SeesTables (state S.Store tx.old.conn.now) payment_tables
        → SeesTables (state S.Store tx.new.conn.now) first_tables) }
    ensures usable { HasCleanDisk (state S.Store tx.new.conn.now) → IfErr result (λ e. SeesTables (state S.Store tx.old.conn.now) payment_tables
        → IsTrue (state S.Store tx.old.conn.now).is_open → e ≢ OpenFault.Unusable) }
    ensures cause { FailsForCause (IsAmid payment_tables) (state S.Store tx.old.conn.now) (state S.Store tx.new.conn.now) result }
{
    define_table(
        tx,
        "CREATE TABLE batches (day INTEGER NOT NULL PRIMARY KEY, tickets INTEGER NOT NULL, bonds INTEGER NOT NULL, total INTEGER NOT NULL) STRICT",
    )?;
    define_table(
        tx,
        "CREATE TABLE replies (number INTEGER NOT NULL PRIMARY KEY, act TEXT NOT NULL, reply TEXT NOT NULL) STRICT",
    )?;
    define_extensions(tx)
}

/// Makes the tables of version 2 from those of version 1, and writes the desk's row.
fn make_current<S: Alter>(tx: &mut Transaction<'_, S>) -> Result<(), OpenFault>
    ensures same_reference { tx.new.conn.ghost_name ≡ tx.old.conn.ghost_name }
    ensures makes_inside { MakesInside (state S.Store tx.old.conn.now) (state S.Store tx.new.conn.now) result }
    ensures added { HasCleanDisk (state S.Store tx.new.conn.now) → OnOk result (SeesTables (state S.Store tx.old.conn.now) first_tables
        → Sees (state S.Store tx.new.conn.now) first_rows) }
    ensures sound { HasCleanDisk (state S.Store tx.new.conn.now) → OnOk result (SeesTables (state S.Store tx.old.conn.now) first_tables
        → IsTrue (state S.Store tx.new.conn.now).is_open → IsDatabase (state S.Store tx.new.conn.now).now) }
    ensures usable { HasCleanDisk (state S.Store tx.new.conn.now) → IfErr result (λ e. SeesTables (state S.Store tx.old.conn.now) first_tables
        → IsTrue (state S.Store tx.old.conn.now).is_open → e ≢ OpenFault.Unusable) }
    ensures cause { FailsForCause (IsAmid first_tables) (state S.Store tx.old.conn.now) (state S.Store tx.new.conn.now) result }
{
    replace_replies(tx)?;
    add_desk(tx)
}

/// Creates the tables and writes the desk's row, inside a transaction.
fn make_in<S: Alter>(tx: &mut Transaction<'_, S>) -> Result<(), OpenFault>
    ensures same_reference { tx.new.conn.ghost_name ≡ tx.old.conn.ghost_name }
    ensures makes_inside { MakesInside (state S.Store tx.old.conn.now) (state S.Store tx.new.conn.now) result }
    ensures added { HasCleanDisk (state S.Store tx.new.conn.now) → OnOk result (SeesTables (state S.Store tx.old.conn.now) no_tables
        → Sees (state S.Store tx.new.conn.now) first_rows) }
    ensures sound { HasCleanDisk (state S.Store tx.new.conn.now) → OnOk result (SeesTables (state S.Store tx.old.conn.now) no_tables
        → IsTrue (state S.Store tx.new.conn.now).is_open → IsDatabase (state S.Store tx.new.conn.now).now) }
    ensures usable { HasCleanDisk (state S.Store tx.new.conn.now) → IfErr result (λ e. SeesTables (state S.Store tx.old.conn.now) no_tables
        → IsTrue (state S.Store tx.old.conn.now).is_open → e ≢ OpenFault.Unusable) }
    ensures cause { FailsForCause (IsAmid no_tables) (state S.Store tx.old.conn.now) (state S.Store tx.new.conn.now) result }
{
    make_register(tx)?;
    make_payments(tx)?;
    make_records(tx)?;
    make_current(tx)
}

/// Creates the tables of version 2 in a store that has none, in one transaction. First come those of version 1
/// in order, and then the changes of a migration, so each table has the same tree whether a store was created
/// or migrated.
///
/// Afterwards the store has one row, that of the desk: version 2, no open day and no last day. An error leaves
/// what was committed. A stop leaves what it could leave before, or the created tables; after `Ok` only
/// these.
///
/// # Errors
///
/// `NoMemory` if memory is refused, `Unusable` if a table with one of these names exists, and otherwise
/// `StoreFailed`, for example if the connection is in a transaction.
pub fn make_tables<S: Alter>(conn: &mut Connection<S>) -> Result<(), OpenFault>
    ensures made { HasCleanDisk (state S.Store conn.new) → OnOk result (IsBlank (state S.Store conn.old) → Has (state S.Store conn.new) first_rows) }
    ensures stored { HasCleanDisk (state S.Store conn.new) → OnOk result (IsBlank (state S.Store conn.old)
        → Stores (state S.Store conn.new).committed.trees first_rows) }
    ensures failed { HasCleanDisk (state S.Store conn.new) → OnErr result (KeepsCommit (state S.Store conn.old) (state S.Store conn.new)) }
    ensures usable { HasCleanDisk (state S.Store conn.new) → IfErr result (λ e. IsBlank (state S.Store conn.old) → IsTrue (state S.Store conn.old).is_open
        → e ≢ OpenFault.Unusable) }
    ensures other { IfErr result (λ e. e ≢ OpenFault.WrongVersion) }
    ensures cause { FailsForCause (λ s. (s.in_transaction ≡ false) × IsBlank s) (state S.Store conn.old) (state S.Store conn.new) result }
    ensures ended { OnOk result ((state S.Store conn.new).in_transaction ≡ false) }
    ensures outside { StaysOutside (state S.Store conn.old) (state S.Store conn.new) }
    ensures crash { Survives (state S.Store conn.old) (state S.Store conn.new) (λ db. IsBlank (state S.Store conn.old) → Stores db first_rows) }
    ensures open { HasCleanDisk (state S.Store conn.new) → OnOk result (IsTrue (state S.Store conn.old).is_open × IsTrue (state S.Store conn.new).is_open) }
    ensures durable { HasCleanDisk (state S.Store conn.new) → OnOk result ((db : Trees) → (state S.Store conn.new).may_leave db
        → db ≡ (state S.Store conn.new).committed.trees) }
{
    if !conn.is_autocommit() {
        return Err(OpenFault::StoreFailed);
    }
    let mut tx = conn.transaction();
    make_in(&mut tx)?;
    tx.commit()?;
    Ok(())
}
