//! Adopting a connection, and handing it back.

ghost use Rattle.std.specs.Prelude.{◌≡◌, ◌≢◌, false, IsTrue, IfOk, IfErr, OnOk, OnErr, MatchResult};
ghost use Rattle.sqlite.specs.Held.{state};
ghost use Rattle.sqlite.specs.State.{HasCleanDisk, IsLive, KeepsCommit, Survives};
ghost use Rattle.ee_desk_model.specs.Repeats.{Content, nothing};
ghost use Rattle.ee_store_schema.specs.Making.{IsBlank};
ghost use Rattle.ee_store_load.specs.Whole.{AreInOrder, AreRead};
ghost use Rattle.ee_store_contents.specs.Contents.{KeepsAnswer, tables_for};
ghost use Rattle.ee_store_books.specs.Standing.{StandAt};
ghost use Rattle.ee_store_schema.specs.Forms.{version_of};
ghost use Rattle.ee_store_tables.specs.Rows.{Rows};
ghost use Rattle.ee_store_books.specs.Seen.{StandsFor};
ghost use Rattle.ee_store.specs.Adopted.{
  BeginsEmpty,
  KeepsContent,
  HasSome,
  HadNone,
  CarriesWorld,
  BeginsWorld,
  GoesOn,
  StaysStopped,
  HadOtherVersion,
  HadNoOtherVersion,
  LeavesAsBefore,
  KeepsPresent,
  FailsToAdopt,
  OpensWithRoom,
};
ghost use Rattle.ee_store_books.specs.Causes.{IsReady};
ghost use Rattle.ee_store_delivery.specs.Known.{IsInformed};

use crate::keeper::SqlKeeper;
use ee_desk_model::UnitTables;
use ee_store_contents::{ContentFault, KeptReply, TestedContent, tables_of};
use ee_store_delivery::Known;
use ee_store_load::{AllRows, is_blank, open_rows};
use ee_store_schema::{OpenFault, make_tables, migrate};
use sqlite::{Alter, Connection};
use std::alloc::Global;

/// A connection that was not adopted, and why.
#[derive(Drop)]
pub struct NotAdopted<S: Alter> {
    /// Why it was refused.
    pub fault: OpenFault,
    /// The connection, handed back.
    pub conn: Connection<S>,
}

/// The tables of unit values for the rates of rows that represent books and kept replies, and the replies to be migrated.
/// Drops the rows.
fn prepared(alloc: Global, all: AllRows) -> Result<TestedContent, OpenFault>
    requires { AreInOrder all }
    ensures ok { IfOk result (λ tested. (rows : Rows) → AreRead KeepsAnswer all rows → (content : Content)
        × (tested.tables ≡ tables_for content.books.rates) × StandAt (version_of all.form) rows content) }
    ensures left { IfOk result (λ tested. tested.answers ≡ all.replies.earlier) }
    ensures unusable { IfErr result (λ fault. fault ≡ OpenFault.Unusable → (rows : Rows) → AreRead KeepsAnswer all rows
        → (content : Content) → StandAt (version_of all.form) rows content → ⊥) }
    ensures version { IfErr result (λ fault. fault ≢ OpenFault.WrongVersion) }
    ensures settled { IfErr result (λ fault. fault ≢ OpenFault.StoreFailed) }
{
    match tables_of(alloc, all) {
        Ok(tested) => Ok(tested),
        Err(ContentFault::Unusable) => Err(OpenFault::Unusable),
        Err(ContentFault::NoMemory) => Err(OpenFault::NoMemory),
    }
}

/// A connection sees a database and, outside a transaction, its last commit. It does nothing.
fn settled<S: Alter>(conn: &Connection<S>)
    ensures live { IsLive (state S.Store conn.now) }
    ensures committed { (state S.Store conn.now).in_transaction ≡ false → IsTrue (state S.Store conn.now).is_open
        → (state S.Store conn.now).now ≡ (state S.Store conn.now).committed }
{
    // For the proof alone: what these calls promise of the connection are the clauses above.
    let _schema = conn.schema();
    let _autocommit = conn.is_autocommit();
}

/// Creates the tables of a blank store. For any other store, reads the rows, tests that they represent books and
/// kept replies, and then migrates a store of version 1 to version 2. Returns the tables of unit values for its
/// rates. A commit is the last step that can fail.
fn ready<S: Alter>(conn: &mut Connection<S>, alloc: Global) -> Result<UnitTables, OpenFault>
    ensures begins { HasCleanDisk (state S.Store conn.new) → OnOk result (BeginsEmpty (state S.Store conn.old) (state S.Store conn.new)) }
    ensures begun { HasCleanDisk (state S.Store conn.new) → OnOk result (BeginsWorld (state S.Store conn.old) (state S.Store conn.new)) }
    ensures found { HasCleanDisk (state S.Store conn.new) → OnOk result (KeepsContent (state S.Store conn.old) (state S.Store conn.new)) }
    ensures present { HasCleanDisk (state S.Store conn.new) → OnOk result (KeepsPresent (state S.Store conn.old) (state S.Store conn.new)) }
    ensures stands { HasCleanDisk (state S.Store conn.new) → OnOk result (HasSome (state S.Store conn.old) (state S.Store conn.new)) }
    ensures follows { HasCleanDisk (state S.Store conn.new) → OnOk result (CarriesWorld (state S.Store conn.old) (state S.Store conn.new)) }
    ensures goes_on { HasCleanDisk (state S.Store conn.new) → OnOk result (GoesOn (state S.Store conn.old) (state S.Store conn.new)) }
    ensures kept { HasCleanDisk (state S.Store conn.new) → OnErr result (KeepsCommit (state S.Store conn.old) (state S.Store conn.new)) }
    ensures version { HasCleanDisk (state S.Store conn.new) → IfErr result (λ fault. fault ≡ OpenFault.WrongVersion → HadNone (state S.Store conn.old)) }
    ensures other { HasCleanDisk (state S.Store conn.new) → IfErr result (λ fault. fault ≡ OpenFault.WrongVersion → HadOtherVersion (state S.Store conn.old)) }
    ensures unusable { HasCleanDisk (state S.Store conn.new) → IfErr result (λ fault. fault ≡ OpenFault.Unusable → HadNone (state S.Store conn.old)) }
    ensures tested { HasCleanDisk (state S.Store conn.new) → IfErr result (λ fault. fault ≡ OpenFault.Unusable → HadNoOtherVersion (state S.Store conn.old)) }
    ensures ready { IsReady (state S.Store conn.old) → IsReady (state S.Store conn.new) }
    ensures room { HasCleanDisk (state S.Store conn.new) → OnOk result (OpensWithRoom (state S.Store conn.old) (state S.Store conn.new)) }
    ensures cause { HasCleanDisk (state S.Store conn.new) → IfErr result (FailsToAdopt (state S.Store conn.old) (state S.Store conn.new)) }
    ensures crash { Survives (state S.Store conn.old) (state S.Store conn.new) (λ db. IsBlank (state S.Store conn.old) → StandsFor db nothing) }
    ensures left { HasCleanDisk (state S.Store conn.new) → LeavesAsBefore (state S.Store conn.old) (state S.Store conn.new) }
    ensures waits { HasCleanDisk (state S.Store conn.new) → StaysStopped (state S.Store conn.old) (state S.Store conn.new) }
{
    // For the proof alone: a connection that has a schema sees a database, which `found` and `follows` need.
    let _schema = conn.schema();
    if is_blank(conn) {
        make_tables(conn)?;
        settled(conn);
        return Ok(UnitTables::new(alloc));
    }
    let all = open_rows::<S, KeptReply>(conn, alloc)?;
    settled(conn);
    let form = all.form;
    let tested = prepared(alloc, all)?;
    let TestedContent { tables, answers } = tested;
    migrate(conn, form, &answers)?;
    settled(conn);
    Ok(tables)
}

impl<S: Alter> SqlKeeper<S> {
    /// Adopts a connection that is in no transaction. In a store without tables it creates them, in one
    /// transaction, and starts with the empty content. In a store that has the tables of this program, in the order
    /// in which it creates them, it reads all rows and tests them. Tables, indexes and views of others may follow
    /// these: they aren't read, and stay as they are. A store that has exactly the tables of version 1, with or
    /// without that of extensions, is read and tested in the same way, and then migrated: in one transaction it
    /// becomes one of version 2 with the same content, its replies under the first desk. Any other store is
    /// refused.
    ///
    /// - `begins`: a store without tables gets the empty content.
    /// - `begun`: the connection is open, and after a crash a store that had no tables has only the empty content.
    ///   So the events of the law of stops and retries begin there.
    /// - `found`: a store keeps the content that it has, in whichever form its tables are. One of version 1 has it
    ///   in version 2, with each number under the first desk, and every kept reply as before.
    /// - `present`: to a store of version 2 nothing is committed, so tables of others stay as they are.
    /// - `stands`: so the keeper serves a content that the store had, and never rows that represent none, nor other
    ///   tables.
    /// - `informed`: the cache is correct; a new keeper's is empty.
    /// - `follows`: the store follows the events of the law of stops and retries as before.
    /// - `goes_on`: a store over trees that a crash left, which represent a content, is opened with exactly that
    ///   content, and the events of the law go on from there.
    /// - `version`, `unusable`: a store that has a content, or no tables, is refused for neither.
    /// - `other`, `tested`: the fault is `WrongVersion` only if the rows have another version, and then never
    ///   `Unusable`. Over tables in no such form it is `WrongVersion` only if `sqlite` shows another version for the
    ///   desk's row; if the desk is the first table, exactly then.
    /// - `ready`: a connection in no transaction, without a limit on steps, makes a keeper that takes requests. If
    ///   it is refused, it is handed back in the same state.
    /// - `room`: it has room for as many rows with hidden rowids as its trees have, and as they had before, less those
    ///   of the kept replies that are migrated; a store that was new, for 2^63 - 1. A store without room is taken over
    ///   too: it answers what it keeps, and `StoreFailed` to requests that need a row.
    /// - `cause`: for such a connection, over a store without tables or with those of either version, the
    ///   fault is `StoreFailed` only if the device failed once more, or the store was shut before. For a store of
    ///   version 1 this needs kept replies that fit the rows of version 2, as all do that are shorter than 900
    ///   million bytes.
    /// - `kept`: a refusal commits nothing, whatever the store had. A commit is the last step that can fail.
    /// - `waits`: if a store over trees that a crash left, which represent a content, is refused, what it leaves
    ///   represents the same. So a later call goes on from there.
    /// - `crash`, `left`: whenever the call stops, a crash leaves what it could leave before. In a store without
    ///   tables it may also leave the empty content; in one of version 1, version 2 with the same content, and
    ///   nothing between.
    ///
    /// # Errors
    ///
    /// With each the connection is handed back.
    ///
    /// - `NoMemory` if memory is refused.
    /// - `StoreFailed` if the store fails, or the connection is in a transaction.
    /// - `WrongVersion` if the tables have neither version.
    /// - `Unusable` if the tables aren't these, or are in another order, or an index more is on them, or the rows
    ///   represent no books and kept replies.
    pub fn adopt(conn: Connection<S>, alloc: Global) -> Result<SqlKeeper<S>, NotAdopted<S>>
        ensures begins { IfOk result (λ keeper. HasCleanDisk (state S.Store keeper.conn) → BeginsEmpty (state S.Store conn) (state S.Store keeper.conn)) }
        ensures begun { IfOk result (λ keeper. HasCleanDisk (state S.Store keeper.conn) → BeginsWorld (state S.Store conn) (state S.Store keeper.conn)) }
        ensures found { IfOk result (λ keeper. HasCleanDisk (state S.Store keeper.conn) → KeepsContent (state S.Store conn) (state S.Store keeper.conn)) }
        ensures present { IfOk result (λ keeper. HasCleanDisk (state S.Store keeper.conn) → KeepsPresent (state S.Store conn) (state S.Store keeper.conn)) }
        ensures stands { IfOk result (λ keeper. HasCleanDisk (state S.Store keeper.conn) → HasSome (state S.Store conn) (state S.Store keeper.conn)) }
        ensures informed { IfOk result (λ keeper. IsInformed (state S.Store keeper.conn) keeper.known) }
        ensures follows { IfOk result (λ keeper. HasCleanDisk (state S.Store keeper.conn) → CarriesWorld (state S.Store conn) (state S.Store keeper.conn)) }
        ensures goes_on { IfOk result (λ keeper. HasCleanDisk (state S.Store keeper.conn) → GoesOn (state S.Store conn) (state S.Store keeper.conn)) }
        ensures kept { IfErr result (λ not. HasCleanDisk (state S.Store not.conn) → KeepsCommit (state S.Store conn) (state S.Store not.conn)) }
        ensures version { IfErr result (λ not. HasCleanDisk (state S.Store not.conn) → not.fault ≡ OpenFault.WrongVersion → HadNone (state S.Store conn)) }
        ensures other { IfErr result
            (λ not. HasCleanDisk (state S.Store not.conn) → not.fault ≡ OpenFault.WrongVersion → HadOtherVersion (state S.Store conn)) }
        ensures unusable { IfErr result (λ not. HasCleanDisk (state S.Store not.conn) → not.fault ≡ OpenFault.Unusable → HadNone (state S.Store conn)) }
        ensures tested { IfErr result (λ not. HasCleanDisk (state S.Store not.conn) → not.fault ≡ OpenFault.Unusable → HadNoOtherVersion (state S.Store conn)) }
        ensures ready { MatchResult result (λ keeper. IsReady (state S.Store conn) → IsReady (state S.Store keeper.conn))
            (λ not. IsReady (state S.Store conn) → IsReady (state S.Store not.conn)) }
        ensures room { IfOk result (λ keeper. HasCleanDisk (state S.Store keeper.conn) → OpensWithRoom (state S.Store conn) (state S.Store keeper.conn)) }
        ensures cause { IfErr result (λ not. HasCleanDisk (state S.Store not.conn) → FailsToAdopt (state S.Store conn) (state S.Store not.conn) not.fault) }
        ensures waits { IfErr result (λ not. HasCleanDisk (state S.Store not.conn) → StaysStopped (state S.Store conn) (state S.Store not.conn)) }
        ensures crash { MatchResult result
            (λ keeper. Survives (state S.Store conn) (state S.Store keeper.conn) (λ db. IsBlank (state S.Store conn) → StandsFor db nothing))
            (λ not. Survives (state S.Store conn) (state S.Store not.conn) (λ db. IsBlank (state S.Store conn) → StandsFor db nothing)) }
        ensures left { MatchResult result (λ keeper. HasCleanDisk (state S.Store keeper.conn) → LeavesAsBefore (state S.Store conn) (state S.Store keeper.conn))
            (λ not. HasCleanDisk (state S.Store not.conn) → LeavesAsBefore (state S.Store conn) (state S.Store not.conn)) }
    {
        let mut own = conn;
        match ready(&mut own, alloc) {
            Ok(tables) => Ok(SqlKeeper {
                alloc,
                tables,
                known: Known::nothing(alloc),
                conn: own,
            }),
            Err(fault) => Err(NotAdopted { fault, conn: own }),
        }
    }

    /// Hands the connection back. What is committed stays. Takes no memory.
    pub fn close(self) -> Connection<S>
        ensures { result ≡ self.conn }
    {
        let SqlKeeper {
            alloc: _,
            tables: _,
            known: _,
            conn,
        } = self;
        conn
    }
}
