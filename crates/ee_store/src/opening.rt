//! Opening a store in a file.

ghost use Rattle.std.specs.Prelude.{◌≡◌, ◌⊎◌, None, true, false, IsTrue, IfOk, IfErr, IfSome, IsSomeAnd};
ghost use Rattle.sqlite.specs.State.{HasCleanDisk};
ghost use Rattle.sqlite.specs.Files.{file_state, image_of, IsCleanLeft};
ghost use Rattle.sqlite.specs.WalFiles.{image_at};
ghost use Rattle.sqlite_std_file.specs.File.{IsFresh};
ghost use Rattle.sqlite.specs.FileStore.{recovers, view};
ghost use Rattle.sqlite.specs.Tree.{Trees};
ghost use Rattle.sqlite.specs.View.{IsClean};
ghost use Rattle.ee_store_schema.specs.Faults.{fault_of};
ghost use Rattle.ee_store_files.specs.Causes.{IsOfSystem, error_of};
ghost use Rattle.ee_store_files.specs.Files.{Leaves};
ghost use Rattle.ee_store_files.specs.Opening.{IsCauseOf};
ghost use Rattle.ee_store_delivery.specs.Known.{IsInformed};
ghost use Rattle.ee_store.specs.Adopted.{IsOpenedFrom, IsRefusedFrom, IfConnection, IfFiles};
ghost use Rattle.ee_store.specs.Holding.{AreSettled, KeepsHeld};
ghost use Rattle.ee_store.specs.NextRun.{IsNumbered, IsNumberedStore, LeavesStanding};

use crate::keeper::SqlKeeper;
use crate::laws::holding_law;
use ee_store_files::{OpenCause, open_files, open_path};
use ee_store_schema::OpenFault;
use sqlite::{Alter, Connection, FileFrom, FileStore, Files, Leftover, Options, Start};
use sqlite_disk::Disk;
use std::alloc::Global;

/// What is left if a store in a file isn't opened: a connection, or what `sqlite` leaves of files that it
/// doesn't open (`L`).
#[derive(Drop)]
pub enum Rest<S: Alter, L> {
    /// The connection, handed back: its store was refused.
    Connection(Connection<S>),
    /// What `sqlite` left of the files, if it got as far as opening them.
    Files(Option<L>),
}

/// A store in a file that wasn't opened, and why.
#[derive(Drop)]
pub struct NotOpened<S: Alter, L> {
    /// Why it wasn't opened.
    pub fault: OpenFault,
    /// Why `sqlite` didn't open the file; `None` if it did, and the store was refused.
    pub cause: Option<OpenCause>,
    /// What is left of it.
    pub rest: Rest<S, L>,
}

/// Opens the store in two files, or creates it there.
///
/// - `opened`: the keeper has what was found: the empty content if there was no store, and otherwise the
///   content that the store had, as `SqlKeeper::adopt` says.
/// - `informed`: the cache is correct, as `SqlKeeper::adopt` says.
/// - `refused`: for a connection that is refused the same is said: why, and what the call left.
/// - `fault`: a file that `sqlite` doesn't open is neither `WrongVersion` nor `Unusable`.
/// - `told`, `apart`: a cause is one of that fault, and is told only if `sqlite` didn't open the file.
/// - `cause`: it is why the files weren't opened, by the clause of that name of `open_files`.
/// - `left`: the files come back, and recover to what was there or, if there was no database, to none or an empty
///   one.
/// - `held`: so they hold what they held, and the open was no event (`whole_history_law`, `waits`). This is said of
///   files of which a crash leaves what they hold, as of those that were just opened.
///
/// # Errors
///
/// Those of `SqlKeeper::adopt`; `StoreFailed` also if `sqlite` doesn't open the files.
pub fn open_on<D: Disk + Drop>(
    alloc: Global,
    files: Files<D>,
    options: Options,
) -> Result<SqlKeeper<FileStore<D>>, NotOpened<FileStore<D>, Leftover<D>>>
    requires log { IsTrue (D.Disk.is_usable files.log) }
    requires db { IsTrue (D.Disk.is_usable files.db) }
    ensures opened { IfOk result (λ keeper. HasCleanDisk (file_state keeper.conn) → IsOpenedFrom (image_of D.Disk files) keeper.conn) }
    ensures informed { IfOk result (λ keeper. IsInformed (file_state keeper.conn) keeper.known) }
    ensures refused { IfErr result (λ not. IfConnection not.rest (λ conn. HasCleanDisk (file_state conn) → IsRefusedFrom (image_of D.Disk files) not.fault conn)) }
    ensures fault { IfErr result (λ not. IfFiles not.rest (λ _. (not.fault ≡ OpenFault.NoMemory) ⊎ (not.fault ≡ OpenFault.StoreFailed))) }
    ensures told { IfErr result (λ not. IfSome not.cause (λ cause. not.fault ≡ fault_of (error_of cause))) }
    ensures apart { IfErr result (λ not. IfConnection not.rest (λ _. not.cause ≡ None)) }
    ensures cause { IfErr result (λ not. IfFiles not.rest (λ rest. IsSomeAnd rest (λ left. IsSomeAnd not.cause (λ cause. IsCleanLeft left → IsCauseOf files left cause)))) }
    ensures left { IfErr result (λ not. IfFiles not.rest (λ rest. IsSomeAnd rest (λ left. IsCleanLeft left → Leaves files left))) }
    ensures held { IfErr result (λ not. IfFiles not.rest (λ rest. IsSomeAnd rest (λ left. IsCleanLeft left → AreSettled D.Disk files
        → KeepsHeld (image_of D.Disk files) left))) }
{
    holding_law::<D>();
    let conn = match open_files(alloc, files, options) {
        Ok(conn) => conn,
        Err((error, left)) => {
            let cause = OpenCause::of_error(error);
            return Err(NotOpened {
                fault: OpenFault::from(cause.error()),
                cause: Some(cause),
                rest: Rest::Files(Some(left)),
            });
        }
    };
    match SqlKeeper::adopt(conn, alloc) {
        Ok(keeper) => Ok(keeper),
        Err(not) => Err(NotOpened {
            fault: not.fault,
            cause: None,
            rest: Rest::Connection(not.conn),
        }),
    }
}

/// Opens the store in the file at a path, or creates it there; `start` represents what the file held. Each clause is
/// one of `open_on`.
///
/// - `nothing`: if nothing comes back, the cause is the system's, which opened no file.
///
/// # Errors
///
/// Those of `open_on`; `StoreFailed` also if the system doesn't open the files.
pub fn open_as<F: Start>(
    rt: &HostRuntime,
    path: &str,
    start: F,
) -> Result<
    SqlKeeper<FileStore<FileFrom<F>>>,
    NotOpened<FileStore<FileFrom<F>>, Leftover<FileFrom<F>>>,
>
    ensures opened { IfOk result (λ keeper. HasCleanDisk (file_state keeper.conn) → IsOpenedFrom (image_at F.Start) keeper.conn) }
    ensures informed { IfOk result (λ keeper. IsInformed (file_state keeper.conn) keeper.known) }
    ensures refused { IfErr result (λ not. IfConnection not.rest (λ conn. HasCleanDisk (file_state conn) → IsRefusedFrom (image_at F.Start) not.fault conn)) }
    ensures fault { IfErr result (λ not. IfFiles not.rest (λ _. (not.fault ≡ OpenFault.NoMemory) ⊎ (not.fault ≡ OpenFault.StoreFailed))) }
    ensures told { IfErr result (λ not. IfSome not.cause (λ cause. not.fault ≡ fault_of (error_of cause))) }
    ensures apart { IfErr result (λ not. IfConnection not.rest (λ _. not.cause ≡ None)) }
    ensures cause { IfErr result (λ not. IfFiles not.rest (λ rest. IfSome rest (λ left. IsSomeAnd not.cause (λ cause. (files : _) × IsFresh true files.log × IsFresh false files.db
        × (IsCleanLeft left → IsCauseOf files left cause))))) }
    ensures left { IfErr result (λ not. IfFiles not.rest (λ rest. IfSome rest (λ left. (files : _) × IsFresh true files.log × IsFresh false files.db
        × (IsCleanLeft left → Leaves files left)))) }
    ensures held { IfErr result (λ not. IfFiles not.rest (λ rest. IfSome rest (λ left. IsCleanLeft left → KeepsHeld (image_at F.Start) left))) }
    ensures nothing { IfErr result (λ not. IfFiles not.rest (λ rest. rest ≡ None → IsSomeAnd not.cause IsOfSystem)) }
{
    match open_path(rt, path, start) {
        Ok(found) => open_on(rt.alloc(), found.0, found.1),
        Err(cause) => Err(NotOpened {
            fault: OpenFault::from(cause.error()),
            cause: Some(cause),
            rest: Rest::Files(None),
        }),
    }
}

impl<D: Disk + Drop> SqlKeeper<FileStore<D>> {
    /// Hands the store in two files back, without what isn't committed.
    ///
    /// - `leaves`: any two files that a crash might have left of the keeper hold a database which represents a
    ///   content that the crash might leave, by the law of stops and retries.
    /// - `numbered`, `has_numbers`: its trees had, and have, the numbers under which `sqlite` lists them, as the laws
    ///   `next_run_law` and `whole_history_law` need.
    /// - `left`, `was_clean`: a crash leaves what it could leave before; if what is left is clean, so was the keeper.
    pub fn stop(self) -> FileStore<D>
        ensures numbered { IsClean (view result) → IsNumbered self.conn }
        ensures leaves { IsClean (view result) → LeavesStanding self.conn }
        ensures has_numbers { IsClean (view result) → IsNumberedStore result }
        ensures left { (db : Trees) → recovers result db → (file_state self.conn).may_leave db }
        ensures was_clean { IsClean (view result) → HasCleanDisk (file_state self.conn) }
    {
        self.close().into_store()
    }
}
