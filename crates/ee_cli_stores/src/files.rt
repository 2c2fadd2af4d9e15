//! Stores in files.

ghost use Rattle.std.specs.Prelude.{◌≡◌, ◌*◌, true, false, IfErr, IfOk};
ghost use Rattle.sqlite_std_file.specs.File.{IsFresh};
ghost use Rattle.sqlite.specs.WalFiles.{image_at};
ghost use Rattle.sqlite.specs.FileStore.{view};
ghost use Rattle.sqlite.specs.Files.{file_state};
ghost use Rattle.sqlite.specs.View.{IsClean};
ghost use Rattle.ee_store_tables.specs.Rows.{HasRoom};
ghost use Rattle.ee_store.specs.Ended.{EndsTested, FailsToEnd, RestsIn};
ghost use Rattle.ee_store.specs.History.{HasLeft, RestsAfter};
ghost use Rattle.ee_store.specs.NextRun.{HoldsContent};
ghost use Rattle.ee_cli_stores.specs.Faults.{fault_of_opening, IsRefused, Keeps};
ghost use Rattle.ee_cli_stores.specs.Inner.Faults.{IsLeftOf};
ghost use Rattle.ee_cli_stores.specs.Tested.{IsTested, WasClean};

use crate::laws::lines_law;
use ee_cli_actions::{RunFault, StoreFault};
use ee_cli_program::{Stores, Unopened};
use ee_store::{OpenFault, Rest, SqlKeeper, open_as};
use ee_store_tables::Failure;
use sqlite::{FileFrom, FileStore, Files, Leftover, Start};
use sqlite_disk::Disk;

/// A file whose earlier bytes aren't known. A torn write leaves each byte old or new.
#[derive(Drop)]
pub struct Untold;

impl Start for Untold {
    ghost use Rattle.std.specs.Prelude.{true, []};

    ghost log = { [] };

    ghost db = { [] };

    ghost is_mixing = { true };

    fn mixes() -> bool {
        true
    }
}

/// The stores in the files of this system; `start` represents what each file held when it was opened.
#[derive(Drop)]
pub struct StoreFiles<'a, F: Start> {
    pub rt: &'a HostRuntime,
    pub start: F,
}

/// What is left of a store in files that wasn't opened. (A type of its own keeps the types of `Stores` short: the
/// checker compares them part by part.)
#[derive(Drop)]
pub enum Refused<D: Disk> {
    /// The store, which was refused.
    Store(FileStore<D>),
    /// What `sqlite` left of files that it didn't open.
    Files(Leftover<D>),
    /// Nothing: the system opened no files.
    Nothing,
}

/// What is left of a store in files that couldn't be closed, and why.
#[derive(Drop)]
pub struct Unclosed<D: Disk> {
    pub failure: Failure,
    pub store: FileStore<D>,
}

impl<F: Start + Drop> Stores for StoreFiles<'_, F> {
    type Store = SqlKeeper<FileStore<FileFrom<F>>>;

    type Rest = Files<FileFrom<F>>;

    type Refused = Refused<FileFrom<F>>;

    type Left = Unclosed<FileFrom<F>>;

    // Both files together held that content: a store of either version, whatever its log has, or no store yet.
    ghost holds = { λ _ _ content. HoldsContent (image_at F.Start) content };

    // Each file held what these events led to from that content.
    ghost opens = { λ _ _ start events. HasLeft start events (image_at F.Start) };

    // Its tables have numbers left for the rows of as many requests, 501 each.
    ghost has_room = { λ n store. HasRoom (501 * n) (file_state store.conn) };

    // The files are at rest with what the store had, which is what its whole history led to. If they returned what was written there,
    // the store was clean; they did, if its reads were tested, or two pages have one digest.
    ghost rests = { λ store files. RestsIn store.conn files × RestsAfter store.conn files × WasClean store.conn files × EndsTested store.conn files
        × IsTested F.Start store.conn files };

    // What the files held was refused for this fault, and is still there.
    ghost refuses = { λ _ _ fault refused. IsRefused (λ files. IsFresh true files.log) (λ files. IsFresh false files.db) (image_at F.Start) fault refused };

    // A crash leaves of it what it could leave of the store, so it still follows the store's events. Closing failed for a cause.
    ghost keeps = { λ store left. Keeps store.conn left.store × (IsClean (view left.store) → FailsToEnd store.conn left.store left.failure) };

    fn open(
        self,
        path: &str,
    ) -> Result<SqlKeeper<FileStore<FileFrom<F>>>, Unopened<Refused<FileFrom<F>>>> {
        match open_as(self.rt, path, self.start) {
            Ok(keeper) => {
                // For the proof alone: a store that is opened has what its files held, and has gone through what led to them.
                lines_law::<FileFrom<F>>();
                Ok(keeper)
            }
            Err(not) => Err(Unopened {
                fault: fault_of(not.fault),
                cause: not.cause,
                rest: left_of(not.rest),
            }),
        }
    }

    fn close(
        store: SqlKeeper<FileStore<FileFrom<F>>>,
    ) -> Result<Files<FileFrom<F>>, Unclosed<FileFrom<F>>>
        ensures rests { IfOk result (λ files. RestsIn store.conn files × RestsAfter store.conn files × WasClean store.conn files × EndsTested store.conn files
            × IsTested F.Start store.conn files) }
        ensures keeps { IfErr result (λ left. Keeps store.conn left.store × (IsClean (view left.store) → FailsToEnd store.conn left.store left.failure)) }
    {
        match store.close_files() {
            Ok(files) => Ok(files),
            Err((failure, store)) => Err(Unclosed { failure, store }),
        }
    }
}

// What is left of a store that wasn't opened: a connection is handed back as its store, without what isn't committed.
pub(crate) fn left_of<D: Disk + Drop>(rest: Rest<FileStore<D>, Leftover<D>>) -> Refused<D>
    ensures { IsLeftOf rest result }
{
    match rest {
        Rest::Connection(conn) => Refused::Store(conn.into_store()),
        Rest::Files(Some(left)) => Refused::Files(left),
        Rest::Files(None) => Refused::Nothing,
    }
}

// The fault of a store that isn't opened.
pub(crate) fn fault_of(fault: OpenFault) -> RunFault
    ensures { result ≡ fault_of_opening fault }
{
    match fault {
        OpenFault::NoMemory => RunFault::NoMemory,
        OpenFault::StoreFailed => RunFault::Store(StoreFault::StoreFailed),
        OpenFault::WrongVersion => RunFault::Store(StoreFault::WrongVersion),
        OpenFault::Unusable => RunFault::Store(StoreFault::Unusable),
    }
}
