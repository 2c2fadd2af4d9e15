//! Laws of what is refused.

ghost use Rattle.ee_store_files.specs.Stops.{SparesStopped, SparesSummed, SparesStore, SparesOpen, SparesSynced, SparesOneSync, CountsNoneSynced, CountsNoneAtOnce, Begins, BeginsSynced};
ghost use Rattle.ee_store_files.specs.Orphans.{SparesHeld, SparesPresent};

use sqlite_disk::Disk;

/// Nothing that a stop leaves is refused as damaged.
///
/// - `stopped`: nothing of the files that `IsStopped` describes: whole transactions, at most one that was being
///   written behind them, and no later count.
/// - `summed`: for the lack of a checksum, nothing that recovers to pages with their checksums.
/// - `at_rest`: nothing that a crash leaves of an open store, if it has no later count.
/// - `between`: for two more transactions, nothing that a crash leaves of an open log of `sqlite_wal`.
/// - `synced`, `at_once`: nor what it leaves while `sqlite_wal` commits a transaction, by two syncs or by one.
/// - `counts_synced`, `counts_at_once`: meanwhile no later count comes to stand behind the committed frames, if none
///   stands behind all frames of the log.
/// - `begins`, `begins_synced`: nor does the header come to look older than the frames, if a frame is committed, or the
///   first ones are committed by two syncs.
pub const fn spares_stopped_law<D: Disk>()
    ensures stopped { SparesStopped }
    ensures summed { SparesSummed }
    ensures at_rest { SparesStore D.Disk }
    ensures between { SparesOpen D.Disk }
    ensures synced { SparesSynced D.Disk }
    ensures at_once { SparesOneSync D.Disk }
    ensures counts_synced { CountsNoneSynced D.Disk }
    ensures counts_at_once { CountsNoneAtOnce D.Disk }
    ensures begins { Begins D.Disk }
    ensures begins_synced { BeginsSynced D.Disk }
{}

/// Nothing that a stop leaves is refused for the lack of its file.
///
/// - `held`: nothing that holds a database.
/// - `present`: nothing that a crash leaves of an open store.
pub const fn spares_files_law<D: Disk>()
    ensures held { SparesHeld }
    ensures present { SparesPresent D.Disk }
{}
