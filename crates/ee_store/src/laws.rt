//! Laws of stops, retries and tellers for a keeper, in the terms of the keeper's clauses.

ghost use Rattle.sqlite.specs.Held.{Held, state};
ghost use Rattle.sqlite.specs.Steps.{over_memory};
ghost use Rattle.sqlite_trees.specs.declared.memory.MemStore.{MemStore};
ghost use Rattle.ee_store_tables.specs.Statements.{HasCause};
ghost use Rattle.ee_store.specs.Holding.{TakesHeld, FindsHeld, FindsNone, LeavesHeld};
ghost use Rattle.ee_store.specs.NextRun.{FollowsInNextRun, WaitsInNextRun};
ghost use Rattle.ee_store.specs.History.{
  BeginsHistory,
  BeginsInFiles,
  OpensHistory,
  HasHeld,
  WaitsInFiles,
  WaitsRefused,
  GoesByQueries,
  LeavesHistory,
  HoldAtRest,
  RestsHistory,
  HasHistory,
  HoldHistory,
  SettlesHistory,
};

pub use ee_desk_laws::{
    runs_as_events_law, stops_and_retries_law, tellers_interleaved_law, ties_to_stores_law,
};
use sqlite_disk::Disk;

/// What two files hold stays there through opens that fail.
///
/// - `takes`, `finds`: what `sqlite` takes for a database is held, and an open finds what is held.
/// - `none`: if no database was created yet, an open finds empty trees.
/// - `leaves`: whatever a crash leaves of an open that failed holds what the files held. If that is a store, its
///   trees need the numbers under which `sqlite` lists them (`IsNumberedLeft`).
pub const fn holding_law<D: Disk>()
    ensures takes { TakesHeld }
    ensures finds { FindsHeld }
    ensures none { FindsNone }
    ensures leaves { LeavesHeld D.Disk }
{}

/// From one run to the next. A crash may leave two files of a keeper that follows the events of the law of stops
/// and retries.
///
/// - `follows`: a keeper that is opened on them follows the same events, with a stop and a reopening. So does a
///   connection that is refused, for example for want of memory.
/// - `waits`: if the open is refused, what is left of them is still that of the stop.
pub const fn next_run_law<D: Disk, E: Disk>()
    ensures follows { FollowsInNextRun D.Disk E.Disk }
    ensures waits { WaitsInNextRun D.Disk E.Disk }
{}

/// The whole history of a store in files since it was new, or since its files held some content: any deliveries,
/// lost replies, faults, stops and starts. A request that is delivered is one more event, and so is one whose reply
/// is lost or that isn't served (`ActsOnce`, `goes`).
///
/// - `begins`: a store that was just created has gone through no event; `SqlKeeper::adopt` creates it (`begun`).
/// - `found`: so have files that hold a store of either version, or no database yet.
/// - `opens`: a store that is opened on two files has gone through the events that led to them.
/// - `has`: and it has the content that they hold.
/// - `waits`, `refused`: an open that fails is no event, whether the files come back (`open_on`, `held`) or a
///   connection.
/// - `queries`: a query is no event.
/// - `leaves`: a crash leaves two files of a store: a stop, and a reopening by whoever opens them. So does what is
///   left of a store that couldn't be closed (`SqlKeeper::close_files`, `left`).
/// - `at_rest`: files at rest hold the content, however they are found.
/// - `rests`: the end of a command, which leaves its files at rest, is a stop too, also if the machine stops before the
///   next one.
/// - `content`, `files`: whatever events it has gone through, the store, or the two files, have the content of
///   requests that were sent, each acting once, and each reply that was given is still the answer (`IsLeftBy`).
/// - `settled`: once each sent request is delivered again, each has taken effect once.
pub const fn whole_history_law<D: Disk>()
    ensures begins { BeginsHistory D.Disk }
    ensures found { BeginsInFiles }
    ensures opens { OpensHistory D.Disk }
    ensures has { HasHeld D.Disk }
    ensures waits { WaitsInFiles }
    ensures refused { WaitsRefused D.Disk }
    ensures queries { GoesByQueries D.Disk }
    ensures leaves { LeavesHistory D.Disk }
    ensures at_rest { HoldAtRest D.Disk }
    ensures rests { RestsHistory D.Disk }
    ensures content { HasHistory D.Disk }
    ensures files { HoldHistory }
    ensures settled { SettlesHistory D.Disk }
{
    stops_and_retries_law();
    holding_law::<D>();
}

/// A store in memory never fails, whatever is called: no device has a fault, and nothing shuts it. So over it no
/// call that has the clause `cause` answers `StoreFailed`.
pub const fn memory_never_fails_law()
    ensures { (old new : Held MemStore) → ¬ HasCause (state over_memory old) (state over_memory new) }
{}
