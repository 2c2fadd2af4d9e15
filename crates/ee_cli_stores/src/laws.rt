//! The law of command lines in a row. Its body here does nothing; the clauses state the law.

ghost use Rattle.ee_desk_model.specs.Numbers.{RequestKey};
ghost use Rattle.ee_desk_model.specs.Repeats.{Content};
ghost use Rattle.ee_counter.specs.Answering.{FitMessages};
ghost use Rattle.ee_cli_commands.specs.declared.commands.FileKind.{FileKind};
ghost use Rattle.ee_cli_actions.specs.Actions.{FitFile};
ghost use Rattle.ee_store_delivery.specs.Causes.{TextsFit};
ghost use Rattle.ee_store.specs.History.{OpensHistory, HasHeld, HoldAtRest, HoldHistory, LeavesHistory, WaitsRefused};
ghost use Rattle.ee_cli_stores.specs.Bank.{AccountsForLines};
ghost use Rattle.ee_cli_stores.specs.Lines.{ClosesLine, EndsLine, LeadsInARow, WaitsLine};

use ee_counter::short_texts_law;
use ee_store::laws::{stops_and_retries_law, whole_history_law};
use sqlite_disk::Disk;

/// Command lines over one store in files, one after the other, each over what the one before it left, also if the
/// machine stopped in between. By `over` of `run_words` the requests of a line lead on from what its files held
/// (`Stores::opens`) to the store that it closed, if that was clean.
///
/// - `opens`: a line opens a store that has gone through what led to its files.
/// - `has`: and it has the content that they hold (`Stores::holds`).
/// - `closes`: if a line's store is at rest as the line ends (`Stores::rests`), the line leads to its two files:
///   by the events of its requests, whether their replies arrived or not, and a stop.
/// - `tested`: if a line's store was clean as it was opened, its files returned what was written as the line ends, or
///   two pages have one digest.
/// - `waits`: a line whose store wasn't opened is no event, if what is left of its files holds what they held, as
///   `Stores::open` says of files that `sqlite` didn't open.
/// - `leads`: lines in a row lead to what the last one left.
/// - `holds`: so what the files hold is the content of requests that were sent, each acting once, and each reply
///   that was given is still the answer (`IsLeftBy`).
/// - `fit`, `file_fits`: the texts of every request that a line puts fit a row, so `over` of `run_words` supposes nothing of
///   them (`Since`: `cause`).
/// - `at_rest`, `leaves`, `refused`: how a line leaves its files, for `run_line`.
/// - `accounts`: for every sequence of command lines over one store, whatever its two files first held, each line did what
///   `run_line` says of it. Then the files hold what requests that were sent made of the first content, each acting once;
///   each reply that was given is one of them and still the answer; no serial number is on two lines, each line pays its
///   value, and batches and the open day add up to what was paid (`IsAccounted`).
pub const fn lines_law<D: Disk>()
    ensures opens { OpensHistory D.Disk }
    ensures has { HasHeld D.Disk }
    ensures closes { ClosesLine D.Disk }
    ensures tested { EndsLine D.Disk }
    ensures waits { WaitsLine }
    ensures leads { LeadsInARow }
    ensures holds { HoldHistory }
    ensures fit { FitMessages TextsFit }
    ensures file_fits { (kind : FileKind) (c : Content) (key : RequestKey) → FitFile kind TextsFit c key }
    ensures at_rest { HoldAtRest D.Disk }
    ensures leaves { LeavesHistory D.Disk }
    ensures refused { WaitsRefused D.Disk }
    ensures accounts { AccountsForLines }
{
    short_texts_law();
    stops_and_retries_law();
    whole_history_law::<D>();
}
