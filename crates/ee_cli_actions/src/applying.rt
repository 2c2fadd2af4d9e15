//! The command `apply`.

ghost use Rattle.std.specs.Prelude.{◌≡◌, ◌⊎◌, ◌+◌, ℕ};
ghost use Rattle.ee_desk_model.specs.Repeats.{Content};
ghost use Rattle.ee_keeper.specs.Keeping.{Continues, FailedIn, HasAfter};
ghost use Rattle.ee_counter.specs.Answering.{FitMessages};
ghost use Rattle.ee_counter.specs.Serving.{most_messages};
ghost use Rattle.ee_cli_actions.specs.Actions.{Applies};
ghost use Rattle.ee_cli_actions.specs.Endings.{TellsDeviceOnlyIf, TellsFailureOnlyIf, ending_of};

use crate::faults::{Outcome, RunFault, StoreFault};
use ee_counter::{Ended, Why, serve};
use ee_io::{Sink, Source};
use ee_keeper::Keeper;
use std::alloc::Global;

/// Serves the input as one connection, and writes the responses to the output. The command is done if the input
/// ends between two messages, if a message asks to close, or after 1,000 messages. It is `NoMessage` if
/// the bytes are no message, which is answered. If an answer said that the store failed, it is `StoreFailed`, however
/// serving ended. Otherwise a failed device is `Device`, and refused memory `NoMemory`; the last message may
/// then have been decided without a whole response. If the keeper takes 1,000 requests more, and the texts of all
/// requests fit, it is `StoreFailed` only if a device of the store failed, or the store was shut before (`cause`).
pub fn apply_to<K: Keeper, R: Source, W: Sink>(
    alloc: Global,
    keeper: &mut K,
    input: &mut R,
    output: &mut W,
) -> Result<Outcome, RunFault>
    ensures continues { Continues K.is_clean K.is_guarded K.is_open K.faults keeper.old keeper.new }
    ensures applies { K.is_clean keeper.new → (c : Content) → K.has keeper.old c
        → Applies (R.remaining input.old) (R.remaining input.new) (W.contents output.old) (W.contents output.new) c result (HasAfter (K.has keeper.new) (K.went keeper.old) (K.went keeper.new)) }
    ensures device { TellsDeviceOnlyIf (R.may_have_failed input.new ⊎ W.may_have_failed output.new) result }
    ensures failed { TellsFailureOnlyIf K.may_fail result }
    ensures ready { K.is_clean keeper.new → (c : Content) → K.has keeper.old c → (n : ℕ) → K.takes (n + most_messages) keeper.old → K.takes n keeper.new }
    ensures cause { K.is_clean keeper.new → (c : Content) → K.has keeper.old c → (n : ℕ) → K.takes (n + most_messages) keeper.old → FitMessages K.fits
        → TellsFailureOnlyIf (FailedIn K.is_open K.faults keeper.old keeper.new) result }
{
    let ended = serve(alloc, keeper, input, output);
    ending(ended)
}

fn ending(ended: Ended) -> Result<Outcome, RunFault>
    ensures { result ≡ ending_of ended }
{
    if ended.store_failed {
        return Err(RunFault::Store(StoreFault::StoreFailed));
    }
    match ended.why {
        Why::Closed | Why::Asked | Why::Limit => Ok(Outcome::Done),
        Why::Fault(_) => Ok(Outcome::NoMessage),
        Why::ReadFailed | Why::WriteFailed => Err(RunFault::Device),
        Why::NoMemory => Err(RunFault::NoMemory),
    }
}
