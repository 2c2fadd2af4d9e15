//! The command `serve`.

ghost use Rattle.std.specs.Prelude.{◌≡◌, ◌⊎◌, ◌+◌, ◌*◌, ℕ, true, IfOk, IfErr, string_bytes};
ghost use Rattle.ee_desk_model.specs.Repeats.{Content};
ghost use Rattle.ee_keeper.specs.Keeping.{Continues, FailedIn, HasAfter};
ghost use Rattle.ee_counter.specs.Answering.{FitMessages};
ghost use Rattle.ee_counter.specs.Serving.{Serves, most_messages};
ghost use Rattle.ee_cli_actions.specs.Connections.{ServesAll, ServesStream};
ghost use Rattle.ee_cli_actions.specs.Inner.Connections.{PrintsLine, ServesNext};
ghost use Rattle.ee_cli_actions.specs.Endings.{TellsFailureOnlyIf};
ghost use Rattle.ee_cli_actions.specs.Printed.{connection_line, failure_text};

use crate::faults::{Outcome, RunFault, StoreFault};
use crate::patience::{Listens, ReadTimeout, Timed, Turns, WriteTimeout, let_go};
use crate::printing::print;
use crate::reasons::Reason;
use ee_counter::{Ended, Why, serve};
use ee_io::Sink;
use ee_keeper::Keeper;
use std::alloc::{AllocError, Global};
use std::time::{Clock, Duration};

/// Serves the connections that come one after another, up to the given number, and prints a line when each ends:
/// `connection I: M messages, WHY`, with I from 1, M the number of responses that were written whole, and WHY
/// the name of what ended it. However a connection ends, the next one is served. If a message doesn't arrive
/// whole within `patience`, the connection ends by `ReadFailed`; if a response isn't taken within it, by
/// `WriteFailed`. Serving ends early if no connection could be accepted or a line not be written (`Device`), if
/// memory was refused to a line (`NoMemory`), or after a connection on which an answer said that the store
/// failed (`StoreFailed`), whose line is printed. If that line can't be printed whole, serving ends by `Device` or
/// `NoMemory`. If the keeper takes 1,000 requests for each connection, and the texts of all requests fit, it ends by
/// `StoreFailed` only if a device of the store failed, or the store was shut before (`cause`).
pub fn serve_on<C: Clock, K: Keeper, L: Listens, W: Sink>(
    clock: &C,
    alloc: Global,
    keeper: &mut K,
    listener: &mut L,
    connections: u64,
    patience: Duration,
    output: &mut W,
) -> Result<Outcome, RunFault>
    ensures continues { Continues K.is_clean K.is_guarded K.is_open K.faults keeper.old keeper.new }
    ensures serves { K.is_clean keeper.new → (c : Content) → K.has keeper.old c
        → ServesAll (L.coming listener.old) connections (W.contents output.old) (W.contents output.new) c result (HasAfter (K.has keeper.new) (K.went keeper.old) (K.went keeper.new)) }
    ensures done { IfOk result (λ outcome. outcome ≡ Outcome.Done) }
    ensures failed { TellsFailureOnlyIf K.may_fail result }
    ensures ready { K.is_clean keeper.new → (c : Content) → K.has keeper.old c → (n : ℕ) → K.takes (n + connections * most_messages) keeper.old → K.takes n keeper.new }
    ensures cause { K.is_clean keeper.new → (c : Content) → K.has keeper.old c → (n : ℕ) → K.takes (n + connections * most_messages) keeper.old → FitMessages K.fits
        → TellsFailureOnlyIf (FailedIn K.is_open K.faults keeper.old keeper.new) result }
{
    for connection in 0..connections {
        let ended = serve_next(clock, alloc, keeper, listener, patience)?;
        print_line(alloc, connection + 1, ended, output)?;
        if ended.store_failed {
            return Err(RunFault::Store(StoreFault::StoreFailed));
        }
    }
    Ok(Outcome::Done)
}

// Serves the next connection.
fn serve_next<C: Clock, K: Keeper, L: Listens>(
    clock: &C,
    alloc: Global,
    keeper: &mut K,
    listener: &mut L,
    patience: Duration,
) -> Result<Ended, RunFault>
    ensures continues { Continues K.is_clean K.is_guarded K.is_open K.faults keeper.old keeper.new }
    ensures serves { K.is_clean keeper.new → (c : Content) → K.has keeper.old c
        → ServesNext (L.coming listener.old) (L.coming listener.new) c result (HasAfter (K.has keeper.new) (K.went keeper.old) (K.went keeper.new)) }
    ensures failed { IfOk result (λ ended. ended.store_failed ≡ true → K.may_fail) }
    ensures ready { K.is_clean keeper.new → (c : Content) → K.has keeper.old c → (n : ℕ) → K.takes (n + most_messages) keeper.old → K.takes n keeper.new }
    ensures cause { K.is_clean keeper.new → (c : Content) → K.has keeper.old c → (n : ℕ) → K.takes (n + most_messages) keeper.old → FitMessages K.fits
        → IfOk result (λ ended. ended.store_failed ≡ true → FailedIn K.is_open K.faults keeper.old keeper.new) }
    ensures device { IfErr result (λ fault. fault ≡ RunFault.Device) }
{
    match listener.next_connection() {
        Ok((reader, writer)) => Ok(serve_stream(clock, alloc, keeper, reader, writer, patience)),
        Err(_) => Err(RunFault::Device),
    }
}

// Serves a connection, and closes it.
fn serve_stream<C: Clock, K: Keeper, R: ReadTimeout + Drop, W: WriteTimeout + Drop>(
    clock: &C,
    alloc: Global,
    keeper: &mut K,
    reader: R,
    writer: W,
    patience: Duration,
) -> Ended
    ensures continues { Continues K.is_clean K.is_guarded K.is_open K.faults keeper.old keeper.new }
    ensures serves { K.is_clean keeper.new → (c : Content) → K.has keeper.old c
        → ServesStream (R.remaining reader) c result (HasAfter (K.has keeper.new) (K.went keeper.old) (K.went keeper.new)) }
    ensures failed { result.store_failed ≡ true → K.may_fail }
    ensures ready { K.is_clean keeper.new → (c : Content) → K.has keeper.old c → (n : ℕ) → K.takes (n + most_messages) keeper.old → K.takes n keeper.new }
    ensures cause { K.is_clean keeper.new → (c : Content) → K.has keeper.old c → (n : ℕ) → K.takes (n + most_messages) keeper.old → FitMessages K.fits
        → result.store_failed ≡ true → FailedIn K.is_open K.faults keeper.old keeper.new }
{
    let turns = Turns::new(clock, patience);
    let turns = &turns;
    let mut reader = Timed {
        turns,
        stream: reader,
    };
    let mut writer = Timed {
        turns,
        stream: writer,
    };
    let ended = serve_timed(alloc, keeper, &mut reader, &mut writer);
    if leaves_more(ended.why) {
        let _let_go = let_go(&mut reader, &writer);
    }
    ended
}

// Serves a connection with time limits.
fn serve_timed<C: Clock, K: Keeper, R: ReadTimeout, W: WriteTimeout>(
    alloc: Global,
    keeper: &mut K,
    reader: &mut Timed<'_, '_, C, R>,
    writer: &mut Timed<'_, '_, C, W>,
) -> Ended
    ensures continues { Continues K.is_clean K.is_guarded K.is_open K.faults keeper.old keeper.new }
    ensures serves { K.is_clean keeper.new → (c : Content) → K.has keeper.old c
        → Serves (R.remaining reader.old.stream) (R.remaining reader.new.stream) (W.contents writer.old.stream) (W.contents writer.new.stream) c result (HasAfter (K.has keeper.new) (K.went keeper.old) (K.went keeper.new)) }
    ensures failed { result.store_failed ≡ true → K.may_fail }
    ensures ready { K.is_clean keeper.new → (c : Content) → K.has keeper.old c → (n : ℕ) → K.takes (n + most_messages) keeper.old → K.takes n keeper.new }
    ensures cause { K.is_clean keeper.new → (c : Content) → K.has keeper.old c → (n : ℕ) → K.takes (n + most_messages) keeper.old → FitMessages K.fits
        → result.store_failed ≡ true → FailedIn K.is_open K.faults keeper.old keeper.new }
{
    serve(alloc, keeper, reader, writer)
}

// Whether the other side may still be sending.
fn leaves_more(why: Why) -> bool {
    match why {
        Why::Asked | Why::Limit | Why::Fault(_) | Why::NoMemory => true,
        Why::Closed | Why::ReadFailed | Why::WriteFailed => false,
    }
}

// Prints a connection's line.
fn print_line<W: Sink>(
    alloc: Global,
    number: u64,
    ended: Ended,
    output: &mut W,
) -> Result<(), RunFault>
    ensures printed { PrintsLine (W.contents output.old) (W.contents output.new) (connection_line number ended) result }
    ensures fault { IfErr result (λ fault. (fault ≡ RunFault.Device) ⊎ (fault ≡ RunFault.NoMemory)) }
{
    let line = connection_line(alloc, number, ended)?;
    print(&line, output)
}

// What the line adds if an answer said that the store failed.
fn failure_text(store_failed: bool) -> &'static str
    ensures { result.now ≡ failure_text store_failed }
{
    if store_failed {
        ", the store failed"
    } else {
        ""
    }
}

fn connection_line(alloc: Global, number: u64, ended: Ended) -> Result<String, AllocError>
    ensures { IfOk result (λ line. string_bytes line ≡ connection_line number ended) }
{
    let messages = ended.messages;
    let why = Reason(ended.why);
    let failure = failure_text(ended.store_failed);
    format!(in alloc; "connection {number}: {messages} messages, {why}{failure}\n")
}
