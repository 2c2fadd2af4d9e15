//! Serving a connection.

ghost use Rattle.std.specs.Prelude.{◌≡◌, ◌⊎◌, ◌<◌, ◌≤◌, ◌+◌, ◌||◌, ◌==◌, ℕ, true, None, ⊤};
ghost use Rattle.std.specs.ControlFlow.{MatchControlFlow};
ghost use Rattle.ee_desk_model.specs.Repeats.{Content};
ghost use Rattle.ee_keeper.specs.Keeping.{Continues, FailedIn, HasAfter};
ghost use Rattle.ee_wire_framing.specs.Reading.{message_in};
ghost use Rattle.ee_counter.specs.Answering.{Answers, FitMessages, FitsCall, call_of};
ghost use Rattle.ee_counter.specs.Serving.{Serves, DeviceFailsOnlyIf, tells_failure, most_messages};
ghost use Rattle.ee_counter.specs.Inner.Serving.{Turns, AnswersOne, FlowDeviceFailsOnlyIf, FlowFailsOnlyIf, Refuses};

use crate::answering::answer_decoded;
use crate::decoding::Decoder;
use ee_desk_model::Unserved;
use ee_io::{Sink, Source};
use ee_keeper::Keeper;
use ee_wire::{
    Answer, Buffer, FramingFault, Message, Next, WireEnd, WireFault, WriteEnd, next_message,
    write_reply,
};
use std::alloc::Global;
use std::ops::ControlFlow;

/// The maximum number of messages on a connection.
pub const MOST_MESSAGES: usize = 1_000;

/// Why serving a connection ended.
#[derive(Clone, Copy, Debug, PartialEq, Eq)]
pub enum Why {
    /// The other side closed the connection, between two messages.
    Closed,
    /// A message asked to close: HTTP/1.0, or `Connection: close`.
    Asked,
    /// The connection had 1,000 messages.
    Limit,
    /// The bytes are no message. This fault was answered.
    Fault(FramingFault),
    /// The reader failed, or was interrupted. The messages that were read whole are answered.
    ReadFailed,
    /// The writer failed, or was interrupted, inside a response. Its message was decided.
    WriteFailed,
    /// Memory was refused, to a message or to the text of a response, of which no byte was written. The last
    /// message may have been decided.
    NoMemory,
}

/// How serving a connection ended.
#[derive(Clone, Copy)]
pub struct Ended {
    /// The number of responses that were written whole, including that to a framing fault: at most 1,000.
    pub messages: usize,
    /// Whether an answer said that the store failed.
    pub store_failed: bool,
    pub why: Why,
}

/// Whether the connection ends with this message.
fn is_last(closes: bool, messages: usize) -> bool
    requires { messages < most_messages }
    ensures { result ≡ (closes || (messages + 1 == most_messages)) }
{
    closes || messages + 1 == MOST_MESSAGES
}

/// Whether this answer, or one before, says that the store failed.
fn has_failed(answer: &Answer, before: bool) -> bool
    ensures { result ≡ (tells_failure answer.now || before) }
{
    match answer {
        Answer::Unserved(Unserved::StoreFailed) => true,
        _ => before,
    }
}

/// The answer to a message in the buffer.
fn answer_to<K: Keeper>(
    decoder: &Decoder,
    keeper: &mut K,
    buffer: &Buffer,
    message: Message,
) -> Answer
    ensures continues { Continues K.is_clean K.is_guarded K.is_open K.faults keeper.old keeper.new }
    ensures answers { K.is_clean keeper.new → (c : Content) → K.has keeper.old c
        → Answers c (call_of (message_in buffer.now.shown message)) result (HasAfter (K.has keeper.new) (K.went keeper.old) (K.went keeper.new)) }
    ensures failed { tells_failure result ≡ true → K.may_fail }
    ensures ready { K.is_clean keeper.new → (c : Content) → K.has keeper.old c → (n : ℕ) → K.takes (n + 1) keeper.old → K.takes n keeper.new }
    ensures cause { K.is_clean keeper.new → (c : Content) → K.has keeper.old c → (n : ℕ) → K.takes (n + 1) keeper.old
        → FitsCall K.fits c (call_of (message_in buffer.now.shown message))
        → tells_failure result ≡ true → FailedIn K.is_open K.faults keeper.old keeper.new }
{
    let target = buffer.part(message.target);
    let method = buffer.part(message.method);
    let body = buffer.part(message.body);
    answer_decoded(decoder, keeper, target, method, body)
}

/// Answers a message, and writes the response. If the connection goes on, returns whether this answer, or one
/// before, said that the store failed.
fn answer_one<K: Keeper, W: Sink>(
    decoder: &Decoder,
    keeper: &mut K,
    writer: &mut W,
    buffer: &Buffer,
    message: Message,
    messages: usize,
    store_failed: bool,
) -> ControlFlow<Ended, bool>
    requires few { messages < most_messages }
    requires failed { store_failed ≡ true → K.may_fail }
    ensures continues { Continues K.is_clean K.is_guarded K.is_open K.faults keeper.old keeper.new }
    ensures answers { K.is_clean keeper.new → (c : Content) → K.has keeper.old c
        → AnswersOne (message_in buffer.now.shown message) (W.contents writer.old) (W.contents writer.new) c messages store_failed result (HasAfter (K.has keeper.new) (K.went keeper.old) (K.went keeper.new)) }
    ensures few { MatchControlFlow result (λ failed. ⊤) (λ ended. ended.messages ≤ most_messages) }
    ensures device { FlowDeviceFailsOnlyIf ⊥ (W.may_have_failed writer.new) result }
    ensures failed { FlowFailsOnlyIf K.may_fail result }
    ensures ready { K.is_clean keeper.new → (c : Content) → K.has keeper.old c → (n : ℕ) → K.takes (n + 1) keeper.old → K.takes n keeper.new }
    ensures cause { K.is_clean keeper.new → (c : Content) → K.has keeper.old c → (n : ℕ) → K.takes (n + 1) keeper.old
        → FitsCall K.fits c (call_of (message_in buffer.now.shown message))
        → FlowFailsOnlyIf ((store_failed ≡ true) ⊎ FailedIn K.is_open K.faults keeper.old keeper.new) result }
{
    let closing = is_last(message.closes, messages);
    let answer = answer_to(decoder, keeper, buffer, message);
    let store_failed = has_failed(&answer, store_failed);
    match write_reply(decoder.alloc(), writer, &answer, closing) {
        Ok(()) if message.closes => ControlFlow::Break(Ended {
            messages: messages + 1,
            store_failed,
            why: Why::Asked,
        }),
        Ok(()) => ControlFlow::Continue(store_failed),
        Err(WriteEnd::WriteFailed) => ControlFlow::Break(Ended {
            messages,
            store_failed,
            why: Why::WriteFailed,
        }),
        Err(WriteEnd::NoMemory) => ControlFlow::Break(Ended {
            messages,
            store_failed,
            why: Why::NoMemory,
        }),
    }
}

/// Answers a framing fault.
fn refuse<W: Sink>(
    alloc: Global,
    writer: &mut W,
    fault: FramingFault,
    messages: usize,
    store_failed: bool,
) -> Ended
    requires { messages < most_messages }
    ensures refuses { Refuses fault (W.contents writer.old) (W.contents writer.new) messages result }
    ensures few { result.messages ≤ most_messages }
    ensures device { DeviceFailsOnlyIf ⊥ (W.may_have_failed writer.new) result.why }
    ensures failed { result.store_failed ≡ store_failed }
{
    let answer = Answer::Fault(WireFault::Framing(fault));
    match write_reply(alloc, writer, &answer, true) {
        Ok(()) => Ended {
            messages: messages + 1,
            store_failed,
            why: Why::Fault(fault),
        },
        Err(WriteEnd::WriteFailed) => Ended {
            messages,
            store_failed,
            why: Why::WriteFailed,
        },
        Err(WriteEnd::NoMemory) => Ended {
            messages,
            store_failed,
            why: Why::NoMemory,
        },
    }
}

/// Reads a message and answers it. If the connection goes on, returns whether this answer, or one before, said
/// that the store failed.
fn turn<K: Keeper, R: Source, W: Sink>(
    decoder: &Decoder,
    keeper: &mut K,
    reader: &mut R,
    writer: &mut W,
    buffer: &mut Buffer,
    messages: usize,
    store_failed: bool,
) -> ControlFlow<Ended, bool>
    requires few { messages < most_messages }
    requires open { buffer.old.ended ≡ None }
    requires failed { store_failed ≡ true → K.may_fail }
    ensures continues { Continues K.is_clean K.is_guarded K.is_open K.faults keeper.old keeper.new }
    ensures turns { K.is_clean keeper.new → (c : Content) → K.has keeper.old c
        → Turns buffer.old.held buffer.new.held (R.remaining reader.old) (R.remaining reader.new)
        (W.contents writer.old) (W.contents writer.new) c messages store_failed result (HasAfter (K.has keeper.new) (K.went keeper.old) (K.went keeper.new)) }
    ensures open { MatchControlFlow result (λ failed. buffer.new.ended ≡ None) (λ ended. ⊤) }
    ensures few { MatchControlFlow result (λ failed. ⊤) (λ ended. ended.messages ≤ most_messages) }
    ensures device { FlowDeviceFailsOnlyIf (R.may_have_failed reader.new) (W.may_have_failed writer.new) result }
    ensures failed { FlowFailsOnlyIf K.may_fail result }
    ensures ready { K.is_clean keeper.new → (c : Content) → K.has keeper.old c → (n : ℕ) → K.takes (n + 1) keeper.old → K.takes n keeper.new }
    ensures cause { K.is_clean keeper.new → (c : Content) → K.has keeper.old c → (n : ℕ) → K.takes (n + 1) keeper.old → FitMessages K.fits
        → FlowFailsOnlyIf ((store_failed ≡ true) ⊎ FailedIn K.is_open K.faults keeper.old keeper.new) result }
{
    match next_message(reader, buffer) {
        Ok(Next::Message(message)) => answer_one(
            decoder,
            keeper,
            writer,
            buffer,
            message,
            messages,
            store_failed,
        ),
        Ok(Next::End) => ControlFlow::Break(Ended {
            messages,
            store_failed,
            why: Why::Closed,
        }),
        Err(WireEnd::Fault(fault)) => {
            ControlFlow::Break(refuse(decoder.alloc(), writer, fault, messages, store_failed))
        }
        Err(WireEnd::ReadFailed) => ControlFlow::Break(Ended {
            messages,
            store_failed,
            why: Why::ReadFailed,
        }),
        Err(WireEnd::NoMemory) => ControlFlow::Break(Ended {
            messages,
            store_failed,
            why: Why::NoMemory,
        }),
    }
}

/// Answers the messages of a connection in order, each at the content after those before it, until the other
/// side closes, a message asks to close, the bytes are no message (which is answered), 1,000 messages were
/// answered, or a device or memory fails.
///
/// The responses are written in order and whole; only the last may be cut, if the writer failed. A message
/// answered with 503 changed nothing. After the 1,000th message none is decided. Nothing is read after the
/// read that settled the end: before the last read, of at most 4,096 bytes, the next message wasn't whole. If
/// the reader fails, the bytes that were read contain no further whole message. If an answer said that the
/// store failed, the result says so, whatever ended the connection; a store that can't fail never does. The
/// claims are about any content `c` that the keeper had, and hold if its store is clean at the end. Each request is
/// an event in the history of the store (`HasAfter`), whether its reply arrives or not. If the keeper takes 1,000
/// requests more, and the texts of all requests fit, an answer says that the store failed only if a device failed,
/// or the store was shut before (`cause`).
pub fn serve<K: Keeper, R: Source, W: Sink>(
    alloc: Global,
    keeper: &mut K,
    reader: &mut R,
    writer: &mut W,
) -> Ended
    ensures continues { Continues K.is_clean K.is_guarded K.is_open K.faults keeper.old keeper.new }
    ensures serves { K.is_clean keeper.new → (c : Content) → K.has keeper.old c
        → Serves (R.remaining reader.old) (R.remaining reader.new) (W.contents writer.old) (W.contents writer.new) c result (HasAfter (K.has keeper.new) (K.went keeper.old) (K.went keeper.new)) }
    ensures few { result.messages ≤ most_messages }
    ensures device { DeviceFailsOnlyIf (R.may_have_failed reader.new) (W.may_have_failed writer.new) result.why }
    ensures failed { result.store_failed ≡ true → K.may_fail }
    ensures ready { K.is_clean keeper.new → (c : Content) → K.has keeper.old c → (n : ℕ) → K.takes (n + most_messages) keeper.old → K.takes n keeper.new }
    ensures cause { K.is_clean keeper.new → (c : Content) → K.has keeper.old c → (n : ℕ) → K.takes (n + most_messages) keeper.old → FitMessages K.fits
        → result.store_failed ≡ true → FailedIn K.is_open K.faults keeper.old keeper.new }
{
    let decoder = Decoder::new(alloc);
    let mut buffer = Buffer::new(alloc);
    let mut store_failed = false;
    for messages in 0..MOST_MESSAGES {
        match turn(
            &decoder,
            keeper,
            reader,
            writer,
            &mut buffer,
            messages,
            store_failed,
        ) {
            ControlFlow::Continue(failed) => store_failed = failed,
            ControlFlow::Break(ended) => return ended,
        }
    }
    Ended {
        messages: MOST_MESSAGES,
        store_failed,
        why: Why::Limit,
    }
}
