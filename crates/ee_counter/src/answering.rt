//! The answer to a message.

ghost use Rattle.std.specs.Prelude.{◌≡◌, ◌+◌, ℕ, true, false, [], Ok, IfOk};
ghost use Rattle.ee_desk_model.specs.PlainBooks.{PlainBooks};
ghost use Rattle.ee_desk_model.specs.Queries.{ShowsQuery};
ghost use Rattle.ee_desk_model.specs.declared.queries.Query.{Query};
ghost use Rattle.ee_desk_model.specs.Repeats.{Content};
ghost use Rattle.ee_wire_calls.specs.Calls.{decoded};
ghost use Rattle.ee_wire_calls.specs.declared.calls.Call.TheVariants as call;
ghost use Rattle.ee_desk_laws.specs.Attempts.{LeadOn};
ghost use Rattle.ee_keeper.specs.Keeping.{Continues, FailsOnlyIf, FailedIn, HasAfter, Shows};
ghost use Rattle.ee_counter.specs.Answering.{Answers, AnswersQuery, FitsCall};
ghost use Rattle.ee_counter.specs.Inner.Answering.{AnswersUnless};
ghost use Rattle.ee_counter.specs.Serving.{tells_failure};

use crate::decoding::Decoder;
use ee_desk_model::{Query, Request, Shown, Unserved};
use ee_keeper::Keeper;
use ee_wire::{Answer, Call, WireFault};
use std::alloc::Global;

/// The answer to the query for which this is shown. No message asks for a list of bonds, so there is no route to it.
fn answer_of(shown: Shown) -> Answer
    ensures answers { (books : PlainBooks) (query : Query) → ShowsQuery books query shown → AnswersQuery books query result }
    ensures told { tells_failure result ≡ false }
{
    match shown {
        Shown::Sheet(sheet) => Answer::Sheet(sheet),
        Shown::Ticket(ticket) => Answer::Ticket(ticket),
        Shown::Batch(batch) => Answer::Batch(batch),
        Shown::Row(row) => Answer::Row(row),
        Shown::Bonds(_) => Answer::Fault(WireFault::NoRoute),
    }
}

fn answer_query<K: Keeper>(keeper: &mut K, query: &Query) -> Result<Answer, Unserved>
    ensures continues { Continues K.is_clean K.is_guarded K.is_open K.faults keeper.old keeper.new }
    ensures shows { K.is_clean keeper.new → (c : Content) → K.has keeper.old c
        → Shows (AnswersQuery c.books query.now) result (K.has keeper.new c) }
    ensures goes { K.is_clean keeper.new → LeadOn (K.went keeper.old) [] (K.went keeper.new) }
    ensures told { IfOk result (λ answer. tells_failure answer ≡ false) }
    ensures failed { FailsOnlyIf K.may_fail result }
    ensures ready { K.is_clean keeper.new → (c : Content) → K.has keeper.old c → (n : ℕ) → K.takes n keeper.old → K.takes n keeper.new }
    ensures cause { K.is_clean keeper.new → (c : Content) → K.has keeper.old c → (n : ℕ) → K.takes n keeper.old
        → FailsOnlyIf (FailedIn K.is_open K.faults keeper.old keeper.new) result }
{
    match keeper.ask(query) {
        Ok(shown) => Ok(answer_of(shown)),
        Err(cause) => Err(cause),
    }
}

fn answer_request<K: Keeper>(keeper: &mut K, request: &Request) -> Result<Answer, Unserved>
    ensures continues { Continues K.is_clean K.is_guarded K.is_open K.faults keeper.old keeper.new }
    ensures answers { K.is_clean keeper.new → (c : Content) → K.has keeper.old c
        → AnswersUnless c (Ok (call.Request request.now)) result (HasAfter (K.has keeper.new) (K.went keeper.old) (K.went keeper.new)) }
    ensures told { IfOk result (λ answer. tells_failure answer ≡ false) }
    ensures failed { FailsOnlyIf K.may_fail result }
    ensures ready { K.is_clean keeper.new → (c : Content) → K.has keeper.old c → (n : ℕ) → K.takes (n + 1) keeper.old → K.takes n keeper.new }
    ensures cause { K.is_clean keeper.new → (c : Content) → K.has keeper.old c → (n : ℕ) → K.takes (n + 1) keeper.old → K.fits c request.now
        → FailsOnlyIf (FailedIn K.is_open K.faults keeper.old keeper.new) result }
{
    Ok(Answer::Reply(keeper.respond(request)?))
}

fn answer_call<K: Keeper>(keeper: &mut K, call: &Call) -> Result<Answer, Unserved>
    ensures continues { Continues K.is_clean K.is_guarded K.is_open K.faults keeper.old keeper.new }
    ensures answers { K.is_clean keeper.new → (c : Content) → K.has keeper.old c
        → AnswersUnless c (Ok call.now) result (HasAfter (K.has keeper.new) (K.went keeper.old) (K.went keeper.new)) }
    ensures told { IfOk result (λ answer. tells_failure answer ≡ false) }
    ensures failed { FailsOnlyIf K.may_fail result }
    ensures ready { K.is_clean keeper.new → (c : Content) → K.has keeper.old c → (n : ℕ) → K.takes (n + 1) keeper.old → K.takes n keeper.new }
    ensures cause { K.is_clean keeper.new → (c : Content) → K.has keeper.old c → (n : ℕ) → K.takes (n + 1) keeper.old → FitsCall K.fits c (Ok call.now)
        → FailsOnlyIf (FailedIn K.is_open K.faults keeper.old keeper.new) result }
{
    match call {
        Call::Request(request) => answer_request(keeper, request),
        Call::Query(query) => answer_query(keeper, query),
    }
}

/// What `answer_message` returns, for a message that decodes to this.
pub fn answer_decoded<K: Keeper>(
    decoder: &Decoder,
    keeper: &mut K,
    target: &[u8],
    method: &[u8],
    body: &[u8],
) -> Answer
    ensures continues { Continues K.is_clean K.is_guarded K.is_open K.faults keeper.old keeper.new }
    ensures answers { K.is_clean keeper.new → (c : Content) → K.has keeper.old c
        → Answers c (decoded target.now method.now body.now) result (HasAfter (K.has keeper.new) (K.went keeper.old) (K.went keeper.new)) }
    ensures failed { tells_failure result ≡ true → K.may_fail }
    ensures ready { K.is_clean keeper.new → (c : Content) → K.has keeper.old c → (n : ℕ) → K.takes (n + 1) keeper.old → K.takes n keeper.new }
    ensures cause { K.is_clean keeper.new → (c : Content) → K.has keeper.old c → (n : ℕ) → K.takes (n + 1) keeper.old
        → FitsCall K.fits c (decoded target.now method.now body.now)
        → tells_failure result ≡ true → FailedIn K.is_open K.faults keeper.old keeper.new }
{
    match decoder.decode(target, method, body) {
        Ok(call) => match answer_call(keeper, &call) {
            Ok(answer) => answer,
            Err(cause) => Answer::Unserved(cause),
        },
        Err(WireFault::NoMemory) => Answer::Unserved(Unserved::NoMemory),
        Err(fault) => Answer::Fault(fault),
    }
}

/// The answer to a message at the keeper's content: the reply to a request, which is delivered once; what the
/// books show for a query; or the message's first fault. If memory or the store fails, it is `Unserved`, and
/// nothing has changed; a store that can't fail never gives `StoreFailed`. A keeper that takes one more request, whose
/// texts fit, gives it only if a device failed, or the store was shut before (`cause`).
pub fn answer_message<K: Keeper>(
    alloc: Global,
    keeper: &mut K,
    target: &[u8],
    method: &[u8],
    body: &[u8],
) -> Answer
    ensures continues { Continues K.is_clean K.is_guarded K.is_open K.faults keeper.old keeper.new }
    ensures answers { K.is_clean keeper.new → (c : Content) → K.has keeper.old c
        → Answers c (decoded target.now method.now body.now) result (HasAfter (K.has keeper.new) (K.went keeper.old) (K.went keeper.new)) }
    ensures failed { tells_failure result ≡ true → K.may_fail }
    ensures ready { K.is_clean keeper.new → (c : Content) → K.has keeper.old c → (n : ℕ) → K.takes (n + 1) keeper.old → K.takes n keeper.new }
    ensures cause { K.is_clean keeper.new → (c : Content) → K.has keeper.old c → (n : ℕ) → K.takes (n + 1) keeper.old
        → FitsCall K.fits c (decoded target.now method.now body.now)
        → tells_failure result ≡ true → FailedIn K.is_open K.faults keeper.old keeper.new }
{
    answer_decoded(&Decoder::new(alloc), keeper, target, method, body)
}
