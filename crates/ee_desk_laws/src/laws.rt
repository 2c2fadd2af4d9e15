//! Laws of events and of orders. A body here does nothing; the clauses state the laws.

ghost use Rattle.ee_desk_laws.specs.Stops.{SurvivesStops, HoldsAcknowledged, SettlesByRetries, LeadsOn};
ghost use Rattle.ee_desk_laws.specs.Tellers.{Interleaved};
ghost use Rattle.ee_desk_laws.specs.Runs.{TellsServed, RunsAsEvents};

/// Stops and retries. Requests are delivered, or decided with a lost reply, or not served, and the
/// keeper may stop within a request or between two, any number of times. Whatever of this happens:
///
/// - `survives`: the content is that of the start followed by requests that were sent, in order. They
///   include all requests that were decided, and possibly some that were unserved or stopped. The same
///   holds for each content that a crash may leave. A reply that reached its sender stays the answer.
/// - `acknowledged`: these requests include each whose reply reached its sender, and only requests that
///   were sent.
/// - `settles`: once every sent request is delivered again, in any order and any number of times, each
///   number that the start didn't keep has taken effect exactly once. Every reply is the answer: that of
///   the first request with its number, or `NumberReused` for another act.
/// - `leads_on`: such events do happen, so no clause holds for want of a case.
pub const fn stops_and_retries_law()
    ensures survives { SurvivesStops }
    ensures acknowledged { HoldsAcknowledged }
    ensures settles { SettlesByRetries }
    ensures leads_on { LeadsOn }
{}

/// Interleaved tellers. Several tellers redeem bonds; no serial number and no request number is in two
/// of their lists, and repeats are allowed. If the open day has room for all tickets, then in any two
/// orders that keep each teller's own order:
///
/// - each request gets the same reply, except for the numbers of new tickets;
/// - the same lines are paid, with the same serial numbers and cents, possibly in another order;
/// - the same `CloseDay` after them gets the same reply, so the same batch.
pub const fn tellers_interleaved_law()
    ensures { Interleaved }
{}

/// What the answers of a run inherit from both laws.
///
/// - `told`: its replies are those given to the served requests in order, so tellers served by a run may
///   be interleaved.
/// - `events`: a run is a list of events, each request delivered or unserved, and leads to the content
///   after the served requests. So stops and retries may come before and after it.
pub const fn runs_as_events_law()
    ensures told { TellsServed }
    ensures events { RunsAsEvents }
{}
