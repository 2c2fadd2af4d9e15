//! The law from a teller's act to the books and back. A body here does nothing; the clauses state the law.

ghost use Rattle.ee_client.specs.EndToEnd.{EndToEnd, RefusalsChangeNothing, Settles};

use ee_desk_laws::stops_and_retries_law;
use ee_desk_model::acts_keep_sound_law;

/// From a teller's act to the books and back. Any number of desks have a client each, whose journal begins at some
/// number. Requests and replies are lost, late and repeated, and clients and the counter stop at any moment. Whatever
/// of this has happened (`GoOnward`), `holds`:
///
/// - `requests`, `content`: the books are those of requests that desks sent, each number once.
/// - `at_most_once`: an act is decided at most once, under whichever numbers it was sent.
/// - `shown`: a reply that was shown is the one that the books keep for that act. If they didn't keep its number when
///   the journals began, the act was decided exactly once. What was shown as not done was never decided, and since
///   this holds after all that may still happen, it never will be.
/// - `reused`: `NumberReused` comes for numbers alone that the books kept before the journals began: of a journal that
///   was lost, or taken back from a copy.
/// - `bonds`: if the books were sound, no serial number is on two tickets.
///
/// An act that is refused changes nothing (`refused`). And `settles`: if the books keep no number from the journal's first on, a request that is open can be settled by
/// sending it again.
pub const fn end_to_end_law()
    ensures holds { EndToEnd }
    ensures refused { RefusalsChangeNothing }
    ensures settles { Settles }
{
    stops_and_retries_law();
    acts_keep_sound_law();
}
