//! Lists of requests, delivered one after another.

ghost use Rattle.std.specs.Prelude.{◌≡◌, ◌+◌, ℕ, [], length, IfOk, OnOk, OnErr};
ghost use Rattle.std.specs.List.{AllByRecursion};
ghost use Rattle.ee_desk_model.specs.Repeats.{Content};
ghost use Rattle.ee_desk_model.specs.Paid.{paid_lines, NoneTwice, ArePaidRight};
ghost use Rattle.ee_desk_model.specs.Sound.{IsSound};
ghost use Rattle.ee_desk_model.specs.Conserved.{IsConserved};
ghost use Rattle.ee_desk_model.specs.Contents.{content_after, books_after};
ghost use Rattle.ee_desk_model.specs.Answers.{served, AreAnswers};
ghost use Rattle.ee_desk_laws.specs.Attempts.{LeadOn};
ghost use Rattle.ee_keeper.specs.Keeping.{Continues, FailsOnlyIf, FailedIn};
ghost use Rattle.ee_counter.specs.Served.{FitInTurn, attempts_at};

use crate::soundness::known;
use ee_desk_model::{Reply, Request, Unserved};
use ee_keeper::Keeper;
use std::alloc::{AllocError, Global};

/// Delivers requests in order, and returns one answer for each. A list of requests may repeat numbers, as
/// after a lost reply: each number acts at most once. Memory for the answers is taken first, so if the whole
/// result is want of memory, nothing was delivered.
///
/// Each claim is about any content `c` that the keeper had at the start, and holds if its store is clean at
/// the end.
pub fn run<K: Keeper>(
    alloc: Global,
    keeper: &mut K,
    requests: &[Request],
) -> Result<Vec<Result<Reply, Unserved>>, AllocError>
    ensures count { IfOk result (λ answers. length answers.items ≡ length requests.now) }
    // Each served request gets the one answer to it after the requests that were served before.
    ensures answers { K.is_clean keeper.new → (c : Content) → K.has keeper.old c
        → IfOk result (λ answers. AreAnswers c [] requests.now answers.items) }
    // The books and the kept replies are those of the served requests, each number once.
    ensures content { K.is_clean keeper.new → (c : Content) → K.has keeper.old c
        → IfOk result (λ answers. K.has keeper.new (content_after c (served requests.now answers.items))) }
    // In those books no serial number is on two lines, across all tickets.
    ensures once { K.is_clean keeper.new → (c : Content) → K.has keeper.old c
        → IfOk result (λ answers. NoneTwice (paid_lines (books_after c (served requests.now answers.items)).tickets)) }
    // Each line pays the value of its bond in the month of its ticket's day.
    ensures right { K.is_clean keeper.new → (c : Content) → K.has keeper.old c
        → IfOk result (λ answers. ArePaidRight (books_after c (served requests.now answers.items))) }
    ensures sound { K.is_clean keeper.new → (c : Content) → K.has keeper.old c
        → IfOk result (λ answers. IsSound (books_after c (served requests.now answers.items))) }
    // The batches and the open day's tickets together add up to what was paid.
    ensures conserved { K.is_clean keeper.new → (c : Content) → K.has keeper.old c
        → IfOk result (λ answers. IsConserved (books_after c (served requests.now answers.items))) }
    // If the store can't fail, no answer says that it failed.
    ensures failed { IfOk result (λ answers. AllByRecursion (FailsOnlyIf K.may_fail) answers.items) }
    // If the keeper takes all these requests, and their texts fit, an answer says that the store failed only if a device
    // failed during the run, or the store was shut before.
    ensures cause { K.is_clean keeper.new → (c : Content) → K.has keeper.old c → K.takes (length requests.now) keeper.old
        → IfOk result (λ answers. FitInTurn K.fits c [] requests.now answers.items
        → AllByRecursion (FailsOnlyIf (FailedIn K.is_open K.faults keeper.old keeper.new)) answers.items) }
    // No failure is forgotten, only a failure shuts the store, and a store that is clean at the end was so at the start.
    ensures continues { Continues K.is_clean K.is_guarded K.is_open K.faults keeper.old keeper.new }
    // Each request leaves the keeper one less to take.
    ensures ready { K.is_clean keeper.new → (c : Content) → K.has keeper.old c
        → OnOk result ((n : ℕ) → K.takes (n + length requests.now) keeper.old → K.takes n keeper.new) }
    // Each request is an event in the history of the store, whether its reply arrives or is lost, or it isn't served.
    ensures goes { K.is_clean keeper.new → IfOk result (λ answers. LeadOn (K.went keeper.old) (attempts_at requests.now answers.items) (K.went keeper.new)) }
    ensures err { OnErr result (keeper.new ≡ keeper.old) }
{
    let mut answers = Vec::with_capacity(alloc, requests.len())?;
    for request in requests {
        let answer = keeper.deliver(request);
        answers.push_reserved(answer);
    }
    known(keeper);
    Ok(answers)
}
