//! What a keeper over a store must satisfy for the law of stops and retries.

ghost use Rattle.ee_desk_laws.specs.Ties.{LeavesNew, LeavesKept, LeavesUnserved, LeavesAsBefore, LeavesReopened};

/// A store that a crash may interrupt.
pub trait StoreOfContents {
    ghost use Rattle.ee_desk_model.specs.Repeats.{Content};

    /// What may be found on the disk.
    ghost Disk: { Type 0 };

    /// The content that a disk represents.
    ghost stands: { Disk → Content → Type 0 };

    /// What a crash may leave of the store.
    ghost may_leave: { Self → Disk → Type 0 };
}

/// What a store must satisfy for the events: if its calls leave this on the disk, a crash leaves a content
/// that the events allow.
///
/// - `new`: a reply to a number that wasn't kept, if a crash leaves only the new content.
/// - `kept`: a reply to a kept number, if a crash leaves what it could leave before.
/// - `unserved`: no reply, if a crash leaves what it could leave before, or the content with that
///   request decided.
/// - `as_before`: a query, if a crash leaves what it could leave before.
/// - `reopened`: a crash, and a store opened on what it left, if that store leaves what represents the
///   same. This is a stop and a reopening, with the content that was found.
pub const fn ties_to_stores_law<S: StoreOfContents>()
    ensures new { LeavesNew S.stands S.may_leave }
    ensures kept { LeavesKept S.stands S.may_leave }
    ensures unserved { LeavesUnserved S.stands S.may_leave }
    ensures as_before { LeavesAsBefore S.stands S.may_leave }
    ensures reopened { LeavesReopened S.stands S.may_leave }
{}
