//! What happens to a client, and what it does.

use crate::journals::Journal;

/// What the counter, or the way to it, answers to one sending.
#[derive(Clone, Copy)]
pub enum Answer {
    /// A reply that is no refusal.
    Done,
    /// A refusal other than `NumberReused`.
    Refused,
    /// `NumberReused`: another request of this desk has the number.
    Reused,
    /// A fault of what was sent, or that this user may not do it. It answers that sending alone, which didn't
    /// reach the books and never will.
    Fault,
    /// No answer, or one that tells nothing of what was sent.
    Nothing,
}

/// What is shown of a request.
#[derive(Clone, Copy)]
pub enum Outcome {
    /// Its reply, which is no refusal.
    Done,
    /// Its refusal.
    Refused,
    /// It wasn't done, and never will be.
    NotDone,
    /// It was given up, and may have been done.
    GivenUp,
}

/// What happens to a client.
#[derive(Clone, Copy)]
pub enum Event {
    /// The teller submits an act, and perhaps one that follows it once it is done.
    Submit { act: u64, follower: Option<u64> },
    /// The client starts, a pause ends, or what was shown was read.
    GoOn,
    /// The journal is written.
    Written,
    /// The journal can't be written, and is what it was.
    Unwritten,
    /// An answer to a sending under this number.
    Answered { number: u64, answer: Answer },
    /// The teller gives the open request up.
    GiveUp,
    /// The client is killed, and starts again; `kept` if a write that it cut is in the journal.
    Killed { kept: bool },
}

/// What a client does.
#[derive(Clone, Copy)]
pub enum Action {
    /// Writes the journal.
    Write {
        journal: Journal,
    },
    /// Sends the request of an act under a number.
    Send {
        number: u64,
        act: u64,
    },
    /// Shows what became of an act.
    Show {
        number: u64,
        act: u64,
        outcome: Outcome,
    },
    /// Waits for the next event.
    Wait,
    /// Refuses: another request is open, none is, or there is no number left.
    Refuse,
}
