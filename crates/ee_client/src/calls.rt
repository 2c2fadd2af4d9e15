//! The machine for programs in other languages: `include/ee_client.h` declares the call. It allocates nothing, keeps
//! nothing and never fails: whoever calls it keeps the events.

ghost use Rattle.std.specs.Prelude.{◌≡◌};
ghost use Rattle.std.specs.List.{fold};
ghost use Rattle.ee_client.specs.Turns.{turn};
ghost use Rattle.ee_client.specs.Calls.{
  given,
  outcome_number,
  answer_with,
  event_in,
  journal_in,
  journal_out,
  turn_out,
  started,
};

use crate::events::{Action, Answer, Event, Outcome};
use crate::journals::{Journal, Open};
use crate::machines::{Machine, Phase, Turn};

/// A journal in plain numbers. An act's name isn't 0.
#[repr(C)]
#[derive(Clone, Copy)]
pub struct ClientJournal {
    pub next: u64,
    /// The number of the open request; all that follows is 0 if none is open.
    pub number: u64,
    pub step: u64,
    pub sent: u64,
    /// The name of its act; 0 if no request is open.
    pub act: u64,
    /// The name of the act that follows it; 0 if none does.
    pub follower: u64,
}

/// An event in plain numbers; the fields that its kind doesn't name aren't read.
#[repr(C)]
#[derive(Clone, Copy)]
pub struct ClientEvent {
    /// 1 submit (`act`, `follower`), 2 go on, 3 written, 4 unwritten, 5 answered (`number`, `detail`), 6 give up, and
    /// any other killed (`detail`).
    pub kind: u64,
    pub number: u64,
    pub act: u64,
    pub follower: u64,
    /// Of an answer: 1 done, 2 refused, 3 reused, 4 fault, and any other nothing. Of a kill: 0 if a write that it cut
    /// isn't in the journal.
    pub detail: u64,
}

/// A turn in plain numbers.
#[repr(C)]
#[derive(Clone, Copy)]
pub struct ClientTurn {
    /// 0 wait, 1 write (`written`), 2 send (`number`, `act`), 3 show (`number`, `act`, `outcome`), 4 refuse.
    pub action: u64,
    pub number: u64,
    pub act: u64,
    /// 1 done, 2 refused, 3 not done, 4 given up.
    pub outcome: u64,
    /// What the journal holds.
    pub journal: ClientJournal,
    /// What is written; the same if nothing is.
    pub written: ClientJournal,
}

/// Writes the last turn of a client that starts with a journal, after these events in order. `most` is the greatest
/// number that its journal can hold.
#[unsafe(no_mangle)]
pub extern "C" fn ee_client_turn(
    most: u64,
    journal: &ClientJournal,
    events: &[ClientEvent],
    last: &mut ClientTurn,
)
    ensures { last.new
        ≡ turn_out (fold (λ t event. turn t.machine (event_in event)) (started most (journal_in journal.now)) events.now) }
{
    let start = Turn {
        machine: Machine::new(most, journal_in(*journal)),
        action: Action::Wait,
    };
    *last = turn_out(
        events
            .iter()
            .fold(start, |turn, event| turn.machine.turn(event_in(*event))),
    );
}

/// The act with this name.
fn given(name: u64) -> Option<u64>
    ensures { result ≡ given name }
{
    if name == 0 { None } else { Some(name) }
}

fn journal_in(journal: ClientJournal) -> Journal
    ensures { result ≡ journal_in journal }
{
    let request = Open {
        number: journal.number,
        step: journal.step,
        sent: journal.sent,
        act: journal.act,
        follower: given(journal.follower),
    };
    Journal {
        next: journal.next,
        request: if journal.act == 0 {
            None
        } else {
            Some(request)
        },
    }
}

fn journal_out(journal: Journal) -> ClientJournal
    ensures { result ≡ journal_out journal }
{
    match journal.request {
        None => ClientJournal {
            next: journal.next,
            number: 0,
            step: 0,
            sent: 0,
            act: 0,
            follower: 0,
        },
        Some(request) => ClientJournal {
            next: journal.next,
            number: request.number,
            step: request.step,
            sent: request.sent,
            act: request.act,
            follower: request.follower.unwrap_or(0),
        },
    }
}

fn answer_with(detail: u64) -> Answer
    ensures { result ≡ answer_with detail }
{
    match detail {
        1 => Answer::Done,
        2 => Answer::Refused,
        3 => Answer::Reused,
        4 => Answer::Fault,
        _ => Answer::Nothing,
    }
}

fn event_in(event: ClientEvent) -> Event
    ensures { result ≡ event_in event }
{
    match event.kind {
        1 => Event::Submit {
            act: event.act,
            follower: given(event.follower),
        },
        2 => Event::GoOn,
        3 => Event::Written,
        4 => Event::Unwritten,
        5 => Event::Answered {
            number: event.number,
            answer: answer_with(event.detail),
        },
        6 => Event::GiveUp,
        _ => Event::Killed {
            kept: event.detail != 0,
        },
    }
}

const fn outcome_number(outcome: Outcome) -> u64
    ensures { result ≡ outcome_number outcome }
{
    match outcome {
        Outcome::Done => 1,
        Outcome::Refused => 2,
        Outcome::NotDone => 3,
        Outcome::GivenUp => 4,
    }
}

fn turn_out(turn: Turn) -> ClientTurn
    ensures { result ≡ turn_out turn }
{
    let journal = journal_out(turn.machine.journal);
    let (action, number, act, outcome) = match turn.action {
        Action::Wait => (0, 0, 0, 0),
        Action::Write { .. } => (1, 0, 0, 0),
        Action::Send { number, act } => (2, number, act, 0),
        Action::Show {
            number,
            act,
            outcome,
        } => (3, number, act, outcome_number(outcome)),
        Action::Refuse => (4, 0, 0, 0),
    };
    let written = match turn.machine.phase {
        Phase::Writing(written, _) => journal_out(written),
        Phase::Rest | Phase::Sent | Phase::Told(_) => journal,
    };
    ClientTurn {
        action,
        number,
        act,
        outcome,
        journal,
        written,
    }
}
