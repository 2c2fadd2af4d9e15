//! The machine: what happens to it, and what it does.

ghost use Rattle.std.specs.Prelude.{◌≡◌, None};
ghost use Rattle.ee_client.specs.Turns.{
  with_new,
  with_higher,
  rests,
  shows,
  writes,
  writes_new,
  submitted,
  settles,
  gone_on,
  shows_dropped,
  after_write,
  written,
  unwritten,
  answered_to,
  answered,
  given_up,
  killed,
  turn,
};

use crate::events::{Action, Answer, Event, Outcome};
use crate::journals::{Journal, Open};

/// What is under way.
#[derive(Clone, Copy)]
pub enum Phase {
    /// Nothing. If a request is open, it waits to be sent again.
    Rest,
    /// The journal is being written; if the open request ends by that, with its outcome.
    Writing(Journal, Option<Outcome>),
    /// The open request was sent, and has no answer yet.
    Sent,
    /// The open request has this outcome, and is still in the journal.
    Told(Outcome),
}

/// A client: what its journal holds, and what it remembers.
#[derive(Clone, Copy)]
pub struct Machine {
    /// The greatest number that a journal can hold as its next.
    pub most: u64,
    pub journal: Journal,
    pub phase: Phase,
}

/// A machine after an event, and what it then does.
#[derive(Clone, Copy)]
pub struct Turn {
    pub machine: Machine,
    pub action: Action,
}

impl Machine {
    /// A client that starts with this journal.
    pub const fn new(most: u64, journal: Journal) -> Machine
        ensures { result ≡ record { most = most; journal = journal; phase = Phase.Rest } }
    {
        Machine {
            most,
            journal,
            phase: Phase::Rest,
        }
    }

    /// What an event makes of it, and what it then does.
    pub fn turn(self, event: Event) -> Turn
        ensures { result ≡ turn self event }
    {
        match event {
            Event::Submit { act, follower } => self.submitted(act, follower),
            Event::GoOn => self.gone_on(),
            Event::Written => self.written(),
            Event::Unwritten => self.unwritten(),
            Event::Answered { number, answer } => self.answered(number, answer),
            Event::GiveUp => self.given_up(),
            Event::Killed { kept } => self.killed(kept),
        }
    }

    fn submitted(self, act: u64, follower: Option<u64>) -> Turn
        ensures { result ≡ submitted self act follower self.phase self.journal.request }
    {
        match (self.phase, self.journal.request) {
            (Phase::Rest, None) => self.writes_new(Phase::Rest, act, follower, None),
            (phase, _) => self.rests(phase, Action::Refuse),
        }
    }

    fn gone_on(self) -> Turn
        ensures { result ≡ gone_on self self.phase self.journal.request }
    {
        match (self.phase, self.journal.request) {
            (Phase::Rest, Some(request)) => self.writes(self.journal.with_sending(request), None),
            (Phase::Told(outcome), Some(request)) => self.settles(
                outcome,
                request.follower_after(outcome),
            ),
            (phase, _) => self.rests(phase, Action::Wait),
        }
    }

    fn settles(self, outcome: Outcome, follower: Option<u64>) -> Turn
        ensures { result ≡ settles self outcome follower }
    {
        match follower {
            None => self.writes(self.journal.without(), Some(outcome)),
            Some(act) => self.writes_new(Phase::Told(outcome), act, None, Some(outcome)),
        }
    }

    fn written(self) -> Turn
        ensures { result ≡ written self self.phase }
    {
        match self.phase {
            Phase::Writing(journal, told) => Machine { journal, ..self }.after_write(
                self.journal.request,
                told,
            ),
            phase => self.rests(phase, Action::Wait),
        }
    }

    /// `before` is the request that was open before the write.
    fn after_write(self, before: Option<Open>, told: Option<Outcome>) -> Turn
        ensures { result ≡ after_write self before self.journal.request told }
    {
        match self.journal.request {
            None => self.shows_dropped(before, told),
            Some(request) if request.sent == 0 => self.writes(
                self.journal.with_sending(request),
                None,
            ),
            Some(request) => self.rests(
                Phase::Sent,
                Action::Send {
                    number: request.number,
                    act: request.act,
                },
            ),
        }
    }

    fn shows_dropped(self, before: Option<Open>, told: Option<Outcome>) -> Turn
        ensures { result ≡ shows_dropped self before told }
    {
        match (before, told) {
            (Some(request), Some(outcome @ (Outcome::NotDone | Outcome::GivenUp))) => self.shows(
                Phase::Rest,
                request,
                outcome,
            ),
            _ => self.rests(Phase::Rest, Action::Wait),
        }
    }

    fn unwritten(self) -> Turn
        ensures { result ≡ unwritten self self.phase }
    {
        match self.phase {
            Phase::Writing(_, None) => self.rests(Phase::Rest, Action::Wait),
            Phase::Writing(_, Some(outcome)) => self.rests(Phase::Told(outcome), Action::Wait),
            phase => self.rests(phase, Action::Wait),
        }
    }

    fn answered(self, number: u64, answer: Answer) -> Turn
        ensures { result ≡ answered self number answer self.phase self.journal.request }
    {
        match (self.phase, self.journal.request) {
            (Phase::Sent, Some(request)) if number == request.number => self.answered_to(
                request, answer,
            ),
            (phase, _) => self.rests(phase, Action::Wait),
        }
    }

    fn answered_to(self, request: Open, answer: Answer) -> Turn
        ensures { result ≡ answered_to self request answer }
    {
        match answer {
            Answer::Done => self.shows(Phase::Told(Outcome::Done), request, Outcome::Done),
            Answer::Refused => self.shows(Phase::Told(Outcome::Refused), request, Outcome::Refused),
            Answer::Reused => self.moves_on(request),
            Answer::Fault if request.sent == 1 => self.writes(
                self.journal.without(),
                Some(Outcome::NotDone),
            ),
            Answer::Fault | Answer::Nothing => self.rests(Phase::Rest, Action::Wait),
        }
    }

    fn moves_on(self, request: Open) -> Turn
        ensures { result ≡ writes_new self Phase.Rest (with_higher request) None }
    {
        match request.number.checked_add(request.step) {
            Some(number) if number < self.most => self.writes(request.with_number(number), None),
            _ => self.rests(Phase::Rest, Action::Refuse),
        }
    }

    fn given_up(self) -> Turn
        ensures { result ≡ given_up self self.phase self.journal.request }
    {
        match (self.phase, self.journal.request) {
            (Phase::Rest, Some(request)) => {
                let outcome = if request.sent == 0 {
                    Outcome::NotDone
                } else {
                    Outcome::GivenUp
                };
                self.writes(self.journal.without(), Some(outcome))
            }
            (phase, _) => self.rests(phase, Action::Refuse),
        }
    }

    fn killed(self, kept: bool) -> Turn
        ensures { result ≡ killed self kept self.phase }
    {
        match self.phase {
            Phase::Writing(journal, _) if kept => Machine { journal, ..self }.rests(
                Phase::Rest,
                Action::Wait,
            ),
            _ => self.rests(Phase::Rest, Action::Wait),
        }
    }

    fn rests(self, phase: Phase, action: Action) -> Turn
        ensures { result ≡ rests self phase action }
    {
        Turn {
            machine: Machine { phase, ..self },
            action,
        }
    }

    fn shows(self, phase: Phase, request: Open, outcome: Outcome) -> Turn
        ensures { result ≡ shows self phase request outcome }
    {
        self.rests(
            phase,
            Action::Show {
                number: request.number,
                act: request.act,
                outcome,
            },
        )
    }

    fn writes(self, journal: Journal, told: Option<Outcome>) -> Turn
        ensures { result ≡ writes self journal told }
    {
        self.rests(Phase::Writing(journal, told), Action::Write { journal })
    }

    fn writes_new(
        self,
        phase: Phase,
        act: u64,
        follower: Option<u64>,
        told: Option<Outcome>,
    ) -> Turn
        ensures { result ≡ writes_new self phase (with_new self.journal act follower) told }
    {
        if self.journal.next < self.most {
            self.writes(
                Journal {
                    next: self.journal.next + 1,
                    request: Some(Open {
                        number: self.journal.next,
                        step: 1,
                        sent: 0,
                        act,
                        follower,
                    }),
                },
                told,
            )
        } else {
            self.rests(phase, Action::Refuse)
        }
    }
}
