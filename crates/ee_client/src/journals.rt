//! What a desk's journal holds.

ghost use Rattle.std.specs.Prelude.{◌≡◌, ◌+◌, ◌-◌, ◌^◌, ◌<◌};
ghost use Rattle.ee_client.specs.Turns.{with_sending, with_higher, without, follower_after};

use crate::events::Outcome;

/// The request that has no reply yet.
#[derive(Clone, Copy)]
pub struct Open {
    /// The number under which it is sent.
    pub number: u64,
    /// How far it moves on if another request has that number.
    pub step: u64,
    /// How often it was sent under that number.
    pub sent: u64,
    /// The name of the teller's act, which the client chose.
    pub act: u64,
    /// The act that follows it once it is done.
    pub follower: Option<u64>,
}

/// A journal. A write of it is one: a client that is killed finds what was there before, or what was written.
#[derive(Clone, Copy)]
pub struct Journal {
    /// The least number that no request has had.
    pub next: u64,
    /// The open request.
    pub request: Option<Open>,
}

impl Journal {
    /// It, before the request is sent once more.
    pub(crate) fn with_sending(self, request: Open) -> Journal
        ensures { result ≡ with_sending self request }
    {
        Journal {
            request: Some(Open {
                sent: request.sent.saturating_add(1),
                ..request
            }),
            ..self
        }
    }

    /// It, without its request.
    pub(crate) fn without(self) -> Journal
        ensures { result ≡ without self }
    {
        Journal {
            request: None,
            ..self
        }
    }
}

impl Open {
    /// The act that follows once this request ended so.
    pub(crate) fn follower_after(self, outcome: Outcome) -> Option<u64>
        ensures { result ≡ follower_after outcome self }
    {
        match outcome {
            Outcome::Done => self.follower,
            Outcome::Refused | Outcome::NotDone | Outcome::GivenUp => None,
        }
    }

    /// A journal with the request under a higher number.
    pub(crate) fn with_number(self, number: u64) -> Journal
        requires sum { number ≡ self.number + self.step }
        requires fits { number < 2 ^ 64 - 1 }
        ensures { result ≡ with_higher self }
    {
        Journal {
            next: number + 1,
            request: Some(Open {
                number,
                step: self.step.saturating_mul(2),
                sent: 0,
                ..self
            }),
        }
    }
}
