//! Refusals of acts, and reasons why a request is unserved.

ghost use Rattle.std.specs.Prelude.{◌≡◌};
ghost use Rattle.ee_desk_model.specs.Codes.{code_of, name_of, number_of_unserved};

use ee_units::{Age, IssueMonth, Serial};
use std::alloc::AllocError;
use thiserror::Error;

/// Why an act is refused. If several apply, the reply is the first in order of the codes; those from 50
/// on are tested serial number by serial number. A refusal changes nothing.
#[derive(Clone, Copy, Debug, PartialEq, Eq)]
pub enum Refusal {
    /// The number has a kept reply to another act. This answer isn't kept.
    NumberReused,
    /// There are no rows, or no serial numbers.
    Empty,
    /// There are more than 500 rows, or more than 100 serial numbers.
    TooMany,
    /// The serial number occurs earlier in the request.
    Repeated(Serial),
    /// The coowner is the owner.
    SameCoowner(Serial),
    /// Rates are announced only in May and November.
    NotAnnouncementMonth(IssueMonth),
    /// The month has other rates, in the books or in an earlier row.
    RateConflict(IssueMonth),
    /// A value at these rates can't be settled to the cent; this is the least such age.
    RateUnsettled(Age),
    /// There are no rates for the issue period.
    NoRate(Serial),
    /// The serial number is registered with other content.
    SerialConflict(Serial),
    /// A day is open.
    DayOpen,
    /// The day is not after the last closed day.
    DayNotLater,
    /// No day is open.
    NoOpenDay,
    /// Another day is open.
    DayIsOther,
    /// The day has 1,000 tickets.
    DayFull,
    /// The serial number isn't registered.
    UnknownSerial(Serial),
    /// The payee is neither the owner nor the coowner.
    NotPayee(Serial),
    /// The bond was paid on this ticket.
    AlreadyPaid(Serial, u64),
    /// The day's month is before the issue month.
    NotIssued(Serial),
    /// The bond is younger than 12 months (31 CFR Part 351).
    NotEligible(Serial),
}

impl Refusal {
    /// The refusal's code, 10 to 54.
    pub fn code(&self) -> u8
        ensures { result ≡ code_of self.now }
    {
        match self {
            Refusal::NumberReused => 10,
            Refusal::Empty => 11,
            Refusal::TooMany => 12,
            Refusal::Repeated(_) => 13,
            Refusal::SameCoowner(_) => 14,
            Refusal::NotAnnouncementMonth(_) => 20,
            Refusal::RateConflict(_) => 21,
            Refusal::RateUnsettled(_) => 22,
            Refusal::NoRate(_) => 30,
            Refusal::SerialConflict(_) => 31,
            Refusal::DayOpen => 40,
            Refusal::DayNotLater => 41,
            Refusal::NoOpenDay => 42,
            Refusal::DayIsOther => 43,
            Refusal::DayFull => 44,
            Refusal::UnknownSerial(_) => 50,
            Refusal::NotPayee(_) => 51,
            Refusal::AlreadyPaid(_, _) => 52,
            Refusal::NotIssued(_) => 53,
            Refusal::NotEligible(_) => 54,
        }
    }

    /// The refusal's name.
    pub fn name(&self) -> &'static str
        ensures { result.now ≡ name_of self.now }
    {
        match self {
            Refusal::NumberReused => "NumberReused",
            Refusal::Empty => "Empty",
            Refusal::TooMany => "TooMany",
            Refusal::Repeated(_) => "Repeated",
            Refusal::SameCoowner(_) => "SameCoowner",
            Refusal::NotAnnouncementMonth(_) => "NotAnnouncementMonth",
            Refusal::RateConflict(_) => "RateConflict",
            Refusal::RateUnsettled(_) => "RateUnsettled",
            Refusal::NoRate(_) => "NoRate",
            Refusal::SerialConflict(_) => "SerialConflict",
            Refusal::DayOpen => "DayOpen",
            Refusal::DayNotLater => "DayNotLater",
            Refusal::NoOpenDay => "NoOpenDay",
            Refusal::DayIsOther => "DayIsOther",
            Refusal::DayFull => "DayFull",
            Refusal::UnknownSerial(_) => "UnknownSerial",
            Refusal::NotPayee(_) => "NotPayee",
            Refusal::AlreadyPaid(_, _) => "AlreadyPaid",
            Refusal::NotIssued(_) => "NotIssued",
            Refusal::NotEligible(_) => "NotEligible",
        }
    }
}

/// Why a request got no reply. It changed nothing, and its number is as free as before.
#[derive(Clone, Copy, Debug, PartialEq, Eq, Error)]
pub enum Unserved {
    #[error("out of memory")]
    NoMemory = 1,
    #[error("the store failed")]
    StoreFailed = 2,
}

impl Unserved {
    /// The code, 1 or 2.
    pub const fn code(self) -> u8
        ensures { result ≡ number_of_unserved self }
    {
        self as u8
    }
}

impl From<AllocError> for Unserved {
    ghost use Rattle.std.specs.Prelude.{◌≡◌};
    ghost use Rattle.ee_desk_model.specs.declared.refusals.Unserved.TheVariants.{NoMemory};

    ghost from_gives = { λ _ e. e ≡ NoMemory };

    fn from(_: AllocError) -> Unserved {
        Unserved::NoMemory
    }
}
