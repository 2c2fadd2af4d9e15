//! Answers, with their status and the kind of their body.

ghost use Rattle.std.specs.Prelude.{◌≡◌};
ghost use Rattle.ee_wire.specs.Answers.{status_of, status_of_fault, kind_of, ends_connection};

use ee_calculator::{Row, Sheet};
use ee_desk_model::{Batch, Reply, Ticket, Unserved};
use ee_desk_texts::GivenReply;
use ee_wire_calls::WireFault;
use ee_wire_framing::FramingFault;
use thiserror::Error;

/// The answer to a message.
#[derive(Drop)]
pub enum Answer {
    /// The reply to a request, itself or by its text.
    Reply(GivenReply),
    /// The sheet of an owner's bonds.
    Sheet(Sheet),
    /// The row of a bond, or `None` if its issue period has no rates.
    Row(Option<Row>),
    /// The ticket, or `None` if there is none with that number.
    Ticket(Option<Ticket>),
    /// The batch, or `None` if that day has none.
    Batch(Option<Batch>),
    /// Why the message asks for nothing.
    Fault(WireFault),
    /// Why a request or a query got no answer.
    Unserved(Unserved),
}

/// Why a response wasn't written whole.
#[derive(Clone, Copy, Debug, PartialEq, Eq, Error)]
pub enum WriteEnd {
    /// The writer failed. It has taken the front of the response, and not all of it.
    #[error("the writer failed")]
    WriteFailed,
    /// Memory was refused, before the first byte was written.
    #[error("out of memory")]
    NoMemory,
}

/// The status of an answer.
#[derive(Clone, Copy)]
pub enum Status {
    Ok,
    BadRequest,
    NotFound,
    MethodNotAllowed,
    Conflict,
    ContentTooLarge,
    ServiceUnavailable,
}

/// The kind of a response's body.
#[derive(Clone, Copy)]
pub enum Kind {
    Json,
    Text,
}

fn status_of_fault(fault: WireFault) -> Status
    ensures { result ≡ status_of_fault fault }
{
    match fault {
        WireFault::Framing(FramingFault::HeadTooLong | FramingFault::BodyTooLong) => {
            Status::ContentTooLarge
        }
        WireFault::Framing(
            FramingFault::BadHead | FramingFault::BadLength | FramingFault::Truncated,
        )
        | WireFault::BadJson
        | WireFault::BadField(_) => Status::BadRequest,
        WireFault::NoRoute => Status::NotFound,
        WireFault::BadMethod => Status::MethodNotAllowed,
        WireFault::NoMemory => Status::ServiceUnavailable,
    }
}

impl Answer {
    /// The status of the response.
    pub fn status(&self) -> Status
        ensures { result ≡ status_of self.now }
    {
        match self {
            Answer::Reply(GivenReply::Reply(Reply::Refused(_))) | Answer::Row(None) => {
                Status::Conflict
            }
            Answer::Ticket(None) | Answer::Batch(None) => Status::NotFound,
            Answer::Reply(_)
            | Answer::Sheet(_)
            | Answer::Row(Some(_))
            | Answer::Ticket(Some(_))
            | Answer::Batch(Some(_)) => Status::Ok,
            Answer::Fault(fault) => status_of_fault(*fault),
            Answer::Unserved(_) => Status::ServiceUnavailable,
        }
    }

    /// The kind of the response's body.
    pub fn kind(&self) -> Kind
        ensures { result ≡ kind_of self.now }
    {
        match self {
            Answer::Sheet(_) => Kind::Text,
            _ => Kind::Json,
        }
    }

    /// Whether the connection ends with this answer in any case: a framing fault.
    pub fn ends_connection(&self) -> bool
        ensures { result ≡ ends_connection self.now }
    {
        match self {
            Answer::Fault(WireFault::Framing(_)) => true,
            _ => false,
        }
    }
}
