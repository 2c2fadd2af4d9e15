//! Faults: why a message asks for nothing.

ghost use Rattle.std.specs.Prelude.{◌≡◌};
ghost use Rattle.ee_wire_calls.specs.Faults.{code_of, name_of, field_name};

use ee_wire_framing::FramingFault;
use std::alloc::AllocFailed;
use thiserror::Error;

/// A field of a body, or a part of a path, that is missing, of the wrong kind or out of range.
#[derive(Clone, Copy, Debug, PartialEq, Eq)]
pub enum Field {
    /// The body isn't an object.
    Body,
    Desk,
    Number,
    /// The list, or a row of it that isn't an object.
    Rates,
    From,
    Rate,
    Extension,
    /// The list, or a row of it that isn't an object.
    Bonds,
    Serial,
    Denom,
    Issued,
    Owner,
    Coowner,
    Day,
    Payee,
    /// The list, or a serial number in it.
    Serials,
    /// A field that the object can't have.
    Other,
    Customer,
    Month,
    Ticket,
}

impl Field {
    /// The field's name.
    pub fn name(self) -> &'static str
        ensures { result.now ≡ field_name self }
    {
        match self {
            Field::Body => "body",
            Field::Desk => "desk",
            Field::Number => "number",
            Field::Rates => "rates",
            Field::From => "from",
            Field::Rate => "rate",
            Field::Extension => "extension",
            Field::Bonds => "bonds",
            Field::Serial => "serial",
            Field::Denom => "denom",
            Field::Issued => "issued",
            Field::Owner => "owner",
            Field::Coowner => "coowner",
            Field::Day => "day",
            Field::Payee => "payee",
            Field::Serials => "serials",
            Field::Other => "other",
            Field::Customer => "customer",
            Field::Month => "month",
            Field::Ticket => "ticket",
        }
    }
}

/// Why a message asks for nothing. Framing is checked before the route, the route before the method, and
/// the method before the body.
#[derive(Clone, Copy, Debug, PartialEq, Eq, Error)]
pub enum WireFault {
    /// The bytes are no message, so the connection ends.
    #[error("no message: {0}")]
    Framing(FramingFault),
    /// The body isn't JSON.
    #[error("the body is not JSON")]
    BadJson,
    /// The first field at fault.
    #[error("a field is missing, of the wrong kind or out of range")]
    BadField(Field),
    /// The target has no route.
    #[error("the target has no route")]
    NoRoute,
    /// The target's route has another method.
    #[error("the route has another method")]
    BadMethod,
    /// Memory was refused.
    #[error("out of memory")]
    NoMemory,
}

impl WireFault {
    /// The fault's code: 60 to 68, or 1 if memory was refused.
    pub fn code(self) -> u8
        ensures { result ≡ code_of self }
    {
        match self {
            WireFault::NoMemory => 1,
            WireFault::Framing(FramingFault::BadHead) => 60,
            WireFault::Framing(FramingFault::HeadTooLong) => 61,
            WireFault::Framing(FramingFault::BodyTooLong) => 62,
            WireFault::Framing(FramingFault::BadLength) => 63,
            WireFault::BadJson => 64,
            WireFault::BadField(_) => 65,
            WireFault::NoRoute => 66,
            WireFault::BadMethod => 67,
            WireFault::Framing(FramingFault::Truncated) => 68,
        }
    }

    /// The fault's name.
    pub fn name(self) -> &'static str
        ensures { result.now ≡ name_of self }
    {
        match self {
            WireFault::NoMemory => "NoMemory",
            WireFault::Framing(FramingFault::BadHead) => "BadHead",
            WireFault::Framing(FramingFault::HeadTooLong) => "HeadTooLong",
            WireFault::Framing(FramingFault::BodyTooLong) => "BodyTooLong",
            WireFault::Framing(FramingFault::BadLength) => "BadLength",
            WireFault::BadJson => "BadJson",
            WireFault::BadField(_) => "BadField",
            WireFault::NoRoute => "NoRoute",
            WireFault::BadMethod => "BadMethod",
            WireFault::Framing(FramingFault::Truncated) => "Truncated",
        }
    }
}

/// Why a body is no request.
#[derive(Clone, Copy)]
pub enum BodyFault {
    Field(Field),
    NoMemory,
}

impl From<Field> for BodyFault {
    ghost use Rattle.std.specs.Prelude.{◌≡◌};
    ghost use Rattle.ee_wire_calls.specs.declared.faults.BodyFault.TheVariants as fault;

    ghost from_gives = { λ f e. e ≡ fault.Field f };

    fn from(field: Field) -> BodyFault {
        BodyFault::Field(field)
    }
}

impl<T: Drop> From<AllocFailed<T>> for BodyFault {
    ghost use Rattle.std.specs.Prelude.{◌≡◌};
    ghost use Rattle.ee_wire_calls.specs.declared.faults.BodyFault.TheVariants as fault;

    ghost from_gives = { λ _ e. e ≡ fault.NoMemory };

    fn from(_error: AllocFailed<T>) -> BodyFault {
        BodyFault::NoMemory
    }
}

impl From<BodyFault> for WireFault {
    ghost use Rattle.ee_wire_calls.specs.Calls.{IsOfBody};

    ghost from_gives = { λ b e. IsOfBody b e };

    fn from(fault: BodyFault) -> WireFault {
        match fault {
            BodyFault::Field(field) => WireFault::BadField(field),
            BodyFault::NoMemory => WireFault::NoMemory,
        }
    }
}
