//! Faults of the readers.

ghost use Rattle.std.specs.Prelude.{◌≡◌};

use thiserror::Error;

/// Why a text can't be read as a value. Each reader has one fault, named after it.
#[derive(Clone, Copy, Debug, PartialEq, Eq, Error)]
pub enum UnitFault {
    #[error("bad rate")]
    BadRate = 1,
    #[error("bad month")]
    BadMonth = 2,
    #[error("bad serial")]
    BadSerial = 3,
    #[error("bad day")]
    BadDay = 4,
    #[error("bad denomination")]
    BadDenom = 5,
    #[error("bad customer")]
    BadCustomer = 6,
}

impl UnitFault {
    ghost use Rattle.ee_units.specs.Faults.{code_of};

    /// The code of the fault, 1 to 6.
    pub const fn code(self) -> u8
        ensures { result ≡ code_of self }
    {
        self as u8
    }
}
