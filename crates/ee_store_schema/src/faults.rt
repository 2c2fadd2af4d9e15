//! Why a store isn't opened.

use ee_store_tables::Failure;
use sqlite::{Error, ErrorCode};
use thiserror::Error as Fault;

/// Why a store isn't opened.
#[derive(Clone, Copy, Debug, PartialEq, Eq, Fault)]
pub enum OpenFault {
    /// Memory was refused.
    #[error("out of memory")]
    NoMemory,
    /// The store failed, or `sqlite` can't open it.
    #[error("the store failed, or SQLite can't open it")]
    StoreFailed,
    /// The tables have another version.
    #[error("the tables have another version")]
    WrongVersion,
    /// The tables aren't those of this program, or their rows represent no books.
    #[error("the tables or rows aren't those of this program")]
    Unusable,
}

impl From<Error> for OpenFault {
    ghost use Rattle.std.specs.Prelude.{◌≡◌};
    ghost use Rattle.ee_store_schema.specs.Faults.{fault_of};

    ghost from_gives = { λ error fault. fault ≡ fault_of error };

    fn from(error: Error) -> OpenFault {
        match error {
            Error::SqliteFailure(ErrorCode::OutOfMemory) => OpenFault::NoMemory,
            // The tables differ from what the statement expects.
            Error::SqlInputError(_) | Error::SqliteFailure(ErrorCode::NameTaken) => {
                OpenFault::Unusable
            }
            // A row has a value that no row of this program has.
            Error::InvalidColumnIndex(_)
            | Error::InvalidColumnType(_, _)
            | Error::IntegralValueOutOfRange(_)
            | Error::Utf8Error(_) => OpenFault::Unusable,
            _ => OpenFault::StoreFailed,
        }
    }
}

impl From<Failure> for OpenFault {
    ghost use Rattle.std.specs.Prelude.{◌≡◌};
    ghost use Rattle.ee_store_schema.specs.Faults.{fault_told};

    ghost from_gives = { λ failure fault. fault ≡ fault_told failure };

    fn from(failure: Failure) -> OpenFault {
        match failure {
            Failure::NoMemory => OpenFault::NoMemory,
            Failure::StoreFailed => OpenFault::StoreFailed,
        }
    }
}

// For tables that were checked before, every other fault is a failed store.
impl From<OpenFault> for Failure {
    ghost use Rattle.std.specs.Prelude.{◌≡◌};
    ghost use Rattle.ee_store_schema.specs.Faults.{failure_told};

    ghost from_gives = { λ fault failure. failure ≡ failure_told fault };

    fn from(fault: OpenFault) -> Failure {
        match fault {
            OpenFault::NoMemory => Failure::NoMemory,
            _ => Failure::StoreFailed,
        }
    }
}
