//! Why a statement failed.

use sqlite::{Error, ErrorCode};
use std::alloc::AllocError;

/// Why a statement, or a call that makes statements, was not done.
#[derive(Clone, Copy, Debug, PartialEq, Eq)]
pub enum Failure {
    /// Memory was refused.
    NoMemory,
    /// The store failed, or has a row that no counter has.
    StoreFailed,
}

impl From<Error> for Failure {
    ghost use Rattle.std.specs.Prelude.{◌≡◌};
    ghost use Rattle.ee_store_tables.specs.Failures.{failure_of};

    ghost from_gives = { λ error failure. failure ≡ failure_of error };

    fn from(error: Error) -> Failure {
        match error {
            Error::SqliteFailure(ErrorCode::OutOfMemory) => Failure::NoMemory,
            _ => Failure::StoreFailed,
        }
    }
}

impl From<AllocError> for Failure {
    ghost use Rattle.std.specs.Prelude.{◌≡◌};
    ghost use Rattle.ee_store_tables.specs.declared.failures.Failure.TheVariants.{NoMemory};

    ghost from_gives = { λ _ failure. failure ≡ NoMemory };

    fn from(_: AllocError) -> Failure {
        Failure::NoMemory
    }
}
