//! How a command ends.

ghost use Rattle.std.specs.Prelude.{◌≡◌};
ghost use Rattle.ee_cli_actions.specs.Endings.{fault_of_unserved};

use ee_cli_value::PrintFault;
use ee_desk_model::{Refusal, Unserved};
use ee_files::FileFault;
use ee_units::Age;
use std::alloc::AllocError;
use thiserror::Error;

/// How a command ended that was carried out.
#[derive(Clone, Copy, Debug, PartialEq, Eq)]
pub enum Outcome {
    /// The command was done.
    Done,
    /// The reply was this refusal.
    Refused(Refusal),
    /// The input had bytes that are no message, which was answered.
    NoMessage,
    /// The precision doesn't settle the value; this is the least age at which it doesn't.
    Unsettled(Age),
}

/// Why a store doesn't serve. The text of the fault is its name.
#[derive(Clone, Copy, Debug, PartialEq, Eq, Error)]
pub enum StoreFault {
    /// The store failed, or the file is no store.
    #[error("StoreFailed")]
    StoreFailed,
    /// The tables have another version.
    #[error("WrongVersion")]
    WrongVersion,
    /// The rows represent no books.
    #[error("Unusable")]
    Unusable,
    /// The log was not written back. What was decided is in the file and the log together.
    #[error("NotWrittenBack")]
    NotWrittenBack,
}

/// Why a command was not carried out.
#[derive(Clone, Copy, Debug, PartialEq, Eq, Error)]
pub enum RunFault {
    /// The file has a fault, or wasn't read. Nothing was delivered.
    #[error("file: {0}")]
    File(FileFault),
    /// The store didn't serve, and nothing has changed; or it was not written back.
    #[error("store: {0}")]
    Store(StoreFault),
    /// Reading or writing failed, or a file or a socket wasn't opened.
    #[error("{it}", it = PrintFault::Device)]
    Device,
    /// Memory was refused.
    #[error("{it}", it = PrintFault::NoMemory)]
    NoMemory,
}

impl RunFault {
    /// The fault of a request or a query that wasn't served.
    pub fn of_unserved(cause: Unserved) -> RunFault
        ensures { result ≡ fault_of_unserved cause }
    {
        match cause {
            Unserved::NoMemory => RunFault::NoMemory,
            Unserved::StoreFailed => RunFault::Store(StoreFault::StoreFailed),
        }
    }
}

impl From<ee_cli_value::Outcome> for Outcome {
    ghost use Rattle.std.specs.Prelude.{◌≡◌};
    ghost use Rattle.ee_cli_actions.specs.Endings.{outcome_of_value};

    ghost from_gives = { λ value outcome. outcome ≡ outcome_of_value value };

    fn from(value: ee_cli_value::Outcome) -> Outcome {
        match value {
            ee_cli_value::Outcome::Done => Outcome::Done,
            ee_cli_value::Outcome::Unsettled(age) => Outcome::Unsettled(age),
        }
    }
}

impl From<PrintFault> for RunFault {
    ghost use Rattle.std.specs.Prelude.{◌≡◌};
    ghost use Rattle.ee_cli_actions.specs.Endings.{fault_of_print};

    ghost from_gives = { λ cause fault. fault ≡ fault_of_print cause };

    fn from(cause: PrintFault) -> RunFault {
        match cause {
            PrintFault::Device => RunFault::Device,
            PrintFault::NoMemory => RunFault::NoMemory,
        }
    }
}

impl From<AllocError> for RunFault {
    ghost use Rattle.std.specs.Prelude.{◌≡◌};
    ghost use Rattle.ee_cli_actions.specs.declared.faults.RunFault.TheVariants.{NoMemory};

    ghost from_gives = { λ _ fault. fault ≡ NoMemory };

    fn from(_error: AllocError) -> RunFault {
        RunFault::NoMemory
    }
}
