//! Why parts give no books.

use ee_value::ValueFault;
use std::alloc::{AllocError, AllocFailed};
use thiserror::Error;

/// Why parts give no books.
#[derive(Clone, Copy, Debug, PartialEq, Eq, Error)]
pub enum PartsFault {
    /// No sound books have these parts.
    #[error("the parts are not those of sound books")]
    Unsound,
    /// Memory was refused.
    #[error("out of memory")]
    NoMemory,
}

impl From<AllocError> for PartsFault {
    ghost use Rattle.std.specs.Prelude.{◌≡◌};
    ghost use Rattle.ee_desk_soundness.specs.declared.faults.PartsFault.TheVariants.{NoMemory};

    ghost from_gives = { λ _ e. e ≡ NoMemory };

    fn from(_: AllocError) -> PartsFault {
        PartsFault::NoMemory
    }
}

impl<T: Drop> From<AllocFailed<T>> for PartsFault {
    ghost use Rattle.std.specs.Prelude.{◌≡◌};
    ghost use Rattle.ee_desk_soundness.specs.declared.faults.PartsFault.TheVariants.{NoMemory};

    ghost from_gives = { λ _ e. e ≡ NoMemory };

    fn from(_: AllocFailed<T>) -> PartsFault {
        PartsFault::NoMemory
    }
}

impl From<ValueFault> for PartsFault {
    ghost use Rattle.std.specs.Prelude.{◌≡◌};
    ghost use Rattle.ee_desk_soundness.specs.Faults.{fault_of};

    ghost from_gives = { λ fault e. e ≡ fault_of fault };

    fn from(fault: ValueFault) -> PartsFault {
        match fault {
            ValueFault::Unsettled { .. } => PartsFault::Unsound,
            ValueFault::NoMemory => PartsFault::NoMemory,
        }
    }
}
