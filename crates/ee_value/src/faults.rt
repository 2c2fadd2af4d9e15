//! Reasons for a missing value.

use ee_units::Age;
use std::alloc::{AllocError, AllocFailed};
use thiserror::Error;

/// The precision doesn't settle the value at an age: its bounds round to different cents.
#[derive(Clone, Copy, Debug, PartialEq, Eq, Error)]
#[error("unsettled at age {}", age.months())]
pub struct Unsettled {
    /// The age that was asked for, in months.
    pub age: Age,
}

/// Why a table of unit values can't be made.
#[derive(Clone, Copy, Debug, PartialEq, Eq, Error)]
pub enum ValueFault {
    /// The precision doesn't settle the value at this age; it is the least such age.
    #[error("unsettled at age {}", age.months())]
    Unsettled { age: Age },
    /// Memory was refused.
    #[error("out of memory")]
    NoMemory,
}

impl From<Unsettled> for ValueFault {
    ghost use Rattle.std.specs.Prelude.{◌≡◌};
    ghost use Rattle.ee_value.specs.declared.faults.ValueFault.TheVariants.{Unsettled};

    ghost from_gives = { λ f e. e ≡ Unsettled f.age };

    fn from(fault: Unsettled) -> ValueFault {
        ValueFault::Unsettled { age: fault.age }
    }
}

impl From<AllocError> for ValueFault {
    ghost use Rattle.std.specs.Prelude.{◌≡◌};
    ghost use Rattle.ee_value.specs.declared.faults.ValueFault.TheVariants.{NoMemory};

    ghost from_gives = { λ _ e. e ≡ NoMemory };

    fn from(_fault: AllocError) -> ValueFault {
        ValueFault::NoMemory
    }
}

impl<T: Drop> From<AllocFailed<T>> for ValueFault {
    ghost use Rattle.std.specs.Prelude.{◌≡◌};
    ghost use Rattle.ee_value.specs.declared.faults.ValueFault.TheVariants.{NoMemory};

    ghost from_gives = { λ _ e. e ≡ NoMemory };

    fn from(_fault: AllocFailed<T>) -> ValueFault {
        ValueFault::NoMemory
    }
}
