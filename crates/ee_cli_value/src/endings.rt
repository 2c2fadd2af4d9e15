//! How a command ends.

use ee_units::Age;
use thiserror::Error;

/// How a command ended that printed a value, or found none.
#[derive(Clone, Copy, Debug, PartialEq, Eq)]
pub enum Outcome {
    /// The command was done.
    Done,
    /// The precision doesn't settle the value; this is the least age at which it doesn't.
    Unsettled(Age),
}

/// Why a value was not printed.
#[derive(Clone, Copy, Debug, PartialEq, Eq, Error)]
pub enum PrintFault {
    /// Writing failed.
    #[error("input or output failed")]
    Device,
    /// Memory was refused.
    #[error("no memory")]
    NoMemory,
}
