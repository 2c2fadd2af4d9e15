//! What a bond pays to its payee.

use ee_units::Cents;

/// What a bond pays to its payee.
#[derive(Clone, Copy, Debug, PartialEq, Eq)]
pub enum Quote {
    /// The bond can't be redeemed yet: its age is below 12 months.
    NotEligible,
    /// The bond pays these cents. `penalty` means that three months of interest were taken off, `matured`
    /// that interest has stopped.
    Pays {
        cents: Cents,
        penalty: bool,
        matured: bool,
    },
}
