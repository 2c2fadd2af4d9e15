//! The rates at which bonds earn interest.

use ee_units::{IssueMonth, Rate};

/// The half-years up to original maturity, at 20 years.
pub const ORIGINAL_MATURITY: u16 = 40;

/// The terms of a bond: an annual rate for its first 20 years, and one for the 10 years of extended
/// maturity.
#[derive(Clone, Copy, Debug, PartialEq, Eq, PartialOrd, Ord)]
pub struct Rates {
    /// The annual rate to original maturity.
    pub fixed: Rate,
    /// The annual rate from original to final maturity.
    pub extension: Rate,
}

impl Rates {
    ghost use Rattle.std.specs.Prelude.{◌≡◌};
    ghost use Rattle.ee_value.specs.Chain.{InRange, rate_in, rates_with, named_extension};

    /// The terms of a fixed rate and an extension. Without an extension the rate doesn't change.
    pub const fn new(fixed: Rate, extension: Option<Rate>) -> Rates
        ensures { result ≡ rates_with fixed extension }
    {
        match extension {
            Some(extension) => Rates { fixed, extension },
            None => Rates {
                fixed,
                extension: fixed,
            },
        }
    }

    /// The extension, if it differs from the fixed rate.
    #[tactic(auto, unfolding(crate::specs::Chain::named_extension))]
    pub fn named_extension(&self) -> Option<Rate>
        ensures { result ≡ named_extension self.now }
    {
        if self.extension == self.fixed {
            None
        } else {
            Some(self.extension)
        }
    }

    /// The rate in force in a half-year since issue: the fixed rate to original maturity, then the
    /// extension.
    #[tactic(auto, unfolding(crate::specs::Chain::rate_in))]
    pub fn rate_in(&self, half_year: u16) -> Rate
        ensures value { result ≡ rate_in self.now half_year }
        ensures range { InRange self.now }
    {
        let fixed = self.fixed.hundredths();
        let extension = self.extension.hundredths();
        Rate::from_hundredths(if half_year < ORIGINAL_MATURITY {
            fixed
        } else {
            extension
        })
    }
}

/// The rate of the bonds issued in the six months from a May or November on.
#[derive(Clone, Copy, Debug, PartialEq, Eq)]
pub struct RateRow {
    /// The May or November.
    pub from: IssueMonth,
    pub rates: Rates,
}
