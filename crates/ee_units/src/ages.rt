//! Ages of bonds.

ghost use Rattle.std.specs.Prelude.{◌≡◌, ◌≤◌};
ghost use Rattle.ee_units.specs.Spelling.{in_range};
ghost use Rattle.ee_units.specs.Limits.{latest_month};

use std::marker::Model;

/// A bond's age: the count of calendar months from its issue month, 0 to 2335.
#[derive(Clone, Copy, Debug, PartialEq, Eq, PartialOrd, Ord)]
pub struct Age {
    months: u16,
}

impl Model for Age {
    ghost use Rattle.std.specs.Prelude.{ℕ, ◌≤◌};
    ghost use Rattle.ee_units.specs.Limits.{latest_month};

    ghost Value = { ℕ };

    ghost view = { λ a. a.months };

    ghost invariant = { λ a. a.months ≤ latest_month };

    ghost inverse = { λ n. record { months = n } };
}

impl Age {
    /// The age of `months` months; `None` above 2335.
    pub const fn new(months: u16) -> Option<Age>
        ensures { result ≡ in_range 0 latest_month months }
    {
        if months <= 2335 {
            Some(Age { months })
        } else {
            None
        }
    }

    /// The age of `months` months.
    pub const fn from_months(months: u16) -> Age
        requires { months ≤ latest_month }
        ensures { result ≡ months }
    {
        Age { months }
    }

    /// The number of months.
    pub const fn months(self) -> u16
        ensures value { result ≡ self }
        ensures range { self ≤ latest_month }
    {
        self.months
    }
}
