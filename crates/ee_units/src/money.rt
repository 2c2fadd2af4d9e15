//! Amounts of money, and sums of them.

use std::fmt;

/// An amount of money in cents.
#[derive(Clone, Copy, Debug, PartialEq, Eq, PartialOrd, Ord)]
pub struct Cents(pub u64);

/// A sum of amounts, in cents.
#[derive(Clone, Copy, Debug, PartialEq, Eq, PartialOrd, Ord)]
pub struct Total(pub u128);

/// Whole dollars, a point and two digits, as `25.88`.
impl fmt::Display for Cents {
    ghost use Rattle.std.specs.Prelude.{Some};
    ghost use Rattle.ee_units.specs.Texts.{decimal_text};

    ghost output = { λ c. Some (decimal_text c.0) };

    fn fmt<W: fmt::Write>(&self, f: &mut fmt::Formatter<W>) -> fmt::Result {
        let dollars = self.0 / 100;
        let cents = self.0 % 100;
        write!(f, "{dollars}.{cents:02}")
    }
}

/// Whole dollars, a point and two digits, as `5196.22`.
impl fmt::Display for Total {
    ghost use Rattle.std.specs.Prelude.{Some};
    ghost use Rattle.ee_units.specs.Texts.{decimal_text};

    ghost output = { λ c. Some (decimal_text c.0) };

    fn fmt<W: fmt::Write>(&self, f: &mut fmt::Formatter<W>) -> fmt::Result {
        let dollars = self.0 / 100;
        let tens = self.0 % 100 / 10;
        let ones = self.0 % 10;
        write!(f, "{dollars}.{tens}{ones}")
    }
}
