//! The numbers of requests.

ghost use Rattle.std.specs.Prelude.{◌≡◌, ◌≤◌};
ghost use Rattle.ee_units.specs.Spelling.{in_range};
ghost use Rattle.ee_desk_model.specs.Limits.{highest_number};

use crate::desks::Desk;
use std::marker::Model;

/// The number that a desk gives to a request, 1 to 2^63 - 1.
#[derive(Clone, Copy, Debug, PartialEq, Eq, PartialOrd, Ord)]
pub struct Number {
    value: u64,
}

impl Model for Number {
    ghost use Rattle.std.specs.Prelude.{ℕ, ◌≤◌};
    ghost use Rattle.ee_desk_model.specs.Limits.{highest_number};

    ghost Value = { ℕ };

    ghost view = { λ n. n.value };

    ghost invariant = { λ n. (1 ≤ n.value) × (n.value ≤ highest_number) };

    ghost inverse = { λ n. record { value = n } };
}

impl Number {
    /// The number; `None` if it is out of range.
    pub const fn new(value: u64) -> Option<Number>
        ensures { result ≡ in_range 1 highest_number value }
    {
        if 1 <= value && value <= 9_223_372_036_854_775_807 {
            Some(Number { value })
        } else {
            None
        }
    }

    /// The plain number.
    pub const fn value(self) -> u64
        ensures value { result ≡ self }
        ensures low { 1 ≤ self }
        ensures high { self ≤ highest_number }
    {
        self.value
    }
}

/// A desk and a number of that desk. It identifies a request, which acts at most once.
#[derive(Clone, Copy, Debug, PartialEq, Eq, PartialOrd, Ord)]
pub struct RequestNumber {
    desk: Desk,
    number: Number,
}

impl Model for RequestNumber {
    ghost use Rattle.std.specs.Prelude.{ℕ};

    ghost Value = { ℕ × ℕ };

    ghost view = { λ r. (r.desk, r.number) };

    ghost inverse = { λ p. record { desk = p.0; number = p.1 } };
}

impl RequestNumber {
    /// The request number of a desk and a number.
    pub const fn new(desk: Desk, number: Number) -> RequestNumber
        ensures { result ≡ (desk, number) }
    {
        RequestNumber { desk, number }
    }

    /// The desk.
    pub const fn desk(self) -> Desk
        ensures { result ≡ self.0 }
    {
        self.desk
    }

    /// The number given by that desk.
    pub const fn number(self) -> Number
        ensures { result ≡ self.1 }
    {
        self.number
    }
}
