//! The precision of fixed-point numbers.

ghost use Rattle.std.specs.Prelude.{◌≡◌, ◌≤◌};
ghost use Rattle.ee_units.specs.Spelling.{in_range};

use std::marker::Model;

/// The precision of a fixed-point number: its number of binary places, 8 to 62.
#[derive(Clone, Copy, Debug, PartialEq, Eq)]
pub struct Bits {
    places: u8,
}

impl Model for Bits {
    ghost use Rattle.std.specs.Prelude.{ℕ, ◌≤◌};

    ghost Value = { ℕ };

    ghost view = { λ b. b.places };

    ghost invariant = { λ b. (8 ≤ b.places) × (b.places ≤ 62) };

    ghost inverse = { λ n. record { places = n } };
}

impl Bits {
    /// The precision of `places` binary places; `None` unless it is 8 to 62.
    pub const fn new(places: u8) -> Option<Bits>
        ensures { result ≡ in_range 8 62 places }
    {
        if 8 <= places && places <= 62 {
            Some(Bits { places })
        } else {
            None
        }
    }

    /// The precision of `places` binary places.
    pub const fn from_places(places: u8) -> Bits
        requires low { 8 ≤ places }
        requires high { places ≤ 62 }
        ensures { result ≡ places }
    {
        Bits { places }
    }

    /// The number of binary places.
    pub const fn places(self) -> u8
        ensures value { result ≡ self }
        ensures low { 8 ≤ self }
        ensures high { self ≤ 62 }
    {
        self.places
    }
}
