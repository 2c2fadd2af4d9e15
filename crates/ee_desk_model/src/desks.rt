//! The numbers of desks.

ghost use Rattle.std.specs.Prelude.{◌≡◌, ◌≤◌, option_and_then};
ghost use Rattle.ee_units.specs.Spelling.{in_range};
ghost use Rattle.ee_desk_model.specs.Desks.{desk_of};
ghost use Rattle.ee_desk_model.specs.Inner.Desks.{is_desk};

use ee_units::pieces::is_all_digits;
use std::marker::Model;

/// The number of a desk, 0 to 999. Each desk numbers its requests independently.
#[derive(Clone, Copy, Debug, PartialEq, Eq, PartialOrd, Ord)]
pub struct Desk {
    number: u16,
}

impl Model for Desk {
    ghost use Rattle.std.specs.Prelude.{ℕ, ◌≤◌};

    ghost Value = { ℕ };

    ghost view = { λ d. d.number };

    ghost invariant = { λ d. d.number ≤ 999 };

    ghost inverse = { λ n. record { number = n } };
}

impl Desk {
    /// The desk with this number; `None` above 999.
    pub const fn new(number: u16) -> Option<Desk>
        ensures { result ≡ in_range 0 999 number }
    {
        if number <= 999 {
            Some(Desk { number })
        } else {
            None
        }
    }

    /// The first desk, 0. A request that names no desk belongs to it.
    pub const fn first() -> Desk
        ensures { result ≡ 0 }
    {
        Desk { number: 0 }
    }

    /// The number.
    pub const fn number(self) -> u16
        ensures value { result ≡ self }
        ensures high { self ≤ 999 }
    {
        self.number
    }
}

#[tactic(auto, unfolding(crate::specs::Inner::Desks::is_desk))]
fn is_desk(text: &str) -> bool
    ensures { result ≡ is_desk text.now }
{
    !text.is_empty() && text.len() <= 3 && is_all_digits(text)
}

/// Reads a desk, one to three digits. Leading zeros are accepted. Takes no memory.
pub fn read_desk(text: &str) -> Option<Desk>
    ensures { result ≡ desk_of text.now }
{
    if is_desk(text) {
        desk_at(text.parse::<u64>().ok())
    } else {
        None
    }
}

fn desk_at(number: Option<u64>) -> Option<Desk>
    ensures { result ≡ option_and_then (in_range 0 999) number }
{
    match number {
        Some(number) if number <= 999 => Desk::new(number as u16),
        _ => None,
    }
}
