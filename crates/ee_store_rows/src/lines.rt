//! The lines of tickets.

ghost use Rattle.std.specs.Prelude.{◌≡◌, IfSome, IsSome};
ghost use Rattle.ee_desk_model.specs.Ranges.{IsSerial};
ghost use Rattle.ee_store_rows.specs.Lines.{line_with};
ghost use Rattle.ee_store_rows.specs.Rows.{paid_row};

use ee_desk_model::Line;
use ee_units::{Cents, Serial};

/// The line of a bond, by the letter and number of its serial number, and of a payment in cents. It is `None` if the
/// letter or the number is out of range.
#[tactic(auto, unfolding(crate::specs::Lines::line_with))]
pub fn line_with(letter: u64, number: u64, cents: u64) -> Option<Line>
    ensures value { result ≡ line_with letter number cents }
    ensures shown { IfSome result (λ line. paid_row line ≡ record { letter = letter; number = number; cents = cents }) }
    ensures read { IsSerial (record { letter = letter; number = number }) → IsSome result }
{
    let serial = Serial::new(letter, number)?;
    Some(Line {
        serial,
        cents: Cents(cents),
    })
}
