//! Reading amounts of money.

ghost use Rattle.std.specs.Prelude.{◌≡◌, option_map};
ghost use Rattle.ee_desk_texts.specs.Inner.Reading.{cents_of};

use ee_units::Cents;
use ee_units::pieces::{digits, number, parts_at_point};

/// The amount that whole dollars, a point and two digits write; `None` if it doesn't fit. Leading zeros are
/// accepted.
#[tactic(auto, unfolding(crate::specs::Inner::Reading::cents_of))]
pub fn cents_in(text: &str) -> Option<Cents>
    ensures { option_map (λ cents. cents.0) result ≡ cents_of text.now }
{
    let (whole, part) = parts_at_point(text)?;
    let whole = number(whole, 18)?;
    let part = digits(part, 2)?;
    let cents = 100 * u128::from(whole) + u128::from(part);
    if cents <= u128::from(u64::MAX) {
        Some(Cents(cents as u64))
    } else {
        None
    }
}
