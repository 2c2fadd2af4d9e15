//! Pieces of texts: numbers with a limited or exact number of digits, and the parts around a separator.

ghost use Rattle.std.specs.Prelude.{◌≡◌, ◌<◌, ◌≤◌, IfSome, option_map};
ghost use Rattle.std.specs.Char.{is_ascii_digit};
ghost use Rattle.std.specs.List.{list_all};
ghost use Rattle.ee_units.specs.Spelling.{is_number, number_of, digits_of, parts_at};

/// Says whether each byte of a text is a digit, which holds of the empty text.
pub fn is_all_digits(text: &str) -> bool
    ensures { result ≡ list_all is_ascii_digit text.now }
{
    text.bytes().all(|b| b.is_ascii_digit())
}

#[tactic(auto, unfolding(crate::specs::Spelling::is_number))]
fn is_number(text: &str, most: usize) -> bool
    ensures { result ≡ is_number most text.now }
{
    !text.is_empty() && text.len() <= most && is_all_digits(text)
}

/// The number that 1 to `most` digits write; `None` for any other text.
#[tactic(auto, unfolding(crate::specs::Spelling::number_of))]
pub fn number(text: &str, most: usize) -> Option<u64>
    requires { most < 19 }
    ensures value { result ≡ number_of most text.now }
    ensures two { most ≤ 2 → IfSome result (λ n. n < 100) }
    ensures four { most ≤ 4 → IfSome result (λ n. n < 10000) }
{
    if is_number(text, most) {
        text.parse::<u64>().ok()
    } else {
        None
    }
}

/// The number that exactly `count` digits write; `None` for any other text.
#[tactic(auto, unfolding(crate::specs::Spelling::digits_of))]
pub fn digits(text: &str, count: usize) -> Option<u64>
    requires { count < 19 }
    ensures value { result ≡ digits_of count text.now }
    ensures two { count ≤ 2 → IfSome result (λ n. n < 100) }
    ensures four { count ≤ 4 → IfSome result (λ n. n < 10000) }
{
    if text.len() == count {
        number(text, count)
    } else {
        None
    }
}

/// The parts before and after the first point; `None` without one.
#[tactic(auto, unfolding(crate::specs::Spelling::parts_at))]
pub fn parts_at_point(text: &str) -> Option<(&str, &str)>
    ensures { option_map (λ p. (p.0.now, p.1.now)) result ≡ parts_at 46 text.now }
{
    text.split_once('.')
}

/// The parts before and after the first hyphen; `None` without one.
#[tactic(auto, unfolding(crate::specs::Spelling::parts_at))]
pub fn parts_at_hyphen(text: &str) -> Option<(&str, &str)>
    ensures { option_map (λ p. (p.0.now, p.1.now)) result ≡ parts_at 45 text.now }
{
    text.split_once('-')
}

/// The parts before and after the first slash; `None` without one.
#[tactic(auto, unfolding(crate::specs::Spelling::parts_at))]
pub fn parts_at_slash(text: &str) -> Option<(&str, &str)>
    ensures { option_map (λ p. (p.0.now, p.1.now)) result ≡ parts_at 47 text.now }
{
    text.split_once('/')
}
