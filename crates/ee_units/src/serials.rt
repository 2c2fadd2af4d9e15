//! Serial numbers.

ghost use Rattle.std.specs.Prelude.{◌≡◌, ◌≤◌, ◌==◌, ◌&&◌, Some, option_map, codes};
ghost use Rattle.std.proofs.Common.{rules};
ghost use Rattle.std.specs.Cmp.{then_po};
ghost use Rattle.std.specs.Cmp.Rules.{comparing};
ghost use Rattle.std.specs.Ordering.{nat_cmp, ordering_then, partial_ordering_then};
ghost use Rattle.std.specs.Option.{ok_or};
ghost use Rattle.std.specs.Io.BufRead.{strip_last};
ghost use Rattle.ee_units.specs.Spelling.{strip_first, before_end, serial_at, serial_from, serial_of};
ghost use Rattle.ee_units.specs.Limits.{highest_serial};

use crate::faults::UnitFault;
use crate::pieces::number;
use std::cmp::Ordering;
use std::fmt;
use std::marker::Model;
use std::str::FromStr;

// The weight of a letter in a packed serial number: more than any number.
const ONE_LETTER: u64 = 1 << 34;

const _: () = prove!(size_of::<Serial>() == 8);

/// A bond's serial number: a letter, and a number from 1 to 9,999,999,999. Serial numbers are ordered
/// by letter, then by number. Leading zeros and hyphens are part of a spelling, not of the serial number.
#[derive(Clone, Copy)]
pub struct Serial {
    // The letter times 2^34, plus the number: eight bytes, so a large register of bonds takes less memory.
    packed: u64,
}

impl Model for Serial {
    ghost use Rattle.std.specs.Prelude.{◌+◌, ◌*◌, ◌/◌, ◌%◌, ◌^◌, ◌≤◌};
    ghost use Rattle.ee_units.specs.Spelling.{SerialNumber};
    ghost use Rattle.ee_units.specs.Limits.{highest_serial};

    ghost Value = { SerialNumber };

    ghost view = { λ s. record { letter = s.packed / 2 ^ 34; number = s.packed % 2 ^ 34 } };

    ghost invariant = { λ s. (1 ≤ s.packed / 2 ^ 34) × (s.packed / 2 ^ 34 ≤ 26)
        × (1 ≤ s.packed % 2 ^ 34) × (s.packed % 2 ^ 34 ≤ highest_serial) };

    ghost inverse = { λ v. record { packed = v.letter * 2 ^ 34 + v.number } };
}

impl Serial {
    /// The serial number of a letter, 1 for A to 26 for Z, and a number; `None` if one is out of range.
    #[tactic(auto, unfolding(crate::specs::Spelling::serial_at))]
    pub const fn new(letter: u64, number: u64) -> Option<Serial>
        ensures { result ≡ serial_at letter number }
    {
        if 1 <= letter && letter <= 26 && 1 <= number && number <= 9_999_999_999 {
            Some(Serial::pack(letter as u8, number))
        } else {
            None
        }
    }

    /// The letter, from 1 for A to 26 for Z.
    pub const fn letter(self) -> u8
        ensures value { result ≡ self.letter }
        ensures low { 1 ≤ self.letter }
        ensures high { self.letter ≤ 26 }
    {
        (self.packed / ONE_LETTER) as u8
    }

    /// The number, 1 to 9,999,999,999.
    pub const fn number(self) -> u64
        ensures value { result ≡ self.number }
        ensures low { 1 ≤ self.number }
        ensures high { self.number ≤ highest_serial }
    {
        self.packed % ONE_LETTER
    }

    // The serial number of a letter and a number that are in range.
    const fn pack(letter: u8, number: u64) -> Serial
        requires first_letter { 1 ≤ letter }
        requires last_letter { letter ≤ 26 }
        requires first_number { 1 ≤ number }
        requires last_number { number ≤ highest_serial }
        ensures letter { result.letter ≡ letter }
        ensures number { result.number ≡ number }
    {
        Serial {
            packed: letter as u64 * ONE_LETTER + number,
        }
    }
}

impl PartialEq for Serial {
    ghost eq = { λ a b. (a.letter == b.letter) && (a.number == b.number) };

    ghost laws = { Prim.search (comparing, rules) };

    fn eq(&self, other: &Serial) -> bool {
        self.packed == other.packed
    }
}

impl Eq for Serial {
    ghost laws = { Prim.search (comparing, rules) };
}

impl PartialOrd for Serial {
    ghost partial_cmp = { λ a b. partial_ordering_then (Some (nat_cmp a.letter b.letter)) (Some (nat_cmp a.number b.number)) };

    ghost laws = { Prim.search (then_po, comparing, rules) };

    fn partial_cmp(&self, other: &Serial) -> Option<Ordering> {
        Some(self.cmp(other))
    }
}

impl Ord for Serial {
    ghost cmp = { λ a b. ordering_then (nat_cmp a.letter b.letter) (nat_cmp a.number b.number) };

    ghost total = { Prim.search (comparing, rules) };

    ghost matches_partial_cmp = { Prim.search (comparing, rules) };

    ghost matches_eq = { Prim.search (comparing, rules) };

    fn cmp(&self, other: &Serial) -> Ordering {
        self.packed.cmp(&other.packed)
    }
}

impl fmt::Debug for Serial {
    fn fmt<W: fmt::Write>(&self, f: &mut fmt::Formatter<W>) -> fmt::Result {
        f.debug_struct("Serial")
            .field("letter", &self.letter())
            .field("number", &self.number())
            .finish()
    }
}

/// The letter, the number without leading zeros, and `EE`, as `C12EE`.
impl fmt::Display for Serial {
    ghost use Rattle.std.specs.Prelude.{Some};
    ghost use Rattle.ee_units.specs.Texts.{serial_text};

    ghost output = { λ v. Some (serial_text v) };

    fn fmt<W: fmt::Write>(&self, f: &mut fmt::Formatter<W>) -> fmt::Result {
        let letter = char::from(64 + self.letter());
        let number = self.number();
        write!(f, "{letter}{number}EE")
    }
}

/// Reads a serial number: a letter A to Z, optionally a hyphen, one to ten digits, optionally a hyphen,
/// and `EE`. Any other text is `BadSerial`.
pub fn read_serial(text: &str) -> Result<Serial, UnitFault>
    ensures { result ≡ ok_or (serial_of text.now) UnitFault.BadSerial }
{
    serial_in(text).ok_or(UnitFault::BadSerial)
}

impl FromStr for Serial {
    ghost use Rattle.std.specs.Prelude.{◌≡◌};
    ghost use Rattle.std.specs.Option.{ok_or};
    ghost use Rattle.ee_units.specs.Spelling.{serial_of};
    ghost use Rattle.ee_units.specs.declared.faults.UnitFault.TheVariants.{BadSerial};

    type Err = UnitFault;

    ghost from_str_gives = { λ text r. r ≡ ok_or (serial_of text) BadSerial };

    fn from_str(text: &str) -> Result<Serial, UnitFault> {
        read_serial(text)
    }
}

fn serial_in(text: &str) -> Option<Serial>
    ensures { result ≡ serial_of text.now }
{
    let (letter, rest) = text.split_at_checked(1)?;
    serial_from(letter.as_bytes()[0], rest)
}

#[tactic(auto, unfolding(crate::specs::Spelling::serial_from))]
fn serial_from(letter: u8, rest: &str) -> Option<Serial>
    ensures { result ≡ serial_from letter rest.now }
{
    if !letter.is_ascii_uppercase() {
        return None;
    }
    let body = before_series(rest)?;
    let number = number(without_first_hyphen(without_last_hyphen(body)), 10)?;
    if (1..=9_999_999_999).contains(&number) {
        Some(Serial::pack(letter - 64, number))
    } else {
        None
    }
}

fn before_series(text: &str) -> Option<&str>
    ensures { option_map (λ s. s.now) result ≡ before_end (codes "EE") text.now }
{
    text.strip_suffix("EE")
}

fn without_last_hyphen(text: &str) -> &str
    ensures { result.now ≡ strip_last 45 text.now }
{
    text.strip_suffix('-').unwrap_or(text)
}

fn without_first_hyphen(text: &str) -> &str
    ensures { result.now ≡ strip_first 45 text.now }
{
    text.strip_prefix('-').unwrap_or(text)
}
