//! The note of a row, by the age of its bond.

use ee_units::Age;
use std::fmt;

/// The age from which a bond can be redeemed, in months.
const REDEEMABLE: u16 = 12;

/// The age from which no interest is withheld, in months.
const FREE_OF_PENALTY: u16 = 60;

/// The age at which interest stops, in months.
pub(crate) const FINAL_MATURITY: u16 = 360;

/// The calculator's note on a bond in a month.
#[derive(Clone, Copy)]
pub enum Note {
    /// Not issued yet.
    Ni,
    /// Issued, but not yet eligible for payment: below 12 months of age.
    Ne,
    /// The value excludes the last three months of interest: 12 to 59 months of age.
    P5,
    /// Matured and no longer earning interest: 360 months of age and more.
    Ma,
    /// No note: 60 to 359 months of age.
    Plain,
}

ghost use Rattle.std.specs.Prelude.{◌≡◌, ◌≤◌, length};
ghost use Rattle.ee_calculator.specs.Notes.{note_at, note_text};

impl Note {
    /// The note at an age; `None` means that the bond isn't issued yet.
    pub const fn at(age: Option<Age>) -> Note
        ensures { result ≡ note_at age }
    {
        let Some(age) = age else {
            return Note::Ni;
        };
        match age.months() {
            months if months < REDEEMABLE => Note::Ne,
            months if months < FREE_OF_PENALTY => Note::P5,
            months if months < FINAL_MATURITY => Note::Plain,
            _ => Note::Ma,
        }
    }

    /// The note as it is printed: `NI`, `NE`, `P5`, `MA`, or nothing for `Plain`.
    pub const fn as_str(self) -> &'static str
        ensures text { result.now ≡ note_text self }
        ensures short { length result.now ≤ 2 }
    {
        match self {
            Note::Ni => "NI",
            Note::Ne => "NE",
            Note::P5 => "P5",
            Note::Ma => "MA",
            Note::Plain => "",
        }
    }
}

/// Prints `NI`, `NE`, `P5`, `MA`, or nothing for `Plain`.
impl fmt::Display for Note {
    ghost use Rattle.std.specs.Prelude.{Some};
    ghost use Rattle.ee_calculator.specs.Notes.{note_text};

    ghost output = { λ n. Some (note_text n) };

    fn fmt<W: fmt::Write>(&self, f: &mut fmt::Formatter<W>) -> fmt::Result {
        f.write_str(self.as_str())
    }
}
