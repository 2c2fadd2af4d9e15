//! How a word of a line or a field of a file has to be spelled.

ghost use Rattle.std.specs.Prelude.{◌≡◌};
ghost use Rattle.ee_cli_program.specs.Spellings.{spelling_of_argument, spelling_of_column};

use ee_files::FileColumn;
use std::fmt;

/// A kind of value that a word or a field spells.
#[derive(Clone, Copy, Debug, PartialEq, Eq)]
pub enum Spelling {
    /// A denomination.
    Denom,
    /// An issue month.
    Issue,
    /// A month.
    Month,
    /// A rate in percent.
    Rate,
    /// A serial number.
    Serial,
    /// A customer.
    Customer,
    /// A desk.
    Desk,
}

/// Prints the form and the range of the value.
impl fmt::Display for Spelling {
    ghost use Rattle.std.specs.Prelude.{Some};
    ghost use Rattle.ee_cli_program.specs.Spellings.{spelling_text};

    ghost output = { λ spelling. Some (spelling_text spelling) };

    fn fmt<W: fmt::Write>(&self, f: &mut fmt::Formatter<W>) -> fmt::Result {
        f.write_str(match *self {
            Spelling::Denom => "a denomination is 50, 75, 100, 200, 500, 1000, 5000 or 10000",
            Spelling::Issue => "an issue month is 2005-05 to 2099-12, as 2010-05 or 05/2010",
            Spelling::Month => "a month is 2005-05 to 2199-12, as 2015-05 or 05/2015",
            Spelling::Rate => "a rate is 0 to 20.00 percent, as 3.50",
            Spelling::Serial => "a serial number is a letter, 1 to 9999999999 and EE, as L1EE",
            Spelling::Customer => "a customer is a number from 1 to 999999999",
            Spelling::Desk => "a desk is a number from 0 to 999",
        })
    }
}

/// The spelling of an argument; `None` for a name that the program's lines don't read by themselves.
pub fn spelling_of_argument(name: &str) -> Option<Spelling>
    ensures { result ≡ spelling_of_argument name.now }
{
    match name {
        "denom" => Some(Spelling::Denom),
        "issued" => Some(Spelling::Issue),
        "month" => Some(Spelling::Month),
        "rate" | "extension" => Some(Spelling::Rate),
        "customer" => Some(Spelling::Customer),
        "desk" => Some(Spelling::Desk),
        _ => None,
    }
}

/// The spelling of a column of a file.
pub fn spelling_of_column(column: FileColumn) -> Spelling
    ensures { result ≡ spelling_of_column column }
{
    match column {
        FileColumn::From | FileColumn::Issued => Spelling::Issue,
        FileColumn::Rate | FileColumn::Extension => Spelling::Rate,
        FileColumn::Serial => Spelling::Serial,
        FileColumn::Denom => Spelling::Denom,
        FileColumn::Owner | FileColumn::Coowner => Spelling::Customer,
    }
}
