//! Denominations, with their units and issue prices.

use crate::faults::UnitFault;
use crate::money::Cents;
use std::fmt;
use std::str::FromStr;

/// The denomination of a paper bond.
#[derive(Clone, Copy, Debug, PartialEq, Eq)]
pub enum Denom {
    Fifty,
    SeventyFive,
    Hundred,
    TwoHundred,
    FiveHundred,
    Thousand,
    FiveThousand,
    TenThousand,
}

ghost use Rattle.std.specs.Prelude.{◌≡◌};
ghost use Rattle.std.specs.Option.{ok_or};
ghost use Rattle.ee_units.specs.Denoms.{dollars, denom_with, units_of, price_of, denom_of};

impl Denom {
    /// The denomination of this number of dollars; `None` if no bond has it.
    pub const fn with_dollars(dollars: u64) -> Option<Denom>
        ensures { result ≡ denom_with dollars }
    {
        match dollars {
            50 => Some(Denom::Fifty),
            75 => Some(Denom::SeventyFive),
            100 => Some(Denom::Hundred),
            200 => Some(Denom::TwoHundred),
            500 => Some(Denom::FiveHundred),
            1000 => Some(Denom::Thousand),
            5000 => Some(Denom::FiveThousand),
            10000 => Some(Denom::TenThousand),
            _ => None,
        }
    }

    /// The denomination in whole dollars.
    pub const fn dollars(self) -> u64
        ensures { result ≡ dollars self }
    {
        match self {
            Denom::Fifty => 50,
            Denom::SeventyFive => 75,
            Denom::Hundred => 100,
            Denom::TwoHundred => 200,
            Denom::FiveHundred => 500,
            Denom::Thousand => 1000,
            Denom::FiveThousand => 5000,
            Denom::TenThousand => 10000,
        }
    }
}

/// The bond's units: one for each 25 dollars of denomination, 2 to 400.
pub fn units(denom: Denom) -> u64
    ensures { result ≡ units_of denom }
{
    denom.dollars() / 25
}

/// The bond's issue price: half the denomination.
pub fn price(denom: Denom) -> Cents
    ensures { result.0 ≡ price_of denom }
{
    Cents(50 * denom.dollars())
}

/// The number of dollars in decimal.
impl fmt::Display for Denom {
    ghost use Rattle.std.specs.Prelude.{Some};
    ghost use Rattle.std.specs.Fmt.{decimal};
    ghost use Rattle.ee_units.specs.Denoms.{dollars};

    ghost output = { λ d. Some (decimal (dollars d)) };

    fn fmt<W: fmt::Write>(&self, f: &mut fmt::Formatter<W>) -> fmt::Result {
        let dollars = self.dollars();
        write!(f, "{dollars}")
    }
}

/// Reads a denomination, spelled as its number of dollars alone. Any other text is `BadDenom`.
pub fn read_denom(text: &str) -> Result<Denom, UnitFault>
    ensures { result ≡ ok_or (denom_of text.now) UnitFault.BadDenom }
{
    denom_in(text).ok_or(UnitFault::BadDenom)
}

impl FromStr for Denom {
    ghost use Rattle.std.specs.Prelude.{◌≡◌};
    ghost use Rattle.std.specs.Option.{ok_or};
    ghost use Rattle.ee_units.specs.Denoms.{denom_of};
    ghost use Rattle.ee_units.specs.declared.faults.UnitFault.TheVariants.{BadDenom};

    type Err = UnitFault;

    ghost from_str_gives = { λ text r. r ≡ ok_or (denom_of text) BadDenom };

    fn from_str(text: &str) -> Result<Denom, UnitFault> {
        read_denom(text)
    }
}

fn denom_in(text: &str) -> Option<Denom>
    ensures { result ≡ denom_of text.now }
{
    match text {
        "50" => Some(Denom::Fifty),
        "75" => Some(Denom::SeventyFive),
        "100" => Some(Denom::Hundred),
        "200" => Some(Denom::TwoHundred),
        "500" => Some(Denom::FiveHundred),
        "1000" => Some(Denom::Thousand),
        "5000" => Some(Denom::FiveThousand),
        "10000" => Some(Denom::TenThousand),
        _ => None,
    }
}
