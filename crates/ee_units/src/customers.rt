//! Customer numbers.

ghost use Rattle.std.specs.Prelude.{◌≡◌, ◌≤◌};
ghost use Rattle.std.specs.Option.{ok_or};
ghost use Rattle.ee_units.specs.Spelling.{in_range, customer_of};
ghost use Rattle.ee_units.specs.Limits.{highest_customer};

use crate::faults::UnitFault;
use crate::pieces::number;
use std::fmt;
use std::marker::Model;
use std::str::FromStr;

/// A customer's number, 1 to 999,999,999.
#[derive(Clone, Copy, Debug, PartialEq, Eq)]
pub struct Customer {
    number: u32,
}

impl Model for Customer {
    ghost use Rattle.std.specs.Prelude.{ℕ, ◌≤◌};
    ghost use Rattle.ee_units.specs.Limits.{highest_customer};

    ghost Value = { ℕ };

    ghost view = { λ c. c.number };

    ghost invariant = { λ c. (1 ≤ c.number) × (c.number ≤ highest_customer) };

    ghost inverse = { λ n. record { number = n } };
}

impl Customer {
    /// The customer with this number; `None` unless it is 1 to 999,999,999.
    pub const fn new(number: u64) -> Option<Customer>
        ensures { result ≡ in_range 1 highest_customer number }
    {
        if 1 <= number && number <= 999_999_999 {
            Some(Customer {
                number: number as u32,
            })
        } else {
            None
        }
    }

    /// The number.
    pub const fn number(self) -> u32
        ensures value { result ≡ self }
        ensures low { 1 ≤ self }
        ensures high { self ≤ highest_customer }
    {
        self.number
    }
}

/// The number in decimal, without leading zeros.
impl fmt::Display for Customer {
    ghost use Rattle.std.specs.Prelude.{Some};
    ghost use Rattle.std.specs.Fmt.{decimal};

    ghost output = { λ v. Some (decimal v) };

    fn fmt<W: fmt::Write>(&self, f: &mut fmt::Formatter<W>) -> fmt::Result {
        let number = self.number;
        write!(f, "{number}")
    }
}

/// Reads a customer number of one to nine digits. Leading zeros are accepted. Any other text, or 0, is `BadCustomer`.
pub fn read_customer(text: &str) -> Result<Customer, UnitFault>
    ensures { result ≡ ok_or (customer_of text.now) UnitFault.BadCustomer }
{
    customer_in(text).ok_or(UnitFault::BadCustomer)
}

impl FromStr for Customer {
    ghost use Rattle.std.specs.Prelude.{◌≡◌};
    ghost use Rattle.std.specs.Option.{ok_or};
    ghost use Rattle.ee_units.specs.Spelling.{customer_of};
    ghost use Rattle.ee_units.specs.declared.faults.UnitFault.TheVariants.{BadCustomer};

    type Err = UnitFault;

    ghost from_str_gives = { λ text r. r ≡ ok_or (customer_of text) BadCustomer };

    fn from_str(text: &str) -> Result<Customer, UnitFault> {
        read_customer(text)
    }
}

#[tactic(auto, unfolding(crate::specs::Spelling::customer_of))]
fn customer_in(text: &str) -> Option<Customer>
    ensures { result ≡ customer_of text.now }
{
    Customer::new(number(text, 9)?)
}
