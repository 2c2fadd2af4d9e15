//! Paper bonds, as the register records them.

ghost use Rattle.std.specs.Prelude.{◌≡◌};
ghost use Rattle.ee_calculator.specs.Bonds.{has_coowner, is_payee};

use ee_units::{Customer, Denom, IssueMonth, Serial};

/// A paper bond in the register. A bond in coownership form is paid to either coowner; beneficiaries
/// aren't recorded (31 CFR Part 353).
#[derive(Clone, Copy, Debug, PartialEq, Eq)]
pub struct Bond {
    pub serial: Serial,
    pub denom: Denom,
    pub issued: IssueMonth,
    pub owner: Customer,
    pub coowner: Option<Customer>,
}

impl Bond {
    /// Whether this customer is the bond's coowner.
    pub fn has_coowner(&self, customer: Customer) -> bool
        ensures { result ≡ has_coowner self.now customer }
    {
        self.coowner == Some(customer)
    }

    /// Whether the bond may be paid to this customer: the owner or the coowner (31 CFR Part 353).
    pub fn is_payee(&self, customer: Customer) -> bool
        ensures { result ≡ is_payee self.now customer }
    {
        self.owner == customer || self.has_coowner(customer)
    }
}
