//! Acts, and requests for them.

ghost use Rattle.std.specs.Prelude.{◌≡◌, IfOk};
ghost use Rattle.std.specs.Cmp.Lexicographic.{pointwise};
ghost use Rattle.ee_desk_model.specs.Acts.{same_act};
ghost use Rattle.ee_desk_model.specs.Numbers.{number_of};
ghost use Rattle.ee_desk_model.specs.PlainBooks.{same_bond};

use crate::desks::Desk;
use crate::numbers::{Number, RequestNumber};
use crate::rows::Rows;
use ee_calculator::Bond;
use ee_units::{Customer, Day, Serial};
use ee_value::RateRow;
use std::alloc::AllocError;

/// An act that a desk asks for. It is done whole or not at all.
#[derive(Debug, PartialEq, Eq, Drop)]
pub enum Act {
    /// Enters rates, 1 to 500 rows.
    AddRates(Rows<RateRow>),
    /// Registers bonds, 1 to 500 rows.
    AddBonds(Rows<Bond>),
    /// Opens a day. Only one day is open at a time, and each day opened is later than those before.
    OpenDay(Day),
    /// Pays 1 to 100 bonds to their owner or coowner on one ticket of the open day.
    Redeem {
        day: Day,
        payee: Customer,
        serials: Rows<Serial>,
    },
    /// Closes the open day, with the batch of its tickets.
    CloseDay(Day),
}

/// An act under a desk and a number. It acts at most once.
#[derive(Debug, Drop)]
pub struct Request {
    pub desk: Desk,
    pub number: Number,
    pub act: Act,
}

impl Request {
    /// The desk and the number, which identify this request.
    pub fn request_number(&self) -> RequestNumber
        ensures { result ≡ number_of self.now }
    {
        RequestNumber::new(self.desk, self.number)
    }
}

impl Act {
    /// A copy. Fails only if memory is refused.
    pub fn copy(&self) -> Result<Act, AllocError>
        ensures { IfOk result (λ a. a ≡ self.now) }
    {
        Ok(match self {
            Act::AddRates(rows) => Act::AddRates(rows.copy()?),
            Act::AddBonds(rows) => Act::AddBonds(rows.copy()?),
            Act::OpenDay(day) => Act::OpenDay(*day),
            Act::Redeem {
                day,
                payee,
                serials,
            } => Act::Redeem {
                day: *day,
                payee: *payee,
                serials: serials.copy()?,
            },
            Act::CloseDay(day) => Act::CloseDay(*day),
        })
    }

    /// Whether both are the same act.
    pub fn is_same(&self, other: &Act) -> bool
        ensures { result ≡ same_act self.now other.now }
    {
        match (self, other) {
            (Act::AddBonds(one), Act::AddBonds(other)) => same_bonds(
                one.as_slice(),
                other.as_slice(),
            ),
            _ => *self == *other,
        }
    }
}

fn same_bonds(one: &[Bond], other: &[Bond]) -> bool
    ensures { result ≡ pointwise same_bond one.now other.now }
{
    if one.len() != other.len() {
        return false;
    }
    for (i, bond) in one.iter().enumerate() {
        if *bond != other[i] {
            return false;
        }
    }
    true
}
