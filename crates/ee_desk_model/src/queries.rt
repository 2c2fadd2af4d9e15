//! Queries of the books, and what they show.

use crate::replies::{Batch, Ticket};
use ee_calculator::{Bond, Row, Sheet};
use ee_units::{Customer, Day, Denom, IssueMonth, Month};

/// A query of the books, which changes nothing.
#[derive(Clone, Copy, Debug)]
pub enum Query {
    /// The sheet, in a month, of the unpaid bonds whose owner is this customer.
    Inventory {
        customer: Customer,
        month: Month,
    },
    /// The unpaid bonds whose owner is this customer. No message asks for them.
    Bonds(Customer),
    /// The ticket with this number.
    Ticket(u64),
    /// The batch of a day.
    Batch(Day),
    /// The row, in a month, of a bond that may not be registered.
    Value {
        denom: Denom,
        issued: IssueMonth,
        month: Month,
    },
}

/// What the books show for a query.
#[derive(Drop)]
pub enum Shown {
    /// The sheet of an owner's unpaid bonds.
    Sheet(Sheet),
    /// An owner's unpaid bonds, in order of serial number.
    Bonds(Vec<Bond>),
    /// The ticket, or `None` if there is none with that number.
    Ticket(Option<Ticket>),
    /// The batch, or `None` if that day isn't closed.
    Batch(Option<Batch>),
    /// The row of a bond, or `None` if its issue period has no rates.
    Row(Option<Row>),
}
