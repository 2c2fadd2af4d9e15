//! Rows as plain numbers and texts.
//!
//! Months are counted from May 2005, days from 1970-01-01, letters from 1 for A. Rates are in
//! hundredths of a percent, denominations in dollars, all other money in cents.

/// The desk's row: the version of the tables, the open day, and the last closed day.
#[derive(Clone, Copy, Debug)]
pub struct DeskRow {
    /// The version of the tables.
    pub version: u64,
    /// The open day, if one is open.
    pub day: Option<u64>,
    /// The last closed day, if there is one.
    pub last_day: Option<u64>,
}

/// A rate of the bonds issued in a period: the fixed rate, or that of extended maturity.
#[derive(Clone, Copy)]
pub struct PeriodRate {
    /// The first month of the period.
    pub period: u64,
    /// The rate, in hundredths of a percent.
    pub rate: u64,
}

/// A serial number.
#[derive(Clone, Copy)]
pub struct SerialKey {
    /// The letter, 1 for A.
    pub letter: u64,
    /// The number, up to 9,999,999,999.
    pub number: u64,
}

/// A registered bond, and the ticket that paid it.
#[derive(Clone, Copy, Debug)]
pub struct BondRow {
    /// The denomination in dollars.
    pub denom: u64,
    /// The issue month.
    pub issued: u64,
    /// The customer who is the owner.
    pub owner: u64,
    /// The customer who is the coowner, if there is one.
    pub coowner: Option<u64>,
    /// The number of the ticket that paid it, if one did.
    pub ticket: Option<u64>,
}

/// An unpaid bond, with its serial number.
#[derive(Clone, Copy, Debug)]
pub struct UnpaidBond {
    /// The letter of its serial number, 1 for A.
    pub letter: u64,
    /// The number of its serial number.
    pub number: u64,
    /// The denomination in dollars.
    pub denom: u64,
    /// The issue month.
    pub issued: u64,
    /// The customer who is the owner.
    pub owner: u64,
    /// The customer who is the coowner, if there is one.
    pub coowner: Option<u64>,
}

/// A ticket without its lines.
#[derive(Clone, Copy, Debug)]
pub struct TicketRow {
    /// The day of payment.
    pub day: u64,
    /// The customer who was paid.
    pub payee: u64,
    /// The number of bonds on the ticket.
    pub bonds: u64,
    /// The total, in cents.
    pub total: u64,
}

/// The sums of a ticket, with its number.
#[derive(Clone, Copy, Debug)]
pub struct TicketSum {
    /// The number of the ticket.
    pub ticket: u64,
    /// The number of bonds on the ticket.
    pub bonds: u64,
    /// The total, in cents.
    pub total: u64,
}

/// A line of a ticket: a bond, and what it was paid.
#[derive(Clone, Copy)]
pub struct PaidRow {
    /// The letter of the bond's serial number.
    pub letter: u64,
    /// The number of the bond's serial number.
    pub number: u64,
    /// The payment, in cents.
    pub cents: u64,
}

/// A line of a ticket, with its place on the ticket.
#[derive(Clone, Copy, Debug)]
pub struct PlacedLine {
    /// The place, from 1.
    pub place: u64,
    /// The letter of the bond's serial number.
    pub letter: u64,
    /// The number of the bond's serial number.
    pub number: u64,
    /// The payment, in cents.
    pub cents: u64,
}

/// The sums of a closed day.
#[derive(Clone, Copy, Debug)]
pub struct BatchRow {
    /// The number of tickets on that day.
    pub tickets: u64,
    /// The number of bonds on them.
    pub bonds: u64,
    /// Their total, in cents.
    pub total: u64,
}

/// The act and the reply under a desk and a number, as texts.
#[derive(Drop)]
pub struct ReplyRow {
    /// The canonical text of the act.
    pub act: String,
    /// The text of the reply.
    pub reply: String,
}
