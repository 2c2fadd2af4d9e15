//! Limits of an act and of a day (this project's rules).

/// The maximum number of rows of rates or of bonds in one act.
pub const MOST_ROWS: usize = 500;

/// The maximum number of serial numbers in one redemption, and so of lines on a ticket.
pub const MOST_SERIALS: usize = 100;

/// The maximum number of tickets of one day.
pub const MOST_DAY_TICKETS: u64 = 1000;
