//! The parts of books, as they are made of rows.

use ee_desk_model::{Batch, Held, RateRow, Ticket};
use ee_units::Day;

/// The parts of books. Their bonds are the rows that were read, so that no bond is in memory twice.
#[derive(Drop)]
pub struct ReadParts {
    /// The rates, by month.
    pub rates: Vec<RateRow>,
    /// The bonds, by serial number, each with the ticket that its row names.
    pub bonds: Vec<Held>,
    /// The open day.
    pub day: Option<Day>,
    /// The last closed day.
    pub last_day: Option<Day>,
    /// The tickets, by number.
    pub tickets: Vec<Ticket>,
    /// The batches, by day.
    pub batches: Vec<Batch>,
}
