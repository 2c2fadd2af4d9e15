//! The rows of the tables, as plain numbers and texts.
//!
//! Months are counted from May 2005, days from 1970-01-01, letters from 1 for A. Rates are in
//! hundredths of a percent, denominations in dollars, all other money in cents.

ghost use Rattle.std.specs.Prelude.{[], ◌∷◌, nat_lt, int_lt};
ghost use Rattle.sqlite.specs.declared.types.Value.TheVariants.{Int};
ghost use Rattle.ee_store_tables.specs.Rows.{desk_columns, rate_columns, ticket_columns, paid_columns, batch_columns};
ghost use Rattle.ee_store_load.specs.Shown as spec;
ghost use Rattle.ee_store_load.specs.Inner.Shown as inner;

use crate::reading::StoredRow;
use ee_store_schema::{OpenFault, StoredAnswer};
use sqlite::Row;

/// The desk's row.
#[derive(Clone, Copy)]
pub struct StoredDesk {
    /// The key, which is 1.
    pub id: u64,
    /// The version of the tables.
    pub version: u64,
    /// The open day, if one is open.
    pub day: Option<u64>,
    /// The last closed day, if there is one.
    pub last_day: Option<u64>,
}

/// A rate of the bonds issued in a period: the fixed rate, or that of extended maturity.
#[derive(Clone, Copy)]
pub struct StoredRate {
    /// The first month of the period.
    pub period: u64,
    /// The rate, in hundredths of a percent.
    pub rate: u64,
}

/// A ticket without its lines.
#[derive(Clone, Copy)]
pub struct StoredTicket {
    /// The number of the ticket.
    pub ticket: u64,
    /// The day of payment.
    pub day: u64,
    /// The customer who was paid.
    pub payee: u64,
    /// The number of bonds on the ticket.
    pub bonds: u64,
    /// The total, in cents.
    pub total: u64,
}

/// A line of a ticket: a bond, and what it was paid.
#[derive(Clone, Copy)]
pub struct StoredLine {
    /// The number of the ticket.
    pub ticket: u64,
    /// The place on the ticket, from 1.
    pub place: u64,
    /// The letter of the bond's serial number.
    pub letter: u64,
    /// The number of the bond's serial number.
    pub number: u64,
    /// The payment, in cents.
    pub cents: u64,
}

/// The sums of a closed day.
#[derive(Clone, Copy)]
pub struct StoredBatch {
    /// The day.
    pub day: u64,
    /// The number of tickets on that day.
    pub tickets: u64,
    /// The number of bonds on them.
    pub bonds: u64,
    /// Their total, in cents.
    pub total: u64,
}

/// The act and the reply that a store of version 1 keeps under a number, as texts.
#[derive(Drop)]
pub struct StoredReply {
    /// The number of the request.
    pub number: u64,
    /// The canonical text of the act.
    pub act: String,
    /// The text of the reply.
    pub reply: String,
}

/// The rowid of a row in a table with another key.
#[derive(Clone, Copy)]
pub struct Rowid {
    /// The number.
    pub rowid: i64,
}

impl StoredRow for StoredDesk {
    ghost shown = { spec.desk_shown };

    ghost is_readable = { spec.IsKeyed desk_columns };

    ghost stands_before = { λ a b. nat_lt a.id b.id };

    fn read(row: &Row) -> Result<StoredDesk, OpenFault> {
        if row.column_count() != 4 {
            return Err(OpenFault::Unusable);
        }
        Ok(StoredDesk {
            id: row.get(0)?,
            version: row.get(1)?,
            day: row.get(2)?,
            last_day: row.get(3)?,
        })
    }

    fn precedes(&self, next: &StoredDesk) -> bool {
        self.id < next.id
    }
}

impl StoredRow for StoredRate {
    ghost shown = { spec.rate_shown };

    ghost is_readable = { spec.IsKeyed rate_columns };

    ghost stands_before = { λ a b. nat_lt a.period b.period };

    fn read(row: &Row) -> Result<StoredRate, OpenFault> {
        if row.column_count() != 2 {
            return Err(OpenFault::Unusable);
        }
        Ok(StoredRate {
            period: row.get(0)?,
            rate: row.get(1)?,
        })
    }

    fn precedes(&self, next: &StoredRate) -> bool {
        self.period < next.period
    }
}

impl StoredRow for StoredTicket {
    ghost shown = { spec.ticket_shown };

    ghost is_readable = { spec.IsKeyed ticket_columns };

    ghost stands_before = { λ a b. nat_lt a.ticket b.ticket };

    fn read(row: &Row) -> Result<StoredTicket, OpenFault> {
        if row.column_count() != 5 {
            return Err(OpenFault::Unusable);
        }
        Ok(StoredTicket {
            ticket: row.get(0)?,
            day: row.get(1)?,
            payee: row.get(2)?,
            bonds: row.get(3)?,
            total: row.get(4)?,
        })
    }

    fn precedes(&self, next: &StoredTicket) -> bool {
        self.ticket < next.ticket
    }
}

impl StoredRow for StoredLine {
    ghost shown = { spec.line_shown };

    ghost is_readable = { spec.IsPaired paid_columns };

    ghost stands_before = { λ a b. spec.pair_lt (a.ticket, a.place) (b.ticket, b.place) };

    fn read(row: &Row) -> Result<StoredLine, OpenFault> {
        if row.column_count() != 5 {
            return Err(OpenFault::Unusable);
        }
        Ok(StoredLine {
            ticket: row.get(0)?,
            place: row.get(1)?,
            letter: row.get(2)?,
            number: row.get(3)?,
            cents: row.get(4)?,
        })
    }

    fn precedes(&self, next: &StoredLine) -> bool {
        self.ticket < next.ticket || (self.ticket == next.ticket && self.place < next.place)
    }
}

impl StoredRow for StoredBatch {
    ghost shown = { spec.batch_shown };

    ghost is_readable = { spec.IsKeyed batch_columns };

    ghost stands_before = { λ a b. nat_lt a.day b.day };

    fn read(row: &Row) -> Result<StoredBatch, OpenFault> {
        if row.column_count() != 4 {
            return Err(OpenFault::Unusable);
        }
        Ok(StoredBatch {
            day: row.get(0)?,
            tickets: row.get(1)?,
            bonds: row.get(2)?,
            total: row.get(3)?,
        })
    }

    fn precedes(&self, next: &StoredBatch) -> bool {
        self.day < next.day
    }
}

impl StoredRow for StoredReply {
    ghost shown = { spec.reply_shown };

    ghost is_readable = { spec.IsReply };

    ghost stands_before = { λ a b. nat_lt a.number b.number };

    fn read(row: &Row) -> Result<StoredReply, OpenFault> {
        if row.column_count() != 3 {
            return Err(OpenFault::Unusable);
        }
        Ok(StoredReply {
            number: row.get(0)?,
            act: row.get(1)?,
            reply: row.get(2)?,
        })
    }

    fn precedes(&self, next: &StoredReply) -> bool {
        self.number < next.number
    }
}

impl StoredRow for StoredAnswer {
    ghost shown = { inner.answer_shown };

    ghost is_readable = { inner.IsAnswerRow };

    ghost stands_before = { λ a b. spec.pair_lt (a.desk, a.number) (b.desk, b.number) };

    fn read(row: &Row) -> Result<StoredAnswer, OpenFault> {
        if row.column_count() != 4 {
            return Err(OpenFault::Unusable);
        }
        Ok(StoredAnswer {
            desk: row.get(0)?,
            number: row.get(1)?,
            act: row.get(2)?,
            reply: row.get(3)?,
        })
    }

    fn precedes(&self, next: &StoredAnswer) -> bool {
        self.desk < next.desk || (self.desk == next.desk && self.number < next.number)
    }
}

impl StoredRow for Rowid {
    ghost shown = { λ it. Int it.rowid ∷ [] };

    ghost is_readable = { inner.IsRowid };

    ghost stands_before = { λ a b. int_lt a.rowid b.rowid };

    fn read(row: &Row) -> Result<Rowid, OpenFault> {
        if row.column_count() != 1 {
            return Err(OpenFault::Unusable);
        }
        Ok(Rowid { rowid: row.get(0)? })
    }

    fn precedes(&self, next: &Rowid) -> bool {
        self.rowid < next.rowid
    }
}
