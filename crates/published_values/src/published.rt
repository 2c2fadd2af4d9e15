//! The values that Treasury published.

use anyhow::{Context, Result};
use csv::StringRecord;
use ee_units::{Cents, IssueMonth, Month};
use std::fmt;

/// A row of Treasury's tables: what 25 dollars of denomination, issued in one month, paid in another.
#[derive(Clone, Copy, Debug, PartialEq, Eq)]
pub struct Published {
    pub issued: IssueMonth,
    pub redeemed: Month,
    pub unit: Cents,
}

impl Published {
    /// Reads the row of a record with the columns `issued,redeemed,unit_cents`.
    pub fn from_record(record: Option<StringRecord>) -> Result<Published> {
        Published::of_fields(&record.context("the published values can't be read")?)
    }

    fn of_fields(record: &StringRecord) -> Result<Published> {
        let issued = record.get(0).context("no issue month")?;
        let redeemed = record.get(1).context("no month of redemption")?;
        let unit = record.get(2).context("no value")?;
        Ok(Published {
            issued: issued.parse()?,
            redeemed: redeemed.parse()?,
            unit: Cents(unit.parse().ok().context("no number of cents")?),
        })
    }
}

impl fmt::Display for Published {
    fn fmt<W: fmt::Write>(&self, f: &mut fmt::Formatter<W>) -> fmt::Result {
        let (issued, redeemed, unit) = (self.issued, self.redeemed, self.unit);
        write!(f, "{unit} a unit, issued {issued}, redeemed {redeemed}")
    }
}
