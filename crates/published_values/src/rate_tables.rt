//! This product's unit values, by rate period.

ghost use Rattle.std.specs.Prelude.{◌≡◌, ◌↔◌, IsTrue};
ghost use Rattle.std.specs.Option.{option_copied};
ghost use Rattle.std.specs.Ordering.{nat_cmp};
ghost use Rattle.std.specs.BTreeMap.{get};
ghost use Rattle.ee_units.specs.Calendar.{age_of, period_start};
ghost use Rattle.published_values.specs.Inner.Agreement.{Pays, PaysOf};

use crate::published::Published;
use anyhow::{Context, Result};
use csv::{Reader, StringRecord};
use ee_units::{Age, Bits, Cents, Denom, IssueMonth, Rate, calendar, units};
use ee_value::{Quote, Rates, UnitTable, bond_value, unit_table};
use std::alloc::Global;
use std::collections::BTreeMap;
use std::fs::File;

/// The unit values of each rate period, by the first month of the period.
#[derive(Drop)]
pub struct RateTables {
    periods: BTreeMap<IssueMonth, UnitTable>,
}

impl RateTables {
    /// Makes the tables from rows with the columns `from,rate`.
    pub fn of_rows(alloc: Global, mut rows: Reader<File>) -> Result<RateTables> {
        let mut tables = RateTables {
            periods: BTreeMap::new(alloc),
        };
        for record in rows.records() {
            tables.add(alloc, record.ok())?;
        }
        Ok(tables)
    }

    /// Adds the table of a record.
    fn add(&mut self, alloc: Global, record: Option<StringRecord>) -> Result<()> {
        let (from, rate) = period(&record.context("the rates can't be read")?)?;
        let table = unit_table(alloc, Rates::new(rate, None), Bits::from_places(62))?;
        self.periods.insert(from, table)?;
        Ok(())
    }

    /// Whether a bond of this issue month pays the published value in this month.
    pub fn agree_with(&self, row: &Published) -> bool
        ensures { IsTrue result ↔ PaysOf (get nat_cmp self.now.periods (period_start row.now.issued))
            (age_of row.now.issued row.now.redeemed) row.now.unit.0 }
    {
        let Some(table) = self.table_of(row.issued) else {
            return false;
        };
        match calendar::age(row.issued, row.redeemed) {
            Some(age) => pays(table, age, row.unit),
            None => false,
        }
    }

    fn table_of(&self, issued: IssueMonth) -> Option<&UnitTable>
        ensures { option_copied result ≡ get nat_cmp self.now.periods (period_start issued) }
    {
        self.periods.get(&calendar::period_of(issued))
    }
}

fn period(record: &StringRecord) -> Result<(IssueMonth, Rate)> {
    let from = record.get(0).context("no first month")?;
    let rate = record.get(1).context("no rate")?;
    Ok((from.parse()?, rate.parse()?))
}

/// Whether a unit pays `unit` at an age: 50 dollars of denomination are two units.
fn pays(table: &UnitTable, age: Age, unit: Cents) -> bool
    ensures { IsTrue result ↔ Pays table.now age unit.0 }
{
    match bond_value(table, Denom::Fifty, age) {
        Quote::NotEligible => false,
        Quote::Pays { cents, .. } => Some(cents.0) == unit.0.checked_mul(units(Denom::Fifty)),
    }
}
