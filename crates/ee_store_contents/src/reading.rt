//! The values that the rows of one table represent.

ghost use Rattle.std.specs.Prelude.{◌≡◌, IfOk, option_map};
ghost use Rattle.ee_store_contents.specs.Inner.Reading.{each, optional_in, day_in, days_of, days_in, batch_in};

use ee_desk_model::Batch;
use ee_store_load::{StoredBatch, StoredDesk};
use ee_units::{Cents, Day};
use std::alloc::{AllocError, Global};

/// The open day and the last closed day.
#[derive(Clone, Copy)]
pub struct Days {
    /// The open day.
    pub day: Option<Day>,
    /// The last closed day.
    pub last_day: Option<Day>,
}

fn optional_day(count: Option<u64>) -> Option<Option<Day>>
    ensures { result ≡ optional_in day_in count }
{
    match count {
        None => Some(None),
        Some(count) => {
            let day = Day::new(count)?;
            Some(Some(day))
        }
    }
}

#[tactic(auto, unfolding(crate::specs::Inner::Reading::days_of))]
fn days_of(row: &StoredDesk) -> Option<Days>
    ensures { result ≡ days_of row.now }
{
    let day = optional_day(row.day)?;
    let last_day = optional_day(row.last_day)?;
    Some(Days { day, last_day })
}

/// The days in the desk's one row, if the row is of this version.
pub fn days_in(version: u64, rows: &[StoredDesk]) -> Option<Days>
    ensures { result ≡ days_in version rows.now }
{
    let (row, rest) = rows.split_first()?;
    if !rest.is_empty() {
        return None;
    }
    if row.id == 1 && row.version == version {
        days_of(row)
    } else {
        None
    }
}

#[tactic(auto, unfolding(crate::specs::Inner::Reading::batch_in))]
fn batch_in(row: &StoredBatch) -> Option<Batch>
    ensures { result ≡ batch_in row.now }
{
    let day = Day::new(row.day)?;
    Some(Batch {
        day,
        tickets: row.tickets,
        bonds: row.bonds,
        total: Cents(row.total),
    })
}

/// The batches of rows.
pub fn batches_in(alloc: Global, rows: &[StoredBatch]) -> Result<Option<Vec<Batch>>, AllocError>
    ensures { IfOk result (λ o. option_map (λ v. v.items) o ≡ each batch_in rows.now) }
{
    let mut batches = Vec::new(alloc);
    for row in rows {
        let Some(batch) = batch_in(row) else {
            return Ok(None);
        };
        batches.push(batch)?;
    }
    Ok(Some(batches))
}
