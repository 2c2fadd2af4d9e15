//! Rates, each with its extension.

ghost use Rattle.std.specs.Prelude.{◌≡◌, IfOk, option_map};
ghost use Rattle.ee_store_contents.specs.Inner.Reading.{optional_in, other_rate, rate_in, extension_of, after_extension, rates_in};

use ee_desk_model::RateRow;
use ee_store_load::StoredRate;
use ee_units::{IssueMonth, Rate};
use ee_value::Rates;
use std::alloc::{AllocError, Global};

/// A rate that differs from the fixed one.
fn other_rate(fixed: Rate, hundredths: u64) -> Option<Rate>
    ensures { result ≡ other_rate fixed hundredths }
{
    let rate = Rate::new(hundredths)?;
    if rate == fixed {
        return None;
    }
    Some(rate)
}

/// An optional extension; if there is one, it differs from the fixed rate.
fn optional_extension(fixed: Rate, hundredths: Option<u64>) -> Option<Option<Rate>>
    ensures { result ≡ optional_in (other_rate fixed) hundredths }
{
    match hundredths {
        None => Some(None),
        Some(hundredths) => {
            let extension = other_rate(fixed, hundredths)?;
            Some(Some(extension))
        }
    }
}

#[tactic(auto, unfolding(crate::specs::Inner::Reading::rate_in))]
fn rate_in(extension: Option<u64>, row: &StoredRate) -> Option<RateRow>
    ensures { result ≡ rate_in extension row.now }
{
    let from = IssueMonth::new(row.period)?;
    let fixed = Rate::new(row.rate)?;
    let other = optional_extension(fixed, extension)?;
    Some(RateRow {
        from,
        rates: Rates::new(fixed, other),
    })
}

/// The extension of a period, if the first row is of that period, and the rows after it.
fn split_extension(period: u64, rows: &[StoredRate]) -> (Option<u64>, &[StoredRate])
    ensures extension { result.0 ≡ extension_of period rows.now }
    ensures rest { result.1.now ≡ after_extension period rows.now }
{
    let Some((row, rest)) = rows.split_first() else {
        return (None, rows);
    };
    if row.period == period {
        (Some(row.rate), rest)
    } else {
        (None, rows)
    }
}

/// The rates of rows, each with its extension; `None` if an extension is left over.
pub fn rates_in(
    alloc: Global,
    rows: &[StoredRate],
    extensions: &[StoredRate],
) -> Result<Option<Vec<RateRow>>, AllocError>
    ensures { IfOk result (λ o. option_map (λ v. v.items) o ≡ rates_in rows.now extensions.now) }
{
    let mut rates = Vec::new(alloc);
    let mut rest = extensions;
    for row in rows {
        let (extension, later) = split_extension(row.period, rest);
        let Some(rate) = rate_in(extension, row) else {
            return Ok(None);
        };
        rates.push(rate)?;
        rest = later;
    }
    if rest.is_empty() {
        Ok(Some(rates))
    } else {
        Ok(None)
    }
}
