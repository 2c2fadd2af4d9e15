//! Compares the redemption values of the US Treasury's tables with those of this product, row by row.
//! Prints the first rows that differ, and how many are equal.
#![tactic(auto)]

mod published;
mod rate_tables;

use anyhow::{Context, Result};
use csv::Reader;
use published::Published;
use rate_tables::RateTables;
use std::fs::File;

/// The number of differing rows that are printed at most.
const SHOWN: u64 = 10;

/// How many rows were compared, and how many differ.
#[derive(Clone, Copy)]
struct Tally {
    compared: u64,
    differing: u64,
}

fn main(rt: HostRuntime) -> Result<()> {
    let rates = opened(&rt, "rates.csv").context("rates.csv doesn't open")?;
    let tables = RateTables::of_rows(rt.alloc(), rates)?;
    let rows = opened(&rt, "published-values.csv").context("published-values.csv doesn't open")?;
    let tally = compare(&rt, &tables, rows)?;
    let compared = tally.compared;
    let equal = compared.saturating_sub(tally.differing);
    println!(rt; "compared {compared} rows: {equal} equal")?;
    Ok(())
}

/// Opens the file of rows at a path; `None` if it can't be opened.
fn opened(rt: &HostRuntime, path: &str) -> Option<Reader<File>> {
    Reader::from_path(rt, rt.alloc(), path).ok()
}

/// Compares each row with this product's value.
fn compare(rt: &HostRuntime, tables: &RateTables, mut rows: Reader<File>) -> Result<Tally> {
    let mut tally = Tally {
        compared: 0,
        differing: 0,
    };
    for record in rows.records() {
        let row = Published::from_record(record.ok())?;
        tally = counted(rt, tally, row, tables.agree_with(&row))?;
    }
    Ok(tally)
}

/// Counts a row, and prints it if it is among the first that differ.
fn counted(rt: &HostRuntime, tally: Tally, row: Published, agrees: bool) -> Result<Tally> {
    let differing = tally.differing.saturating_add(u64::from(!agrees));
    if !agrees && differing <= SHOWN {
        println!(rt; "differs: {row}")?;
    }
    Ok(Tally {
        compared: tally.compared.saturating_add(1),
        differing,
    })
}
