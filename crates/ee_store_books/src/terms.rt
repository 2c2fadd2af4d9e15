//! The terms of periods, read in a transaction.

ghost use Rattle.std.specs.Prelude.{◌≡◌, ◌≤◌, None, IfSome, IfOk, IfErr, OnOk, option_map, option_and_then, ⊤};
ghost use Rattle.std.specs.Result.{IsOk};
ghost use Rattle.std.specs.FinMap as finite;
ghost use Rattle.sqlite.specs.Held.{state};
ghost use Rattle.ee_units.specs.Limits.{highest_rate};
ghost use Rattle.ee_value.specs.Chain.{InRange, rates_with, named_extension};
ghost use Rattle.ee_desk_model.specs.Values.{unsettled};
ghost use Rattle.ee_desk_model.specs.Views.{picked};
ghost use Rattle.ee_store_books.specs.Causes.{FailsByCause};
ghost use Rattle.ee_store_books.specs.Found.{terms_found, with_found};
ghost use Rattle.ee_store_books.specs.Seen.{FindsIn, OnlyReads};

use ee_desk_model::{Terms, UnitTables};
use ee_store_tables::{Failure, find_extension, find_rate};
use ee_units::{IssueMonth, Rate};
use ee_value::{Rates, ValueFault};
use sqlite::{Alter, Transaction};
use std::alloc::{AllocError, Global};
use std::collections::BTreeMap;

/// The terms of rates, with their kept table.
fn terms_of(alloc: Global, tables: &mut UnitTables, rates: Rates) -> Result<Terms, Failure>
    ensures value { IfOk result (λ terms. terms ≡ rates) }
    ensures read { unsettled rates ≡ None → IfErr result (λ e. e ≡ Failure.NoMemory) }
{
    match tables.add(alloc, rates) {
        Ok(terms) => Ok(terms),
        Err(ValueFault::NoMemory) => Err(Failure::NoMemory),
        Err(ValueFault::Unsettled { .. }) => Err(Failure::StoreFailed),
    }
}

/// The fixed rate of a period, in hundredths of a percent, and its extension if there is one.
fn find_rates<S: Alter>(
    tx: &mut Transaction<'_, S>,
    period: IssueMonth,
) -> Result<(Option<u64>, Option<u64>), Failure>
    ensures same_reference { tx.new.conn.ghost_name ≡ tx.old.conn.ghost_name }
    ensures only_reads { OnlyReads (state S.Store tx.old.conn.now) (state S.Store tx.new.conn.now) result }
    ensures found { FindsIn (state S.Store tx.old.conn.now) (state S.Store tx.new.conn.now) result
        (λ content found. (found.0 ≡ option_map (λ rates. rates.fixed) (finite.get content.books.rates period))
        × (found.1 ≡ option_and_then named_extension (finite.get content.books.rates period))) }
    ensures cause { FailsByCause (state S.Store tx.old.conn.now) (state S.Store tx.new.conn.now) result (λ _. ⊤) }
{
    let key = period.count() as u64;
    let fixed = find_rate(tx, key)?;
    let extension = find_extension(tx, key)?;
    Ok((fixed, extension))
}

/// The rate in a row, in hundredths of a percent.
fn rate_shown(hundredths: u64) -> Result<Rate, Failure>
    ensures value { IfOk result (λ rate. rate ≡ hundredths) }
    ensures read { hundredths ≤ highest_rate → IsOk result }
{
    match Rate::new(hundredths) {
        Some(rate) => Ok(rate),
        None => Err(Failure::StoreFailed),
    }
}

/// The rates in rows.
fn rates_shown(fixed: u64, extension: Option<u64>) -> Result<Rates, Failure>
    ensures value { IfOk result (λ rates. rates ≡ rates_with fixed extension) }
    ensures read { InRange (rates_with fixed extension) → IsOk result }
{
    let fixed = rate_shown(fixed)?;
    match extension {
        None => Ok(Rates::new(fixed, None)),
        Some(extension) => Ok(Rates::new(fixed, Some(rate_shown(extension)?))),
    }
}

/// The terms that look-ups found.
fn terms_shown(
    alloc: Global,
    tables: &mut UnitTables,
    found: (Option<u64>, Option<u64>),
) -> Result<Option<Terms>, Failure>
    ensures value { IfOk result (λ terms. terms ≡ option_map (λ fixed. rates_with fixed found.1) found.0) }
    ensures read { IfSome found.0 (λ fixed. InRange (rates_with fixed found.1) × (unsettled (rates_with fixed found.1) ≡ None))
        → IfErr result (λ e. e ≡ Failure.NoMemory) }
{
    let (fixed, extension) = found;
    match fixed {
        None => Ok(None),
        Some(fixed) => {
            let rates = rates_shown(fixed, extension)?;
            Ok(Some(terms_of(alloc, tables, rates)?))
        }
    }
}

/// The terms of a period.
pub fn find_terms<S: Alter>(
    tx: &mut Transaction<'_, S>,
    alloc: Global,
    tables: &mut UnitTables,
    period: IssueMonth,
) -> Result<Option<Terms>, Failure>
    ensures same_reference { tx.new.conn.ghost_name ≡ tx.old.conn.ghost_name }
    ensures only_reads { OnlyReads (state S.Store tx.old.conn.now) (state S.Store tx.new.conn.now) result }
    ensures found { FindsIn (state S.Store tx.old.conn.now) (state S.Store tx.new.conn.now) result
        (λ content terms. terms ≡ finite.get content.books.rates period) }
    ensures cause { FailsByCause (state S.Store tx.old.conn.now) (state S.Store tx.new.conn.now) result (λ _. ⊤) }
{
    let found = find_rates(tx, period)?;
    terms_shown(alloc, tables, found)
}

fn put(
    found: &mut BTreeMap<IssueMonth, Terms>,
    period: IssueMonth,
    terms: Terms,
) -> Result<(), AllocError>
    ensures { OnOk result (terms_found found.new.entries ≡ finite.insert (terms_found found.old.entries) period terms) }
{
    found.insert(period, terms)?;
    Ok(())
}

/// Notes the terms of a period, if it has any.
pub fn note_terms(
    found: &mut BTreeMap<IssueMonth, Terms>,
    period: IssueMonth,
    terms: Option<Terms>,
) -> Result<(), AllocError>
    ensures { OnOk result (terms_found found.new.entries ≡ with_found (terms_found found.old.entries) period terms) }
{
    match terms {
        Some(terms) => put(found, period, terms),
        None => Ok(()),
    }
}

/// An empty map of terms. Takes no memory.
pub fn no_terms(alloc: Global) -> BTreeMap<IssueMonth, Terms>
    ensures { terms_found result.entries ≡ finite.empty }
{
    BTreeMap::new(alloc)
}

/// The terms of periods.
pub fn terms_in<S: Alter>(
    tx: &mut Transaction<'_, S>,
    alloc: Global,
    tables: &mut UnitTables,
    periods: &[IssueMonth],
) -> Result<BTreeMap<IssueMonth, Terms>, Failure>
    ensures same_reference { tx.new.conn.ghost_name ≡ tx.old.conn.ghost_name }
    ensures only_reads { OnlyReads (state S.Store tx.old.conn.now) (state S.Store tx.new.conn.now) result }
    ensures found { FindsIn (state S.Store tx.old.conn.now) (state S.Store tx.new.conn.now) result
        (λ content found. terms_found found.entries ≡ picked (finite.get content.books.rates) periods.now) }
    ensures cause { FailsByCause (state S.Store tx.old.conn.now) (state S.Store tx.new.conn.now) result (λ _. ⊤) }
{
    let mut found = no_terms(alloc);
    for period in periods {
        let terms = find_terms(tx, alloc, tables, *period)?;
        note_terms(&mut found, *period, terms)?;
    }
    Ok(found)
}
