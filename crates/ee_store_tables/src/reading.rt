//! Reading the rows of a query.

ghost use Rattle.std.specs.Prelude.{◌≡◌, ℕ, List, Option, option_map, IfOk, IfErr, map, [], ◌∷◌};
ghost use Rattle.std.specs.Option.{option_to_list};
ghost use Rattle.sqlite.specs.Order.{Row as Columns};
ghost use Rattle.ee_store_tables.specs.Rows.{number as number_in_store};
ghost use Rattle.ee_store_tables.specs.Inner.Statements.{IsMemory};

use crate::failures::Failure;
use sqlite::{Error, Row};
use std::alloc::Global;

/// The type that a row of a query is read as.
pub trait QueryRow: Sized {
    // The columns in which the query shows it.
    ghost shown: { Self → Columns };

    /// Reads a row.
    fn read(row: &Row) -> Result<Self, Failure>
        ensures exact { IfOk result (λ found. row.now ≡ shown found) }
        ensures memory { IfErr result (λ failure. (found : Self) → row.now ≡ shown found → failure ≡ Failure.NoMemory) };
}

/// Reads the rows of a query, in order.
pub(crate) fn read_each<T: QueryRow + Drop>(alloc: Global, rows: &[Row]) -> Result<Vec<T>, Failure>
    ensures exact { IfOk result (λ found. rows.now ≡ map T.shown found.items) }
    ensures memory { IfErr result (λ failure. (all : List T) → rows.now ≡ map T.shown all → failure ≡ Failure.NoMemory) }
{
    let mut found = Vec::with_capacity(alloc, rows.len())?;
    for row in rows {
        let next = T::read(row)?;
        if found.push(next).is_err() {
            return Err(Failure::NoMemory);
        }
    }
    Ok(found)
}

/// The number that a query of one number found, if it found one.
pub(crate) fn read_number(rows: &[Row]) -> Result<Option<u64>, Error>
    ensures found { IfOk result (λ found. (number : Option ℕ) → rows.now ≡ option_to_list (option_map (λ n. number_in_store n ∷ []) number) → found ≡ number) }
    ensures memory { IfErr result (λ e. (number : Option ℕ) → rows.now ≡ option_to_list (option_map (λ n. number_in_store n ∷ []) number) → IsMemory e) }
{
    match rows.first() {
        None => Ok(None),
        Some(row) => Ok(Some(row.get(0)?)),
    }
}
