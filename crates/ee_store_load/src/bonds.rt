//! The rows of the register, read as bonds.

ghost use Rattle.std.specs.Prelude.{◌≡◌, ◌≢◌, IfOk, IfErr, IfSome, IsSome};
ghost use Rattle.ee_store_tables.specs.AsRows.{key_of as key_in, row_of_bond};
ghost use Rattle.ee_store_tables.specs.Rows.{bond_columns};
ghost use Rattle.ee_store_rows.specs.Rows.{key_of};
ghost use Rattle.ee_store_load.specs.Shown as spec;
ghost use Rattle.ee_store_load.specs.Inner.Shown as inner;

use crate::reading::StoredRow;
use ee_desk_model::Held;
use ee_store_rows::held_from;
use ee_store_schema::OpenFault;
use ee_store_tables::{BondRow, SerialKey};
use ee_units::Serial;
use sqlite::Row;

/// The plain numbers of a row.
fn numbers_in(row: &Row) -> Result<(SerialKey, BondRow), OpenFault>
    ensures exact { IfOk result (λ found. row.now ≡ spec.pair_shown bond_columns (key_in found.0, row_of_bond found.1)) }
    ensures usable { IfErr result (λ e. e ≡ OpenFault.Unusable → ¬ spec.IsPaired bond_columns row.now) }
    ensures other { IfErr result (λ e. e ≢ OpenFault.WrongVersion) }
    ensures cause { IfErr result (λ e. e ≢ OpenFault.StoreFailed) }
{
    if row.column_count() != 7 {
        return Err(OpenFault::Unusable);
    }
    let key = SerialKey {
        letter: row.get(0)?,
        number: row.get(1)?,
    };
    let bond = BondRow {
        denom: row.get(2)?,
        issued: row.get(3)?,
        owner: row.get(4)?,
        coowner: row.get(5)?,
        ticket: row.get(6)?,
    };
    Ok((key, bond))
}

/// The registered bond with these numbers, and the ticket that paid it; `None` if no bond has them.
fn bond_with(key: SerialKey, numbers: BondRow) -> Option<Held>
    ensures shown { IfSome result (λ held. (key_in key, row_of_bond numbers) ≡ spec.bond_entry held) }
    ensures read { spec.IsBond (key_in key, row_of_bond numbers) → IsSome result }
{
    let serial = Serial::new(key.letter, key.number)?;
    held_from(serial, numbers)
}

impl StoredRow for Held {
    ghost shown = { inner.bond_shown };

    ghost is_readable = { inner.IsBondRow };

    ghost stands_before = { λ a b. spec.pair_lt (key_of a.bond.serial) (key_of b.bond.serial) };

    fn read(row: &Row) -> Result<Held, OpenFault> {
        let (key, numbers) = numbers_in(row)?;
        match bond_with(key, numbers) {
            Some(held) => Ok(held),
            None => Err(OpenFault::Unusable),
        }
    }

    fn precedes(&self, next: &Held) -> bool {
        let own = self.bond.serial;
        let other = next.bond.serial;
        own.letter() < other.letter()
            || (own.letter() == other.letter() && own.number() < other.number())
    }
}
