//! Look-ups of bonds in a transaction.

ghost use Rattle.std.specs.Prelude.{◌≡◌, Option, IfSome, IfOk, OnOk, ⊤};
ghost use Rattle.std.specs.Result.{IsOk};
ghost use Rattle.std.specs.Option.{option_map};
ghost use Rattle.std.specs.FinMap as finite;
ghost use Rattle.sqlite.specs.Held.{state};
ghost use Rattle.ee_desk_model.specs.declared.changes.Held.{Held};
ghost use Rattle.ee_desk_model.specs.Seen.{held_of};
ghost use Rattle.ee_desk_model.specs.Views.{picked};
ghost use Rattle.ee_desk_model.specs.Ranges.{BondFits};
ghost use Rattle.ee_store_tables.specs.AsRows.{row_of_bond};
ghost use Rattle.ee_store_rows.specs.Rows.{bond_row};
ghost use Rattle.ee_store_books.specs.Causes.{FailsByCause};
ghost use Rattle.ee_store_books.specs.Found.{bonds_found, with_found};
ghost use Rattle.ee_store_books.specs.Seen.{FindsIn, OnlyReads};

use ee_desk_decide::note_bond;
use ee_desk_model::Held;
use ee_store_rows::held_from;
use ee_store_tables as tables;
use ee_store_tables::{BondRow, Failure, find_bond};
use ee_units::Serial;
use sqlite::{Alter, Transaction};
use std::alloc::{AllocError, Global};
use std::collections::BTreeMap;

/// The result of a look-up of a serial number.
fn held_shown(serial: Serial, found: Option<BondRow>) -> Result<Option<Held>, Failure>
    ensures shown { IfOk result (λ held. (option_map bond_row held ≡ option_map row_of_bond found) × IfSome held (λ held. held.bond.serial ≡ serial)) }
    ensures read { (held : Option Held) → option_map row_of_bond found ≡ option_map bond_row held → IfSome held (λ held. BondFits held.bond) → IsOk result }
{
    match found {
        None => Ok(None),
        Some(row) => match held_from(serial, row) {
            Some(held) => Ok(Some(held)),
            None => Err(Failure::StoreFailed),
        },
    }
}

/// Finds a registered bond, and the ticket that paid it.
fn find_held<S: Alter>(tx: &mut Transaction<'_, S>, serial: Serial) -> Result<Option<Held>, Failure>
    ensures same_reference { tx.new.conn.ghost_name ≡ tx.old.conn.ghost_name }
    ensures only_reads { OnlyReads (state S.Store tx.old.conn.now) (state S.Store tx.new.conn.now) result }
    ensures found { FindsIn (state S.Store tx.old.conn.now) (state S.Store tx.new.conn.now) result (λ content held. held ≡ held_of content.books serial) }
    ensures cause { FailsByCause (state S.Store tx.old.conn.now) (state S.Store tx.new.conn.now) result (λ _. ⊤) }
{
    let key = tables::SerialKey {
        letter: serial.letter() as u64,
        number: serial.number(),
    };
    let found = find_bond(tx, key)?;
    held_shown(serial, found)
}

/// Notes a bond, if it is registered.
fn note_held(
    found: &mut BTreeMap<Serial, Held>,
    serial: Serial,
    held: Option<Held>,
) -> Result<(), AllocError>
    ensures { OnOk result (bonds_found found.new.entries ≡ with_found (bonds_found found.old.entries) serial held) }
{
    match held {
        Some(held) => note_bond(found, serial, &held),
        None => Ok(()),
    }
}

fn no_bonds(alloc: Global) -> BTreeMap<Serial, Held>
    ensures { bonds_found result.entries ≡ finite.empty }
{
    BTreeMap::new(alloc)
}

/// Finds the registered bonds among these serial numbers.
pub fn held_in<S: Alter>(
    tx: &mut Transaction<'_, S>,
    alloc: Global,
    serials: &[Serial],
) -> Result<BTreeMap<Serial, Held>, Failure>
    ensures same_reference { tx.new.conn.ghost_name ≡ tx.old.conn.ghost_name }
    ensures only_reads { OnlyReads (state S.Store tx.old.conn.now) (state S.Store tx.new.conn.now) result }
    ensures found { FindsIn (state S.Store tx.old.conn.now) (state S.Store tx.new.conn.now) result
        (λ content found. bonds_found found.entries ≡ picked (held_of content.books) serials.now) }
    ensures cause { FailsByCause (state S.Store tx.old.conn.now) (state S.Store tx.new.conn.now) result (λ _. ⊤) }
{
    let mut found = no_bonds(alloc);
    for serial in serials {
        let held = find_held(tx, *serial)?;
        note_held(&mut found, *serial, held)?;
    }
    Ok(found)
}
