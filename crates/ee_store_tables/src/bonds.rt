//! The table `bonds`: the register, with the ticket that paid each bond.

ghost use Rattle.std.specs.Prelude.{◌≡◌, Option, option_map, IfOk, All, map, flat_map, length, ⊤, IfErr};
ghost use Rattle.std.specs.Option.{option_to_list};
ghost use Rattle.std.specs.FinMap.{get};
ghost use Rattle.sqlite.specs.Held.{state};
ghost use Rattle.ee_store_tables.specs.AsRows.{Fits, FitsSerial, FitsUnpaid, key_of, row_of_bond, entry_of_unpaid, unpaid_bond_of, unpaid_columns};
ghost use Rattle.ee_store_tables.specs.Rows as table;
ghost use Rattle.ee_store_tables.specs.Rows.{bond_columns, marked, with_bond, with_bonds, CanRegisterAll, unpaid_of, HasRoom};
ghost use Rattle.sqlite_value.specs.Value.{owned};
ghost use Rattle.ee_store_tables.specs.Statements.{OnlyQueries, WritesInside, WritesIfAny, Makes, Finds, FailsByCause, KeepsRoom, TakesRoom};
ghost use Rattle.ee_store_tables.specs.Inner.Statements.{QueryFailsByCause, IsMemory};

use crate::failures::Failure;
use crate::reading::{QueryRow, read_each};
use crate::records::{BondRow, SerialKey, UnpaidBond};
use crate::values::{optional, whole};
use sqlite::types::ValueRef;
use sqlite::{Alter, Error, Row, Transaction};
use std::alloc::Global;

/// Registers a bond. If its serial number is registered, nothing changes.
pub fn add_bond<S: Alter>(tx: &mut Transaction<'_, S>, bond: UnpaidBond) -> Result<(), Failure>
    requires { FitsUnpaid bond }
    ensures same_reference { tx.new.conn.ghost_name ≡ tx.old.conn.ghost_name }
    ensures writes_inside { WritesInside (state S.Store tx.old.conn.now) (state S.Store tx.new.conn.now) result }
    ensures added { Makes (state S.Store tx.old.conn.now) (state S.Store tx.new.conn.now) result (λ rows. with_bond rows (entry_of_unpaid bond)) }
    ensures room { TakesRoom (state S.Store tx.old.conn.now) (state S.Store tx.new.conn.now) result 1 }
    ensures cause { FailsByCause (state S.Store tx.old.conn.now) (state S.Store tx.new.conn.now) result (λ _. HasRoom 1 (state S.Store tx.old.conn.now)) }
{
    tx.execute(
        "INSERT INTO bonds (letter, number, denom, issued, owner, coowner) VALUES (?1, ?2, ?3, ?4, ?5, ?6) ON CONFLICT (letter, number) DO NOTHING",
        &[
            whole(bond.letter),
            whole(bond.number),
            whole(bond.denom),
            whole(bond.issued),
            whole(bond.owner),
            optional(bond.coowner),
        ],
    )?;
    Ok(())
}

/// The values of bonds for a statement, six for each.
fn bond_values<'a>(alloc: Global, bonds: &[UnpaidBond]) -> Result<Vec<ValueRef<'a>>, Failure>
    requires { All FitsUnpaid bonds.now }
    ensures values { IfOk result (λ values. map owned values.items ≡ flat_map unpaid_columns bonds.now) }
    ensures memory { IfErr result (λ e. e ≡ Failure.NoMemory) }
{
    let mut values = Vec::new(alloc);
    for bond in bonds {
        values.extend_from_slice(&[
            whole(bond.letter),
            whole(bond.number),
            whole(bond.denom),
            whole(bond.issued),
            whole(bond.owner),
            optional(bond.coowner),
        ])?;
    }
    Ok(values)
}

/// Registers ten new bonds by one statement.
fn add_ten<S: Alter>(
    tx: &mut Transaction<'_, S>,
    alloc: Global,
    bonds: &[UnpaidBond],
) -> Result<(), Failure>
    requires ten { length bonds.now ≡ 10 }
    requires fit { All FitsUnpaid bonds.now }
    ensures same_reference { tx.new.conn.ghost_name ≡ tx.old.conn.ghost_name }
    ensures writes_inside { WritesInside (state S.Store tx.old.conn.now) (state S.Store tx.new.conn.now) result }
    ensures added { Makes (state S.Store tx.old.conn.now) (state S.Store tx.new.conn.now) result (λ rows. with_bonds rows (map entry_of_unpaid bonds.now)) }
    ensures room { TakesRoom (state S.Store tx.old.conn.now) (state S.Store tx.new.conn.now) result 10 }
    ensures cause { FailsByCause (state S.Store tx.old.conn.now) (state S.Store tx.new.conn.now) result
        (λ rows. HasRoom 10 (state S.Store tx.old.conn.now) × CanRegisterAll rows (map entry_of_unpaid bonds.now)) }
{
    let values = bond_values(alloc, bonds)?;
    tx.execute(
        "INSERT INTO bonds (letter, number, denom, issued, owner, coowner) VALUES (?1, ?2, ?3, ?4, ?5, ?6), (?7, ?8, ?9, ?10, ?11, ?12), (?13, ?14, ?15, ?16, ?17, ?18), (?19, ?20, ?21, ?22, ?23, ?24), (?25, ?26, ?27, ?28, ?29, ?30), (?31, ?32, ?33, ?34, ?35, ?36), (?37, ?38, ?39, ?40, ?41, ?42), (?43, ?44, ?45, ?46, ?47, ?48), (?49, ?50, ?51, ?52, ?53, ?54), (?55, ?56, ?57, ?58, ?59, ?60)",
        values.as_slice(),
    )?;
    Ok(())
}

/// Registers bonds one by one. If a serial number is registered, nothing changes for it.
fn add_each<S: Alter>(tx: &mut Transaction<'_, S>, bonds: &[UnpaidBond]) -> Result<(), Failure>
    requires { All FitsUnpaid bonds.now }
    ensures same_reference { tx.new.conn.ghost_name ≡ tx.old.conn.ghost_name }
    ensures writes_if_any { WritesIfAny (state S.Store tx.old.conn.now) (state S.Store tx.new.conn.now) result }
    ensures added { Makes (state S.Store tx.old.conn.now) (state S.Store tx.new.conn.now) result (λ rows. with_bonds rows (map entry_of_unpaid bonds.now)) }
    ensures room { TakesRoom (state S.Store tx.old.conn.now) (state S.Store tx.new.conn.now) result (length bonds.now) }
    ensures cause { FailsByCause (state S.Store tx.old.conn.now) (state S.Store tx.new.conn.now) result (λ _. HasRoom (length bonds.now) (state S.Store tx.old.conn.now)) }
{
    match bonds.split_first() {
        None => Ok(()),
        Some((bond, rest)) => {
            add_bond(tx, *bond)?;
            add_each(tx, rest)
        }
    }
}

/// Registers bonds that are new, no serial number twice: groups of ten by one statement each, and the rest one
/// by one.
pub fn add_new_bonds<S: Alter>(
    tx: &mut Transaction<'_, S>,
    alloc: Global,
    bonds: &[UnpaidBond],
) -> Result<(), Failure>
    requires { All FitsUnpaid bonds.now }
    ensures same_reference { tx.new.conn.ghost_name ≡ tx.old.conn.ghost_name }
    ensures writes_if_any { WritesIfAny (state S.Store tx.old.conn.now) (state S.Store tx.new.conn.now) result }
    ensures added { Makes (state S.Store tx.old.conn.now) (state S.Store tx.new.conn.now) result (λ rows. with_bonds rows (map entry_of_unpaid bonds.now)) }
    ensures room { TakesRoom (state S.Store tx.old.conn.now) (state S.Store tx.new.conn.now) result (length bonds.now) }
    ensures cause { FailsByCause (state S.Store tx.old.conn.now) (state S.Store tx.new.conn.now) result
        (λ rows. HasRoom (length bonds.now) (state S.Store tx.old.conn.now) × CanRegisterAll rows (map entry_of_unpaid bonds.now)) }
{
    if bonds.len() < 10 {
        return add_each(tx, bonds);
    }
    let (ten, rest) = bonds.split_at(10);
    add_ten(tx, alloc, ten)?;
    add_new_bonds(tx, alloc, rest)
}

/// Marks a bond as paid on a ticket. If the bond isn't registered, nothing changes.
pub fn mark_bond<S: Alter>(
    tx: &mut Transaction<'_, S>,
    serial: SerialKey,
    ticket: u64,
) -> Result<(), Failure>
    requires serial { FitsSerial serial }
    requires ticket { Fits ticket }
    ensures same_reference { tx.new.conn.ghost_name ≡ tx.old.conn.ghost_name }
    ensures writes_inside { WritesInside (state S.Store tx.old.conn.now) (state S.Store tx.new.conn.now) result }
    ensures marked { Makes (state S.Store tx.old.conn.now) (state S.Store tx.new.conn.now) result (λ rows. marked rows (key_of serial) ticket) }
    ensures room { KeepsRoom (state S.Store tx.old.conn.now) (state S.Store tx.new.conn.now) result }
    ensures cause { FailsByCause (state S.Store tx.old.conn.now) (state S.Store tx.new.conn.now) result (λ _. HasRoom 0 (state S.Store tx.old.conn.now)) }
{
    tx.execute(
        "UPDATE bonds SET ticket = ?3 WHERE letter = ?1 AND number = ?2",
        &[whole(serial.letter), whole(serial.number), whole(ticket)],
    )?;
    Ok(())
}

/// The row of a bond, if it is registered.
fn bond_rows<S: Alter>(tx: &mut Transaction<'_, S>, serial: SerialKey) -> Result<Vec<Row>, Error>
    requires { FitsSerial serial }
    ensures same_reference { tx.new.conn.ghost_name ≡ tx.old.conn.ghost_name }
    ensures only_queries { OnlyQueries (state S.Store tx.old.conn.now) (state S.Store tx.new.conn.now) result }
    ensures found { Finds (state S.Store tx.old.conn.now) (state S.Store tx.new.conn.now) result
        (λ rows found. found.items ≡ option_to_list (option_map bond_columns (get rows.bonds (key_of serial)))) }
    ensures cause { QueryFailsByCause (state S.Store tx.old.conn.now) (state S.Store tx.new.conn.now) result }
{
    tx.query_all(
        "SELECT denom, issued, owner, coowner, ticket FROM bonds WHERE letter = ?1 AND number = ?2",
        &[whole(serial.letter), whole(serial.number)],
    )
}

/// The bond that a look-up found.
fn read_bond(rows: &[Row]) -> Result<Option<BondRow>, Error>
    ensures found { IfOk result
        (λ found. (bond : Option table.BondRow) → rows.now ≡ option_to_list (option_map bond_columns bond) → option_map row_of_bond found ≡ bond) }
    ensures memory { IfErr result (λ e. (bond : Option table.BondRow) → rows.now ≡ option_to_list (option_map bond_columns bond) → IsMemory e) }
{
    match rows.first() {
        None => Ok(None),
        Some(row) => Ok(Some(BondRow {
            denom: row.get(0)?,
            issued: row.get(1)?,
            owner: row.get(2)?,
            coowner: row.get(3)?,
            ticket: row.get(4)?,
        })),
    }
}

/// Finds the bond with this serial number.
pub fn find_bond<S: Alter>(
    tx: &mut Transaction<'_, S>,
    serial: SerialKey,
) -> Result<Option<BondRow>, Failure>
    requires { FitsSerial serial }
    ensures same_reference { tx.new.conn.ghost_name ≡ tx.old.conn.ghost_name }
    ensures only_queries { OnlyQueries (state S.Store tx.old.conn.now) (state S.Store tx.new.conn.now) result }
    ensures found { Finds (state S.Store tx.old.conn.now) (state S.Store tx.new.conn.now) result
        (λ rows found. option_map row_of_bond found ≡ get rows.bonds (key_of serial)) }
    ensures cause { FailsByCause (state S.Store tx.old.conn.now) (state S.Store tx.new.conn.now) result (λ _. ⊤) }
{
    let rows = bond_rows(tx, serial)?;
    let found = read_bond(&rows)?;
    Ok(found)
}

impl QueryRow for UnpaidBond {
    ghost shown = { unpaid_columns };

    fn read(row: &Row) -> Result<UnpaidBond, Failure> {
        if row.column_count() != 6 {
            return Err(Failure::StoreFailed);
        }
        Ok(UnpaidBond {
            letter: row.get(0)?,
            number: row.get(1)?,
            denom: row.get(2)?,
            issued: row.get(3)?,
            owner: row.get(4)?,
            coowner: row.get(5)?,
        })
    }
}

/// The rows of an owner's unpaid bonds.
fn owner_rows<S: Alter>(tx: &mut Transaction<'_, S>, owner: u64) -> Result<Vec<Row>, Error>
    requires { Fits owner }
    ensures same_reference { tx.new.conn.ghost_name ≡ tx.old.conn.ghost_name }
    ensures only_queries { OnlyQueries (state S.Store tx.old.conn.now) (state S.Store tx.new.conn.now) result }
    ensures found { Finds (state S.Store tx.old.conn.now) (state S.Store tx.new.conn.now) result
        (λ rows found. found.items ≡ map unpaid_columns (map unpaid_bond_of (unpaid_of rows owner))) }
    ensures cause { QueryFailsByCause (state S.Store tx.old.conn.now) (state S.Store tx.new.conn.now) result }
{
    tx.query_all(
        "SELECT letter, number, denom, issued, owner, coowner FROM bonds WHERE ticket IS NULL AND owner = ?1 ORDER BY letter, number",
        &[whole(owner)],
    )
}

/// Finds the unpaid bonds of an owner, by serial number.
pub fn bonds_of_owner<S: Alter>(
    tx: &mut Transaction<'_, S>,
    alloc: Global,
    owner: u64,
) -> Result<Vec<UnpaidBond>, Failure>
    requires { Fits owner }
    ensures same_reference { tx.new.conn.ghost_name ≡ tx.old.conn.ghost_name }
    ensures only_queries { OnlyQueries (state S.Store tx.old.conn.now) (state S.Store tx.new.conn.now) result }
    ensures found { Finds (state S.Store tx.old.conn.now) (state S.Store tx.new.conn.now) result
        (λ rows found. found.items ≡ map unpaid_bond_of (unpaid_of rows owner)) }
    ensures cause { FailsByCause (state S.Store tx.old.conn.now) (state S.Store tx.new.conn.now) result (λ _. ⊤) }
{
    let rows = owner_rows(tx, owner)?;
    read_each(alloc, &rows)
}
