//! The bonds of the register.

ghost use Rattle.std.specs.Prelude.{◌≡◌, IfSome, IsSome};
ghost use Rattle.ee_desk_model.specs.declared.changes.Held.{Held};
ghost use Rattle.ee_desk_model.specs.Ranges.{IsCustomer, BondFits};
ghost use Rattle.ee_store_tables.specs.AsRows.{row_of_bond};
ghost use Rattle.ee_store_rows.specs.Rows.{bond_row};

use ee_calculator::Bond;
use ee_desk_model::Held;
use ee_store_tables::BondRow;
use ee_units::{Customer, Denom, IssueMonth, Serial};

fn coowner_of(number: Option<u64>) -> Option<Option<Customer>>
    ensures value { IfSome result (λ coowner. coowner ≡ number) }
    ensures read { IfSome number IsCustomer → IsSome result }
{
    match number {
        None => Some(None),
        Some(number) => Some(Some(Customer::new(number)?)),
    }
}

/// The bond of a row, and the ticket that paid it; `None` if no registered bond has this row.
pub fn held_from(serial: Serial, row: BondRow) -> Option<Held>
    ensures shown { IfSome result (λ held. (bond_row held ≡ row_of_bond row) × (held.bond.serial ≡ serial)) }
    ensures read { (held : Held) → row_of_bond row ≡ bond_row held → BondFits held.bond → IsSome result }
{
    let denom = Denom::with_dollars(row.denom)?;
    let issued = IssueMonth::new(row.issued)?;
    let owner = Customer::new(row.owner)?;
    let coowner = coowner_of(row.coowner)?;
    let bond = Bond {
        serial,
        denom,
        issued,
        owner,
        coowner,
    };
    Some(Held {
        bond,
        ticket: row.ticket,
    })
}
