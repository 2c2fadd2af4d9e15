//! What is noted for an act.

ghost use Rattle.std.specs.Prelude.{◌≡◌, OnOk};
ghost use Rattle.std.specs.FinMap as finite;
ghost use Rattle.ee_desk_decide.specs.Noted.{held_in};

use ee_desk_model::Held;
use ee_units::Serial;
use std::alloc::AllocError;
use std::collections::BTreeMap;

/// Notes a registered bond, and the ticket that paid it. Fails only if memory is refused.
pub fn note_bond(
    found: &mut BTreeMap<Serial, Held>,
    serial: Serial,
    held: &Held,
) -> Result<(), AllocError>
    ensures { OnOk result (held_in found.new.entries ≡ finite.insert (held_in found.old.entries) serial held.now) }
{
    let bond = held.bond;
    let ticket = held.ticket;
    found.insert(serial, Held { bond, ticket })?;
    Ok(())
}
