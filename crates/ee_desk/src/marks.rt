//! Marking bonds with the tickets that pay them.

ghost use Rattle.std.specs.Prelude.{◌≡◌};
ghost use Rattle.std.specs.Option.{option_map};
ghost use Rattle.std.specs.List.{list_any};
ghost use Rattle.ee_units.specs.Spelling.{SerialNumber};
ghost use Rattle.ee_desk_model.specs.Serials.{same_serial};
ghost use Rattle.ee_desk.specs.Inner.Marks.{bonds_held, held_at, marked};

use ee_desk_model::{Held, Line};
use ee_units::Serial;
use std::collections::BTreeMap;

/// Marks a bond with the ticket that pays it.
fn mark(bonds: &mut BTreeMap<Serial, Held>, serial: Serial, ticket: u64)
    ensures { (q : SerialNumber) → held_at bonds.new.entries q ≡ option_map (marked (same_serial q serial) ticket) (held_at bonds.old.entries q) }
{
    if let Some(held) = bonds.get_mut(&serial) {
        held.ticket = Some(ticket);
    }
}

/// Marks the bonds of these lines.
pub fn mark_all(bonds: &mut BTreeMap<Serial, Held>, lines: &[Line], ticket: u64)
    ensures marked { (q : SerialNumber)
        → held_at bonds.new.entries q ≡ option_map (marked (list_any (λ line. same_serial q line.serial) lines.now) ticket) (held_at bonds.old.entries q) }
    ensures bonds { bonds_held bonds.new.entries ≡ bonds_held bonds.old.entries }
{
    for line in lines {
        mark(bonds, line.serial, ticket);
    }
}
