//! Code for proofs alone: its calls read the invariants of types, so that the plain numbers of bonds are in
//! range in the clauses above it. When it runs, it changes nothing.

ghost use Rattle.std.specs.Prelude.{All};
ghost use Rattle.ee_files.specs.BondFile.{IsBond};

use ee_calculator::Bond;

fn read(bond: &Bond)
    ensures { IsBond bond.now }
{
    let _letter = bond.serial.letter();
    let _number = bond.serial.number();
    let _month = bond.issued.count();
    let _owner = bond.owner.number();
    if let Some(coowner) = bond.coowner {
        let _coowner = coowner.number();
    }
}

/// Each bond is in range, by its type.
pub fn in_range(bonds: &[Bond])
    ensures { All IsBond bonds.now }
{
    for bond in bonds {
        read(bond);
    }
}
