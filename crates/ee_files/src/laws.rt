//! Laws of the definitions. A body here does nothing; the clauses state the laws.

ghost use Rattle.std.specs.Prelude.{◌≡◌, ◌≤◌, ℕ, List, All, Ok, length, take};
ghost use Rattle.std.specs.Bool.{Decides};
ghost use Rattle.ee_calculator.specs.declared.bonds.Bond.{Bond};
ghost use Rattle.ee_files.specs.BondFile.{IsBond, bond_entry, bonds_of_file, inventory_text};
ghost use Rattle.ee_files.specs.Order.{AllOrFirstFault, each};
ghost use Rattle.ee_files.specs.RateFile.{rate_entry};
ghost use Rattle.ee_files.specs.Rows.{rows_from, same_fields};

/// The rows under a header are those of the first 501 records, each read by itself, if none is at fault;
/// otherwise the result is the first fault. Records are numbered from 2.
pub const fn rows_law()
    ensures rates { (width : ℕ) (rest : List (List (List ℕ)))
        → AllOrFirstFault (each (rate_entry width) 2 (take 501 rest)) (rows_from (rate_entry width) 2 501 rest) }
    ensures bonds { (rest : List (List (List ℕ))) → AllOrFirstFault (each bond_entry 2 (take 501 rest)) (rows_from bond_entry 2 501 rest) }
{}

/// A header is compared exactly: name by name, without further names.
pub const fn header_law()
    ensures { (fields names : List (List ℕ)) → Decides (same_fields fields names) (fields ≡ names) }
{}

/// A written file of up to 500 bonds reads back as those bonds.
pub const fn inventory_law()
    ensures { (bonds : List Bond) → All IsBond bonds → length bonds ≤ 500
        → bonds_of_file (inventory_text bonds) ≡ Ok bonds }
{}
