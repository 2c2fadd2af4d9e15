//! Laws of the definitions. A body here does nothing; the clauses state the laws.

ghost use Rattle.std.specs.Prelude.{◌≡◌};
ghost use Rattle.ee_desk_model.specs.PlainBooks.{PlainBooks};
ghost use Rattle.ee_desk_model.specs.Sound.{IsSound};
ghost use Rattle.ee_desk_soundness.specs.Parts.{parts_of};

/// Parts lose nothing: sound books with equal parts are equal.
pub const fn parts_law()
    ensures { (one other : PlainBooks) → IsSound one → IsSound other → parts_of one ≡ parts_of other → one ≡ other }
{}
