//! Laws of the definitions. A body here does nothing; the clauses state the laws.

ghost use Rattle.std.specs.Prelude.{◌≡◌, ℕ};
ghost use Rattle.ee_desk_model.specs.Repeats.{Content};
ghost use Rattle.ee_store_tables.specs.Rows.{Rows};
ghost use Rattle.ee_store_books.specs.Standing.{StandAt};

/// The rows of a version represent at most one content: the same books, and the same act and reply for each
/// desk and number.
pub const fn one_content_law()
    ensures { (version : ℕ) (rows : Rows) (one other : Content) → StandAt version rows one → StandAt version rows other → one ≡ other }
{}
