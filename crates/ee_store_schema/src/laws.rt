//! Laws of the definitions. A body here does nothing; the clauses state the laws.

ghost use Rattle.std.specs.Prelude.{◌≡◌, ◌≢◌, ℕ, None};
ghost use Rattle.std.specs.Ordering.{nat_cmp};
ghost use Rattle.std.specs.FinMap.{FinMap, get};
ghost use Rattle.ee_store_tables.specs.Rows.{ReplyRow};
ghost use Rattle.ee_store_schema.specs.Forms.{at_first_desk};

/// Replies of version 1 belong to the first desk.
///
/// - `first`: it has each of them under the same number.
/// - `others`: no other desk has one.
pub const fn first_desk_law()
    ensures first { (kept : FinMap nat_cmp ReplyRow) (number : ℕ) → get (at_first_desk kept) (0, number) ≡ get kept number }
    ensures others { (kept : FinMap nat_cmp ReplyRow) (desk number : ℕ) → desk ≢ 0 → get (at_first_desk kept) (desk, number) ≡ None }
{}
