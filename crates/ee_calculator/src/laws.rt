//! Laws of rows and sheets. A body here does nothing; the clauses state the laws.

ghost use Rattle.std.specs.Prelude.{◌≡◌, ◌+◌};

use crate::rows::Row;
use crate::sheets::Sheet;

/// In every row and every sheet, the value is the sum of price and interest.
pub const fn adds_up_law()
    ensures row { (row : Row) → row.value.0 ≡ row.price.0 + row.interest.0 }
    ensures sheet { (sheet : Sheet) → sheet.value.0 ≡ sheet.price.0 + sheet.interest.0 }
{}
