//! Sheets of rows.

ghost use Rattle.std.specs.Prelude.{◌≡◌, ◌+◌};

use crate::rows::Row;
use ee_units::Total;

/// Rows with the sums of their prices, interest and values. The value is the sum of price and interest.
#[derive(Drop)]
pub struct Sheet {
    pub rows: Vec<Row>,
    pub price: Total,
    pub value: Total,
    pub interest: Total,
    pub ghost adds_up: { value.0 ≡ price.0 + interest.0 },
}
