//! Making a sheet: rows and their sums.

ghost use Rattle.std.specs.Prelude.{◌≡◌, ◌<◌, ◌^◌, sum_by};

use crate::rows::Row;
use crate::sheets::Sheet;
use ee_units::{Cents, Total};

/// The sheet of these rows, in the given order.
#[tactic(auto, using(std::proofs::lemmas::List::Sums::sum_by_more))]
pub fn sheet(rows: Vec<Row>) -> Sheet
    ensures rows { result.rows.items ≡ rows.items }
    ensures price { result.price.0 ≡ sum_by (λ row. row.price.0) rows.items }
    ensures value { result.value.0 ≡ sum_by (λ row. row.value.0) rows.items }
    ensures interest { result.interest.0 ≡ sum_by (λ row. row.interest.0) rows.items }
{
    let mut price = 0u128;
    let mut interest = 0u128;
    for row in &rows {
        price += wide(row.price);
        interest += wide(row.interest);
    }
    Sheet {
        rows,
        price: Total(price),
        value: Total(price + interest),
        interest: Total(interest),
    }
}

fn wide(cents: Cents) -> u128
    ensures value { result ≡ cents.0 }
    ensures small { result < 2 ^ 64 }
{
    u128::from(cents.0)
}
