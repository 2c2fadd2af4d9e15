//! The issue periods of bonds, whose terms a sheet needs.

ghost use Rattle.std.specs.Prelude.{◌≡◌, ℕ, true, IfOk, OnOk};
ghost use Rattle.std.specs.List.{list_any, AllByRecursion};
ghost use Rattle.std.specs.Ordering.{nat_cmp, eq_by_cmp};
ghost use Rattle.ee_units.specs.Calendar.{period_start};

use ee_calculator::Bond;
use ee_units::IssueMonth;
use ee_units::calendar::period_of;
use std::alloc::{AllocError, Global};

/// Notes a period, unless it is noted.
fn note_period(periods: &mut Vec<IssueMonth>, period: IssueMonth) -> Result<(), AllocError>
    ensures noted { OnOk result (list_any (eq_by_cmp nat_cmp period) periods.new.items ≡ true) }
    ensures kept { OnOk result ((other : ℕ) → list_any (eq_by_cmp nat_cmp other) periods.old.items ≡ true
        → list_any (eq_by_cmp nat_cmp other) periods.new.items ≡ true) }
{
    if !periods.contains(&period) {
        periods.push(period)?;
    }
    Ok(())
}

/// The issue periods of bonds, each of them once.
pub fn periods_in(alloc: Global, bonds: &[Bond]) -> Result<Vec<IssueMonth>, AllocError>
    ensures { IfOk result (λ periods. AllByRecursion (λ bond. list_any (eq_by_cmp nat_cmp (period_start bond.issued)) periods.items ≡ true) bonds.now) }
{
    let mut periods = Vec::new(alloc);
    for bond in bonds {
        note_period(&mut periods, period_of(bond.issued))?;
    }
    Ok(periods)
}
