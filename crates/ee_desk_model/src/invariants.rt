//! Code for proofs alone: its calls read the invariants of types, so that the plain numbers of acts and changes are in
//! range in the clauses above it. When it runs, it changes nothing.

ghost use Rattle.std.specs.List.{AllByRecursion};
ghost use Rattle.ee_desk_model.specs.Ranges.{IsInRange};

use crate::changes::Change;

fn read(change: &Change)
    ensures { IsInRange change.now }
{
    match change {
        Change::Rates(from, terms) => {
            let _month = from.count();
            let _rate = terms.rates().rate_in(0);
        }
        Change::Bond(bond) => {
            let _month = bond.issued.count();
        }
        Change::Day(day) => {
            let _count = day.count();
        }
        Change::Ticket(_) | Change::Batch(_) => {}
    }
}

/// Each change is in range, by its types.
pub fn in_range(changes: &[Change])
    ensures { AllByRecursion IsInRange changes.now }
{
    for change in changes {
        read(change);
    }
}
