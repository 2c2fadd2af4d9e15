//! The terms at which bonds earn interest, with their unit values.

ghost use Rattle.std.specs.Prelude.{◌≡◌, None, IfOk, MatchResult};
ghost use Rattle.ee_value.specs.Fault.{IsFaultAt};
ghost use Rattle.ee_desk_model.specs.Values.{unsettled};

use ee_units::Bits;
use ee_value::{Rates, UnitTable, ValueFault, unit_table};
use std::alloc::{AllocError, Global};
use std::fmt;
use std::marker::Model;
use std::rc::Rc;

/// Rates and the table of their unit values. They leave no value unsettled. Copies of the terms share
/// one table.
#[derive(Drop)]
pub struct Terms {
    rates: Rates,
    table: Rc<UnitTable>,
}

impl Model for Terms {
    ghost use Rattle.std.specs.Prelude.{◌≡◌, None};
    ghost use Rattle.ee_value.specs.declared.rates.Rates.{Rates};
    ghost use Rattle.ee_desk_model.specs.Values.{unsettled};

    ghost Value = { Rates };

    ghost view = { λ t. t.rates };

    ghost invariant = { λ t. (t.table.value ≡ t.rates) × (unsettled t.rates ≡ None) };
}

impl Terms {
    /// Makes the terms of these rates, with their table. Fails with the least age at which a value is unsettled,
    /// or if memory is refused.
    pub fn new(alloc: Global, rates: Rates) -> Result<Terms, ValueFault>
        ensures { MatchResult result (λ terms. (terms ≡ rates) × (unsettled rates ≡ None)) (IsFaultAt (unsettled rates)) }
    {
        let own = rates;
        let table = unit_table(alloc, own, Bits::from_places(62))?;
        let table = Rc::new(alloc, table)?;
        Ok(Terms { rates, table })
    }

    /// The rates, which leave no value unsettled.
    pub fn rates(&self) -> Rates
        ensures value { result ≡ self.now }
        ensures settled { unsettled self.now ≡ None }
    {
        self.rates
    }

    /// The unit values at each age.
    pub fn table(&self) -> &UnitTable
        ensures { result.now ≡ self.now }
    {
        &self.table
    }

    /// A copy that shares the table. Takes no memory; fails only if the reference count is at its maximum.
    pub fn share(&self) -> Result<Terms, AllocError>
        ensures { IfOk result (λ terms. terms ≡ self.now) }
    {
        let table = self.table.clone()?;
        Ok(Terms {
            rates: self.rates,
            table,
        })
    }
}

impl fmt::Debug for Terms {
    fn fmt<W: fmt::Write>(&self, f: &mut fmt::Formatter<W>) -> fmt::Result {
        fmt::Debug::fmt(&self.rates, f)
    }
}

impl PartialEq for Terms {
    ghost use Rattle.std.proofs.Common.{rules};
    ghost use Rattle.std.specs.Cmp.Rules.{comparing};
    ghost use Rattle.ee_desk_model.specs.Values.{same_rates};

    ghost eq = { same_rates };

    ghost laws = { Prim.search (comparing, rules) };

    fn eq(&self, other: &Terms) -> bool {
        self.rates == other.rates
    }
}

impl Eq for Terms {
    ghost use Rattle.std.proofs.Common.{rules};
    ghost use Rattle.std.specs.Cmp.Rules.{comparing};

    ghost laws = { Prim.search (comparing, rules) };
}
