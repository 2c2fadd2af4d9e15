//! Terms that are kept, so that each pair of rates has one table.

ghost use Rattle.std.specs.Prelude.{◌≡◌, None, IfOk, IfSome, OnOk, OnErr, MatchResult};
ghost use Rattle.std.specs.FinMap as finite;
ghost use Rattle.std.specs.Option.{option_copied};
ghost use Rattle.ee_value.specs.Fault.{IsFaultAt};
ghost use Rattle.ee_desk_model.specs.Values.{unsettled};
ghost use Rattle.ee_desk_model.specs.UnitTables.{tables_in};

use crate::terms::Terms;
use ee_value::{Rates, ValueFault};
use std::alloc::{AllocError, Global};
use std::collections::BTreeMap;
use std::marker::Model;

/// Terms by their rates. The table of each pair of rates is made once and shared.
#[derive(Drop)]
pub struct UnitTables {
    kept: BTreeMap<Rates, Terms>,
}

impl Model for UnitTables {
    ghost use Rattle.std.specs.Coded.{codes};
    ghost use Rattle.std.specs.FinMap as finite;
    ghost use Rattle.std.specs.FinMap.{FinMap};
    ghost use Rattle.ee_value.specs.declared.rates.Rates.{Rates};
    ghost use Rattle.ee_desk_model.specs.UnitTables.{rates_cmp, tables_in, AreOwn};

    ghost Value = { FinMap rates_cmp Rates };

    ghost coded = { Prim.hlevel (codes, finite.code) };

    ghost view = { λ t. tables_in t.kept.entries };

    ghost invariant = { λ t. AreOwn (tables_in t.kept.entries) };
}

fn nothing(alloc: Global) -> BTreeMap<Rates, Terms>
    ensures { tables_in result.entries ≡ finite.empty }
{
    BTreeMap::new(alloc)
}

fn put(kept: &mut BTreeMap<Rates, Terms>, terms: &Terms) -> Result<(), AllocError>
    ensures ok { OnOk result (tables_in kept.new.entries ≡ finite.insert (tables_in kept.old.entries) terms.now terms.now) }
    ensures err { OnErr result (kept.new.entries ≡ kept.old.entries) }
{
    kept.insert(terms.rates(), terms.share()?)?;
    Ok(())
}

impl UnitTables {
    /// Creates an empty collection. Takes no memory.
    pub fn new(alloc: Global) -> UnitTables
        ensures { result ≡ finite.empty }
    {
        UnitTables {
            kept: nothing(alloc),
        }
    }

    /// The kept terms of these rates.
    fn found(&self, rates: Rates) -> Option<&Terms>
        ensures value { option_copied result ≡ finite.get self.now rates }
        ensures own { IfSome result (λ terms. terms.now ≡ rates) }
    {
        self.kept.get(&rates)
    }

    /// The terms of these rates with their kept table; `None` if none is kept. Takes no memory; fails only if
    /// the table's reference count is at its maximum.
    pub fn terms(&self, rates: Rates) -> Result<Option<Terms>, AllocError>
        ensures value { IfOk result (λ terms. terms ≡ finite.get self.now rates) }
        ensures own { IfOk result (λ terms. IfSome terms (λ own. own ≡ rates)) }
    {
        match self.found(rates) {
            Some(terms) => Ok(Some(terms.share()?)),
            None => Ok(None),
        }
    }

    /// The terms of these rates with their kept table. If none is kept, makes one and keeps it. Fails with the
    /// least age at which a value is unsettled, or if memory is refused; the kept tables then don't change.
    pub fn add(&mut self, alloc: Global, rates: Rates) -> Result<Terms, ValueFault>
        ensures value { MatchResult result (λ terms. (terms ≡ rates) × (unsettled rates ≡ None)) (IsFaultAt (unsettled rates)) }
        ensures ok { OnOk result (self.new ≡ finite.insert self.old rates rates) }
        ensures err { OnErr result (self.new ≡ self.old) }
    {
        if let Some(terms) = self.terms(rates)? {
            let _settled = terms.rates();
            return Ok(terms);
        }
        let terms = Terms::new(alloc, rates)?;
        Ok(self.keep(&terms)?)
    }

    /// These terms with the kept table of their rates. If none is kept, keeps theirs. If memory is refused, the
    /// kept tables don't change.
    pub fn keep(&mut self, terms: &Terms) -> Result<Terms, AllocError>
        ensures value { IfOk result (λ kept. kept ≡ terms.now) }
        ensures ok { OnOk result (self.new ≡ finite.insert self.old terms.now terms.now) }
        ensures err { OnErr result (self.new ≡ self.old) }
    {
        if let Some(kept) = self.terms(terms.rates())? {
            return Ok(kept);
        }
        let kept = terms.share()?;
        put(&mut self.kept, terms)?;
        Ok(kept)
    }
}
