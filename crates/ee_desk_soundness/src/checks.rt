//! Checking whether parts are those of sound books.

ghost use Rattle.std.specs.Prelude.{◌≡◌, ◌↔◌, true, map, IfOk, IfErr};
ghost use Rattle.std.specs.List.{AllByRecursion};
ghost use Rattle.std.specs.FinMap as finite;
ghost use Rattle.ee_desk_model.specs.PlainBooks.{batch_so_far};
ghost use Rattle.ee_desk_soundness.specs.Parts.{AreUnsound};
ghost use Rattle.ee_desk_soundness.specs.Checks.{entry_of_row, parts_in, HaveRisingSerials};
ghost use Rattle.ee_desk_soundness.specs.Inner.Checks.{IsRegister, AreClosed, ArePaid, AreRightBatches};
ghost use Rattle.ee_desk_soundness.specs.Made.{IsMadeOf};
ghost use Rattle.ee_desk_soundness.specs.Marks.{bond_of, AreMarked};
ghost use Rattle.ee_desk_soundness.specs.Days.{counts_in};
ghost use Rattle.ee_desk_soundness.specs.Inner.Days.{days_of, AreCounted, FitDays, IsSmall};

use crate::days::{are_counted, counts_of, days_rise, in_range, last_day, open_counts};
use crate::faults::PartsFault;
use crate::lines::{are_numbered, are_whole};
use crate::order::{days_never_fall, months_rise};
use crate::register::{are_right_bonds, terms_by_month};
use crate::rows::{are_as_many, are_rightly_paid};
use ee_desk_decide::DayCounts;
use ee_desk_model::{Batch, Held, RateRow, Terms, Ticket, UnitTables};
use ee_units::{Day, IssueMonth};
use std::alloc::Global;
use std::collections::BTreeMap;

/// What is made of the parts of books while they are checked: the tables of their rates, terms by month,
/// and the counts of the open day.
#[derive(Drop)]
pub struct Indexes {
    pub tables: UnitTables,
    pub terms: BTreeMap<IssueMonth, Terms>,
    pub counts: DayCounts,
}

/// Rates by month, and the tables of their unit values.
#[derive(Drop)]
struct RegisterTerms {
    tables: UnitTables,
    terms: BTreeMap<IssueMonth, Terms>,
}

/// The terms of rates, if sound books may have these rates and bonds.
fn registered(alloc: Global, rates: &[RateRow], bonds: &[Held]) -> Result<RegisterTerms, PartsFault>
    requires { HaveRisingSerials (map bond_of bonds.now) }
    ensures terms { IfOk result (λ own. own.terms.entries ≡ map entry_of_row rates.now) }
    ensures right { IfOk result (λ _. IsRegister rates.now (map bond_of bonds.now)) }
    ensures unsound { IfErr result (λ fault. fault ≡ PartsFault.Unsound → IsRegister rates.now (map bond_of bonds.now) → ⊥) }
{
    if !months_rise(rates) {
        return Err(PartsFault::Unsound);
    }
    let mut tables = UnitTables::new(alloc);
    let terms = terms_by_month(alloc, &mut tables, rates)?;
    if !are_right_bonds(&terms, bonds) {
        return Err(PartsFault::Unsound);
    }
    Ok(RegisterTerms { tables, terms })
}

/// Whether tickets pay the bonds of these rows, each once, and each row names the ticket that pays its bond.
fn are_paid(terms: &BTreeMap<IssueMonth, Terms>, bonds: &[Held], tickets: &[Ticket]) -> bool
    ensures { (result ≡ true) ↔ ArePaid (finite.from_entries terms.now.entries) bonds.now tickets.now }
{
    if !are_numbered(tickets) {
        return false;
    }
    if !days_never_fall(tickets) {
        return false;
    }
    if !are_whole(tickets) {
        return false;
    }
    if !are_rightly_paid(terms, tickets, bonds) {
        return false;
    }
    are_as_many(bonds, tickets)
}

/// The counts of each day, if each ticket is of one of these days and no day has too many.
fn known_counts(
    alloc: Global,
    tickets: &[Ticket],
    batches: &[Batch],
    day: Option<Day>,
) -> Result<BTreeMap<Day, DayCounts>, PartsFault>
    requires { AllByRecursion IsSmall tickets.now }
    ensures counts { IfOk result (λ counts. AreCounted counts.entries (days_of batches.now day) tickets.now) }
    ensures right { IfOk result (λ _. FitDays (days_of batches.now day) tickets.now) }
    ensures unsound { IfErr result (λ fault. fault ≡ PartsFault.Unsound → FitDays (days_of batches.now day) tickets.now → ⊥) }
{
    match counts_of(alloc, tickets, batches, day)? {
        Some(counts) => Ok(counts),
        None => Err(PartsFault::Unsound),
    }
}

/// The counts of the open day, if sound books with these tickets may have these batches.
fn counted(
    alloc: Global,
    tickets: &[Ticket],
    batches: &[Batch],
    day: Option<Day>,
) -> Result<DayCounts, PartsFault>
    requires { AllByRecursion IsSmall tickets.now }
    ensures counts { IfOk result (λ counts. counts ≡ counts_in (batch_so_far day tickets.now)) }
    ensures right { IfOk result (λ _. AreRightBatches tickets.now batches.now day) }
    ensures unsound { IfErr result (λ fault. fault ≡ PartsFault.Unsound → AreRightBatches tickets.now batches.now day → ⊥) }
{
    let own = day;
    let counts = known_counts(alloc, tickets, batches, own)?;
    if !are_counted(&counts, batches) {
        return Err(PartsFault::Unsound);
    }
    Ok(open_counts(&counts, day))
}

/// The counts of the open day, if sound books may have these days and batches.
fn closed(
    alloc: Global,
    tickets: &[Ticket],
    batches: &[Batch],
    day: Option<Day>,
    last: Option<Day>,
) -> Result<DayCounts, PartsFault>
    requires { AllByRecursion IsSmall tickets.now }
    ensures counts { IfOk result (λ counts. counts ≡ counts_in (batch_so_far day tickets.now)) }
    ensures right { IfOk result (λ _. AreClosed tickets.now batches.now day last) }
    ensures unsound { IfErr result (λ fault. fault ≡ PartsFault.Unsound → AreClosed tickets.now batches.now day last → ⊥) }
{
    let own = day;
    if !days_rise(batches, own) {
        return Err(PartsFault::Unsound);
    }
    if last != last_day(batches) {
        return Err(PartsFault::Unsound);
    }
    counted(alloc, tickets, batches, day)
}

/// What is made of parts while they are checked, with the bonds as rows that each name the ticket that pays the bond.
/// The rows are sorted by serial number. `Unsound` if a row names another ticket than that, or if no sound books have
/// these parts. Fails also if memory is refused.
pub fn checked(
    alloc: Global,
    rates: &[RateRow],
    bonds: &[Held],
    day: Option<Day>,
    last: Option<Day>,
    tickets: &[Ticket],
    batches: &[Batch],
) -> Result<Indexes, PartsFault>
    requires { HaveRisingSerials (map bond_of bonds.now) }
    ensures ok { IfOk result (IsMadeOf (parts_in rates.now (map bond_of bonds.now) day last tickets.now batches.now)) }
    ensures marked { IfOk result (λ _. AreMarked tickets.now bonds.now) }
    ensures unsound { IfErr result (λ fault. fault ≡ PartsFault.Unsound
        → AreMarked tickets.now bonds.now → AreUnsound (parts_in rates.now (map bond_of bonds.now) day last tickets.now batches.now)) }
{
    let own = registered(alloc, rates, bonds)?;
    let RegisterTerms { tables, terms } = own;
    if !are_paid(&terms, bonds, tickets) {
        return Err(PartsFault::Unsound);
    }
    let open = day;
    in_range(batches, open);
    let counts = closed(alloc, tickets, batches, day, last)?;
    Ok(Indexes {
        tables,
        terms,
        counts,
    })
}
