//! Checking whether the days of tickets and batches are those of sound books.

ghost use Rattle.std.specs.Prelude.{◌≡◌, ◌↔◌, ◌<◌, ℕ, true, None, ◌==◌, IfOk, OnOk, IfSome, [], ◌∷◌, unwrap_or, option_and_then};
ghost use Rattle.std.specs.Option.{option_map};
ghost use Rattle.std.specs.List.{AllByRecursion};
ghost use Rattle.ee_desk_model.specs.Sound.{IsDay, last_of, open_days};
ghost use Rattle.ee_desk_soundness.specs.Checks.{InOrder};
ghost use Rattle.ee_desk_soundness.specs.Inner.Checks.{IsAfter};
ghost use Rattle.ee_desk_soundness.specs.Inner.Days.{counts_at, counts_on, days_of, no_counts, AreCounted, AreNothing, HasMore, IsSmall, HasSpace, counted, HasRoom, FitCounts, FitDays, IsCounted};

use ee_desk_decide::DayCounts;
use ee_desk_model::{Batch, MOST_DAY_TICKETS, Ticket};
use ee_units::{Cents, Day};
use std::alloc::{AllocError, Global};
use std::collections::BTreeMap;

/// Whether a day is later than the last one.
fn is_later(last: Option<Day>, day: Day) -> bool
    ensures { (result ≡ true) ↔ IsAfter ◌<◌ last day }
{
    match last {
        Some(last) => last < day,
        None => true,
    }
}

fn are_later(last: Option<Day>, day: Option<Day>) -> bool
    ensures { (result ≡ true) ↔ IfSome day (IsAfter ◌<◌ last) }
{
    match day {
        Some(day) => is_later(last, day),
        None => true,
    }
}

/// Whether the closed days are in rising order, and the open day is later.
pub fn days_rise(batches: &[Batch], day: Option<Day>) -> bool
    ensures { (result ≡ true) ↔ InOrder ◌<◌ (days_of batches.now day) }
{
    let mut last: Option<Day> = None;
    for batch in batches {
        if !is_later(last, batch.day) {
            return false;
        }
        last = Some(batch.day);
    }
    are_later(last, day)
}

/// The day of the last batch.
pub fn last_day(batches: &[Batch]) -> Option<Day>
    ensures { result ≡ last_of batches.now }
{
    let mut last: Option<Day> = None;
    for batch in batches {
        last = Some(batch.day);
    }
    last
}

fn open_in_range(day: Option<Day>)
    ensures { AllByRecursion IsDay (open_days day) }
{
    if let Some(day) = day {
        let _count = day.count();
    }
}

/// Each day is in range, by its type.
pub fn in_range(batches: &[Batch], day: Option<Day>)
    ensures { AllByRecursion IsDay (days_of batches.now day) }
{
    open_in_range(day);
    for batch in batches {
        let _count = batch.day.count();
    }
}

fn none_yet() -> DayCounts
    ensures { result ≡ no_counts }
{
    DayCounts {
        tickets: 0,
        bonds: 0,
        total: Cents(0),
    }
}

/// Adds zero counts for a day.
fn add_day(counts: &mut BTreeMap<Day, DayCounts>, day: Day) -> Result<(), AllocError>
    ensures { OnOk result (HasMore counts.old.entries counts.new.entries (day ∷ [])) }
{
    counts.insert(day, none_yet())?;
    Ok(())
}

fn add_open(counts: &mut BTreeMap<Day, DayCounts>, day: Option<Day>) -> Result<(), AllocError>
    ensures { OnOk result (HasMore counts.old.entries counts.new.entries (open_days day)) }
{
    match day {
        Some(day) => add_day(counts, day),
        None => Ok(()),
    }
}

/// Zero counts for each closed day and the open day.
fn empty_counts(
    alloc: Global,
    batches: &[Batch],
    day: Option<Day>,
) -> Result<BTreeMap<Day, DayCounts>, AllocError>
    ensures { IfOk result (λ counts. AreNothing counts.entries (days_of batches.now day)) }
{
    let mut counts = BTreeMap::new(alloc);
    for batch in batches {
        add_day(&mut counts, batch.day)?;
    }
    add_open(&mut counts, day)?;
    Ok(counts)
}

/// Whether a day has counts, with room for one more ticket.
fn has_room(counts: &BTreeMap<Day, DayCounts>, day: Day) -> bool
    ensures { (result ≡ true) ↔ HasRoom (counts_at counts.now.entries day) }
{
    match counts.get(&day) {
        Some(own) => own.tickets < MOST_DAY_TICKETS,
        None => false,
    }
}

/// Counts a ticket on its day.
fn count(counts: &mut BTreeMap<Day, DayCounts>, ticket: &Ticket)
    requires { IfSome (counts_at counts.old.entries ticket.now.day) (HasSpace ticket.now) }
    ensures { (q : ℕ) → counts_at counts.new.entries q ≡ option_map (counted (q == ticket.now.day) ticket.now) (counts_at counts.old.entries q) }
{
    if let Some(own) = counts.get_mut(&ticket.day) {
        let total = own.total;
        let paid = ticket.total;
        *own = DayCounts {
            tickets: own.tickets + 1,
            bonds: own.bonds + ticket.lines.as_slice().len() as u64,
            total: Cents(total.0 + paid.0),
        };
    }
}

/// Counts tickets on their days; stops at a ticket whose day has no counts or no room.
fn count_all(counts: &mut BTreeMap<Day, DayCounts>, tickets: &[Ticket]) -> bool
    requires small { AllByRecursion IsSmall tickets.now }
    requires empty { (q : ℕ) → IfSome (counts_at counts.old.entries q) (λ own. own ≡ no_counts) }
    ensures fit { (result ≡ true) ↔ FitCounts counts.old.entries tickets.now }
    ensures counted { result ≡ true → (q : ℕ) → counts_at counts.new.entries q ≡ option_map (λ _. counts_on tickets.now q) (counts_at counts.old.entries q) }
{
    for ticket in tickets {
        if !has_room(counts, ticket.day) {
            return false;
        }
        count(counts, ticket);
    }
    true
}

/// The counts of each closed day and the open day; `None` if a ticket is of another day, or a day has
/// more than 1,000 tickets.
pub fn counts_of(
    alloc: Global,
    tickets: &[Ticket],
    batches: &[Batch],
    day: Option<Day>,
) -> Result<Option<BTreeMap<Day, DayCounts>>, AllocError>
    requires { AllByRecursion IsSmall tickets.now }
    ensures some { IfOk result (λ counts. IfSome counts (λ map. FitDays (days_of batches.now day) tickets.now
        × AreCounted map.entries (days_of batches.now day) tickets.now)) }
    ensures none { IfOk result (λ counts. counts ≡ None → FitDays (days_of batches.now day) tickets.now → ⊥) }
{
    let mut counts = empty_counts(alloc, batches, day)?;
    if count_all(&mut counts, tickets) {
        Ok(Some(counts))
    } else {
        Ok(None)
    }
}

/// Whether a batch has the counts of its day.
fn is_counted(counts: &BTreeMap<Day, DayCounts>, batch: &Batch) -> bool
    ensures { (result ≡ true) ↔ IsCounted counts.now.entries batch.now }
{
    match counts.get(&batch.day) {
        Some(own) => own.tickets == batch.tickets
            && own.bonds == batch.bonds
            && own.total == batch.total,
        None => false,
    }
}

/// Whether each batch has the counts of its day.
pub fn are_counted(counts: &BTreeMap<Day, DayCounts>, batches: &[Batch]) -> bool
    ensures { (result ≡ true) ↔ AllByRecursion (IsCounted counts.now.entries) batches.now }
{
    for batch in batches {
        if !is_counted(counts, batch) {
            return false;
        }
    }
    true
}

/// The counts of the open day; zeros if no day is open.
pub fn open_counts(counts: &BTreeMap<Day, DayCounts>, day: Option<Day>) -> DayCounts
    ensures { result ≡ unwrap_or (option_and_then (counts_at counts.now.entries) day) no_counts }
{
    match day {
        Some(day) => counts.get(&day).copied().unwrap_or(none_yet()),
        None => none_yet(),
    }
}
