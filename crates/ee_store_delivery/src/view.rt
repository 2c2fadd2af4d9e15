//! What an act sees of the books: known already, or else read by its keys in a transaction.

ghost use Rattle.std.specs.Prelude.{◌≡◌, ◌≤◌, IfOk, IfSome, IsSome, Some, None, length, ⊤};
ghost use Rattle.std.specs.Result.{IsOk};
ghost use Rattle.std.specs.Option.{option_map};
ghost use Rattle.std.specs.FinMap as finite;
ghost use Rattle.sqlite.specs.Held.{state};
ghost use Rattle.ee_desk_model.specs.Seen.{held_of};
ghost use Rattle.ee_desk_model.specs.declared.acts.Act.{Act};
ghost use Rattle.ee_desk_model.specs.PlainBooks.{PlainBooks};
ghost use Rattle.ee_desk_model.specs.Refusals.{length_refusal};
ghost use Rattle.ee_desk_model.specs.Sound.{IsDay, IsSound};
ghost use Rattle.ee_desk_model.specs.Views as is;
ghost use Rattle.ee_desk_model.specs.Views.{picked};
ghost use Rattle.ee_store_tables.specs.AsRows.{row_of_desk};
ghost use Rattle.ee_store_tables.specs.Rows.{DeskRow};
ghost use Rattle.ee_store_books.specs.Causes.{FailsByCause};
ghost use Rattle.ee_store_books.specs.Found.{terms_found, bonds_found};
ghost use Rattle.ee_store_books.specs.Seen.{FindsIn, OnlyReads};
ghost use Rattle.ee_store_delivery.specs.Inner.Delivered.{AreEffects};
ghost use Rattle.ee_store_delivery.specs.Inner.Written.{all_added_rows};
ghost use Rattle.ee_store_delivery.specs.Known.{IsDayState, AreTermsOf, AreKnown};
ghost use Rattle.ee_store_delivery.specs.Inner.Known.{LearnsIn};

use crate::known::{DayState, Known, known_terms, learn_terms};
use crate::named_by_act::{periods_of, serials_of};
use ee_desk_decide::{DayCounts, View, ViewParts, decide, length_refusal};
use ee_desk_model::{Act, Effects, Held, Terms, UnitTables};
use ee_store_books::{counted_in, find_terms, held_in, no_terms, note_terms, tickets_in};
use ee_store_tables as tables;
use ee_store_tables::{Failure, find_desk};
use ee_units::{Day, IssueMonth, Serial};
use sqlite::{Alter, Transaction};
use std::alloc::Global;
use std::collections::BTreeMap;

fn optional_day(count: Option<u64>) -> Option<Option<Day>>
    ensures value { IfSome result (λ day. day ≡ count) }
    ensures read { IfSome count IsDay → IsSome result }
{
    match count {
        None => Some(None),
        Some(count) => Some(Some(Day::new(count)?)),
    }
}

/// The open day and the last closed day.
#[derive(Drop)]
struct DaysFound {
    day: Option<Day>,
    last_day: Option<Day>,
}

fn days_of(desk: tables::DeskRow) -> Result<DaysFound, Failure>
    ensures value { IfOk result (λ days. (days.day ≡ desk.day) × (days.last_day ≡ desk.last_day)) }
    ensures read { IfSome desk.day IsDay → IfSome desk.last_day IsDay → IsOk result }
{
    let Some(day) = optional_day(desk.day) else {
        return Err(Failure::StoreFailed);
    };
    let Some(last_day) = optional_day(desk.last_day) else {
        return Err(Failure::StoreFailed);
    };
    Ok(DaysFound { day, last_day })
}

/// The days that a look-up found.
fn days_shown(found: Option<tables::DeskRow>) -> Result<DaysFound, Failure>
    ensures value { IfOk result
        (λ days. (desk : DeskRow) → option_map row_of_desk found ≡ Some desk → (days.day ≡ desk.day) × (days.last_day ≡ desk.last_day)) }
    ensures read { (desk : DeskRow) → option_map row_of_desk found ≡ Some desk → IfSome desk.day IsDay → IfSome desk.last_day IsDay → IsOk result }
{
    match found {
        Some(desk) => days_of(desk),
        None => Err(Failure::StoreFailed),
    }
}

/// The open day and the last closed day.
fn days_in<S: Alter>(tx: &mut Transaction<'_, S>) -> Result<DaysFound, Failure>
    ensures same_reference { tx.new.conn.ghost_name ≡ tx.old.conn.ghost_name }
    ensures only_reads { OnlyReads (state S.Store tx.old.conn.now) (state S.Store tx.new.conn.now) result }
    ensures found { FindsIn (state S.Store tx.old.conn.now) (state S.Store tx.new.conn.now) result
        (λ content days. (days.day ≡ content.books.day) × (days.last_day ≡ content.books.last_day)) }
    ensures cause { FailsByCause (state S.Store tx.old.conn.now) (state S.Store tx.new.conn.now) result (λ _. ⊤) }
{
    let found = find_desk(tx)?;
    days_shown(found)
}

/// The terms of a period: known already, or else read now and known from then on.
fn terms_in<S: Alter>(
    tx: &mut Transaction<'_, S>,
    alloc: Global,
    tables: &mut UnitTables,
    known: &mut BTreeMap<IssueMonth, Terms>,
    period: IssueMonth,
) -> Result<Option<Terms>, Failure>
    ensures same_reference { tx.new.conn.ghost_name ≡ tx.old.conn.ghost_name }
    ensures only_reads { OnlyReads (state S.Store tx.old.conn.now) (state S.Store tx.new.conn.now) result }
    ensures found { FindsIn (state S.Store tx.old.conn.now) (state S.Store tx.new.conn.now) result
        (λ content terms. AreTermsOf (terms_found known.old.entries) content.books → terms ≡ finite.get content.books.rates period) }
    ensures learns { LearnsIn (state S.Store tx.old.conn.now) (state S.Store tx.new.conn.now) result
        (AreTermsOf (terms_found known.old.entries)) (AreTermsOf (terms_found known.new.entries)) }
    ensures cause { FailsByCause (state S.Store tx.old.conn.now) (state S.Store tx.new.conn.now) result (λ _. ⊤) }
{
    if let Some(terms) = known_terms(known, period)? {
        return Ok(Some(terms));
    }
    let terms = find_terms(tx, alloc, tables, period)?;
    learn_terms(known, period, &terms)?;
    Ok(terms)
}

/// The terms of periods. Terms that are read are known from then on.
fn terms_for<S: Alter>(
    tx: &mut Transaction<'_, S>,
    alloc: Global,
    tables: &mut UnitTables,
    known: &mut BTreeMap<IssueMonth, Terms>,
    periods: &[IssueMonth],
) -> Result<BTreeMap<IssueMonth, Terms>, Failure>
    ensures same_reference { tx.new.conn.ghost_name ≡ tx.old.conn.ghost_name }
    ensures only_reads { OnlyReads (state S.Store tx.old.conn.now) (state S.Store tx.new.conn.now) result }
    ensures found { FindsIn (state S.Store tx.old.conn.now) (state S.Store tx.new.conn.now) result (λ content found.
        AreTermsOf (terms_found known.old.entries) content.books → terms_found found.entries ≡ picked (finite.get content.books.rates) periods.now) }
    ensures learns { LearnsIn (state S.Store tx.old.conn.now) (state S.Store tx.new.conn.now) result
        (AreTermsOf (terms_found known.old.entries)) (AreTermsOf (terms_found known.new.entries)) }
    ensures cause { FailsByCause (state S.Store tx.old.conn.now) (state S.Store tx.new.conn.now) result (λ _. ⊤) }
{
    let mut found = no_terms(alloc);
    for period in periods {
        let terms = terms_in(tx, alloc, tables, known, *period)?;
        note_terms(&mut found, *period, terms)?;
    }
    Ok(found)
}

/// The terms and the bonds that an act names.
#[derive(Drop)]
struct Keys {
    terms: BTreeMap<IssueMonth, Terms>,
    bonds: BTreeMap<Serial, Held>,
}

/// The terms and the bonds that an act names. Terms that are read are known from then on.
fn keys_in<S: Alter>(
    tx: &mut Transaction<'_, S>,
    alloc: Global,
    tables: &mut UnitTables,
    known: &mut BTreeMap<IssueMonth, Terms>,
    act: &Act,
) -> Result<Keys, Failure>
    ensures same_reference { tx.new.conn.ghost_name ≡ tx.old.conn.ghost_name }
    ensures only_reads { OnlyReads (state S.Store tx.old.conn.now) (state S.Store tx.new.conn.now) result }
    ensures found { FindsIn (state S.Store tx.old.conn.now) (state S.Store tx.new.conn.now) result (λ content keys.
        AreTermsOf (terms_found known.old.entries) content.books
        → (terms_found keys.terms.entries ≡ picked (finite.get content.books.rates) (is.periods_of content.books act.now))
        × (bonds_found keys.bonds.entries ≡ picked (held_of content.books) (is.serials_of act.now))) }
    ensures learns { LearnsIn (state S.Store tx.old.conn.now) (state S.Store tx.new.conn.now) result
        (AreTermsOf (terms_found known.old.entries)) (AreTermsOf (terms_found known.new.entries)) }
    ensures cause { FailsByCause (state S.Store tx.old.conn.now) (state S.Store tx.new.conn.now) result (λ _. ⊤) }
{
    let serials = serials_of(alloc, act)?;
    let named = serials.as_slice();
    let bonds = held_in(tx, alloc, named)?;
    let periods = periods_of(alloc, &bonds, act)?;
    let asked = periods.as_slice();
    let terms = terms_for(tx, alloc, tables, known, asked)?;
    Ok(Keys { terms, bonds })
}

/// The number of tickets, and the open day's tickets, for acts that count them.
#[derive(Drop)]
struct Counts {
    tickets: u64,
    day: DayCounts,
}

/// The number of tickets, and the open day's tickets, for acts that count them.
fn counts_in<S: Alter>(
    tx: &mut Transaction<'_, S>,
    alloc: Global,
    act: &Act,
    day: Option<Day>,
) -> Result<Counts, Failure>
    ensures same_reference { tx.new.conn.ghost_name ≡ tx.old.conn.ghost_name }
    ensures only_reads { OnlyReads (state S.Store tx.old.conn.now) (state S.Store tx.new.conn.now) result }
    ensures found { FindsIn (state S.Store tx.old.conn.now) (state S.Store tx.new.conn.now) result (λ content counts. day ≡ content.books.day
        → (counts.tickets ≡ length content.books.tickets) × (counts.day.tickets ≡ (is.needed_counts content.books act.now).tickets)
        × (counts.day.bonds ≡ (is.needed_counts content.books act.now).bonds) × (counts.day.total.0 ≡ (is.needed_counts content.books act.now).total.0)) }
    ensures cause { FailsByCause (state S.Store tx.old.conn.now) (state S.Store tx.new.conn.now) result (λ _. ⊤) }
{
    let tickets = tickets_in(tx)?;
    let counts = counted_in(tx, alloc, act, day, tickets)?;
    Ok(Counts {
        tickets,
        day: counts,
    })
}

/// The days, and the counts of tickets for an act.
fn day_state_in<S: Alter>(
    tx: &mut Transaction<'_, S>,
    alloc: Global,
    act: &Act,
) -> Result<DayState, Failure>
    ensures same_reference { tx.new.conn.ghost_name ≡ tx.old.conn.ghost_name }
    ensures only_reads { OnlyReads (state S.Store tx.old.conn.now) (state S.Store tx.new.conn.now) result }
    ensures found { FindsIn (state S.Store tx.old.conn.now) (state S.Store tx.new.conn.now) result
        (λ content day_state. IsDayState day_state content.books (is.needed_counts content.books act.now)) }
    ensures cause { FailsByCause (state S.Store tx.old.conn.now) (state S.Store tx.new.conn.now) result (λ _. ⊤) }
{
    let days = days_in(tx)?;
    let counts = counts_in(tx, alloc, act, days.day)?;
    Ok(DayState {
        day: days.day,
        last_day: days.last_day,
        tickets: counts.tickets,
        counts: counts.day,
    })
}

/// The same, known already or else read now.
fn find_day_state<S: Alter>(
    tx: &mut Transaction<'_, S>,
    alloc: Global,
    known: &Known,
    act: &Act,
) -> Result<DayState, Failure>
    ensures same_reference { tx.new.conn.ghost_name ≡ tx.old.conn.ghost_name }
    ensures only_reads { OnlyReads (state S.Store tx.old.conn.now) (state S.Store tx.new.conn.now) result }
    ensures found { FindsIn (state S.Store tx.old.conn.now) (state S.Store tx.new.conn.now) result
        (λ content day_state. AreKnown known.now content.books → IsDayState day_state content.books (is.needed_counts content.books act.now)) }
    ensures cause { FailsByCause (state S.Store tx.old.conn.now) (state S.Store tx.new.conn.now) result (λ _. ⊤) }
{
    match known.day_state_for(act) {
        Some(day_state) => Ok(day_state),
        None => day_state_in(tx, alloc, act),
    }
}

fn view_from(keys: Keys, day_state: &DayState) -> Result<View, Failure>
    ensures fits { (books : PlainBooks) → IsSound books → (asked : Act)
        → record {
          rates = terms_found keys.terms.entries;
          bonds = bonds_found keys.bonds.entries;
          day = day_state.now.day;
          last_day = day_state.now.last_day;
          tickets = day_state.now.tickets;
          day_tickets = day_state.now.counts.tickets;
          day_bonds = day_state.now.counts.bonds;
          day_total = day_state.now.counts.total.0;
        } ≡ is.needed_of books asked
        → IsOk result }
    ensures view { IfOk result
        (λ view. view ≡ record {
          rates = terms_found keys.terms.entries;
          bonds = bonds_found keys.bonds.entries;
          day = day_state.now.day;
          last_day = day_state.now.last_day;
          tickets = day_state.now.tickets;
          day_tickets = day_state.now.counts.tickets;
          day_bonds = day_state.now.counts.bonds;
          day_total = day_state.now.counts.total.0;
        }) }
{
    let Keys { terms, bonds } = keys;
    let parts = ViewParts {
        rates: terms,
        bonds,
        day: day_state.day,
        last_day: day_state.last_day,
        tickets: day_state.tickets,
        day_tickets: day_state.counts.tickets,
        day_bonds: day_state.counts.bonds,
        day_total: day_state.counts.total,
    };
    match View::from_parts(parts) {
        Some(view) => Ok(view),
        None => Err(Failure::StoreFailed),
    }
}

/// What an act depends on, if the length of its list doesn't refuse it.
fn view_within<S: Alter>(
    tx: &mut Transaction<'_, S>,
    alloc: Global,
    tables: &mut UnitTables,
    known: &mut Known,
    act: &Act,
) -> Result<View, Failure>
    ensures same_reference { tx.new.conn.ghost_name ≡ tx.old.conn.ghost_name }
    ensures only_reads { OnlyReads (state S.Store tx.old.conn.now) (state S.Store tx.new.conn.now) result }
    ensures found { FindsIn (state S.Store tx.old.conn.now) (state S.Store tx.new.conn.now) result
        (λ content view. AreKnown known.old content.books → view ≡ is.needed_within content.books act.now) }
    ensures learns { LearnsIn (state S.Store tx.old.conn.now) (state S.Store tx.new.conn.now) result (AreKnown known.old) (AreKnown known.new) }
    ensures cause { FailsByCause (state S.Store tx.old.conn.now) (state S.Store tx.new.conn.now) result
        (λ content. AreKnown known.old content.books × (length_refusal act.now ≡ None)) }
{
    let day_state = find_day_state(tx, alloc, known, act)?;
    let keys = keys_in(tx, alloc, tables, &mut known.terms, act)?;
    known.note_day_state(act, &day_state);
    view_from(keys, &day_state)
}

/// What an act depends on. If the length of its list refuses it, nothing is read.
fn view_in<S: Alter>(
    tx: &mut Transaction<'_, S>,
    alloc: Global,
    tables: &mut UnitTables,
    known: &mut Known,
    act: &Act,
) -> Result<View, Failure>
    ensures same_reference { tx.new.conn.ghost_name ≡ tx.old.conn.ghost_name }
    ensures only_reads { OnlyReads (state S.Store tx.old.conn.now) (state S.Store tx.new.conn.now) result }
    ensures found { FindsIn (state S.Store tx.old.conn.now) (state S.Store tx.new.conn.now) result
        (λ content view. AreKnown known.old content.books → view ≡ is.needed_of content.books act.now) }
    ensures learns { LearnsIn (state S.Store tx.old.conn.now) (state S.Store tx.new.conn.now) result (AreKnown known.old) (AreKnown known.new) }
    ensures cause { FailsByCause (state S.Store tx.old.conn.now) (state S.Store tx.new.conn.now) result (λ content. AreKnown known.old content.books) }
{
    match length_refusal(act) {
        Some(_) => Ok(View::of_nothing(alloc)),
        None => view_within(tx, alloc, tables, known, act),
    }
}

fn count_of(day: Option<Day>) -> Option<u64>
    ensures { result ≡ day }
{
    match day {
        None => None,
        Some(day) => Some(day.count() as u64),
    }
}

/// The effects of an act on the books that the transaction sees and, if it changes anything, the last closed
/// day.
pub fn effects_in<S: Alter>(
    tx: &mut Transaction<'_, S>,
    alloc: Global,
    tables: &mut UnitTables,
    known: &mut Known,
    act: &Act,
) -> Result<(Effects, Option<u64>), Failure>
    ensures same_reference { tx.new.conn.ghost_name ≡ tx.old.conn.ghost_name }
    ensures only_reads { OnlyReads (state S.Store tx.old.conn.now) (state S.Store tx.new.conn.now) result }
    ensures found { FindsIn (state S.Store tx.old.conn.now) (state S.Store tx.new.conn.now) result
        (λ content found. AreKnown known.old content.books → AreEffects act.now content found) }
    ensures learns { LearnsIn (state S.Store tx.old.conn.now) (state S.Store tx.new.conn.now) result (AreKnown known.old) (AreKnown known.new) }
    ensures few { IfOk result (λ found. all_added_rows found.0.changes ≤ 500) }
    ensures cause { FailsByCause (state S.Store tx.old.conn.now) (state S.Store tx.new.conn.now) result (λ content. AreKnown known.old content.books) }
{
    let view = view_in(tx, alloc, tables, known, act)?;
    let effects = decide(alloc, &view, act)?;
    let closed = view.last_day();
    let last_day = count_of(closed);
    Ok((effects, last_day))
}
