//! The tests of acts, in order.
ghost use Rattle.std.specs.Prelude.{◌≡◌, None, [], find, ◌==◌, length, IfOk};
ghost use Rattle.std.specs.Option.{option_map};
ghost use Rattle.std.specs.List.{list_any};
ghost use Rattle.ee_desk_model.specs.Serials.{same_serial};
ghost use Rattle.ee_desk_model.specs.Refusals as is;
ghost use Rattle.ee_desk_model.specs.Views.{shown_by};

use crate::values::unsettled;
use crate::views::View;
use ee_calculator::Bond;
use ee_desk_model::{
    Act, Held, MOST_DAY_TICKETS, MOST_ROWS, MOST_SERIALS, RateRow, Refusal, UnitTables,
};
use ee_units::calendar::{is_announcement, month_of, period_of};
use ee_units::{Customer, Day, IssueMonth, Month, Serial};
use ee_value::Rates;
use std::alloc::{AllocError, Global};

/// The refusal of a list by its length.
fn refusal_of_length(most: usize, count: usize) -> Option<Refusal>
    ensures { result ≡ is.refusal_of_length most count }
{
    if count == 0 {
        return Some(Refusal::Empty);
    }
    if count > most {
        return Some(Refusal::TooMany);
    }
    None
}

/// The refusal of an act by the length of its list. If there is one, nothing has to be looked up.
pub fn length_refusal(act: &Act) -> Option<Refusal>
    ensures { result ≡ is.length_refusal act.now }
{
    match act {
        Act::AddRates(rows) => refusal_of_length(MOST_ROWS, rows.as_slice().len()),
        Act::AddBonds(bonds) => refusal_of_length(MOST_ROWS, bonds.as_slice().len()),
        Act::Redeem { serials, .. } => refusal_of_length(MOST_SERIALS, serials.as_slice().len()),
        Act::OpenDay(_) | Act::CloseDay(_) => None,
    }
}

fn first_unannounced(rows: &[RateRow]) -> Option<Refusal>
    ensures { result ≡ is.first_of is.unannounced rows.now }
{
    for row in rows {
        if !is_announcement(row.from) {
            return Some(Refusal::NotAnnouncementMonth(row.from));
        }
    }
    None
}

/// The rates of a month in the first row for it.
fn rate_among(rows: &[RateRow], month: IssueMonth) -> Option<Rates>
    ensures { result ≡ option_map (λ row. row.rates) (find (λ row. row.from == month) rows.now) }
{
    for row in rows {
        if row.from == month {
            return Some(row.rates);
        }
    }
    None
}

/// The rates of a month in the books, or else in an earlier row.
pub fn known_rate(view: &View, earlier: &[RateRow], month: IssueMonth) -> Option<Rates>
    ensures { result ≡ is.known_rate (shown_by view.now) earlier.now month }
{
    match view.rates(month) {
        Some(rates) => Some(rates),
        None => rate_among(earlier, month),
    }
}

fn first_unsettled(
    alloc: Global,
    tables: &mut UnitTables,
    view: &View,
    rows: &[RateRow],
) -> Result<Option<Refusal>, AllocError>
    ensures { IfOk result (λ refusal. refusal ≡ is.first_of is.near rows.now) }
{
    for row in rows {
        if let Some(age) = unsettled(alloc, tables, view, row)? {
            return Ok(Some(Refusal::RateUnsettled(age)));
        }
    }
    Ok(None)
}

fn first_rate_conflict(view: &View, rows: &[RateRow]) -> Option<Refusal>
    ensures { result ≡ is.rate_conflict (shown_by view.now) [] rows.now }
{
    for (i, row) in rows.iter().enumerate() {
        let known = known_rate(view, &rows[..i], row.from);
        if known.is_some_and(|rates| rates != row.rates) {
            return Some(Refusal::RateConflict(row.from));
        }
    }
    None
}

fn refusal_of_rates(
    alloc: Global,
    tables: &mut UnitTables,
    view: &View,
    rows: &[RateRow],
) -> Result<Option<Refusal>, AllocError>
    ensures { IfOk result (λ refusal. refusal ≡ is.first (is.tests_of_rates (shown_by view.now) rows.now)) }
{
    if let Some(refusal) = refusal_of_length(MOST_ROWS, rows.len()) {
        return Ok(Some(refusal));
    }
    if let Some(refusal) = first_unannounced(rows) {
        return Ok(Some(refusal));
    }
    if let Some(refusal) = first_rate_conflict(view, rows) {
        return Ok(Some(refusal));
    }
    first_unsettled(alloc, tables, view, rows)
}

fn has_serial(serials: &[Serial], serial: Serial) -> bool
    ensures { result ≡ list_any (same_serial serial) serials.now }
{
    for other in serials {
        if serial == *other {
            return true;
        }
    }
    false
}

fn has_bond(bonds: &[Bond], serial: Serial) -> bool
    ensures { result ≡ list_any (λ other. same_serial serial other.serial) bonds.now }
{
    for other in bonds {
        if serial == other.serial {
            return true;
        }
    }
    false
}

fn first_repeated(serials: &[Serial]) -> Option<Refusal>
    ensures { result ≡ is.repeated [] serials.now }
{
    for (i, serial) in serials.iter().enumerate() {
        if has_serial(&serials[..i], *serial) {
            return Some(Refusal::Repeated(*serial));
        }
    }
    None
}

fn first_repeated_bond(bonds: &[Bond]) -> Option<Refusal>
    ensures { result ≡ is.repeated_bond [] bonds.now }
{
    for (i, bond) in bonds.iter().enumerate() {
        if has_bond(&bonds[..i], bond.serial) {
            return Some(Refusal::Repeated(bond.serial));
        }
    }
    None
}

fn first_own_coowner(bonds: &[Bond]) -> Option<Refusal>
    ensures { result ≡ is.first_of is.own_coowner bonds.now }
{
    for bond in bonds {
        if bond.has_coowner(bond.owner) {
            return Some(Refusal::SameCoowner(bond.serial));
        }
    }
    None
}

fn first_unrated(view: &View, bonds: &[Bond]) -> Option<Refusal>
    ensures { result ≡ is.first_of (is.unrated (shown_by view.now)) bonds.now }
{
    for bond in bonds {
        if view.rates(period_of(bond.issued)).is_none() {
            return Some(Refusal::NoRate(bond.serial));
        }
    }
    None
}

/// Whether a serial is registered with other content.
fn is_other_bond(held: Option<Held>, bond: &Bond) -> bool
    ensures { result ≡ is.is_other_bond held bond.now }
{
    match held {
        Some(held) => held.bond != *bond,
        None => false,
    }
}

fn first_bond_conflict(view: &View, bonds: &[Bond]) -> Option<Refusal>
    ensures { result ≡ is.first_of (is.bond_conflict (shown_by view.now)) bonds.now }
{
    for bond in bonds {
        if is_other_bond(view.held(bond.serial), bond) {
            return Some(Refusal::SerialConflict(bond.serial));
        }
    }
    None
}

fn refusal_of_bonds(view: &View, bonds: &[Bond]) -> Option<Refusal>
    ensures { result ≡ is.first (is.tests_of_bonds (shown_by view.now) bonds.now) }
{
    if let Some(refusal) = refusal_of_length(MOST_ROWS, bonds.len()) {
        return Some(refusal);
    }
    if let Some(refusal) = first_repeated_bond(bonds) {
        return Some(refusal);
    }
    if let Some(refusal) = first_own_coowner(bonds) {
        return Some(refusal);
    }
    if let Some(refusal) = first_unrated(view, bonds) {
        return Some(refusal);
    }
    first_bond_conflict(view, bonds)
}

fn refusal_of_open(view: &View, day: Day) -> Option<Refusal>
    ensures { result ≡ is.first (is.tests_of_open (shown_by view.now) day) }
{
    if view.day().is_some() {
        return Some(Refusal::DayOpen);
    }
    match view.last_day() {
        Some(closed) if day <= closed => Some(Refusal::DayNotLater),
        _ => None,
    }
}

fn refusal_of_day(opened: Option<Day>, day: Day) -> Option<Refusal>
    ensures { result ≡ is.refusal_of_day opened day }
{
    match opened {
        None => Some(Refusal::NoOpenDay),
        Some(other) if other != day => Some(Refusal::DayIsOther),
        Some(_) => None,
    }
}

/// The tests of one serial number.
fn refusal_of_serial(view: &View, month: Month, payee: Customer, serial: Serial) -> Option<Refusal>
    ensures { result ≡ is.refusal_of_serial (shown_by view.now) month payee serial }
{
    let Some(Held { bond, ticket }) = view.held(serial) else {
        return Some(Refusal::UnknownSerial(serial));
    };
    if !bond.is_payee(payee) {
        return Some(Refusal::NotPayee(serial));
    }
    if let Some(ticket) = ticket {
        return Some(Refusal::AlreadyPaid(serial, ticket));
    }
    let issued = bond.issued.count();
    if month.count() < issued {
        return Some(Refusal::NotIssued(serial));
    }
    if month.count() - issued < 12 {
        return Some(Refusal::NotEligible(serial));
    }
    None
}

fn first_unpayable(
    view: &View,
    month: Month,
    payee: Customer,
    serials: &[Serial],
) -> Option<Refusal>
    ensures { result ≡ is.first_of (is.refusal_of_serial (shown_by view.now) month payee) serials.now }
{
    for serial in serials {
        if let Some(refusal) = refusal_of_serial(view, month, payee, *serial) {
            return Some(refusal);
        }
    }
    None
}

fn refusal_of_redeem(view: &View, day: Day, payee: Customer, serials: &[Serial]) -> Option<Refusal>
    ensures { result ≡ is.first (is.tests_of_redeem (shown_by view.now) day payee serials.now) }
{
    if let Some(refusal) = refusal_of_length(MOST_SERIALS, serials.len()) {
        return Some(refusal);
    }
    if let Some(refusal) = first_repeated(serials) {
        return Some(refusal);
    }
    if let Some(refusal) = refusal_of_day(view.day(), day) {
        return Some(refusal);
    }
    if view.counts().tickets >= MOST_DAY_TICKETS {
        return Some(Refusal::DayFull);
    }
    first_unpayable(view, month_of(day), payee, serials)
}

/// The first refusal of an act. Keeps the tables of new rates.
pub fn refusal(
    alloc: Global,
    tables: &mut UnitTables,
    view: &View,
    act: &Act,
) -> Result<Option<Refusal>, AllocError>
    ensures { IfOk result (λ refusal. refusal ≡ is.refusal_of (shown_by view.now) act.now) }
{
    match act {
        Act::AddRates(rows) => refusal_of_rates(alloc, tables, view, rows.as_slice()),
        Act::AddBonds(bonds) => Ok(refusal_of_bonds(view, bonds.as_slice())),
        Act::OpenDay(day) => Ok(refusal_of_open(view, *day)),
        Act::Redeem {
            day,
            payee,
            serials,
        } => Ok(refusal_of_redeem(view, *day, *payee, serials.as_slice())),
        Act::CloseDay(day) => Ok(refusal_of_day(view.day(), *day)),
    }
}
