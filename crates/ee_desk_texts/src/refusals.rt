//! Refusals as JSON.

ghost use Rattle.std.specs.Prelude.{◌≡◌};
ghost use Rattle.ee_desk_texts.specs.Data.{names, refused_data, refusal_data};
ghost use Rattle.ee_desk_texts.specs.Inner.Writing.{AddsData};
ghost use Rattle.ee_desk_texts.specs.declared.refusals.Named.TheVariants as named;

use crate::writing::{write_number_member, write_string_member, write_text_member};
use ee_desk_model::Refusal;
use ee_units::{Age, IssueMonth, Serial};
use json::Writer;
use std::alloc::{AllocError, Global};

/// What a refusal names.
#[derive(Clone, Copy)]
pub enum Named {
    Nothing,
    /// The month of a row of rates.
    Period(IssueMonth),
    /// The age at which a value is unsettled.
    Months(Age),
    Bond(Serial),
    /// A bond, and the ticket that paid it.
    Paid(Serial, u64),
}

/// What the refusal names.
pub fn names(refusal: &Refusal) -> Named
    ensures { result ≡ names refusal.now }
{
    match *refusal {
        Refusal::NumberReused
        | Refusal::Empty
        | Refusal::TooMany
        | Refusal::DayOpen
        | Refusal::DayNotLater
        | Refusal::NoOpenDay
        | Refusal::DayIsOther
        | Refusal::DayFull => Named::Nothing,
        Refusal::NotAnnouncementMonth(month) | Refusal::RateConflict(month) => Named::Period(month),
        Refusal::RateUnsettled(age) => Named::Months(age),
        Refusal::AlreadyPaid(serial, ticket) => Named::Paid(serial, ticket),
        Refusal::Repeated(serial)
        | Refusal::SameCoowner(serial)
        | Refusal::NoRate(serial)
        | Refusal::SerialConflict(serial)
        | Refusal::UnknownSerial(serial)
        | Refusal::NotPayee(serial)
        | Refusal::NotIssued(serial)
        | Refusal::NotEligible(serial) => Named::Bond(serial),
    }
}

fn write_plain(out: &mut Writer, code: u64, name: &str) -> Result<(), AllocError>
    ensures { AddsData result out.old out.new (refused_data code name.now named.Nothing) }
{
    out.begin_object()?;
    write_number_member(out, "code", code)?;
    write_text_member(out, "refused", name)?;
    out.end_object()
}

fn write_period(
    alloc: Global,
    out: &mut Writer,
    code: u64,
    name: &str,
    month: IssueMonth,
) -> Result<(), AllocError>
    ensures { AddsData result out.old out.new (refused_data code name.now (named.Period month)) }
{
    out.begin_object()?;
    write_number_member(out, "code", code)?;
    write_string_member(alloc, out, "month", &month)?;
    write_text_member(out, "refused", name)?;
    out.end_object()
}

fn write_months(out: &mut Writer, code: u64, name: &str, months: u64) -> Result<(), AllocError>
    ensures { AddsData result out.old out.new (refused_data code name.now (named.Months months)) }
{
    out.begin_object()?;
    write_number_member(out, "code", code)?;
    write_number_member(out, "month", months)?;
    write_text_member(out, "refused", name)?;
    out.end_object()
}

fn write_bond(
    alloc: Global,
    out: &mut Writer,
    code: u64,
    name: &str,
    serial: Serial,
) -> Result<(), AllocError>
    ensures { AddsData result out.old out.new (refused_data code name.now (named.Bond serial)) }
{
    out.begin_object()?;
    write_number_member(out, "code", code)?;
    write_text_member(out, "refused", name)?;
    write_string_member(alloc, out, "serial", &serial)?;
    out.end_object()
}

fn write_paid(
    alloc: Global,
    out: &mut Writer,
    code: u64,
    name: &str,
    serial: Serial,
    ticket: u64,
) -> Result<(), AllocError>
    ensures { AddsData result out.old out.new (refused_data code name.now (named.Paid serial ticket)) }
{
    out.begin_object()?;
    write_number_member(out, "code", code)?;
    write_text_member(out, "refused", name)?;
    write_string_member(alloc, out, "serial", &serial)?;
    write_number_member(out, "ticket", ticket)?;
    out.end_object()
}

fn write_refused(
    alloc: Global,
    out: &mut Writer,
    code: u64,
    name: &str,
    named: Named,
) -> Result<(), AllocError>
    ensures { AddsData result out.old out.new (refused_data code name.now named) }
{
    match named {
        Named::Nothing => write_plain(out, code, name),
        Named::Period(month) => write_period(alloc, out, code, name, month),
        Named::Months(age) => write_months(out, code, name, u64::from(age.months())),
        Named::Bond(serial) => write_bond(alloc, out, code, name, serial),
        Named::Paid(serial, ticket) => write_paid(alloc, out, code, name, serial, ticket),
    }
}

/// Writes a refusal: its code, its name and what it names.
pub fn write_refusal(alloc: Global, out: &mut Writer, refusal: &Refusal) -> Result<(), AllocError>
    ensures { AddsData result out.old out.new (refusal_data refusal.now) }
{
    write_refused(
        alloc,
        out,
        u64::from(refusal.code()),
        refusal.name(),
        names(refusal),
    )
}
