//! Printing a value.

ghost use Rattle.std.specs.Prelude.{◌≡◌, IfErr, IfOk, string_bytes};
ghost use Rattle.ee_calculator.specs.Rows.{columns_of};
ghost use Rattle.ee_value.specs.Fault.{IsFaultOf};
ghost use Rattle.ee_cli_value.specs.Endings.{TellsDeviceOnlyIf};
ghost use Rattle.ee_cli_value.specs.Inner.Endings.{ending_of_value};
ghost use Rattle.ee_cli_value.specs.Printed.{line_of, value_line};
ghost use Rattle.ee_cli_value.specs.Values.{PrintsValue};

use crate::endings::{Outcome, PrintFault};
use ee_calculator::{Note, plain_row};
use ee_io::{Sink, write_whole};
use ee_units::{Bits, Cents, Denom, IssueMonth, Month, calendar};
use ee_value::{Rates, ValueFault, unit_table};
use std::alloc::{AllocError, Global};

/// The precision of the program's values: 62 binary places.
const PRECISION: u8 = 62;

/// Prints the value, in a month, of a bond of this denomination and issue month at these rates: the value, then
/// a space and the note if there is one. A month before issue needs no table of the rates; from issue on, the
/// result is the rates' least unsettled age, if they have one.
pub fn print_value<W: Sink>(
    alloc: Global,
    denom: Denom,
    issued: IssueMonth,
    month: Month,
    rates: Rates,
    output: &mut W,
) -> Result<Outcome, PrintFault>
    ensures printed { PrintsValue denom issued month rates (W.contents output.old) (W.contents output.new) result }
    ensures device { TellsDeviceOnlyIf (W.may_have_failed output.new) result }
{
    match value_text(alloc, denom, issued, month, rates) {
        Ok(text) if write_whole(output, text.as_bytes()) => Ok(Outcome::Done),
        Ok(_) => Err(PrintFault::Device),
        Err(fault) => without_value(fault),
    }
}

// How the command ends if there is no table of values.
fn without_value(fault: ValueFault) -> Result<Outcome, PrintFault>
    ensures { result ≡ ending_of_value fault }
{
    match fault {
        ValueFault::Unsettled { age } => Ok(Outcome::Unsettled(age)),
        ValueFault::NoMemory => Err(PrintFault::NoMemory),
    }
}

// The line that shows the value.
#[tactic(auto, unfolding(ee_calculator::specs::Rows::columns_of))]
fn value_text(
    alloc: Global,
    denom: Denom,
    issued: IssueMonth,
    month: Month,
    rates: Rates,
) -> Result<String, ValueFault>
    ensures text { IfOk result (λ text. string_bytes text ≡ value_line denom issued month rates) }
    ensures fault { IfErr result (IsFaultOf rates 62) }
{
    if calendar::age(issued, month).is_none() {
        return Ok(line(alloc, Cents(0), Note::Ni)?);
    }
    let table = unit_table(alloc, rates, Bits::from_places(PRECISION))?;
    let row = plain_row(denom, issued, rates, &table, month);
    Ok(line(alloc, row.value, row.note)?)
}

fn line(alloc: Global, value: Cents, note: Note) -> Result<String, AllocError>
    ensures { IfOk result (λ text. string_bytes text ≡ line_of value.0 note) }
{
    match note {
        Note::Plain => format!(in alloc; "{value}\n"),
        _ => format!(in alloc; "{value} {note}\n"),
    }
}
