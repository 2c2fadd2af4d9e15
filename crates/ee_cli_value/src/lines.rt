//! A line that asks for a value.

ghost use Rattle.std.specs.Prelude.{◌≡◌, map, string_bytes};
ghost use Rattle.ee_cli_value.specs.Lines.{RunsLine, asked_by, extension_of, line_of_words};

use crate::statuses::{conclude, report};
use crate::values::print_value;
use ee_io::Sink;
use ee_units::{Denom, IssueMonth, Month, Rate, read_denom, read_issue, read_month, read_rate};
use ee_value::Rates;
use std::alloc::Global;
use std::io::Write;

/// What a line `value DENOM ISSUED MONTH RATE [EXTENSION]` asks for.
#[derive(Clone, Copy)]
pub struct ValueLine {
    pub denom: Denom,
    pub issued: IssueMonth,
    pub month: Month,
    pub rates: Rates,
}

/// Parses the words of a line; the first is the program's name. `None` if they aren't
/// `value DENOM ISSUED MONTH RATE [EXTENSION]`, each word in its place spelled as a value.
pub fn read_line(words: &[String]) -> Option<ValueLine>
    ensures { result ≡ line_of_words (map (λ w. string_bytes w) words.now) }
{
    let [_, command, denom, issued, month, rate, rest @ ..] = words else {
        return None;
    };
    if command.as_str() == "value" {
        asked_by(denom, issued, month, rate, rest)
    } else {
        None
    }
}

// What the words after `value` ask for.
fn asked_by(
    denom: &str,
    issued: &str,
    month: &str,
    rate: &str,
    rest: &[String],
) -> Option<ValueLine>
    ensures { result ≡ asked_by denom.now issued.now month.now rate.now (map (λ w. string_bytes w) rest.now) }
{
    let denom = read_denom(denom).ok()?;
    let issued = read_issue(issued).ok()?;
    let month = read_month(month).ok()?;
    let rate = read_rate(rate).ok()?;
    let extension = extension_in(rest)?;
    Some(ValueLine {
        denom,
        issued,
        month,
        rates: Rates::new(rate, extension),
    })
}

// The extension in the words after the rate, if there is one.
fn extension_in(rest: &[String]) -> Option<Option<Rate>>
    ensures { result ≡ extension_of (map (λ w. string_bytes w) rest.now) }
{
    match rest {
        [] => Some(None),
        [word] => Some(Some(read_rate(word).ok()?)),
        _ => None,
    }
}

/// Runs a line of words, of which the first is the program's name, and returns its exit status. For words that
/// `read_line` doesn't parse it returns `None` and prints nothing.
pub fn run_line<W: Sink, E: Write>(
    alloc: Global,
    words: &[String],
    output: &mut W,
    faults: &mut E,
) -> Option<u8>
    ensures { RunsLine (line_of_words (map (λ w. string_bytes w) words.now)) (W.contents output.old) (W.contents output.new) result }
{
    let line = read_line(words)?;
    let printed = print_value(
        alloc,
        line.denom,
        line.issued,
        line.month,
        line.rates,
        output,
    );
    Some(match printed {
        Ok(outcome) => conclude(outcome, faults),
        Err(fault) => report(&fault, faults),
    })
}
