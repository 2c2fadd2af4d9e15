//! The values of the words of a row.

ghost use Rattle.std.specs.Prelude.{◌≡◌, ◌≤◌, IfOk, option_and_then, option_map};
ghost use Rattle.clap.specs.Words.{first_of, found_of, one_of, rows_of};
ghost use Rattle.ee_units.specs.Denoms.{denom_of};
ghost use Rattle.ee_units.specs.Spelling.{customer_of, in_range, issue_of, month_of, rate_of};
ghost use Rattle.ee_desk_model.specs.Desks.{desk_of};
ghost use Rattle.ee_cli_commands.specs.CommandLine.{
  kind_of_file,
  most_port,
  number_word,
  numbered,
  numbered_or,
  spelled,
  spelled_or,
  spelled_or_none,
  text_of,
};
ghost use Rattle.ee_cli_commands.specs.Inner.Answer.{Spells};
ghost use Rattle.ee_desk_model.specs.Limits.{highest_number};

use crate::commands::FileKind;
use clap::ArgMatches;
use ee_desk_model::{Desk, Number, read_desk};
use ee_units::{
    Customer, Denom, IssueMonth, Month, Rate, read_customer, read_denom, read_issue, read_month,
    read_rate,
};

/// The name of a word that spells no value.
pub type WordName = &'static str;

const MOST_NUMBER: u64 = 9_223_372_036_854_775_807;

const MOST_PORT: u64 = 65_535;

/// The word with this name, as it was typed; `None` if there is none.
pub fn word<'a>(matches: &ArgMatches<'a>, name: WordName) -> Option<&'a str>
    ensures { option_map (λ s. s.now) result ≡ first_of name.now (rows_of (found_of matches.now)) }
{
    matches.get_str(name)
}

/// The word with this name, unchanged.
pub fn text<'a>(matches: &ArgMatches<'a>, name: WordName) -> Result<&'a str, WordName>
    ensures { Spells (λ s. s.now) result (spelled name.now text_of (rows_of (found_of matches.now))) }
{
    word(matches, name).ok_or(name)
}

/// The denomination.
pub fn denom(matches: &ArgMatches, name: WordName) -> Result<Denom, WordName>
    ensures { Spells (λ v. v) result (spelled name.now denom_of (rows_of (found_of matches.now))) }
{
    match word(matches, name) {
        Some(word) => read_denom(word).or(Err(name)),
        None => Err(name),
    }
}

/// An issue month.
pub fn issue(matches: &ArgMatches, name: WordName) -> Result<IssueMonth, WordName>
    ensures { Spells (λ v. v) result (spelled name.now issue_of (rows_of (found_of matches.now))) }
{
    match word(matches, name) {
        Some(word) => read_issue(word).or(Err(name)),
        None => Err(name),
    }
}

/// A month.
pub fn month(matches: &ArgMatches, name: WordName) -> Result<Month, WordName>
    ensures { Spells (λ v. v) result (spelled name.now month_of (rows_of (found_of matches.now))) }
{
    match word(matches, name) {
        Some(word) => read_month(word).or(Err(name)),
        None => Err(name),
    }
}

/// A rate.
pub fn rate(matches: &ArgMatches, name: WordName) -> Result<Rate, WordName>
    ensures { Spells (λ v. v) result (spelled name.now rate_of (rows_of (found_of matches.now))) }
{
    match word(matches, name) {
        Some(word) => read_rate(word).or(Err(name)),
        None => Err(name),
    }
}

/// A rate; `None` if there is no such word.
pub fn rate_or_none(matches: &ArgMatches, name: WordName) -> Result<Option<Rate>, WordName>
    ensures { Spells (λ v. v) result (spelled_or_none name.now rate_of (rows_of (found_of matches.now))) }
{
    match word(matches, name) {
        Some(_) => Ok(Some(rate(matches, name)?)),
        None => Ok(None),
    }
}

/// A customer.
pub fn customer(matches: &ArgMatches, name: WordName) -> Result<Customer, WordName>
    ensures { Spells (λ v. v) result (spelled name.now customer_of (rows_of (found_of matches.now))) }
{
    match word(matches, name) {
        Some(word) => read_customer(word).or(Err(name)),
        None => Err(name),
    }
}

/// A kind of file.
pub fn kind(matches: &ArgMatches, name: WordName) -> Result<FileKind, WordName>
    ensures { Spells (λ v. v) result (spelled name.now kind_of_file (rows_of (found_of matches.now))) }
{
    match word(matches, name) {
        Some("rates") => Ok(FileKind::Rates),
        Some("inventory") => Ok(FileKind::Inventory),
        _ => Err(name),
    }
}

fn whole_number(matches: &ArgMatches, name: WordName, most: u64) -> Option<u64>
    ensures { option_and_then (in_range 1 most) result
        ≡ option_and_then (number_word most) (one_of name.now (rows_of (found_of matches.now))) }
{
    matches.get_one::<u64>(name)
}

/// A whole number from 1 to `most`.
pub fn number(matches: &ArgMatches, name: WordName, most: u64) -> Result<u64, WordName>
    ensures number { Spells (λ v. v) result (numbered name.now most (rows_of (found_of matches.now))) }
    ensures low { IfOk result (λ n. 1 ≤ n) }
    ensures high { IfOk result (λ n. n ≤ most) }
{
    match whole_number(matches, name, most) {
        Some(number) if number >= 1 && number <= most => Ok(number),
        _ => Err(name),
    }
}

/// A whole number from 1 to `most`, or `otherwise` if there is no such word.
pub fn number_or(
    matches: &ArgMatches,
    name: WordName,
    most: u64,
    otherwise: u64,
) -> Result<u64, WordName>
    ensures { Spells (λ v. v) result (numbered_or otherwise name.now most (rows_of (found_of matches.now))) }
{
    match word(matches, name) {
        Some(_) => number(matches, name, most),
        None => Ok(otherwise),
    }
}

/// A request number.
pub fn request_number(matches: &ArgMatches, name: WordName) -> Result<Number, WordName>
    ensures { Spells (λ v. v) result (numbered name.now highest_number (rows_of (found_of matches.now))) }
{
    match Number::new(number(matches, name, MOST_NUMBER)?) {
        Some(number) => Ok(number),
        None => Err(name),
    }
}

/// A desk; the first desk if there is no such word.
pub fn desk(matches: &ArgMatches, name: WordName) -> Result<Desk, WordName>
    ensures { Spells (λ v. v) result (spelled_or 0 name.now desk_of (rows_of (found_of matches.now))) }
{
    match word(matches, name) {
        Some(word) => read_desk(word).ok_or(name),
        None => Ok(Desk::first()),
    }
}

/// A port.
pub fn port(matches: &ArgMatches, name: WordName) -> Result<u16, WordName>
    ensures { Spells (λ v. v) result (numbered name.now most_port (rows_of (found_of matches.now))) }
{
    Ok(number(matches, name, MOST_PORT)? as u16)
}
