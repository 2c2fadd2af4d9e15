//! Reading the words of a command line, by clap.

ghost use Rattle.std.specs.Prelude.{◌≡◌, IfOk, IfSome, Some, List, map, string_bytes, true};
ghost use Rattle.clap.specs.Words.{Row, Text, first_of, found_of, has_subcommand, kind_of, rows_of, subcommand_rows_of};
ghost use Rattle.ee_cli_commands.specs.CommandLine.{asked};
ghost use Rattle.ee_cli_commands.specs.Answer.{IsAnswer, view_of};
ghost use Rattle.ee_cli_commands.specs.Inner.Answer.{Gives, Refuses, Spells};

use crate::lines::{apply_line, export_line, import_line, serve_line, sheet_line, value_line};
use crate::rows::program;
use crate::words::{WordName, word};
use clap::error::ErrorKind;
use clap::{ArgMatches, Error};
use ee_desk_model::{Desk, Number};
use ee_units::{Customer, Denom, IssueMonth, Month, Rate};
use std::alloc::{AllocError, Global};
use std::convert::AsStr;

/// A kind of CSV file that can be imported.
#[derive(Clone, Copy)]
pub enum FileKind {
    /// Rates by issue period.
    Rates,
    /// Bonds.
    Inventory,
}

/// What a command line asks for.
#[derive(Clone, Copy)]
pub enum Command<'a> {
    /// The value, in a month, of a bond of this denomination and issue month, at this fixed rate and, if the
    /// line names one, this extension: the rate from original to final maturity.
    Value {
        denom: Denom,
        issued: IssueMonth,
        month: Month,
        rate: Rate,
        extension: Option<Rate>,
    },
    /// Serves the messages of standard input over the store at this path.
    Apply(&'a str),
    /// Imports a file of this kind and path into the store at this path, under this number of this desk. The
    /// desk is 0 if the line doesn't name one.
    Import {
        kind: FileKind,
        file: &'a str,
        store: &'a str,
        desk: Desk,
        number: Number,
    },
    /// Exports the inventory of a customer as CSV, from the store at this path.
    Export {
        customer: Customer,
        store: &'a str,
    },
    /// Prints the sheet of a customer's bonds in a month, from the store at this path.
    Sheet {
        customer: Customer,
        month: Month,
        store: &'a str,
    },
    /// Serves over the store at this path, on this port, this number of connections: 1 to 1,000, or
    /// `u64::MAX`, which means unlimited, if the line doesn't say.
    Serve {
        store: &'a str,
        port: u16,
        connections: u64,
    },
}

/// Why a command line asks for nothing.
#[derive(Drop)]
pub enum CommandFault {
    /// The words ask for help; the text is clap's.
    Help(String),
    /// The words ask for the version.
    Version,
    /// The words fit no row; the text is clap's.
    Line(String),
    /// The word with this name spells no value; the first such word in the row's order.
    Argument {
        name: &'static str,
        /// The word, as it was typed; `None` if memory was refused to it.
        word: Option<String>,
    },
    /// Memory was refused.
    NoMemory,
}

impl From<AllocError> for CommandFault {
    ghost use Rattle.std.specs.Prelude.{◌≡◌};
    ghost use Rattle.ee_cli_commands.specs.declared.commands.CommandFault.TheVariants.{NoMemory};

    ghost from_gives = { λ _ e. e ≡ NoMemory };

    fn from(_error: AllocError) -> CommandFault {
        CommandFault::NoMemory
    }
}

/// What the words ask for. The first word is the program's name. A request number is at least 1 and below
/// 2^63; a desk is 0 to 999, and 0 if it is left out; a port is 1 to 65535. A count of connections is 1
/// to 1,000; if it is left out, the command serves `u64::MAX` connections, which means until it is stopped.
/// `--help` or `-h` asks for help, also after a command's name, and `--version` or `-V` for the version.
pub fn read_command<'a, S: AsStr>(
    alloc: Global,
    words: &'a [S],
) -> Result<Command<'a>, CommandFault>
    ensures { IsAnswer (map S.text words.entry.now) result }
{
    match program(alloc)?.try_get_matches_from(words) {
        Ok(matches) => line(alloc, &matches),
        Err(error) => Err(refusal(alloc, &error)?),
    }
}

// What the matched row asks for.
fn line<'a>(alloc: Global, matches: &ArgMatches<'a>) -> Result<Command<'a>, CommandFault>
    requires { has_subcommand matches.now ≡ true }
    ensures { (name : Text) (rows : List Row) → subcommand_rows_of matches.now ≡ Some (name, rows)
        → Gives view_of rows result (asked (name, rows)) }
{
    match matches.subcommand() {
        Some((name, row)) => match row_line(name, row) {
            Ok(command) => Ok(command),
            Err(name) => Err(CommandFault::Argument {
                name,
                word: copied(alloc, row, name),
            }),
        },
        None => unreachable!(),
    }
}

// A copy of the word with this name; `None` if there is none, or if memory was refused.
fn copied(alloc: Global, row: &ArgMatches, name: WordName) -> Option<String>
    ensures { IfSome result (λ word. first_of name.now (rows_of (found_of row.now)) ≡ Some (string_bytes word)) }
{
    String::from_str(alloc, word(row, name)?).ok()
}

fn row_line<'a>(name: &str, row: &ArgMatches<'a>) -> Result<Command<'a>, WordName>
    ensures { Spells view_of result (asked (name.now, rows_of (found_of row.now))) }
{
    match name {
        "value" => value_line(row),
        "apply" => apply_line(row),
        "import" => import_line(row),
        "export" => export_line(row),
        "sheet" => sheet_line(row),
        _ => serve_line(row),
    }
}

// The fault for an error of clap.
fn refusal(alloc: Global, error: &Error) -> Result<CommandFault, AllocError>
    ensures { IfOk result (λ fault. Refuses (kind_of error.now) fault) }
{
    match error.kind() {
        ErrorKind::DisplayHelp => Ok(CommandFault::Help(error.to_string(alloc)?)),
        ErrorKind::DisplayVersion => Ok(CommandFault::Version),
        ErrorKind::OutOfMemory => Ok(CommandFault::NoMemory),
        _ => Ok(CommandFault::Line(error.to_string(alloc)?)),
    }
}
