//! What each row asks for.

ghost use Rattle.clap.specs.Words.{found_of, rows_of};
ghost use Rattle.ee_cli_commands.specs.CommandLine.{apply_asked, export_asked, import_asked, serve_asked, sheet_asked, value_asked};
ghost use Rattle.ee_cli_commands.specs.Answer.{view_of};
ghost use Rattle.ee_cli_commands.specs.Inner.Answer.{Spells};

use crate::commands::Command;
use crate::words::{
    WordName, customer, denom, desk, issue, kind, month, number_or, port, rate, rate_or_none,
    request_number, text,
};
use clap::ArgMatches;

const MOST_CONNECTIONS: u64 = 1_000;

const UNLIMITED: u64 = u64::MAX;

/// The command of the row `value`.
#[tactic(auto, unfolding(crate::specs::CommandLine::value_asked))]
pub fn value_line<'a>(matches: &ArgMatches<'a>) -> Result<Command<'a>, WordName>
    ensures { Spells view_of result (value_asked (rows_of (found_of matches.now))) }
{
    Ok(Command::Value {
        denom: denom(matches, "denom")?,
        issued: issue(matches, "issued")?,
        month: month(matches, "month")?,
        rate: rate(matches, "rate")?,
        extension: rate_or_none(matches, "extension")?,
    })
}

/// The command of the row `apply`.
#[tactic(auto, unfolding(crate::specs::CommandLine::apply_asked))]
pub fn apply_line<'a>(matches: &ArgMatches<'a>) -> Result<Command<'a>, WordName>
    ensures { Spells view_of result (apply_asked (rows_of (found_of matches.now))) }
{
    Ok(Command::Apply(text(matches, "db")?))
}

/// The command of the row `import`.
#[tactic(auto, unfolding(crate::specs::CommandLine::import_asked))]
pub fn import_line<'a>(matches: &ArgMatches<'a>) -> Result<Command<'a>, WordName>
    ensures { Spells view_of result (import_asked (rows_of (found_of matches.now))) }
{
    let kind = kind(matches, "kind")?;
    let file = text(matches, "file")?;
    let store = text(matches, "db")?;
    let number = request_number(matches, "number")?;
    let desk = desk(matches, "desk")?;
    Ok(Command::Import {
        kind,
        file,
        store,
        desk,
        number,
    })
}

/// The command of the row `export`.
#[tactic(auto, unfolding(crate::specs::CommandLine::export_asked))]
pub fn export_line<'a>(matches: &ArgMatches<'a>) -> Result<Command<'a>, WordName>
    ensures { Spells view_of result (export_asked (rows_of (found_of matches.now))) }
{
    Ok(Command::Export {
        customer: customer(matches, "customer")?,
        store: text(matches, "db")?,
    })
}

/// The command of the row `sheet`.
#[tactic(auto, unfolding(crate::specs::CommandLine::sheet_asked))]
pub fn sheet_line<'a>(matches: &ArgMatches<'a>) -> Result<Command<'a>, WordName>
    ensures { Spells view_of result (sheet_asked (rows_of (found_of matches.now))) }
{
    Ok(Command::Sheet {
        customer: customer(matches, "customer")?,
        month: month(matches, "month")?,
        store: text(matches, "db")?,
    })
}

/// The command of the row `serve`.
#[tactic(auto, unfolding(crate::specs::CommandLine::serve_asked))]
pub fn serve_line<'a>(matches: &ArgMatches<'a>) -> Result<Command<'a>, WordName>
    ensures { Spells view_of result (serve_asked (rows_of (found_of matches.now))) }
{
    Ok(Command::Serve {
        store: text(matches, "db")?,
        port: port(matches, "port")?,
        connections: number_or(matches, "connections", MOST_CONNECTIONS, UNLIMITED)?,
    })
}
