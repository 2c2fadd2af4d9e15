//! The rows of the program.

ghost use Rattle.std.specs.Prelude.{◌≡◌, IfOk, Ok, Some, List, false, map, codes};
ghost use Rattle.std.specs.Borrow.{Bor};
ghost use Rattle.clap.specs.Words.{App, Rule, Text, app_of, new_app, rule_of, with_rule, with_subcommand};
ghost use Rattle.clap.specs.declared.builder.command.Command.TheViews.{out-Command as fields_of};
ghost use Rattle.clap.specs.declared.builder.ValueParser.TheVariants.{Names};
ghost use Rattle.ee_cli_commands.specs.CommandLine as is;
ghost use Rattle.ee_desk_model.specs.Limits.{highest_number};

use clap::{Arg, ArgAction, Command, value_parser};
use std::alloc::{AllocError, Global};

/// The version of the program.
pub const VERSION: &str = "1.1.0";

// The notes below the commands in the program's help.
const NOTES: &str = "\
ee_cli COMMAND --help tells the words of a command, with an example.
ee_cli COMMAND .. --explain says the cause of a fault, and what to do, on a second line.

Exit status:
  0  done
  1  refused, or a value that is unsettled
  2  a bad command line
  3  a file, a socket, memory or a store failed

Limits:
  500 rows a request, 100 serial numbers a redemption, 1,000 messages a connection

One process at a time uses a store.";

const VALUE_EXAMPLES: &str = "\
Examples:
  ee_cli value 50 2010-05 2026-11 1.40
  ee_cli value 50 2005-11 2026-11 3.20 4.00    (the 4.00 is invented)

Add --explain for the cause of a fault, and what to do, on a second line.";

const IMPORT_EXAMPLES: &str = "\
Examples:
  ee_cli import rates samples/rates.csv --db day.db --number 1
  ee_cli import inventory samples/inventory.csv --db day.db --number 2
  ee_cli import inventory samples/inventory.csv --db day.db --number 1 --desk 7

Add --explain for the cause of a fault, and what to do, on a second line.";

static KINDS: [&str; 2] = ["rates", "inventory"];

/// All rows.
pub fn program<'a>(alloc: Global) -> Result<Command<'a>, AllocError>
    ensures { IfOk result (λ c. (kinds : Bor (List (Bor Text))) × (map (λ k. k.now) kinds.now ≡ is.kind_words) × (app_of c ≡ is.program kinds)) }
{
    let rows = first_rows(alloc);
    let rows = with_row(rows, import_command(alloc));
    let rows = with_row(rows, export_command(alloc));
    let rows = with_row(rows, sheet_command(alloc));
    with_row(rows, serve_command(alloc))
}

fn first_rows<'a>(alloc: Global) -> Result<Command<'a>, AllocError>
    ensures { IfOk result (λ c. app_of c ≡ is.first_rows) }
{
    let about = "The counter of a paying agent for paper Series EE savings bonds";
    let rows = named(alloc, "ee_cli", about, NOTES)
        .version(VERSION)
        .subcommand_required(true)
        .disable_help_subcommand(true);
    let rows = with_row(Ok(rows), value_command(alloc));
    with_row(rows, apply_command(alloc))
}

/// Adds a row, if both were made.
fn with_row<'a>(
    rows: Result<Command<'a>, AllocError>,
    row: Result<Command<'a>, AllocError>,
) -> Result<Command<'a>, AllocError>
    requires { IfOk row (λ r. (fields_of r).has_globals ≡ false) }
    ensures { IfOk result (λ c. (before further : _) × (rows.entry ≡ Ok before) × (row.entry ≡ Ok further)
        × (app_of c ≡ with_subcommand (app_of before) (app_of further).top)) }
{
    rows?.subcommand(row?)
}

fn value_command<'a>(alloc: Global) -> Result<Command<'a>, AllocError>
    ensures shape { IfOk result (λ c. app_of c ≡ is.value_row) }
    ensures local { IfOk result (λ c. (fields_of c).has_globals ≡ false) }
{
    let row = named(
        alloc,
        "value",
        "Print the value of a bond in a month",
        VALUE_EXAMPLES,
    );
    let row = with(
        Ok(row),
        positional(alloc, "denom", "Denomination in dollars, as 50"),
    );
    let row = with(
        row,
        positional(alloc, "issued", "Issue month, as 2010-05 or 05/2010"),
    );
    let row = with(
        row,
        positional(alloc, "month", "Month of the value, as 2026-11"),
    );
    let row = with(
        row,
        positional(alloc, "rate", "Fixed rate in percent, as 1.40"),
    );
    let row = with(row, extension_arg(alloc));
    with(row, explain_arg(alloc))
}

fn apply_command<'a>(alloc: Global) -> Result<Command<'a>, AllocError>
    ensures shape { IfOk result (λ c. app_of c ≡ is.apply_row) }
    ensures local { IfOk result (λ c. (fields_of c).has_globals ≡ false) }
{
    let row = named(
        alloc,
        "apply",
        "Answer the messages of standard input",
        "Example:\n  ee_cli apply --db day.db < requests.http\n\nAdd --explain for the cause of a fault, and what to do, on a second line.",
    );
    let row = with(Ok(row), store_arg(alloc));
    with(row, explain_arg(alloc))
}

fn import_command<'a>(alloc: Global) -> Result<Command<'a>, AllocError>
    ensures shape { IfOk result (λ c. (kinds : Bor (List (Bor Text))) × (map (λ k. k.now) kinds.now ≡ is.kind_words) × (app_of c ≡ is.import_row kinds)) }
    ensures local { IfOk result (λ c. (fields_of c).has_globals ≡ false) }
{
    let row = named(
        alloc,
        "import",
        "Import a CSV file of rates or bonds as one request",
        IMPORT_EXAMPLES,
    );
    let row = with(Ok(row), kind_arg(alloc));
    let row = with(row, positional(alloc, "file", "The CSV file"));
    let row = with(row, store_arg(alloc));
    let row = with(row, request_number_arg(alloc));
    let row = with(row, desk_arg(alloc));
    with(row, explain_arg(alloc))
}

fn export_command<'a>(alloc: Global) -> Result<Command<'a>, AllocError>
    ensures shape { IfOk result (λ c. app_of c ≡ is.export_row) }
    ensures local { IfOk result (λ c. (fields_of c).has_globals ≡ false) }
{
    let row = named(
        alloc,
        "export",
        "Print a customer's unpaid bonds as CSV",
        "Example:\n  ee_cli export 7 --db day.db\n\nAdd --explain for the cause of a fault, and what to do, on a second line.",
    );
    let row = with(Ok(row), customer_arg(alloc));
    let row = with(row, store_arg(alloc));
    with(row, explain_arg(alloc))
}

fn sheet_command<'a>(alloc: Global) -> Result<Command<'a>, AllocError>
    ensures shape { IfOk result (λ c. app_of c ≡ is.sheet_row) }
    ensures local { IfOk result (λ c. (fields_of c).has_globals ≡ false) }
{
    let row = named(
        alloc,
        "sheet",
        "Print the sheet of a customer's unpaid bonds",
        "Example:\n  ee_cli sheet 7 2026-11 --db day.db\n\nAdd --explain for the cause of a fault, and what to do, on a second line.",
    );
    let row = with(Ok(row), customer_arg(alloc));
    let row = with(
        row,
        positional(alloc, "month", "Month of the values, as 2026-11"),
    );
    let row = with(row, store_arg(alloc));
    with(row, explain_arg(alloc))
}

fn serve_command<'a>(alloc: Global) -> Result<Command<'a>, AllocError>
    ensures shape { IfOk result (λ c. app_of c ≡ is.serve_row) }
    ensures local { IfOk result (λ c. (fields_of c).has_globals ≡ false) }
{
    let row = named(
        alloc,
        "serve",
        "Answer connections on 127.0.0.1, one after the other, until it is stopped",
        "Example:\n  ee_cli serve --db day.db --port 8377\n\nAdd --explain for the cause of a fault, and what to do, on a second line.",
    );
    let row = with(Ok(row), store_arg(alloc));
    let row = with(row, port_arg(alloc));
    let row = with(row, connections_arg(alloc));
    with(row, explain_arg(alloc))
}

// The row with this name, with one text above its words in its help, and one below them.
fn named<'a>(alloc: Global, name: &'a str, about: &'a str, below: &'a str) -> Command<'a>
    ensures shape { app_of result ≡ new_app name.entry.now }
    ensures local { (fields_of result).has_globals ≡ false }
{
    Command::new(alloc, name).about(about).after_help(below)
}

/// Adds an argument to a row, if the row was made.
fn with<'a>(row: Result<Command<'a>, AllocError>, arg: Arg<'a>) -> Result<Command<'a>, AllocError>
    requires row { IfOk row (λ r. (fields_of r).has_globals ≡ false) }
    requires arg { arg.global ≡ false }
    ensures shape { (app : App) (rule : Rule) → rule_of arg.entry ≡ rule → IfOk row.entry (λ r. app_of r ≡ app)
        → IfOk result (λ c. app_of c ≡ with_rule app rule) }
    ensures local { IfOk result (λ c. (fields_of c).has_globals ≡ false) }
{
    row?.arg(arg)
}

fn positional<'a>(alloc: Global, id: &'a str, help: &'a str) -> Arg<'a>
    ensures rule { rule_of result ≡ is.positional id.entry.now }
    ensures local { result.global ≡ false }
{
    Arg::new(alloc, id).required(true).help(help)
}

fn extension_arg<'a>(alloc: Global) -> Arg<'a>
    ensures rule { rule_of result ≡ is.optional_positional (codes "extension") }
    ensures local { result.global ≡ false }
{
    positional(
        alloc,
        "extension",
        "Rate in percent from 20 years on, as 4.00; the fixed rate if it is left out",
    )
    .required(false)
}

fn option<'a>(alloc: Global, id: &'a str, help: &'a str) -> Arg<'a>
    ensures rule { rule_of result ≡ is.option id.entry.now }
    ensures local { result.global ≡ false }
{
    Arg::new(alloc, id).long(id).required(true).help(help)
}

/// The flag that every row takes. A note at the end of each help names it; it is hidden in the usage of the rows, which
/// is a part of clap's faults.
fn explain_arg<'a>(alloc: Global) -> Arg<'a>
    ensures rule { rule_of result ≡ is.flag (codes "explain") }
    ensures local { result.global ≡ false }
{
    Arg::new(alloc, "explain")
        .long("explain")
        .action(ArgAction::SetTrue)
        .hide(true)
}

fn customer_arg<'a>(alloc: Global) -> Arg<'a>
    ensures rule { rule_of result ≡ is.positional (codes "customer") }
    ensures local { result.global ≡ false }
{
    positional(alloc, "customer", "Number of the customer, as 7")
}

fn store_arg<'a>(alloc: Global) -> Arg<'a>
    ensures rule { rule_of result ≡ is.option (codes "db") }
    ensures local { result.global ≡ false }
{
    option(
        alloc,
        "db",
        "The file of the store; created if it doesn't exist",
    )
}

fn kind_arg<'a>(alloc: Global) -> Arg<'a>
    ensures { (kinds : Bor (List (Bor Text))) × (map (λ k. k.now) kinds.now ≡ is.kind_words)
        × (rule_of result ≡ record (is.positional (codes "kind")) { parser = Some (Names kinds) }) × (result.global ≡ false) }
{
    positional(alloc, "kind", "What the file holds").value_parser(KINDS.as_slice())
}

fn request_number_arg<'a>(alloc: Global) -> Arg<'a>
    ensures rule { rule_of result ≡ is.number_option (codes "number") highest_number }
    ensures local { result.global ≡ false }
{
    option(
        alloc,
        "number",
        "Number of the request; each number of a desk acts once",
    )
    .value_parser(value_parser!(u64).range(1..=9_223_372_036_854_775_807))
}

fn desk_arg<'a>(alloc: Global) -> Arg<'a>
    ensures rule { rule_of result ≡ is.optional_option (codes "desk") }
    ensures local { result.global ≡ false }
{
    option(
        alloc,
        "desk",
        "Desk of the request, from 0 to 999; 0 if it is left out",
    )
    .required(false)
}

fn port_arg<'a>(alloc: Global) -> Arg<'a>
    ensures rule { rule_of result ≡ is.number_option (codes "port") is.most_port }
    ensures local { result.global ≡ false }
{
    option(alloc, "port", "Port of 127.0.0.1, from 1 to 65535").value_parser(value_parser!(
        u64
    ).range(1..=65_535))
}

fn connections_arg<'a>(alloc: Global) -> Arg<'a>
    ensures rule { rule_of result ≡ is.optional_number (codes "connections") is.most_connections }
    ensures local { result.global ≡ false }
{
    option(
        alloc,
        "connections",
        "End after that many connections, from 1 to 1000",
    )
    .required(false)
    .value_parser(value_parser!(u64).range(1..=1_000))
}
