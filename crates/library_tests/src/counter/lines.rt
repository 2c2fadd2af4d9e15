//! Command lines, and what they ask for.

use crate::comparing::{Cases, compare};
use ee_cli_commands::{Command, CommandFault, FileKind, read_command};
use ee_desk_model::{Desk, Number};
use ee_units::Rate;
use std::alloc::Global;
use std::fmt::Write;
use std::test::Fail;

/// Lines, and in plain words what they ask for, or what is wrong with them.
const LINES: &str = "\
value 50 2010-05 05/2015 3.50 => value of 50 issued 2010-05 in 2015-05 at 3.50%
value 50 2010-05 2030-11 3.40 4 => value of 50 issued 2010-05 in 2030-11 at 3.40%, then 4.00%
value 50 2010-05 2030-11 3.50 3.50 => value of 50 issued 2010-05 in 2030-11 at 3.50%, then 3.50%
apply --db a.db => apply to a.db
import rates r.csv --db a.db --number 9223372036854775807 => import of rates r.csv to a.db under 9223372036854775807 of desk 0
import --number 1 --db a.db inventory i.csv => import of inventory i.csv to a.db under 1 of desk 0
import rates r.csv --db a.db --number 9223372036854775807 --desk 999 => import of rates r.csv to a.db under 9223372036854775807 of desk 999
import --desk=007 inventory i.csv --db a.db --number 1 => import of inventory i.csv to a.db under 1 of desk 7
import rates r.csv --desk 0 --db a.db --number 1 => import of rates r.csv to a.db under 1 of desk 0
export 7 --db a.db => export of 7 from a.db
sheet 007 2012-02 --db=a.db => sheet of 7 in 2012-02 from a.db
serve --db a.db --port 65535 --connections 1000 => serve a.db on 65535, 1000 times
serve --db a.db --port 65535 => serve a.db on 65535, 18446744073709551615 times
 => a bad line
--help => help
import --help => help
--version => version
-V => version
value --version => a bad line
help => a bad line
value 51 2010 2015 x => bad denom
value 50 2010 2015 x => bad issued
value 50 2010-05 2015 x => bad month
value 50 2010-05 2015-05 x => bad rate
value 50 2010-05 2015-05 x y => bad rate
value 50 2010-05 2015-05 3.50 20.01 => bad extension
value 50 2010-05 2015-05 3.50 4.00 5.00 => a bad line
value 50 2010-05 2015-05 => a bad line
apply => a bad line
import rats r.csv --db a.db --number 1 => a bad line
import rates r.csv --db a.db --number 0 => a bad line
import rates r.csv --db a.db --number 9223372036854775808 => a bad line
import rates r.csv --db a.db --number 1 --desk 1000 => bad desk
import rates r.csv --db a.db --number 1 --desk 0007 => bad desk
import rates r.csv --db a.db --number 1 --desk x => bad desk
import rates r.csv --db a.db --number 1 --desk= => bad desk
import rates r.csv --db a.db --number 1 --desk => a bad line
import rates r.csv --db a.db --number 1 --desk 1 --desk 1 => a bad line
import rates r.csv --db a.db --number 0 --desk x => a bad line
import rats r.csv --db a.db --number 1 --desk x => a bad line
import rates r.csv --db a.db --desk 1 => a bad line
export 7 --db a.db --desk 1 => a bad line
export 0 --db a.db => bad customer
sheet 0 x --db a.db => bad customer
sheet 7 x --db a.db => bad month
serve --db a.db --port 0 --connections 1 => a bad line
serve --db a.db --port 65536 --connections 1 => a bad line
serve --db a.db --port 1 --connections 0 => a bad line
serve --db a.db --port 1 --connections 1001 => a bad line
";

fn kind_text(kind: FileKind) -> &'static str {
    match kind {
        FileKind::Rates => "rates",
        FileKind::Inventory => "inventory",
    }
}

/// Appends a rate, and the extension if there is one.
fn add_rates(text: &mut String, rate: Rate, extension: Option<Rate>) -> Option<()> {
    match extension {
        Some(extension) => write!(text, " at {rate}, then {extension}").ok(),
        None => write!(text, " at {rate}").ok(),
    }
}

/// Adds an import of a file to a store under a number of a desk.
fn add_import(
    text: &mut String,
    kind: FileKind,
    file: &str,
    store: &str,
    desk: Desk,
    number: Number,
) -> Option<()> {
    let (kind, desk, number) = (kind_text(kind), desk.number(), number.value());
    write!(
        text,
        "import of {kind} {file} to {store} under {number} of desk {desk}"
    )
    .ok()
}

/// Adds a command in plain words.
fn add_command(text: &mut String, command: &Command) -> Option<()> {
    match *command {
        Command::Value {
            denom,
            issued,
            month,
            rate,
            extension,
        } => {
            write!(text, "value of {denom} issued {issued} in {month}").ok()?;
            add_rates(text, rate, extension)
        }
        Command::Apply(store) => write!(text, "apply to {store}").ok(),
        Command::Import {
            kind,
            file,
            store,
            desk,
            number,
        } => { add_import(text, kind, file, store, desk, number) }
        Command::Export { customer, store } => write!(
            text,
            "export of {customer} from {store}"
        ).ok(),
        Command::Sheet {
            customer,
            month,
            store,
        } => { write!(text, "sheet of {customer} in {month} from {store}").ok() }
        Command::Serve {
            store,
            port,
            connections,
        } => { write!(text, "serve {store} on {port}, {connections} times").ok() }
    }
}

/// Adds what is wrong with a line.
fn add_fault(text: &mut String, fault: &CommandFault) -> Option<()> {
    match fault {
        CommandFault::Help(_) => text.push_str("help").ok(),
        CommandFault::Version => text.push_str("version").ok(),
        CommandFault::Line(_) => text.push_str("a bad line").ok(),
        CommandFault::Argument { name, .. } => write!(text, "bad {name}").ok(),
        CommandFault::NoMemory => None,
    }
}

/// Adds what words ask for, or what is wrong with them.
fn add_text(alloc: Global, text: &mut String, words: &[&str]) -> Option<()> {
    match read_command(alloc, words) {
        Ok(command) => add_command(text, &command),
        Err(fault) => add_fault(text, &fault),
    }
}

/// The words of a line, after the program's name.
fn words_of<'a>(alloc: Global, line: &'a str) -> Option<Vec<&'a str>> {
    let mut words = Vec::new(alloc);
    words.push("ee_cli").ok()?;
    for word in line.split_ascii_whitespace() {
        words.push(word).ok()?;
    }
    Some(words)
}

/// Lines: what they ask for, or what is wrong with them.
struct LineCases;

impl Cases for LineCases {
    fn answer(alloc: Global, case: &str) -> Option<String> {
        let words = words_of(alloc, case)?;
        let mut text = String::new(alloc);
        add_text(alloc, &mut text, words.as_slice())?;
        Some(text)
    }
}

#[test]
fn lines_are_read(rt: HostRuntime) -> Result<(), Fail> {
    compare::<LineCases>(&rt, rt.alloc(), LINES)
}
