//! The texts of second lines: what each explanation prints.

ghost use Rattle.std.specs.Prelude.{◌≡◌, Some};
ghost use Rattle.std.specs.Fmt.{DisplaysOnOk};
ghost use Rattle.ee_cli_program.specs.Explained.{explanation_text, header_text, meaning_text};
ghost use Rattle.ee_cli_program.specs.declared.explaining.Explanation.TheVariants as says;

use crate::forms::Form;
use crate::spellings::{Spelling, spelling_of_column};
use crate::system::SystemCause;
use crate::unpaid::Unpaid;
use ee_cli_commands::FileKind;
use ee_files::FileColumn;
use ee_store_files::OpenCause;
use std::fmt;
use std::io::ErrorKind;

/// Writes the line of a word that spells no value.
pub fn write_argument<W: fmt::Write>(
    f: &mut fmt::Formatter<W>,
    name: &str,
    word: Option<&str>,
    spelling: Spelling,
) -> fmt::Result
    ensures writes { DisplaysOnOk W.write_str_gives f.old result (Some (explanation_text (says.Argument name.entry word.entry spelling))) f.new }
{
    let word = Is(word);
    write!(f, "{name}{word}: {spelling}")
}

/// Writes the line of a refused import.
pub fn write_refused<W: fmt::Write>(f: &mut fmt::Formatter<W>, file: &str, code: u8) -> fmt::Result
    ensures writes { DisplaysOnOk W.write_str_gives f.old result (Some (explanation_text (says.Refused file.entry code))) f.new }
{
    let meaning = Meaning(code);
    write!(
        f,
        "{file}: {meaning}; nothing was changed, and the next try needs a new number"
    )
}

/// Writes the line of a file whose first record is no header.
pub fn write_header<W: fmt::Write>(
    f: &mut fmt::Formatter<W>,
    file: &str,
    kind: FileKind,
    form: Option<Form>,
) -> fmt::Result
    ensures writes { DisplaysOnOk W.write_str_gives f.old result (Some (explanation_text (says.Header file.entry kind form))) f.new }
{
    let header = header_text(kind);
    let remedy = Saving(form);
    write!(
        f,
        "{file}: the first row is not {header}{remedy}, and send the file again"
    )
}

/// Writes the line of a record that hasn't one field for each column.
pub fn write_field_count<W: fmt::Write>(
    f: &mut fmt::Formatter<W>,
    file: &str,
    row: u64,
) -> fmt::Result
    ensures writes { DisplaysOnOk W.write_str_gives f.old result (Some (explanation_text (says.FieldCount file.entry row))) f.new }
{
    write!(
        f,
        "{file}: row {row} has not one field for each column; correct it, and send the file again"
    )
}

/// Writes the line of a field that spells no value of its column.
pub fn write_field<W: fmt::Write>(
    f: &mut fmt::Formatter<W>,
    file: &str,
    row: u64,
    column: FileColumn,
    shown: Option<&str>,
) -> fmt::Result
    ensures writes { DisplaysOnOk W.write_str_gives f.old result (Some (explanation_text (says.Field file.entry row column shown.entry))) f.new }
{
    let shown = Is(shown);
    let spelling = spelling_of_column(column);
    write!(
        f,
        "{file}: row {row}, column {column}{shown}: {spelling}; correct it, and send the file again"
    )
}

/// Writes the line of a field of genuine paper that this counter doesn't pay.
pub fn write_unpaid<W: fmt::Write>(
    f: &mut fmt::Formatter<W>,
    file: &str,
    row: u64,
    column: FileColumn,
    shown: &str,
    why: Unpaid,
) -> fmt::Result
    ensures writes { DisplaysOnOk W.write_str_gives f.old result (Some (explanation_text (says.Unpaid file.entry row column shown.entry why))) f.new }
{
    write!(
        f,
        "{file}: row {row}, column {column} is \"{shown}\": {why}, which this counter doesn't pay; send it to Treasury with FS Form 1522, and the file again without it"
    )
}

/// Writes the line of a file that is a folder.
pub fn write_folder<W: fmt::Write>(f: &mut fmt::Formatter<W>, file: &str) -> fmt::Result
    ensures writes { DisplaysOnOk W.write_str_gives f.old result (Some (explanation_text (says.Folder file.entry))) f.new }
{
    write!(f, "{file}: it is a folder; name a file in it")
}

/// Writes the line of a file whose read failed.
pub fn write_unread<W: fmt::Write>(
    f: &mut fmt::Formatter<W>,
    file: &str,
    cause: Option<SystemCause>,
) -> fmt::Result
    ensures writes { DisplaysOnOk W.write_str_gives f.old result (Some (explanation_text (says.Unread file.entry cause))) f.new }
{
    let cause = Because {
        cause,
        otherwise: "a read failed",
    };
    write!(f, "{file}: {cause}; send the file again")
}

/// Writes the line of a file that is too long.
pub fn write_too_long<W: fmt::Write>(f: &mut fmt::Formatter<W>, file: &str) -> fmt::Result
    ensures writes { DisplaysOnOk W.write_str_gives f.old result (Some (explanation_text (says.TooLong file.entry))) f.new }
{
    write!(
        f,
        "{file}: it has more than 1048576 bytes; send it in parts, each under a number of its own"
    )
}

/// Writes the line of a file that wasn't opened.
pub fn write_no_file<W: fmt::Write>(
    f: &mut fmt::Formatter<W>,
    file: &str,
    cause: Option<SystemCause>,
) -> fmt::Result
    ensures writes { DisplaysOnOk W.write_str_gives f.old result (Some (explanation_text (says.NoFile file.entry cause))) f.new }
{
    let cause = Because {
        cause,
        otherwise: "it was not opened",
    };
    write!(
        f,
        "{file}: {cause}; correct the path, and send the file again"
    )
}

/// Writes the line of a port that wasn't bound.
pub fn write_no_port<W: fmt::Write>(
    f: &mut fmt::Formatter<W>,
    port: u16,
    cause: Option<SystemCause>,
) -> fmt::Result
    ensures writes { DisplaysOnOk W.write_str_gives f.old result (Some (explanation_text (says.NoPort port cause))) f.new }
{
    let cause = Because {
        cause,
        otherwise: "it was not opened",
    };
    write!(
        f,
        "port {port}: {cause}; choose another port, or end what uses it"
    )
}

/// Writes the line of standard output that failed.
pub fn write_output<W: fmt::Write>(
    f: &mut fmt::Formatter<W>,
    cause: Option<SystemCause>,
) -> fmt::Result
    ensures writes { DisplaysOnOk W.write_str_gives f.old result (Some (explanation_text (says.Output cause))) f.new }
{
    let cause = Because {
        cause,
        otherwise: "a write failed",
    };
    write!(
        f,
        "standard output: {cause}; run the line again: what was decided gets its reply"
    )
}

/// Writes the line of standard output that failed under answers.
pub fn write_answers<W: fmt::Write>(
    f: &mut fmt::Formatter<W>,
    cause: Option<SystemCause>,
) -> fmt::Result
    ensures writes { DisplaysOnOk W.write_str_gives f.old result (Some (explanation_text (says.Answers cause))) f.new }
{
    let cause = Because {
        cause,
        otherwise: "a write failed",
    };
    write!(
        f,
        "standard output: {cause}; send again: what was decided gets its reply"
    )
}

/// Writes the line of standard input that failed.
pub fn write_input<W: fmt::Write>(
    f: &mut fmt::Formatter<W>,
    cause: Option<SystemCause>,
) -> fmt::Result
    ensures writes { DisplaysOnOk W.write_str_gives f.old result (Some (explanation_text (says.Input cause))) f.new }
{
    let cause = Because {
        cause,
        otherwise: "a read failed",
    };
    write!(
        f,
        "standard input: {cause}; send again: what was decided gets its reply"
    )
}

/// Writes the line of standard input or output, whichever failed.
pub fn write_input_or_output<W: fmt::Write>(f: &mut fmt::Formatter<W>) -> fmt::Result
    ensures writes { DisplaysOnOk W.write_str_gives f.old result (Some (explanation_text says.InputOrOutput)) f.new }
{
    f.write_str("standard input or output failed; send again: what was decided gets its reply")
}

/// Writes the line of standard output that failed under a server.
pub fn write_log<W: fmt::Write>(
    f: &mut fmt::Formatter<W>,
    cause: Option<SystemCause>,
) -> fmt::Result
    ensures writes { DisplaysOnOk W.write_str_gives f.old result (Some (explanation_text (says.Log cause))) f.new }
{
    let cause = Because {
        cause,
        otherwise: "a write failed",
    };
    write!(f, "standard output: {cause}; start the server again")
}

/// Writes the line of a server that accepted no connection, or whose output failed.
pub fn write_connections<W: fmt::Write>(f: &mut fmt::Formatter<W>) -> fmt::Result
    ensures writes { DisplaysOnOk W.write_str_gives f.old result (Some (explanation_text says.Connections)) f.new }
{
    f.write_str("no connection was accepted, or standard output failed; start the server again")
}

/// Writes the line of a store that wasn't opened.
pub fn write_unopened<W: fmt::Write>(
    f: &mut fmt::Formatter<W>,
    store: &str,
    cause: OpenCause,
) -> fmt::Result
    ensures writes { DisplaysOnOk W.write_str_gives f.old result (Some (explanation_text (says.Unopened store.entry cause))) f.new }
{
    let cause = Opening(cause);
    write!(f, "{store}: {cause}")
}

/// Writes the line of a store that failed.
pub fn write_store_failed<W: fmt::Write>(f: &mut fmt::Formatter<W>, store: &str) -> fmt::Result
    ensures writes { DisplaysOnOk W.write_str_gives f.old result (Some (explanation_text (says.StoreFailed store.entry))) f.new }
{
    write!(
        f,
        "{store}: a read or a write of it failed; look at the disk, and send the same requests again"
    )
}

/// Writes the line of a store of another version.
pub fn write_wrong_version<W: fmt::Write>(f: &mut fmt::Formatter<W>, store: &str) -> fmt::Result
    ensures writes { DisplaysOnOk W.write_str_gives f.old result (Some (explanation_text (says.WrongVersion store.entry))) f.new }
{
    write!(
        f,
        "{store}: its version is neither 2 nor 1; use the program that made it"
    )
}

/// Writes the line of a store whose tables or rows represent no books.
pub fn write_unusable<W: fmt::Write>(f: &mut fmt::Formatter<W>, store: &str) -> fmt::Result
    ensures writes { DisplaysOnOk W.write_str_gives f.old result (Some (explanation_text (says.Unusable store.entry))) f.new }
{
    write!(
        f,
        "{store}: its tables or rows are not those of this program; restore a copy"
    )
}

/// Writes the line of a store whose log was not checkpointed.
pub fn write_not_written_back<W: fmt::Write>(f: &mut fmt::Formatter<W>, store: &str) -> fmt::Result
    ensures writes { DisplaysOnOk W.write_str_gives f.old result (Some (explanation_text (says.NotWrittenBack store.entry))) f.new }
{
    write!(
        f,
        "{store}: the work is done, and is kept in the file and its log together; look at the disk"
    )
}

// The meaning of a refusal's code for an import, and a remedy.
#[derive(Clone, Copy)]
struct Meaning(u8);

impl fmt::Display for Meaning {
    ghost use Rattle.std.specs.Prelude.{Some};
    ghost use Rattle.ee_cli_program.specs.Explained.{meaning_text};

    ghost output = { λ it. Some (meaning_text it.0) };

    fn fmt<W: fmt::Write>(&self, f: &mut fmt::Formatter<W>) -> fmt::Result {
        f.write_str(meaning_text(self.0))
    }
}

fn meaning_text(code: u8) -> &'static str
    ensures { result.now ≡ meaning_text code }
{
    match code {
        10 => "this desk has sent another request under this number",
        11 => "it has no rows",
        12 => "it has more than 500 rows; send it in parts",
        13 => "it has a serial number twice; leave one of the rows out",
        14 => "it has a bond whose coowner is its owner; name another coowner, or none",
        20 => "rates hold from a May or a November; correct the month",
        21 => {
            "a month has other rates, in the books or in an earlier row; compare them with Treasury's announcement"
        }
        22 => {
            "a value at these rates can't be settled to the cent; compare them with Treasury's announcement"
        }
        30 => "no rates are entered for a bond's issue month; enter them first",
        31 => "a bond is registered with other content; compare it with the paper",
        _ => "the books refuse it",
    }
}

// The form of a file, if it is known, and how to save it.
#[derive(Clone, Copy)]
struct Saving(Option<Form>);

impl fmt::Display for Saving {
    ghost use Rattle.std.specs.Prelude.{Some};
    ghost use Rattle.ee_cli_program.specs.Explained.{saving_text};

    ghost output = { λ it. Some (saving_text it.0) };

    fn fmt<W: fmt::Write>(&self, f: &mut fmt::Formatter<W>) -> fmt::Result {
        match self.0 {
            Some(form) => write!(f, ": {form}; save it as CSV, in UTF-8 and with commas"),
            None => f.write_str("; correct it"),
        }
    }
}

// What a field is, if that is known.
#[derive(Clone, Copy)]
struct Is<'a>(Option<&'a str>);

impl fmt::Display for Is<'_> {
    ghost use Rattle.std.specs.Prelude.{Some};
    ghost use Rattle.ee_cli_program.specs.Explained.{is_text};

    ghost output = { λ it. Some (is_text it.0) };

    fn fmt<W: fmt::Write>(&self, f: &mut fmt::Formatter<W>) -> fmt::Result {
        match self.0 {
            Some(shown) => write!(f, " is \"{shown}\""),
            None => Ok(()),
        }
    }
}

// A cause of the system, or this text if none is known.
#[derive(Clone, Copy)]
struct Because {
    cause: Option<SystemCause>,
    otherwise: &'static str,
}

impl fmt::Display for Because {
    ghost use Rattle.std.specs.Prelude.{Some};
    ghost use Rattle.ee_cli_program.specs.Explained.{because};

    ghost output = { λ it. Some (because it.cause it.otherwise.now) };

    fn fmt<W: fmt::Write>(&self, f: &mut fmt::Formatter<W>) -> fmt::Result {
        match self.cause {
            Some(cause) => write!(f, "{cause}"),
            None => f.write_str(self.otherwise),
        }
    }
}

// Why a store wasn't opened, and what to do.
#[derive(Clone, Copy)]
struct Opening(OpenCause);

impl fmt::Display for Opening {
    ghost use Rattle.std.specs.Prelude.{Some};
    ghost use Rattle.ee_cli_program.specs.Explained.{opening_text};

    ghost output = { λ opening. Some (opening_text opening.0) };

    fn fmt<W: fmt::Write>(&self, f: &mut fmt::Formatter<W>) -> fmt::Result {
        match self.0 {
            OpenCause::NoMemory => f.write_str("memory was refused; run the line again"),
            OpenCause::NoFile => f.write_str("SQLite takes it for no file; put ./ in front of it"),
            OpenCause::InUse => f.write_str(
                "another process uses it; send requests to that process, or end it first",
            ),
            OpenCause::Journal => f.write_str(
                "a rollback journal of SQLite lies beside it; open it with sqlite3 first",
            ),
            OpenCause::System(ErrorKind::Unsupported) => f.write_str(
                "it is not one regular file with one name; correct the path, or remove the other name",
            ),
            OpenCause::System(kind) => {
                let cause = Because {
                    cause: SystemCause::of(kind),
                    otherwise: "the system refused it",
                };
                write!(
                    f,
                    "{cause}; look at the path, and at who may use the file and its folder"
                )
            }
            OpenCause::NoRandom => f.write_str(
                "the system gave no random number; run the line again",
            ),
            OpenCause::NoDatabase => f.write_str("it is no SQLite database; correct the path"),
            OpenCause::Orphaned => f.write_str(
                "it is missing or empty, and its log shows that it was there; put the file back next to its log",
            ),
            OpenCause::Damaged => f.write_str(
                "it or its log is damaged, or a page's checksum is wrong; restore a copy",
            ),
            OpenCause::Full => f.write_str(
                "no space left on the disk; make room, and run the line again",
            ),
            OpenCause::Failed => f.write_str(
                "a read or a write of it failed; look at the disk, and run the line again",
            ),
        }
    }
}

// The headers of a kind of file.
fn header_text(kind: FileKind) -> &'static str
    ensures { result.now ≡ header_text kind }
{
    match kind {
        FileKind::Rates => "from,rate or from,rate,extension",
        FileKind::Inventory => "serial,denom,issued,owner,coowner",
    }
}
