//! The second line of a fault or a refusal: where it arose, why, and what to do.

ghost use Rattle.std.specs.Prelude.{◌≡◌};
ghost use Rattle.ee_cli_program.specs.Explained.{explanation_of, form_in, in_file, in_store, of_argument, of_device, of_fault, of_file, of_kind, of_reading, of_refusal, of_serving, of_store, of_streams, of_unread, of_value};

use crate::forms::Form;
use crate::lines::{
    write_answers, write_argument, write_connections, write_field, write_field_count, write_folder,
    write_header, write_input, write_input_or_output, write_log, write_no_file, write_no_port,
    write_not_written_back, write_output, write_refused, write_store_failed, write_too_long,
    write_unopened, write_unpaid, write_unread, write_unusable, write_wrong_version,
};
use crate::spellings::{Spelling, spelling_of_argument};
use crate::system::SystemCause;
use crate::unpaid::{Unpaid, unpaid_in};
use ee_cli_actions::{Outcome, RunFault, StoreFault};
use ee_cli_commands::{Command, FileKind};
use ee_files::{FileCode, FileColumn, FileFault};
use ee_store_files::OpenCause;
use std::fmt;
use std::io::ErrorKind;

/// The file, port or store that wasn't opened or read, and why, if that is known.
#[derive(Clone, Copy, Debug, PartialEq, Eq)]
pub enum Cause {
    /// The file of an import.
    File(Option<SystemCause>),
    /// The form of a file that isn't CSV with commas.
    Form(Form),
    /// The port of a server.
    Port(Option<SystemCause>),
    /// The files of a store.
    Store(OpenCause),
}

/// What is known of why a command failed.
#[derive(Clone, Copy)]
pub struct Known<'a> {
    /// The file, port or store that wasn't opened or read.
    pub cause: Option<Cause>,
    /// The field of a file that spells no value, as it is shown.
    pub field: Option<&'a str>,
    /// The kind of the last error of standard input.
    pub input: Option<ErrorKind>,
    /// The kind of the last error of standard output.
    pub output: Option<ErrorKind>,
}

/// The content of the second line of a fault or a refusal.
#[derive(Clone, Copy)]
pub enum Explanation<'a> {
    /// A word spells no value.
    Argument {
        name: &'a str,
        /// The word, if there is one.
        word: Option<&'a str>,
        spelling: Spelling,
    },
    /// The import of a file was refused, with this code.
    Refused {
        file: &'a str,
        code: u8,
    },
    /// The first record of the file is no header.
    Header {
        file: &'a str,
        kind: FileKind,
        /// The form of the file, if it is known.
        form: Option<Form>,
    },
    /// A record hasn't one field for each column.
    FieldCount {
        file: &'a str,
        row: u64,
    },
    /// A field spells no value of its column.
    Field {
        file: &'a str,
        row: u64,
        column: FileColumn,
        /// The field, as it is shown, if it is known.
        shown: Option<&'a str>,
    },
    /// A field is of genuine paper that this counter doesn't pay.
    Unpaid {
        file: &'a str,
        row: u64,
        column: FileColumn,
        /// The field, as it is shown.
        shown: &'a str,
        why: Unpaid,
    },
    /// The file is a folder.
    Folder {
        file: &'a str,
    },
    /// A read of the file failed.
    Unread {
        file: &'a str,
        cause: Option<SystemCause>,
    },
    /// The file is too long.
    TooLong {
        file: &'a str,
    },
    /// The file wasn't opened.
    NoFile {
        file: &'a str,
        cause: Option<SystemCause>,
    },
    /// The port wasn't bound.
    NoPort {
        port: u16,
        cause: Option<SystemCause>,
    },
    /// Standard output failed.
    Output(Option<SystemCause>),
    /// Standard output failed under answers.
    Answers(Option<SystemCause>),
    /// Standard input failed.
    Input(Option<SystemCause>),
    /// Standard input or standard output failed.
    InputOrOutput,
    /// Standard output failed under a server.
    Log(Option<SystemCause>),
    /// No connection was accepted, or standard output failed.
    Connections,
    /// The store wasn't opened.
    Unopened {
        store: &'a str,
        cause: OpenCause,
    },
    /// The store failed.
    StoreFailed {
        store: &'a str,
    },
    /// The store has another version.
    WrongVersion {
        store: &'a str,
    },
    /// The store's tables or rows represent no books.
    Unusable {
        store: &'a str,
    },
    /// The log was not checkpointed.
    NotWrittenBack {
        store: &'a str,
    },
    /// Memory was refused.
    NoMemory,
}

/// Prints the line, without its end.
impl fmt::Display for Explanation<'_> {
    ghost use Rattle.std.specs.Prelude.{Some};
    ghost use Rattle.ee_cli_program.specs.Explained.{explanation_text};

    ghost output = { λ explanation. Some (explanation_text explanation) };

    fn fmt<W: fmt::Write>(&self, f: &mut fmt::Formatter<W>) -> fmt::Result {
        match *self {
            Explanation::Argument {
                name,
                word,
                spelling,
            } => write_argument(f, name, word, spelling),
            Explanation::Refused { file, code } => write_refused(f, file, code),
            Explanation::Header { file, kind, form } => write_header(f, file, kind, form),
            Explanation::FieldCount { file, row } => write_field_count(f, file, row),
            Explanation::Field {
                file,
                row,
                column,
                shown,
            } => write_field(f, file, row, column, shown),
            Explanation::Unpaid {
                file,
                row,
                column,
                shown,
                why,
            } => write_unpaid(f, file, row, column, shown, why),
            Explanation::Folder { file } => write_folder(f, file),
            Explanation::Unread { file, cause } => write_unread(f, file, cause),
            Explanation::TooLong { file } => write_too_long(f, file),
            Explanation::NoFile { file, cause } => write_no_file(f, file, cause),
            Explanation::NoPort { port, cause } => write_no_port(f, port, cause),
            Explanation::Output(cause) => write_output(f, cause),
            Explanation::Answers(cause) => write_answers(f, cause),
            Explanation::Input(cause) => write_input(f, cause),
            Explanation::InputOrOutput => write_input_or_output(f),
            Explanation::Log(cause) => write_log(f, cause),
            Explanation::Connections => write_connections(f),
            Explanation::Unopened { store, cause } => write_unopened(f, store, cause),
            Explanation::StoreFailed { store } => write_store_failed(f, store),
            Explanation::WrongVersion { store } => write_wrong_version(f, store),
            Explanation::Unusable { store } => write_unusable(f, store),
            Explanation::NotWrittenBack { store } => write_not_written_back(f, store),
            Explanation::NoMemory => f.write_str("memory was refused; run the line again"),
        }
    }
}

/// The second line of a bad argument, with its word if there is one; `None` for a name that no line has.
pub fn explain_argument<'a>(name: &'a str, word: Option<&'a str>) -> Option<Explanation<'a>>
    ensures { result ≡ of_argument name.entry word.entry }
{
    match spelling_of_argument(name) {
        Some(spelling) => Some(Explanation::Argument {
            name,
            word,
            spelling,
        }),
        None => None,
    }
}

/// The second line of a command that `ended` so, by what is `known`. `None` if the command was done, and for an end that
/// it can't have.
pub fn explain<'a>(
    command: &Command<'a>,
    ended: &Result<Outcome, RunFault>,
    known: Known<'a>,
) -> Option<Explanation<'a>>
    ensures { result ≡ explanation_of command.now ended.now known.entry }
{
    match ended {
        Ok(Outcome::Refused(refusal)) => of_refusal(command, refusal.code()),
        Ok(_) => None,
        Err(fault) => of_fault(command, *fault, known),
    }
}

// Of a refused import.
fn of_refusal<'a>(command: &Command<'a>, code: u8) -> Option<Explanation<'a>>
    ensures { result ≡ of_refusal command.now code }
{
    match *command {
        Command::Import { file, .. } => Some(Explanation::Refused { file, code }),
        _ => None,
    }
}

// Of a fault of a command.
fn of_fault<'a>(command: &Command<'a>, fault: RunFault, known: Known<'a>) -> Option<Explanation<'a>>
    ensures { result ≡ of_fault command.now fault known.entry }
{
    match fault {
        RunFault::NoMemory => Some(Explanation::NoMemory),
        RunFault::Device => Some(of_device(command, known)),
        RunFault::File(fault) => of_file(command, fault, known),
        RunFault::Store(fault) => of_store(command, fault, known.cause),
    }
}

// Of a failed device: what wasn't opened, or the streams that the command uses.
fn of_device<'a>(command: &Command<'a>, known: Known<'a>) -> Explanation<'a>
    ensures { result ≡ of_device command.now known.entry }
{
    match *command {
        Command::Import { file, .. } => match known.cause {
            Some(Cause::File(cause)) => Explanation::NoFile { file, cause },
            _ => Explanation::Output(of_kind(known.output)),
        },
        Command::Serve { port, .. } => match known.cause {
            Some(Cause::Port(cause)) => Explanation::NoPort { port, cause },
            _ => of_serving(known.output),
        },
        Command::Apply(_) => of_streams(known.input, known.output),
        Command::Value { .. } | Command::Export { .. } | Command::Sheet { .. } => {
            Explanation::Output(of_kind(known.output))
        }
    }
}

// The cause of an error of this kind, if there was one.
fn of_kind(kind: Option<ErrorKind>) -> Option<SystemCause>
    ensures { result ≡ of_kind kind }
{
    SystemCause::of(kind?)
}

// Of a server that ended: its output failed, or it accepted no connection.
fn of_serving(output: Option<ErrorKind>) -> Explanation<'static>
    ensures { result ≡ of_serving output }
{
    match output {
        Some(kind) => Explanation::Log(SystemCause::of(kind)),
        None => Explanation::Connections,
    }
}

// Of the two streams of a connection.
fn of_streams(input: Option<ErrorKind>, output: Option<ErrorKind>) -> Explanation<'static>
    ensures { result ≡ of_streams input output }
{
    match (output, input) {
        (Some(kind), _) => Explanation::Answers(SystemCause::of(kind)),
        (None, Some(kind)) => Explanation::Input(SystemCause::of(kind)),
        (None, None) => Explanation::InputOrOutput,
    }
}

// Of a fault in the file of an import.
fn of_file<'a>(command: &Command<'a>, fault: FileFault, known: Known<'a>) -> Option<Explanation<'a>>
    ensures { result ≡ of_file command.now fault known.entry }
{
    match *command {
        Command::Import { kind, file, .. } => Some(in_file(kind, file, fault, known)),
        _ => None,
    }
}

// Of a fault in a file of this kind.
fn in_file<'a>(kind: FileKind, file: &'a str, fault: FileFault, known: Known<'a>) -> Explanation<'a>
    ensures { result ≡ in_file kind file.entry fault known.entry }
{
    let row = fault.row;
    match fault.code {
        FileCode::BadHeader => {
            let form = form_in(known.cause);
            Explanation::Header { file, kind, form }
        }
        FileCode::WrongFieldCount => Explanation::FieldCount { file, row },
        FileCode::BadValue(column) => of_value(file, row, column, known.field),
        FileCode::ReadFailed => of_unread(file, of_reading(known.cause)),
        FileCode::NoMemory => Explanation::NoMemory,
        FileCode::FileTooLong => Explanation::TooLong { file },
    }
}

// The form of a file, if it is known.
fn form_in(cause: Option<Cause>) -> Option<Form>
    ensures { result ≡ form_in cause }
{
    match cause {
        Some(Cause::Form(form)) => Some(form),
        _ => None,
    }
}

// Of a field that spells no value.
fn of_value<'a>(
    file: &'a str,
    row: u64,
    column: FileColumn,
    shown: Option<&'a str>,
) -> Explanation<'a>
    ensures { result ≡ of_value file.entry row column shown.entry }
{
    match shown {
        Some(field) => match unpaid_in(column, field) {
            Some(why) => Explanation::Unpaid {
                file,
                row,
                column,
                shown: field,
                why,
            },
            None => Explanation::Field {
                file,
                row,
                column,
                shown,
            },
        },
        None => Explanation::Field {
            file,
            row,
            column,
            shown,
        },
    }
}

// Of a file that was opened, and not read.
fn of_unread<'a>(file: &'a str, cause: Option<SystemCause>) -> Explanation<'a>
    ensures { result ≡ of_unread file.entry cause }
{
    match cause {
        Some(SystemCause::Folder) => Explanation::Folder { file },
        _ => Explanation::Unread { file, cause },
    }
}

// Why a file was not read.
fn of_reading(cause: Option<Cause>) -> Option<SystemCause>
    ensures { result ≡ of_reading cause }
{
    match cause {
        Some(Cause::File(cause)) => cause,
        _ => None,
    }
}

// Of a fault of the store.
fn of_store<'a>(
    command: &Command<'a>,
    fault: StoreFault,
    cause: Option<Cause>,
) -> Option<Explanation<'a>>
    ensures { result ≡ of_store command.now fault cause }
{
    match *command {
        Command::Value { .. } => None,
        Command::Apply(store)
        | Command::Import { store, .. }
        | Command::Export { store, .. }
        | Command::Sheet { store, .. }
        | Command::Serve { store, .. } => Some(in_store(store, fault, cause)),
    }
}

// Of a fault of this store.
fn in_store<'a>(store: &'a str, fault: StoreFault, cause: Option<Cause>) -> Explanation<'a>
    ensures { result ≡ in_store store.entry fault cause }
{
    match fault {
        StoreFault::StoreFailed => match cause {
            Some(Cause::Store(cause)) => Explanation::Unopened { store, cause },
            _ => Explanation::StoreFailed { store },
        },
        StoreFault::WrongVersion => Explanation::WrongVersion { store },
        StoreFault::Unusable => Explanation::Unusable { store },
        StoreFault::NotWrittenBack => Explanation::NotWrittenBack { store },
    }
}
