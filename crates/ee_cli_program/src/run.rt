//! Running one command line.

ghost use Rattle.std.specs.Prelude.{◌≡◌, ◌≢◌, ◌⊎◌, ℕ, Ok, IfOk, Option, map, string_bytes};
ghost use Rattle.std.specs.Io.KnownBytes.{Appends};
ghost use Rattle.std.specs.IoError.{error_kind};
ghost use Rattle.clap.specs.Words.{Text};
ghost use Rattle.ee_desk_model.specs.Repeats.{Content};
ghost use Rattle.ee_cli_value.specs.Printed.{value_line};
ghost use Rattle.ee_cli_commands.specs.Answer.{AsksForVersion, IsAsked};
ghost use Rattle.ee_cli_commands.specs.CommandLine.{Asked, value};
ghost use Rattle.ee_units.specs.declared.denoms.Denom.{Denom};
ghost use Rattle.ee_value.specs.Chain.{rates_with};
ghost use Rattle.ee_keeper.specs.Keeping.{HasAfter};
ghost use Rattle.ee_cli_program.specs.Statuses.{Carries, HasRun, IsRun, IsStatusOf, version_line};
ghost use Rattle.ee_cli_program.specs.Inner.Statuses.{IsAnswered};
ghost use Rattle.ee_cli_program.specs.Stores.{CarriesOver, IsUntouched, Since};

use crate::carrying::{CarriedOut, carry_out};
use crate::explaining::{Explanation, Known, explain, explain_argument};
use crate::host::Host;
use crate::stores::{Left, Stores};
use crate::streams::Stream;
use ee_cli_actions::{Outcome, RunFault, print};
use ee_cli_commands::{Command, CommandFault, VERSION, asks_to_explain, read_command};
use ee_cli_value::{BAD_LINE, DONE, FAILED, REFUSED, conclude, report};
use ee_io::{Sink, Source};
use ee_store_load::STORE_VERSION;
use std::alloc::{AllocError, Global};
use std::io::{self, ErrorKind, Write};

/// The exit status of a command line, and what is left of the stores.
#[derive(Drop)]
pub struct Ran<O, Q, R, L> {
    pub status: u8,
    pub left: Left<O, Q, R, L>,
}

/// Runs the line of these words over these stores, and returns the exit status. The first word is the
/// program's name. Faults are written to `faults`, everything else to `output`. A fault is one line, and a refused
/// import none. If the words ask for it by `--explain`, or if it `explains` anyway, a further line says the cause, and
/// what to do (`specs/Explained.antt`); that line changes no status.
///
/// - `status`: what the words were, and how the command ended that they ask for. They ask for at most one
///   thing (`ee_cli_commands::one_meaning`).
/// - `printed`: if they ask for a value and the status is 0, the output gained exactly that value's line.
/// - `version`: if they ask for the version and the status is 0, it gained exactly the line of the versions.
/// - `over`: what a command over a store did and printed, by what the store held (`contents`), if the store is clean
///   as it is closed; the events that its requests are in the history of the store; what holds of the store from
///   its opening on (`Since`); and what is left of it.
/// - `line`: the same of the one command that the words ask for; or no store was opened.
/// - `untouched`: if the words ask for no command, no store was opened.
pub fn run_words<H: Host, O: Stores, R: Source + Stream, W: Sink + Stream, E: Write>(
    host: &H,
    stores: O,
    words: &[String],
    explains: bool,
    input: &mut R,
    output: &mut W,
    faults: &mut E,
) -> Ran<O, O::Refused, O::Rest, O::Left>
    ensures status { IsRun (map (λ w. string_bytes w) words.now) (Carries (W.contents output.old) (W.contents output.new))
        (IsUntouched stores result.left (W.contents output.old) (W.contents output.new)) result.status }
    ensures printed { (denom : Denom) (issued month rate : ℕ) (extension : Option ℕ)
        → IsAsked (map (λ w. string_bytes w) words.now) (Ok (value denom issued month rate extension)) → result.status ≡ 0
        → Appends (W.contents output.old) (W.contents output.new) (value_line denom issued month (rates_with rate extension)) }
    ensures version { AsksForVersion (map (λ w. string_bytes w) words.now) → result.status ≡ 0
        → Appends (W.contents output.old) (W.contents output.new) version_line }
    ensures over { (contents : Text → Content) → ((path : Text) → O.holds stores path (contents path))
        → IsRun (map (λ w. string_bytes w) words.now)
        (CarriesOver O.Store.is_clean (Since O.Store.is_clean O.Store.is_guarded O.Store.is_open O.Store.faults O.has_room) O.Store.fits (λ path left. HasAfter (O.Store.has left) (O.opens stores path) (O.Store.went left))
        O.rests O.keeps (O.refuses stores) contents (H.file host.now) (H.coming host.now) stores result.left (R.remaining input.old) (R.remaining input.new) (W.contents output.old) (W.contents output.new))
        (IsUntouched stores result.left (W.contents output.old) (W.contents output.new)) result.status }
    ensures line { (contents : Text → Content) → ((path : Text) → O.holds stores path (contents path))
        → HasRun (map (λ w. string_bytes w) words.now)
        (CarriesOver O.Store.is_clean (Since O.Store.is_clean O.Store.is_guarded O.Store.is_open O.Store.faults O.has_room) O.Store.fits (λ path left. HasAfter (O.Store.has left) (O.opens stores path) (O.Store.went left))
        O.rests O.keeps (O.refuses stores) contents (H.file host.now) (H.coming host.now) stores result.left (R.remaining input.old) (R.remaining input.new) (W.contents output.old) (W.contents output.new)) result.status
        ⊎ (result.left ≡ Left.Given stores) }
    ensures untouched { ((asked : Asked) → ¬ IsAsked (map (λ w. string_bytes w) words.now) (Ok asked)) → result.left ≡ Left.Given stores }
{
    let explains = explains || asks_to_explain(words);
    match read_command(host.alloc(), words) {
        Ok(command) => {
            let CarriedOut { carried, left } = carry_out(host, stores, &command, input, output);
            let known = Known {
                cause: carried.cause,
                field: carried.field.as_deref(),
                input: input.failure(),
                output: output.failure(),
            };
            Ran {
                status: settle(&command, carried.ended, known, explains, faults),
                left,
            }
        }
        Err(fault) => Ran {
            status: answer_words(host.alloc(), &fault, explains, output, faults),
            left: Left::Given(stores),
        },
    }
}

// Answers words that ask for no command, and returns the exit status.
fn answer_words<W: Sink, E: Write>(
    alloc: Global,
    fault: &CommandFault,
    explains: bool,
    output: &mut W,
    faults: &mut E,
) -> u8
    ensures { IsAnswered fault.now (W.contents output.old) (W.contents output.new) result }
{
    match fault {
        CommandFault::Help(text) => show(text, output, faults),
        CommandFault::Version => show_version(alloc, output, faults),
        CommandFault::Line(text) => refuse_line(text, faults),
        CommandFault::Argument { name, word } => {
            refuse_argument(name, word.as_deref(), explains, faults)
        }
        CommandFault::NoMemory => refuse_memory(explains, faults),
    }
}

// Reports how a command ended, and explains a fault or a refusal if that is asked for.
fn settle<E: Write>(
    command: &Command,
    ended: Result<Outcome, RunFault>,
    known: Known,
    explains: bool,
    faults: &mut E,
) -> u8
    ensures { IsStatusOf ended result }
{
    let status = report_end(&ended, faults);
    if explains {
        tell(explain(command, &ended, known), faults);
    }
    status
}

// Reports how a command ended, and returns the exit status.
fn report_end<E: Write>(ended: &Result<Outcome, RunFault>, faults: &mut E) -> u8
    ensures { IsStatusOf ended.now result }
{
    match ended {
        Ok(Outcome::Done) => DONE,
        Ok(Outcome::Refused(_) | Outcome::NoMessage) => REFUSED,
        Ok(Outcome::Unsettled(age)) => conclude(ee_cli_value::Outcome::Unsettled(*age), faults),
        Err(fault) => report(fault, faults),
    }
}

// Writes the second line of a fault or a refusal, if there is more to say.
fn tell<E: Write>(explanation: Option<Explanation>, faults: &mut E) {
    if let Some(explanation) = explanation {
        let _told = writeln!(faults, "{explanation}");
    }
}

/// Reports why the words of a line were not read, and returns the exit status. A word that isn't UTF-8 makes a
/// bad line; otherwise memory was refused.
pub fn refuse_words<E: Write>(error: &io::Error, faults: &mut E) -> u8
    ensures not_text { error_kind error.now ≡ ErrorKind.InvalidData → (result ≡ 2) ⊎ (result ≡ 3) }
    ensures memory { error_kind error.now ≢ ErrorKind.InvalidData → result ≡ 3 }
{
    match error.kind() {
        ErrorKind::InvalidData => {
            if writeln!(faults, "bad argument: a word isn't UTF-8").is_ok() {
                BAD_LINE
            } else {
                FAILED
            }
        }
        _ => report(&RunFault::NoMemory, faults),
    }
}

// Prints what a line asks for that names no command.
fn show<W: Sink, E: Write>(text: &str, output: &mut W, faults: &mut E) -> u8
    ensures status { (result ≡ 0) ⊎ (result ≡ 3) }
    ensures printed { result ≡ 0 → Appends (W.contents output.old) (W.contents output.new) text.now }
{
    match print(text, output) {
        Ok(()) => DONE,
        Err(fault) => report(&fault, faults),
    }
}

// Prints the versions of the program and of the stores that it makes.
fn show_version<W: Sink, E: Write>(alloc: Global, output: &mut W, faults: &mut E) -> u8
    ensures status { (result ≡ 0) ⊎ (result ≡ 3) }
    ensures printed { result ≡ 0 → Appends (W.contents output.old) (W.contents output.new) version_line }
{
    match version(alloc) {
        Ok(line) => show(&line, output, faults),
        Err(_) => report(&RunFault::NoMemory, faults),
    }
}

fn version(alloc: Global) -> Result<String, AllocError>
    ensures { IfOk result (λ line. string_bytes line ≡ version_line) }
{
    format!(in alloc; "ee_cli {VERSION}, store version {STORE_VERSION}\n")
}

// Reports that the words fit no row.
fn refuse_line<E: Write>(text: &str, faults: &mut E) -> u8
    ensures { (result ≡ 2) ⊎ (result ≡ 3) }
{
    let told = write!(faults, "{text}");
    if told.is_ok() { BAD_LINE } else { FAILED }
}

// Reports that memory was refused to the words of a line, and explains it if that is asked for.
fn refuse_memory<E: Write>(explains: bool, faults: &mut E) -> u8
    ensures { result ≡ 3 }
{
    let status = report(&RunFault::NoMemory, faults);
    if explains {
        tell(Some(Explanation::NoMemory), faults);
    }
    status
}

// Reports which word spells no value, and explains what it is and how it is spelled if that is asked for.
fn refuse_argument<E: Write>(name: &str, word: Option<&str>, explains: bool, faults: &mut E) -> u8
    ensures { (result ≡ 2) ⊎ (result ≡ 3) }
{
    if writeln!(faults, "bad argument: {name}").is_err() {
        return FAILED;
    }
    if explains {
        tell(explain_argument(name, word), faults);
    }
    BAD_LINE
}
