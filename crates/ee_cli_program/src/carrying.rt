//! Carrying out a command.

ghost use Rattle.std.specs.Prelude.{◌≡◌, ◌⊎◌, ◌+◌, ◌*◌, ℕ, [], Err, IfOk, IfErr, IfSome, None};
ghost use Rattle.clap.specs.Words.{Text};
ghost use Rattle.ee_desk_model.specs.Repeats.{Content};
ghost use Rattle.ee_keeper.specs.Keeping.{FailedIn, HasAfter};
ghost use Rattle.ee_counter.specs.Answering.{FitMessages};
ghost use Rattle.ee_counter.specs.Serving.{most_messages};
ghost use Rattle.ee_cli_actions.specs.Actions.{Applies, ExportsFrom, FitFile, ImportsInto, ShowsSheet};
ghost use Rattle.ee_cli_actions.specs.Connections.{ServesAll};
ghost use Rattle.ee_cli_actions.specs.Endings.{TellsFailureOnlyIf};
ghost use Rattle.ee_cli_commands.specs.Answer.{view_of};
ghost use Rattle.ee_cli_program.specs.Statuses.{Carries, ShowsValue};
ghost use Rattle.ee_cli_program.specs.Inner.Stores.{IsOpened, Worked, WorksOn};
ghost use Rattle.ee_cli_program.specs.Stores.{CarriesOver, Closes, IsUnbound, IsUnopened, Since, Tries, unwritten};
ghost use Rattle.ee_cli_program.specs.Told.{TellsOnlyIf};

use crate::explaining::Cause;
use crate::host::Host;
use crate::opening::{Carried, import_path, refused_port, serve_port};
use crate::stores::{Left, Stores};
use ee_cli_actions::{Outcome, RunFault, StoreFault, apply_to, export_from, sheet_of};
use ee_cli_commands::{Command, FileKind};
use ee_cli_value::print_value;
use ee_desk_model::{Desk, Number};
use ee_io::{Sink, Source};
use ee_units::{Customer, Denom, IssueMonth, Month};
use ee_value::Rates;

/// How a command ended, and what is left of the stores.
#[derive(Drop)]
pub struct CarriedOut<O, Q, R, L> {
    pub carried: Carried,
    pub left: Left<O, Q, R, L>,
}

/// Carries out a command. A store is opened before a file is, and only if something can listen on the port. `told`: a
/// cause is told only of a command that failed for it.
pub fn carry_out<H: Host, O: Stores, R: Source, W: Sink>(
    host: &H,
    stores: O,
    command: &Command,
    input: &mut R,
    output: &mut W,
) -> CarriedOut<O, O::Refused, O::Rest, O::Left>
    ensures carries { Carries (W.contents output.old) (W.contents output.new) (view_of command.now) result.carried.ended }
    ensures over { (contents : Text → Content) → ((path : Text) → O.holds stores path (contents path))
        → CarriesOver O.Store.is_clean (Since O.Store.is_clean O.Store.is_guarded O.Store.is_open O.Store.faults O.has_room) O.Store.fits (λ path left. HasAfter (O.Store.has left) (O.opens stores path) (O.Store.went left)) O.rests O.keeps (O.refuses stores) contents (H.file host.now) (H.coming host.now) stores result.left (R.remaining input.old) (R.remaining input.new) (W.contents output.old) (W.contents output.new)
        (view_of command.now) result.carried.ended }
    ensures told { TellsOnlyIf result.carried.ended result.carried.cause }
{
    match *command {
        Command::Value {
            denom,
            issued,
            month,
            rate,
            extension,
        } => {
            let rates = Rates::new(rate, extension);
            CarriedOut {
                carried: without_cause(value(host, denom, issued, month, rates, output)),
                left: Left::Given(stores),
            }
        }
        Command::Apply(store) => apply(host, stores, store, input, output),
        Command::Import {
            kind,
            file,
            store,
            desk,
            number,
        } => { import(host, stores, kind, file, store, desk, number, output) }
        Command::Export { customer, store } => export(host, stores, customer, store, output),
        Command::Sheet {
            customer,
            month,
            store,
        } => sheet(stores, customer, month, store, output),
        Command::Serve {
            store,
            port,
            connections,
        } => serve(host, stores, store, port, connections, output),
    }
}

fn apply<H: Host, O: Stores, R: Source, W: Sink>(
    host: &H,
    stores: O,
    db: &str,
    input: &mut R,
    output: &mut W,
) -> CarriedOut<O, O::Refused, O::Rest, O::Left>
    ensures works { Worked O.rests O.keeps (O.refuses stores db.now) (W.contents output.old) (W.contents output.new) result.carried.ended result.left
        (IsOpened O.Store.is_clean O.Store.is_guarded O.has_room O.Store.takes (O.holds stores db.now) (O.opens stores db.now) O.Store.has O.Store.went)
        (WorksOn O.Store.is_clean O.Store.is_guarded O.Store.is_open O.Store.faults O.Store.has O.Store.went
        (λ first left c ended. (n : ℕ) → O.Store.takes (n + most_messages) first → FitMessages O.Store.fits → TellsFailureOnlyIf (FailedIn O.Store.is_open O.Store.faults first left) ended)
        (λ c ended Has. Applies (R.remaining input.old) (R.remaining input.new) (W.contents output.old) (W.contents output.new) c ended Has)) }
    ensures told { TellsOnlyIf result.carried.ended result.carried.cause }
{
    match open(stores, db) {
        Ok(mut store) => {
            let ended = apply_to(host.alloc(), &mut store, input, output);
            end::<O>(store, ended, None, None)
        }
        Err(unopened) => unopened,
    }
}

fn import<H: Host, O: Stores, W: Sink>(
    host: &H,
    stores: O,
    kind: FileKind,
    file: &str,
    db: &str,
    desk: Desk,
    number: Number,
    output: &mut W,
) -> CarriedOut<O, O::Refused, O::Rest, O::Left>
    ensures works { Worked O.rests O.keeps (O.refuses stores db.now) (W.contents output.old) (W.contents output.new) result.carried.ended result.left
        (IsOpened O.Store.is_clean O.Store.is_guarded O.has_room O.Store.takes (O.holds stores db.now) (O.opens stores db.now) O.Store.has O.Store.went)
        (WorksOn O.Store.is_clean O.Store.is_guarded O.Store.is_open O.Store.faults O.Store.has O.Store.went
        (λ first left c ended. (n : ℕ) → O.Store.takes (n + 1) first → FitFile kind O.Store.fits c (desk, number) → TellsFailureOnlyIf (FailedIn O.Store.is_open O.Store.faults first left) ended)
        (λ c ended Has. Tries (W.contents output.old) (W.contents output.new) ended (ImportsInto kind (H.file host.now file.now) (W.contents output.old) (W.contents output.new) (desk, number) c ended Has) (Has c []))) }
    ensures told { TellsOnlyIf result.carried.ended result.carried.cause }
{
    match open(stores, db) {
        Ok(mut store) => {
            let tried = import_path(host, &mut store, kind, file, desk, number, output);
            end::<O>(store, tried.ended, tried.cause, tried.field)
        }
        Err(unopened) => unopened,
    }
}

fn export<H: Host, O: Stores, W: Sink>(
    host: &H,
    stores: O,
    customer: Customer,
    db: &str,
    output: &mut W,
) -> CarriedOut<O, O::Refused, O::Rest, O::Left>
    ensures works { Worked O.rests O.keeps (O.refuses stores db.now) (W.contents output.old) (W.contents output.new) result.carried.ended result.left
        (IsOpened O.Store.is_clean O.Store.is_guarded O.has_room O.Store.takes (O.holds stores db.now) (O.opens stores db.now) O.Store.has O.Store.went)
        (WorksOn O.Store.is_clean O.Store.is_guarded O.Store.is_open O.Store.faults O.Store.has O.Store.went
        (λ first left c ended. (n : ℕ) → O.Store.takes n first → TellsFailureOnlyIf (FailedIn O.Store.is_open O.Store.faults first left) ended)
        (λ c ended Has. ExportsFrom (W.contents output.old) (W.contents output.new) customer c ended Has)) }
    ensures done { IfOk result.carried.ended (λ outcome. outcome ≡ Outcome.Done) }
    ensures told { TellsOnlyIf result.carried.ended result.carried.cause }
{
    match open(stores, db) {
        Ok(mut store) => {
            let ended = export_from(host.alloc(), &mut store, customer, output);
            end::<O>(store, ended, None, None)
        }
        Err(unopened) => unopened,
    }
}

fn sheet<O: Stores, W: Sink>(
    stores: O,
    customer: Customer,
    month: Month,
    db: &str,
    output: &mut W,
) -> CarriedOut<O, O::Refused, O::Rest, O::Left>
    ensures works { Worked O.rests O.keeps (O.refuses stores db.now) (W.contents output.old) (W.contents output.new) result.carried.ended result.left
        (IsOpened O.Store.is_clean O.Store.is_guarded O.has_room O.Store.takes (O.holds stores db.now) (O.opens stores db.now) O.Store.has O.Store.went)
        (WorksOn O.Store.is_clean O.Store.is_guarded O.Store.is_open O.Store.faults O.Store.has O.Store.went
        (λ first left c ended. (n : ℕ) → O.Store.takes n first → TellsFailureOnlyIf (FailedIn O.Store.is_open O.Store.faults first left) ended)
        (λ c ended Has. ShowsSheet (W.contents output.old) (W.contents output.new) customer month c ended (Has c []))) }
    ensures done { IfOk result.carried.ended (λ outcome. outcome ≡ Outcome.Done) }
    ensures told { TellsOnlyIf result.carried.ended result.carried.cause }
{
    match open(stores, db) {
        Ok(mut store) => {
            let ended = sheet_of(&mut store, customer, month, output);
            end::<O>(store, ended, None, None)
        }
        Err(unopened) => unopened,
    }
}

fn serve<H: Host, O: Stores, W: Sink>(
    host: &H,
    stores: O,
    db: &str,
    port: u16,
    connections: u64,
    output: &mut W,
) -> CarriedOut<O, O::Refused, O::Rest, O::Left>
    ensures works { IsUnbound stores result.left (W.contents output.old) (W.contents output.new) result.carried.ended
        ⊎ Worked O.rests O.keeps (O.refuses stores db.now) (W.contents output.old) (W.contents output.new) result.carried.ended result.left
        (IsOpened O.Store.is_clean O.Store.is_guarded O.has_room O.Store.takes (O.holds stores db.now) (O.opens stores db.now) O.Store.has O.Store.went)
        (WorksOn O.Store.is_clean O.Store.is_guarded O.Store.is_open O.Store.faults O.Store.has O.Store.went
        (λ first left c ended. (n : ℕ) → O.Store.takes (n + connections * most_messages) first → FitMessages O.Store.fits → TellsFailureOnlyIf (FailedIn O.Store.is_open O.Store.faults first left) ended)
        (λ c ended Has. Tries (W.contents output.old) (W.contents output.new) ended (ServesAll (H.coming host.now port) connections (W.contents output.old) (W.contents output.new) c ended Has) (Has c []))) }
    ensures done { IfOk result.carried.ended (λ outcome. outcome ≡ Outcome.Done) }
    ensures told { TellsOnlyIf result.carried.ended result.carried.cause }
{
    match refused_port(host, port) {
        None => serve_store(host, stores, db, port, connections, output),
        Some(cause) => CarriedOut {
            carried: Carried {
                ended: Err(RunFault::Device),
                cause: Some(cause),
                field: None,
            },
            left: Left::Given(stores),
        },
    }
}

// Serves over the store of this name.
fn serve_store<H: Host, O: Stores, W: Sink>(
    host: &H,
    stores: O,
    db: &str,
    port: u16,
    connections: u64,
    output: &mut W,
) -> CarriedOut<O, O::Refused, O::Rest, O::Left>
    ensures works { Worked O.rests O.keeps (O.refuses stores db.now) (W.contents output.old) (W.contents output.new) result.carried.ended result.left
        (IsOpened O.Store.is_clean O.Store.is_guarded O.has_room O.Store.takes (O.holds stores db.now) (O.opens stores db.now) O.Store.has O.Store.went)
        (WorksOn O.Store.is_clean O.Store.is_guarded O.Store.is_open O.Store.faults O.Store.has O.Store.went
        (λ first left c ended. (n : ℕ) → O.Store.takes (n + connections * most_messages) first → FitMessages O.Store.fits → TellsFailureOnlyIf (FailedIn O.Store.is_open O.Store.faults first left) ended)
        (λ c ended Has. Tries (W.contents output.old) (W.contents output.new) ended (ServesAll (H.coming host.now port) connections (W.contents output.old) (W.contents output.new) c ended Has) (Has c []))) }
    ensures done { IfOk result.carried.ended (λ outcome. outcome ≡ Outcome.Done) }
    ensures told { TellsOnlyIf result.carried.ended result.carried.cause }
{
    match open(stores, db) {
        Ok(mut store) => {
            let tried = serve_port(host, &mut store, port, connections, output);
            end::<O>(store, tried.ended, tried.cause, tried.field)
        }
        Err(unopened) => unopened,
    }
}

// Prints a value.
fn value<H: Host, W: Sink>(
    host: &H,
    denom: Denom,
    issued: IssueMonth,
    month: Month,
    rates: Rates,
    output: &mut W,
) -> Result<Outcome, RunFault>
    ensures { ShowsValue denom issued month rates (W.contents output.old) (W.contents output.new) result }
{
    Ok(print_value(host.alloc(), denom, issued, month, rates, output)?.into())
}

// A command that ended so, and opened all that it needs.
fn without_cause(ended: Result<Outcome, RunFault>) -> Carried
    ensures { result ≡ record { ended = ended; cause = None; field = None } }
{
    Carried {
        ended,
        cause: None,
        field: None,
    }
}

// Opens the store of a command, or says how the command ends if it isn't opened.
fn open<O: Stores>(
    stores: O,
    db: &str,
) -> Result<O::Store, CarriedOut<O, O::Refused, O::Rest, O::Left>>
    ensures opened { IfOk result (IsOpened O.Store.is_clean O.Store.is_guarded O.has_room O.Store.takes (O.holds stores db.now) (O.opens stores db.now) O.Store.has O.Store.went) }
    ensures unopened { IfErr result (λ out. IsUnopened (O.refuses stores db.now) out.carried.ended out.left) }
    ensures told { IfErr result (λ out. TellsOnlyIf out.carried.ended out.carried.cause) }
{
    match stores.open(db) {
        Ok(store) => Ok(store),
        Err(not) => Err(CarriedOut {
            carried: Carried {
                ended: Err(not.fault),
                cause: not.cause.map(Cause::Store),
                field: None,
            },
            left: Left::Refused(not.rest),
        }),
    }
}

// Closes the store of a command whose work ended so.
fn end<O: Stores>(
    store: O::Store,
    ended: Result<Outcome, RunFault>,
    cause: Option<Cause>,
    field: Option<String>,
) -> CarriedOut<O, O::Refused, O::Rest, O::Left>
    requires { TellsOnlyIf ended cause }
    ensures closes { Closes O.rests O.keeps store ended result.carried.ended result.left }
    ensures done { IfOk ended (λ outcome. outcome ≡ Outcome.Done) → IfOk result.carried.ended (λ outcome. outcome ≡ Outcome.Done) }
    ensures told { TellsOnlyIf result.carried.ended result.carried.cause }
{
    match O::close(store) {
        Ok(rest) => CarriedOut {
            carried: Carried {
                ended,
                cause,
                field,
            },
            left: Left::AtRest(rest),
        },
        Err(left) => CarriedOut {
            carried: Carried {
                ended: unwritten(ended),
                cause,
                field,
            },
            left: Left::Unclosed(left),
        },
    }
}

// How a command ends whose work ended so, if its store isn't written back.
fn unwritten(ended: Result<Outcome, RunFault>) -> Result<Outcome, RunFault>
    ensures { result ≡ unwritten ended }
{
    match ended {
        Ok(_) => Err(RunFault::Store(StoreFault::NotWrittenBack)),
        Err(first) => Err(first),
    }
}
