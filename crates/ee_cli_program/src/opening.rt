//! Opening the file of an import, and the port of a server.

ghost use Rattle.std.specs.Prelude.{◌≡◌, ◌+◌, ◌*◌, List, [], ℕ, Some, Err, IfOk, IfSome, None, option_map, string_bytes};
ghost use Rattle.std.specs.Result.{IsErr};
ghost use Rattle.ee_desk_model.specs.Repeats.{Content};
ghost use Rattle.ee_keeper.specs.Keeping.{Continues, FailedIn, HasAfter};
ghost use Rattle.ee_counter.specs.Answering.{FitMessages};
ghost use Rattle.ee_counter.specs.Serving.{most_messages};
ghost use Rattle.ee_cli_actions.specs.Actions.{FitFile, ImportsInto};
ghost use Rattle.ee_cli_actions.specs.Inner.Actions.{AreOf};
ghost use Rattle.ee_cli_actions.specs.Endings.{TellsFailureOnlyIf};
ghost use Rattle.ee_cli_actions.specs.Connections.{ServesAll};
ghost use Rattle.ee_cli_program.specs.Stores.{Tries};
ghost use Rattle.ee_cli_program.specs.Explained.{form_in};
ghost use Rattle.ee_cli_program.specs.Forms.{form_of};
ghost use Rattle.ee_cli_program.specs.Told.{TellsOnlyIf};
ghost use Rattle.ee_cli_program.specs.Inner.Told.{ShowsField, form_at_code, form_at_fault};

use crate::explaining::Cause;
use crate::forms::{Form, form_of};
use crate::host::Host;
use crate::system::SystemCause;
use ee_cli_actions::{Outcome, RunFault, import_into, serve_on};
use ee_cli_commands::FileKind;
use ee_desk_model::{Desk, Number};
use ee_files::{FileCode, FileFault, MOST_BYTES, show_field};
use ee_io::{ReadFault, Sink, Source, read_whole};
use ee_keeper::Keeper;
use std::alloc::Global;
use std::time::Duration;

/// How a command ended, and what is known of why it failed.
#[derive(Drop)]
pub struct Carried {
    pub ended: Result<Outcome, RunFault>,
    /// The file, port or store that wasn't opened or read.
    pub cause: Option<Cause>,
    /// The field of the file that spells no value, as it is shown.
    pub field: Option<String>,
}

/// Imports the file at this path, which is read whole first. A file that can't be opened is `Device`. A field that
/// is shown is that of the fault, and a form that is told is the file's.
pub fn import_path<H: Host, K: Keeper, W: Sink>(
    host: &H,
    keeper: &mut K,
    kind: FileKind,
    path: &str,
    desk: Desk,
    number: Number,
    output: &mut W,
) -> Carried
    ensures continues { Continues K.is_clean K.is_guarded K.is_open K.faults keeper.old keeper.new }
    ensures imports { K.is_clean keeper.new → (c : Content) → K.has keeper.old c
        → Tries (W.contents output.old) (W.contents output.new) result.ended
        (ImportsInto kind (H.file host.now path.now) (W.contents output.old) (W.contents output.new) (desk, number) c result.ended (HasAfter (K.has keeper.new) (K.went keeper.old) (K.went keeper.new)))
        (HasAfter (K.has keeper.new) (K.went keeper.old) (K.went keeper.new) c []) }
    ensures cause { K.is_clean keeper.new → (c : Content) → K.has keeper.old c → (n : ℕ) → K.takes (n + 1) keeper.old → FitFile kind K.fits c (desk, number)
        → TellsFailureOnlyIf (FailedIn K.is_open K.faults keeper.old keeper.new) result.ended }
    ensures told { TellsOnlyIf result.ended result.cause }
    ensures shown { IfSome result.field (λ shown. (bytes : List ℕ) × AreOf (H.file host.now path.now) bytes × ShowsField bytes result.ended (string_bytes shown)) }
    ensures formed { IfSome (form_in result.cause) (λ form. (bytes : List ℕ) × AreOf (H.file host.now path.now) bytes × (form_of bytes ≡ Some form)) }
{
    match host.open_file(path) {
        Ok((mut file, is_folder)) => {
            let alloc = host.alloc();
            import_read(
                alloc, keeper, kind, desk, number, is_folder, &mut file, output,
            )
        }
        Err(error) => Carried {
            ended: Err(RunFault::Device),
            cause: Some(Cause::File(SystemCause::of(error.kind()))),
            field: None,
        },
    }
}

// Imports what this reader has left, which is read whole first.
fn import_read<K: Keeper, R: Source, W: Sink>(
    alloc: Global,
    keeper: &mut K,
    kind: FileKind,
    desk: Desk,
    number: Number,
    is_folder: bool,
    reader: &mut R,
    output: &mut W,
) -> Carried
    ensures continues { Continues K.is_clean K.is_guarded K.is_open K.faults keeper.old keeper.new }
    ensures imports { K.is_clean keeper.new → (c : Content) → K.has keeper.old c
        → Tries (W.contents output.old) (W.contents output.new) result.ended
        (ImportsInto kind (R.remaining reader.old) (W.contents output.old) (W.contents output.new) (desk, number) c result.ended (HasAfter (K.has keeper.new) (K.went keeper.old) (K.went keeper.new)))
        (HasAfter (K.has keeper.new) (K.went keeper.old) (K.went keeper.new) c []) }
    ensures cause { K.is_clean keeper.new → (c : Content) → K.has keeper.old c → (n : ℕ) → K.takes (n + 1) keeper.old → FitFile kind K.fits c (desk, number)
        → TellsFailureOnlyIf (FailedIn K.is_open K.faults keeper.old keeper.new) result.ended }
    ensures told { TellsOnlyIf result.ended result.cause }
    ensures shown { IfSome result.field (λ shown. (bytes : List ℕ) × AreOf (R.remaining reader.old) bytes × ShowsField bytes result.ended (string_bytes shown)) }
    ensures formed { IfSome (form_in result.cause) (λ form. (bytes : List ℕ) × AreOf (R.remaining reader.old) bytes × (form_of bytes ≡ Some form)) }
{
    match read_whole(alloc, reader, MOST_BYTES) {
        Ok(bytes) => import_bytes(alloc, keeper, kind, desk, number, &bytes, output),
        Err(fault) => not_read(is_folder, fault),
    }
}

// Imports a file of these bytes.
fn import_bytes<K: Keeper, W: Sink>(
    alloc: Global,
    keeper: &mut K,
    kind: FileKind,
    desk: Desk,
    number: Number,
    bytes: &[u8],
    output: &mut W,
) -> Carried
    ensures continues { Continues K.is_clean K.is_guarded K.is_open K.faults keeper.old keeper.new }
    ensures imports { K.is_clean keeper.new → (c : Content) → K.has keeper.old c
        → ImportsInto kind (Some bytes.now) (W.contents output.old) (W.contents output.new) (desk, number) c result.ended (HasAfter (K.has keeper.new) (K.went keeper.old) (K.went keeper.new)) }
    ensures cause { K.is_clean keeper.new → (c : Content) → K.has keeper.old c → (n : ℕ) → K.takes (n + 1) keeper.old → FitFile kind K.fits c (desk, number)
        → TellsFailureOnlyIf (FailedIn K.is_open K.faults keeper.old keeper.new) result.ended }
    ensures told { TellsOnlyIf result.ended result.cause }
    ensures formed { result.cause ≡ option_map Cause.Form (form_at_fault bytes.now result.ended) }
    ensures shown { IfSome result.field (λ shown. ShowsField bytes.now result.ended (string_bytes shown)) }
{
    let mut source = bytes;
    let ended = import_into(alloc, keeper, kind, desk, number, &mut source, output);
    let cause = form_at_fault(&ended, bytes).map(Cause::Form);
    let field = field_at_fault(alloc, &ended, bytes);
    Carried {
        ended,
        cause,
        field,
    }
}

// The form of the file, if its header is at fault.
fn form_at_fault(ended: &Result<Outcome, RunFault>, bytes: &[u8]) -> Option<Form>
    ensures { result ≡ form_at_fault bytes.now ended.now }
{
    match ended {
        Err(RunFault::File(fault)) => form_at_code(fault.code, bytes),
        _ => None,
    }
}

fn form_at_code(code: FileCode, bytes: &[u8]) -> Option<Form>
    ensures { result ≡ form_at_code bytes.now code }
{
    match code {
        FileCode::BadHeader => form_of(bytes),
        _ => None,
    }
}

// The field that spells no value, as it is shown; `None` if that isn't the fault, or memory was refused.
fn field_at_fault(alloc: Global, ended: &Result<Outcome, RunFault>, bytes: &[u8]) -> Option<String>
    ensures { IfSome result (λ shown. ShowsField bytes.now ended.now (string_bytes shown)) }
{
    match *ended {
        Err(
            RunFault::File(
                FileFault {
                    row,
                    code: FileCode::BadValue(column),
                },
            ),
        ) => show_field(alloc, bytes, row, column),
        _ => None,
    }
}

// A file that was opened, and not read. A folder is opened as a file is.
fn not_read(is_folder: bool, fault: ReadFault) -> Carried
    ensures ended { IsErr result.ended }
    ensures failed { TellsFailureOnlyIf ⊥ result.ended }
    ensures told { TellsOnlyIf result.ended result.cause }
    ensures shown { result.field ≡ None }
    ensures formed { form_in result.cause ≡ None }
{
    let cause = if is_folder {
        Some(Cause::File(Some(SystemCause::Folder)))
    } else {
        None
    };
    let code = match fault {
        ReadFault::TooLong => FileCode::FileTooLong,
        ReadFault::ReadFailed => FileCode::ReadFailed,
        ReadFault::NoMemory => FileCode::NoMemory,
    };
    Carried {
        ended: Err(RunFault::File(FileFault { row: 1, code })),
        cause,
        field: None,
    }
}

/// The seconds that a client may be silent, or leave a response unread.
const PATIENCE: u64 = 30;

/// Why nothing can listen on a port of 127.0.0.1; `None` if something can.
pub fn refused_port<H: Host>(host: &H, port: u16) -> Option<Cause>
    ensures told { TellsOnlyIf (Err RunFault.Device) result }
{
    match host.listen(port) {
        Ok(_) => None,
        Err(error) => Some(Cause::Port(SystemCause::of(error.kind()))),
    }
}

/// Serves on a port of 127.0.0.1, and says on standard error that it listens. A port that can't be bound is `Device`.
pub fn serve_port<H: Host, K: Keeper, W: Sink>(
    host: &H,
    keeper: &mut K,
    port: u16,
    connections: u64,
    output: &mut W,
) -> Carried
    ensures continues { Continues K.is_clean K.is_guarded K.is_open K.faults keeper.old keeper.new }
    ensures over { K.is_clean keeper.new → (c : Content) → K.has keeper.old c
        → Tries (W.contents output.old) (W.contents output.new) result.ended
        (ServesAll (H.coming host.now port) connections (W.contents output.old) (W.contents output.new) c result.ended (HasAfter (K.has keeper.new) (K.went keeper.old) (K.went keeper.new)))
        (HasAfter (K.has keeper.new) (K.went keeper.old) (K.went keeper.new) c []) }
    ensures cause { K.is_clean keeper.new → (c : Content) → K.has keeper.old c → (n : ℕ) → K.takes (n + connections * most_messages) keeper.old → FitMessages K.fits
        → TellsFailureOnlyIf (FailedIn K.is_open K.faults keeper.old keeper.new) result.ended }
    ensures done { IfOk result.ended (λ outcome. outcome ≡ Outcome.Done) }
    ensures told { TellsOnlyIf result.ended result.cause }
{
    match host.listen(port) {
        Ok(mut listener) => {
            let _said = eprintln!(host; "listening on port {port}");
            Carried {
                ended: serve_on(
                    host,
                    host.alloc(),
                    keeper,
                    &mut listener,
                    connections,
                    Duration::from_secs(PATIENCE),
                    output,
                ),
                cause: None,
                field: None,
            }
        }
        Err(error) => Carried {
            ended: Err(RunFault::Device),
            cause: Some(Cause::Port(SystemCause::of(error.kind()))),
            field: None,
        },
    }
}
