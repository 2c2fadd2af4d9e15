//! The commands `import` and `export`.

ghost use Rattle.std.specs.Prelude.{◌≡◌, ◌+◌, ℕ, Ok, Err, IfOk, IfErr, string_bytes};
ghost use Rattle.ee_desk_model.specs.Repeats.{Content};
ghost use Rattle.ee_desk_model.specs.declared.refusals.Unserved.TheVariants.{StoreFailed};
ghost use Rattle.ee_counter.specs.Filing.{IsFailedRead};
ghost use Rattle.ee_keeper.specs.Keeping.{Continues, FailedIn, HasAfter};
ghost use Rattle.ee_cli_actions.specs.Actions.{ExportsFrom, FitFile, ImportsFile, ImportsInto, TellsReply};
ghost use Rattle.ee_cli_actions.specs.Endings.{TellsDeviceOnlyIf, TellsFailureOnlyIf, TellsUnreadOnlyIf, outcome_of};
ghost use Rattle.ee_cli_actions.specs.Printed.{reply_line};
ghost use Rattle.ee_cli_actions.specs.declared.faults.StoreFault.TheVariants as store;
ghost use Rattle.ee_cli_actions.specs.declared.faults.RunFault.TheVariants.{Store};

use crate::faults::{Outcome, RunFault};
use crate::printing::print;
use ee_cli_commands::FileKind;
use ee_counter::{ExportFault, ImportFault, export_inventory, import_inventory, import_rates};
use ee_desk_model::{Desk, Number, Reply};
use ee_desk_texts::reply_text;
use ee_io::{Sink, Source};
use ee_keeper::Keeper;
use ee_units::Customer;
use std::alloc::{AllocError, Global};

/// Imports a file of this kind as one request under the desk's number, and prints the text of the reply on a
/// line. If the reply is a refusal, the command is refused by it. If the file has a fault, nothing was delivered. If
/// the output failed, or memory was refused to the text of the reply, the request was delivered: the same
/// command line gives its reply again.
pub fn import_into<K: Keeper, R: Source, W: Sink>(
    alloc: Global,
    keeper: &mut K,
    kind: FileKind,
    desk: Desk,
    number: Number,
    file: &mut R,
    output: &mut W,
) -> Result<Outcome, RunFault>
    ensures continues { Continues K.is_clean K.is_guarded K.is_open K.faults keeper.old keeper.new }
    ensures imports { K.is_clean keeper.new → (c : Content) → K.has keeper.old c
        → ImportsInto kind (R.remaining file.old) (W.contents output.old) (W.contents output.new) (desk, number) c result (HasAfter (K.has keeper.new) (K.went keeper.old) (K.went keeper.new)) }
    ensures device { TellsDeviceOnlyIf (W.may_have_failed output.new) result }
    ensures unread { TellsUnreadOnlyIf (R.may_have_failed file.new) result }
    ensures failed { TellsFailureOnlyIf K.may_fail result }
    ensures ready { K.is_clean keeper.new → (c : Content) → K.has keeper.old c → (n : ℕ) → K.takes (n + 1) keeper.old → K.takes n keeper.new }
    ensures cause { K.is_clean keeper.new → (c : Content) → K.has keeper.old c → (n : ℕ) → K.takes (n + 1) keeper.old → FitFile kind K.fits c (desk, number)
        → TellsFailureOnlyIf (FailedIn K.is_open K.faults keeper.old keeper.new) result }
{
    let answer = import_file(alloc, keeper, kind, desk, number, file);
    print_answer(alloc, answer, output)
}

fn import_file<K: Keeper, R: Source>(
    alloc: Global,
    keeper: &mut K,
    kind: FileKind,
    desk: Desk,
    number: Number,
    file: &mut R,
) -> Result<Reply, ImportFault>
    ensures continues { Continues K.is_clean K.is_guarded K.is_open K.faults keeper.old keeper.new }
    ensures imports { K.is_clean keeper.new → (c : Content) → K.has keeper.old c
        → ImportsFile kind (R.remaining file.old) (desk, number) c result (HasAfter (K.has keeper.new) (K.went keeper.old) (K.went keeper.new)) }
    ensures device { IfErr result (λ fault. IsFailedRead fault → R.may_have_failed file.new) }
    ensures failed { IfErr result (λ fault. fault ≡ ImportFault.Unserved StoreFailed → K.may_fail) }
    ensures ready { K.is_clean keeper.new → (c : Content) → K.has keeper.old c → (n : ℕ) → K.takes (n + 1) keeper.old → K.takes n keeper.new }
    ensures cause { K.is_clean keeper.new → (c : Content) → K.has keeper.old c → (n : ℕ) → K.takes (n + 1) keeper.old → FitFile kind K.fits c (desk, number)
        → IfErr result (λ fault. fault ≡ ImportFault.Unserved StoreFailed → FailedIn K.is_open K.faults keeper.old keeper.new) }
{
    match kind {
        FileKind::Rates => import_rates(alloc, keeper, desk, number, file),
        FileKind::Inventory => import_inventory(alloc, keeper, desk, number, file),
    }
}

// Prints the reply, or returns why there is none.
fn print_answer<W: Sink>(
    alloc: Global,
    answer: Result<Reply, ImportFault>,
    output: &mut W,
) -> Result<Outcome, RunFault>
    ensures told { TellsReply (W.contents output.old) (W.contents output.new) answer result }
    ensures device { TellsDeviceOnlyIf (W.may_have_failed output.new) result }
    ensures failed { result ≡ Err (Store store.StoreFailed) → answer ≡ Err (ImportFault.Unserved StoreFailed) }
{
    match answer {
        Ok(reply) => print_reply(alloc, &reply, output),
        Err(ImportFault::File(fault)) => Err(RunFault::File(fault)),
        Err(ImportFault::Unserved(cause)) => Err(RunFault::of_unserved(cause)),
    }
}

fn print_reply<W: Sink>(alloc: Global, reply: &Reply, output: &mut W) -> Result<Outcome, RunFault>
    ensures told { TellsReply (W.contents output.old) (W.contents output.new) (Ok reply.now) result }
    ensures device { TellsDeviceOnlyIf (W.may_have_failed output.new) result }
{
    let line = reply_line(alloc, reply)?;
    print(&line, output)?;
    Ok(outcome(reply))
}

fn reply_line(alloc: Global, reply: &Reply) -> Result<String, AllocError>
    ensures { IfOk result (λ line. string_bytes line ≡ reply_line reply.now) }
{
    let mut line = reply_text(alloc, reply)?;
    line.push('\n')?;
    Ok(line)
}

fn outcome(reply: &Reply) -> Outcome
    ensures { result ≡ outcome_of reply.now }
{
    match reply {
        Reply::Refused(refusal) => Outcome::Refused(*refusal),
        _ => Outcome::Done,
    }
}

/// Writes the customer's unpaid bonds as a file that an import reads, in order of serial number. If the store
/// didn't serve, or memory was refused, nothing is written; if the output failed, only the front.
pub fn export_from<K: Keeper, W: Sink>(
    alloc: Global,
    keeper: &mut K,
    customer: Customer,
    output: &mut W,
) -> Result<Outcome, RunFault>
    ensures continues { Continues K.is_clean K.is_guarded K.is_open K.faults keeper.old keeper.new }
    ensures exports { K.is_clean keeper.new → (c : Content) → K.has keeper.old c
        → ExportsFrom (W.contents output.old) (W.contents output.new) customer c result (HasAfter (K.has keeper.new) (K.went keeper.old) (K.went keeper.new)) }
    ensures device { TellsDeviceOnlyIf (W.may_have_failed output.new) result }
    ensures failed { TellsFailureOnlyIf K.may_fail result }
    ensures ready { K.is_clean keeper.new → (c : Content) → K.has keeper.old c → (n : ℕ) → K.takes n keeper.old → K.takes n keeper.new }
    ensures cause { K.is_clean keeper.new → (c : Content) → K.has keeper.old c → (n : ℕ) → K.takes n keeper.old
        → TellsFailureOnlyIf (FailedIn K.is_open K.faults keeper.old keeper.new) result }
    ensures done { IfOk result (λ outcome. outcome ≡ Outcome.Done) }
{
    match export_inventory(alloc, keeper, customer, output) {
        Ok(_) => Ok(Outcome::Done),
        Err(ExportFault::WriteFailed) => Err(RunFault::Device),
        Err(ExportFault::Unserved(cause)) => Err(RunFault::of_unserved(cause)),
    }
}
