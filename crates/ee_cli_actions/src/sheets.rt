//! The command `sheet`.

ghost use Rattle.std.specs.Prelude.{◌≡◌, ℕ, [], Err, IfOk};
ghost use Rattle.ee_desk_model.specs.Repeats.{Content};
ghost use Rattle.ee_desk_model.specs.declared.refusals.Unserved.TheVariants.{StoreFailed};
ghost use Rattle.ee_keeper.specs.Keeping.{Continues, FailedIn, HasAfter};
ghost use Rattle.ee_cli_actions.specs.Actions.{ShowsSheet, TellsSheet};
ghost use Rattle.ee_cli_actions.specs.Endings.{TellsDeviceOnlyIf, TellsFailureOnlyIf};
ghost use Rattle.ee_cli_actions.specs.declared.faults.StoreFault.TheVariants as store;
ghost use Rattle.ee_cli_actions.specs.declared.faults.RunFault.TheVariants.{Store};

use crate::faults::{Outcome, RunFault};
use ee_calculator::{Sheet, write_sheet};
use ee_desk_model::Unserved;
use ee_io::Sink;
use ee_keeper::Keeper;
use ee_units::{Customer, Month};

/// Writes the sheet, in a month, of the unpaid bonds whose owner is this customer, in order of serial number. If
/// the store didn't serve, nothing is written; if the output failed, only the front of the sheet.
pub fn sheet_of<K: Keeper, W: Sink>(
    keeper: &mut K,
    customer: Customer,
    month: Month,
    output: &mut W,
) -> Result<Outcome, RunFault>
    ensures continues { Continues K.is_clean K.is_guarded K.is_open K.faults keeper.old keeper.new }
    ensures shows { K.is_clean keeper.new → (c : Content) → K.has keeper.old c
        → ShowsSheet (W.contents output.old) (W.contents output.new) customer month c result (HasAfter (K.has keeper.new) (K.went keeper.old) (K.went keeper.new) c []) }
    ensures done { IfOk result (λ outcome. outcome ≡ Outcome.Done) }
    ensures device { TellsDeviceOnlyIf (W.may_have_failed output.new) result }
    ensures failed { TellsFailureOnlyIf K.may_fail result }
    ensures ready { K.is_clean keeper.new → (c : Content) → K.has keeper.old c → (n : ℕ) → K.takes n keeper.old → K.takes n keeper.new }
    ensures cause { K.is_clean keeper.new → (c : Content) → K.has keeper.old c → (n : ℕ) → K.takes n keeper.old
        → TellsFailureOnlyIf (FailedIn K.is_open K.faults keeper.old keeper.new) result }
{
    let shown = keeper.inventory(customer, month);
    print_sheet(shown, output)
}

fn print_sheet<W: Sink>(shown: Result<Sheet, Unserved>, output: &mut W) -> Result<Outcome, RunFault>
    ensures told { TellsSheet (W.contents output.old) (W.contents output.new) shown result }
    ensures done { IfOk result (λ outcome. outcome ≡ Outcome.Done) }
    ensures device { TellsDeviceOnlyIf (W.may_have_failed output.new) result }
    ensures failed { result ≡ Err (Store store.StoreFailed) → shown ≡ Err StoreFailed }
{
    match shown {
        Ok(sheet) => match write_sheet(&sheet, output) {
            Ok(()) => Ok(Outcome::Done),
            Err(_) => Err(RunFault::Device),
        },
        Err(cause) => Err(RunFault::of_unserved(cause)),
    }
}
