//! Imports and exports of files.

ghost use Rattle.std.specs.Prelude.{◌+◌, ◌≡◌, ℕ, List, Some, IfErr};
ghost use Rattle.ee_desk_model.specs.declared.acts.Act.TheVariants as act;
ghost use Rattle.ee_desk_model.specs.declared.refusals.Unserved.TheVariants.{StoreFailed};
ghost use Rattle.ee_desk_model.specs.Repeats.{Content};
ghost use Rattle.ee_keeper.specs.Keeping.{Continues, FailedIn, HasAfter};
ghost use Rattle.ee_io.specs.ReadWhole.{TakesAtMost};
ghost use Rattle.ee_files.specs.BondFile.{bonds_of_file};
ghost use Rattle.ee_files.specs.RateFile.{rates_of_file};
ghost use Rattle.ee_counter.specs.Filing.{Imports, Exports, FitRows, IsFailedRead};
ghost use Rattle.ee_files.specs.Rows.{most_bytes};

use ee_desk_model::{Act, Desk, Number, Reply, Request, Rows, Unserved};
use ee_files::{FileFault, WriteFault, read_inventory, read_rates, write_inventory};
use ee_io::{Sink, Source};
use ee_keeper::Keeper;
use ee_units::Customer;
use std::alloc::Global;
use thiserror::Error;

/// Why an import has no reply.
#[derive(Clone, Copy, Debug, PartialEq, Eq, Error)]
pub enum ImportFault {
    /// The file has a fault, or wasn't read. Nothing was delivered, and the number is as free as before.
    #[error("file: {0}")]
    File(FileFault),
    /// The request wasn't served. Nothing has changed.
    #[error("{0}")]
    Unserved(Unserved),
}

/// Why an export isn't whole.
#[derive(Clone, Copy, Debug, PartialEq, Eq, Error)]
pub enum ExportFault {
    /// The books weren't shown, or memory was refused. Nothing was written.
    #[error("{0}")]
    Unserved(Unserved),
    /// The writer failed. It has taken the front of the file, and not all of it.
    #[error("the writer failed")]
    WriteFailed,
}

/// Enters the rates of a file, with the extensions that it names, under a number of a desk, as one request: the
/// file's rows, its first 501, or nothing. A file imported before under that desk and number gets its first
/// reply again. Takes at most 1,048,577 bytes from the reader, one more than a file may have.
pub fn import_rates<K: Keeper, R: Source>(
    alloc: Global,
    keeper: &mut K,
    desk: Desk,
    number: Number,
    reader: &mut R,
) -> Result<Reply, ImportFault>
    ensures continues { Continues K.is_clean K.is_guarded K.is_open K.faults keeper.old keeper.new }
    ensures imports { K.is_clean keeper.new → (c : Content) → K.has keeper.old c
        → Imports rates_of_file act.AddRates (R.remaining reader.old) (desk, number) c result (HasAfter (K.has keeper.new) (K.went keeper.old) (K.went keeper.new)) }
    ensures takes { (source : List ℕ) → R.remaining reader.old ≡ Some source → TakesAtMost (most_bytes + 1) source (R.remaining reader.new) }
    ensures device { IfErr result (λ fault. IsFailedRead fault → R.may_have_failed reader.new) }
    ensures failed { IfErr result (λ fault. fault ≡ ImportFault.Unserved StoreFailed → K.may_fail) }
    ensures ready { K.is_clean keeper.new → (c : Content) → K.has keeper.old c → (n : ℕ) → K.takes (n + 1) keeper.old → K.takes n keeper.new }
    ensures cause { K.is_clean keeper.new → (c : Content) → K.has keeper.old c → (n : ℕ) → K.takes (n + 1) keeper.old
        → FitRows K.fits c (desk, number) act.AddRates
        → IfErr result (λ fault. fault ≡ ImportFault.Unserved StoreFailed → FailedIn K.is_open K.faults keeper.old keeper.new) }
{
    let rows = match read_rates(alloc, reader) {
        Ok(rows) => rows,
        Err(fault) => return Err(ImportFault::File(fault)),
    };
    let request = Request {
        desk,
        number,
        act: Act::AddRates(Rows::new(rows)),
    };
    match keeper.deliver(&request) {
        Ok(reply) => Ok(reply),
        Err(cause) => Err(ImportFault::Unserved(cause)),
    }
}

/// Registers the bonds of a file under a number of a desk, as one request: the file's rows, its first 501, or
/// nothing. A file imported before under that desk and number gets its first reply again. Takes at most
/// 1,048,577 bytes from the reader, one more than a file may have.
pub fn import_inventory<K: Keeper, R: Source>(
    alloc: Global,
    keeper: &mut K,
    desk: Desk,
    number: Number,
    reader: &mut R,
) -> Result<Reply, ImportFault>
    ensures continues { Continues K.is_clean K.is_guarded K.is_open K.faults keeper.old keeper.new }
    ensures imports { K.is_clean keeper.new → (c : Content) → K.has keeper.old c
        → Imports bonds_of_file act.AddBonds (R.remaining reader.old) (desk, number) c result (HasAfter (K.has keeper.new) (K.went keeper.old) (K.went keeper.new)) }
    ensures takes { (source : List ℕ) → R.remaining reader.old ≡ Some source → TakesAtMost (most_bytes + 1) source (R.remaining reader.new) }
    ensures device { IfErr result (λ fault. IsFailedRead fault → R.may_have_failed reader.new) }
    ensures failed { IfErr result (λ fault. fault ≡ ImportFault.Unserved StoreFailed → K.may_fail) }
    ensures ready { K.is_clean keeper.new → (c : Content) → K.has keeper.old c → (n : ℕ) → K.takes (n + 1) keeper.old → K.takes n keeper.new }
    ensures cause { K.is_clean keeper.new → (c : Content) → K.has keeper.old c → (n : ℕ) → K.takes (n + 1) keeper.old
        → FitRows K.fits c (desk, number) act.AddBonds
        → IfErr result (λ fault. fault ≡ ImportFault.Unserved StoreFailed → FailedIn K.is_open K.faults keeper.old keeper.new) }
{
    let bonds = match read_inventory(alloc, reader) {
        Ok(bonds) => bonds,
        Err(fault) => return Err(ImportFault::File(fault)),
    };
    let request = Request {
        desk,
        number,
        act: Act::AddBonds(Rows::new(bonds)),
    };
    match keeper.deliver(&request) {
        Ok(reply) => Ok(reply),
        Err(cause) => Err(ImportFault::Unserved(cause)),
    }
}

/// Writes the file of the unpaid bonds whose owner is this customer, in order of serial number, and returns
/// their number. Takes memory only before the first byte.
pub fn export_inventory<K: Keeper, W: Sink>(
    alloc: Global,
    keeper: &mut K,
    customer: Customer,
    writer: &mut W,
) -> Result<u64, ExportFault>
    ensures continues { Continues K.is_clean K.is_guarded K.is_open K.faults keeper.old keeper.new }
    ensures exports { K.is_clean keeper.new → (c : Content) → K.has keeper.old c
        → Exports (W.contents writer.old) (W.contents writer.new) customer c result (HasAfter (K.has keeper.new) (K.went keeper.old) (K.went keeper.new)) }
    ensures device { IfErr result (λ fault. fault ≡ ExportFault.WriteFailed → W.may_have_failed writer.new) }
    ensures failed { IfErr result (λ fault. fault ≡ ExportFault.Unserved StoreFailed → K.may_fail) }
    ensures ready { K.is_clean keeper.new → (c : Content) → K.has keeper.old c → (n : ℕ) → K.takes n keeper.old → K.takes n keeper.new }
    ensures cause { K.is_clean keeper.new → (c : Content) → K.has keeper.old c → (n : ℕ) → K.takes n keeper.old
        → IfErr result (λ fault. fault ≡ ExportFault.Unserved StoreFailed → FailedIn K.is_open K.faults keeper.old keeper.new) }
{
    let bonds = match keeper.bonds_of(customer) {
        Ok(bonds) => bonds,
        Err(cause) => return Err(ExportFault::Unserved(cause)),
    };
    match write_inventory(alloc, writer, bonds.as_slice()) {
        Ok(()) => Ok(bonds.len() as u64),
        Err(WriteFault::WriteFailed) => Err(ExportFault::WriteFailed),
        Err(WriteFault::NoMemory) => Err(ExportFault::Unserved(Unserved::NoMemory)),
    }
}
