//! Writing inventory files.

ghost use Rattle.std.specs.Prelude.{◌≡◌, All, Some, IfOk, IfErr, OnOk, string_bytes};
ghost use Rattle.csv.specs.Writing.{default_writer, row_text, text_written};
ghost use Rattle.ee_files.specs.Answers.{Writes};
ghost use Rattle.ee_files.specs.BondFile.{IsBond, bond_columns, bond_fields, coowner_text, inventory_text};
ghost use Rattle.ee_files.specs.Rows.{header_of};
ghost use Rattle.ee_files.specs.Inner.WriterState.{AppendsRow, IsBetweenRows};

use crate::columns::FileColumn;
use crate::faults::WriteFault;
use crate::invariants::in_range;
use csv::{Writer, WriterBuilder};
use ee_calculator::Bond;
use ee_io::{Sink, write_whole};
use ee_units::Customer;
use std::alloc::{AllocError, Global};

/// Writes an inventory file: the header, and one line for each bond, in the given order. Takes memory only
/// before the first byte. If the writer fails, it has taken only the front of the file. Each bond's values
/// are in range, by their types, so a file of up to 500 bonds reads back as these bonds (`inventory_law`).
pub fn write_inventory<W: Sink>(
    alloc: Global,
    writer: &mut W,
    bonds: &[Bond],
) -> Result<(), WriteFault>
    ensures writes { Writes W.contents writer.old writer.new (inventory_text bonds.now) result }
    ensures failed { IfErr result (λ fault. fault ≡ WriteFault.WriteFailed → W.may_have_failed writer.new) }
    ensures in_range { All IsBond bonds.now }
{
    in_range(bonds);
    let text = inventory_bytes(alloc, bonds)?;
    if write_whole(writer, &text) {
        Ok(())
    } else {
        Err(WriteFault::WriteFailed)
    }
}

fn inventory_bytes(alloc: Global, bonds: &[Bond]) -> Result<Vec<u8>, WriteFault>
    ensures ok { IfOk result (λ v. v.items ≡ inventory_text bonds.now) }
    ensures err { IfErr result (λ e. e ≡ WriteFault.NoMemory) }
{
    let mut writer = writer_with_header(alloc)?;
    for bond in bonds {
        write_bond(alloc, &mut writer, bond)?;
    }
    match writer.into_inner() {
        Ok(text) => Ok(text),
        Err(_) => Err(WriteFault::NoMemory),
    }
}

// A writer that has written the header.
fn writer_with_header(alloc: Global) -> Result<Writer<Vec<u8>>, WriteFault>
    ensures ok { IfOk result (λ w. IsBetweenRows w
        × (text_written (λ v. Some v.items) w ≡ Some (row_text default_writer (header_of bond_columns)))) }
    ensures err { IfErr result (λ e. e ≡ WriteFault.NoMemory) }
{
    let mut writer = WriterBuilder::new().from_writer(Vec::new(alloc));
    let header = [
        FileColumn::Serial.name().as_bytes(),
        FileColumn::Denom.name().as_bytes(),
        FileColumn::Issued.name().as_bytes(),
        FileColumn::Owner.name().as_bytes(),
        FileColumn::Coowner.name().as_bytes(),
    ];
    if writer.write_fields(&header).is_err() {
        return Err(WriteFault::NoMemory);
    }
    Ok(writer)
}

fn write_bond(alloc: Global, writer: &mut Writer<Vec<u8>>, bond: &Bond) -> Result<(), WriteFault>
    ensures ok { OnOk result (IsBetweenRows writer.old
        → AppendsRow (λ v. v.items) writer.old writer.new (bond_fields bond.now)) }
    ensures err { IfErr result (λ e. e ≡ WriteFault.NoMemory) }
{
    let (Ok(serial), Ok(denom), Ok(issued), Ok(owner), Ok(coowner)) = (
        bond.serial.to_string(alloc),
        bond.denom.to_string(alloc),
        bond.issued.to_string(alloc),
        bond.owner.to_string(alloc),
        coowner_text(alloc, bond.coowner),
    ) else {
        return Err(WriteFault::NoMemory);
    };
    let fields = [
        serial.as_bytes(),
        denom.as_bytes(),
        issued.as_bytes(),
        owner.as_bytes(),
        coowner.as_bytes(),
    ];
    writer
        .write_fields(&fields)
        .map_err(|_| WriteFault::NoMemory)
}

fn coowner_text(alloc: Global, coowner: Option<Customer>) -> Result<String, AllocError>
    ensures { IfOk result (λ t. string_bytes t ≡ coowner_text coowner) }
{
    match coowner {
        Some(customer) => customer.to_string(alloc),
        None => Ok(String::new(alloc)),
    }
}
