//! The bodies of responses.
ghost use Rattle.std.specs.Prelude.{◌≡◌, IfOk, string_bytes};
ghost use Rattle.serde_json.specs.Written.{compact_text};
ghost use Rattle.ee_calculator.specs.Sheets.{sheet_text};
ghost use Rattle.ee_desk_texts.specs.Texts.{reply_text};
ghost use Rattle.ee_desk_texts.specs.Inner.Writing.{AddsData};
ghost use Rattle.ee_wire.specs.Answers.{field_in, fault_data, fault_text, unserved_text, row_data, body_of};

use crate::answers::Answer;
use crate::rows::write_row;
use ee_calculator::{Row, Sheet, write_sheet};
use ee_desk_model::{Reply, Unserved};
use ee_desk_texts::{GivenReply, reply_text, text_of, write_number_member, write_text_member};
use ee_wire_calls::{Field, WireFault};
use json::Writer;
use std::alloc::{AllocError, Global};

fn field_in(fault: WireFault) -> Option<Field>
    ensures { result ≡ field_in fault }
{
    match fault {
        WireFault::BadField(field) => Some(field),
        _ => None,
    }
}

fn write_fault(out: &mut Writer, fault: WireFault) -> Result<(), AllocError>
    ensures { AddsData result out.old out.new (fault_data fault) }
{
    out.begin_object()?;
    write_number_member(out, "code", u64::from(fault.code()))?;
    write_text_member(out, "fault", fault.name())?;
    if let Some(field) = field_in(fault) {
        write_text_member(out, "field", field.name())?;
    }
    out.end_object()
}

fn fault_text(alloc: Global, fault: WireFault) -> Result<String, AllocError>
    ensures { IfOk result (λ s. string_bytes s ≡ compact_text (fault_data fault)) }
{
    let mut out = Writer::new(Vec::new(alloc));
    write_fault(&mut out, fault)?;
    Ok(text_of(out))
}

fn row_text(alloc: Global, row: &Row) -> Result<String, AllocError>
    ensures { IfOk result (λ s. string_bytes s ≡ compact_text (row_data row.now)) }
{
    let mut out = Writer::new(Vec::new(alloc));
    write_row(alloc, &mut out, row)?;
    Ok(text_of(out))
}

fn sheet_bytes(alloc: Global, sheet: &Sheet) -> Result<Vec<u8>, AllocError>
    ensures { IfOk result (λ v. v.items ≡ sheet_text sheet.now) }
{
    let mut text = Vec::new(alloc);
    match write_sheet(sheet, &mut text) {
        Ok(()) => Ok(text),
        Err(_) => Err(AllocError),
    }
}

fn reply_bytes(alloc: Global, reply: &Reply) -> Result<Vec<u8>, AllocError>
    ensures { IfOk result (λ v. v.items ≡ reply_text reply.now) }
{
    Ok(reply_text(alloc, reply)?.into_bytes())
}

fn unserved_body(cause: Unserved) -> &'static [u8]
    ensures { result.now ≡ unserved_text cause }
{
    match cause {
        Unserved::NoMemory => b"{\"code\":1,\"unserved\":\"NoMemory\"}",
        Unserved::StoreFailed => b"{\"code\":2,\"unserved\":\"StoreFailed\"}",
    }
}

fn fault_bytes(alloc: Global, fault: WireFault) -> Result<Vec<u8>, AllocError>
    ensures { IfOk result (λ v. v.items ≡ fault_text fault) }
{
    match fault {
        WireFault::NoMemory => Vec::from_slice(alloc, unserved_body(Unserved::NoMemory)),
        _ => Ok(fault_text(alloc, fault)?.into_bytes()),
    }
}

/// The body of an answer.
pub fn body_bytes(alloc: Global, answer: &Answer) -> Result<Vec<u8>, AllocError>
    ensures { IfOk result (λ v. v.items ≡ body_of answer.now) }
{
    match answer {
        Answer::Reply(GivenReply::Reply(reply)) => reply_bytes(alloc, reply),
        Answer::Reply(GivenReply::Text(text)) => Vec::from_slice(alloc, text.as_bytes()),
        Answer::Sheet(sheet) => sheet_bytes(alloc, sheet),
        Answer::Row(Some(row)) => Ok(row_text(alloc, row)?.into_bytes()),
        Answer::Row(None) => Vec::from_slice(alloc, b"{\"code\":30,\"refused\":\"NoRate\"}"),
        Answer::Ticket(Some(ticket)) => reply_bytes(alloc, &Reply::Ticket(ticket.copy()?)),
        Answer::Batch(Some(batch)) => reply_bytes(alloc, &Reply::Batch(*batch)),
        Answer::Ticket(None) | Answer::Batch(None) => {
            Vec::from_slice(alloc, b"{\"code\":69,\"fault\":\"NotFound\"}")
        }
        Answer::Fault(fault) => fault_bytes(alloc, *fault),
        Answer::Unserved(cause) => Vec::from_slice(alloc, unserved_body(*cause)),
    }
}
