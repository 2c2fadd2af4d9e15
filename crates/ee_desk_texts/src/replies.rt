//! Replies as JSON, and their texts.

ghost use Rattle.std.specs.Prelude.{◌≡◌, IfOk, string_bytes};
ghost use Rattle.ee_desk_model.specs.declared.replies.Reply.TheVariants as reply;
ghost use Rattle.ee_desk_texts.specs.Data.{ticket_data, batch_data, reply_data};
ghost use Rattle.ee_desk_texts.specs.Texts.{reply_text};
ghost use Rattle.ee_desk_texts.specs.Ranges.{ReplyFits};
ghost use Rattle.ee_desk_texts.specs.Inner.Writing.{AddsData};

use crate::invariants::reply_fits;
use crate::refusals::write_refusal;
use crate::writing::{Row, text_of, write_list_member, write_number_member, write_string_member};
use ee_desk_model::{Batch, Line, Reply, Ticket};
use ee_units::Day;
use json::Writer;
use std::alloc::{AllocError, Global};

impl Row for Line {
    ghost use Rattle.ee_desk_texts.specs.Data.{line_data};

    ghost row_data = { line_data };

    fn write(&self, alloc: Global, out: &mut Writer) -> Result<(), AllocError> {
        out.begin_object()?;
        write_string_member(alloc, out, "paid", &self.cents)?;
        write_string_member(alloc, out, "serial", &self.serial)?;
        out.end_object()
    }
}

fn write_ticket(alloc: Global, out: &mut Writer, ticket: &Ticket) -> Result<(), AllocError>
    ensures { AddsData result out.old out.new (ticket_data ticket.now) }
{
    out.begin_object()?;
    write_string_member(alloc, out, "day", &ticket.day)?;
    write_list_member(alloc, out, "lines", ticket.lines.as_slice())?;
    write_number_member(out, "payee", u64::from(ticket.payee.number()))?;
    write_number_member(out, "ticket", ticket.ticket)?;
    write_string_member(alloc, out, "total", &ticket.total)?;
    out.end_object()
}

fn write_batch(alloc: Global, out: &mut Writer, batch: &Batch) -> Result<(), AllocError>
    ensures { AddsData result out.old out.new (batch_data batch.now) }
{
    out.begin_object()?;
    write_number_member(out, "bonds", batch.bonds)?;
    write_string_member(alloc, out, "day", &batch.day)?;
    write_number_member(out, "tickets", batch.tickets)?;
    write_string_member(alloc, out, "total", &batch.total)?;
    out.end_object()
}

fn write_added(out: &mut Writer, new: u64, same: u64) -> Result<(), AllocError>
    ensures { AddsData result out.old out.new (reply_data (reply.Added new same)) }
{
    out.begin_object()?;
    write_number_member(out, "new", new)?;
    write_number_member(out, "same", same)?;
    out.end_object()
}

fn write_opened(alloc: Global, out: &mut Writer, day: Day) -> Result<(), AllocError>
    ensures { AddsData result out.old out.new (reply_data (reply.Opened day)) }
{
    out.begin_object()?;
    write_string_member(alloc, out, "opened", &day)?;
    out.end_object()
}

fn write_reply(alloc: Global, out: &mut Writer, reply: &Reply) -> Result<(), AllocError>
    ensures { AddsData result out.old out.new (reply_data reply.now) }
{
    match reply {
        Reply::Added { new, same } => write_added(out, *new, *same),
        Reply::Opened(day) => write_opened(alloc, out, *day),
        Reply::Ticket(ticket) => write_ticket(alloc, out, ticket),
        Reply::Batch(batch) => write_batch(alloc, out, batch),
        Reply::Refused(refusal) => write_refusal(alloc, out, refusal),
    }
}

/// The text of a reply: compact JSON, with keys in the order of their bytes. Different replies have
/// different texts (`texts_law`). Each reply is in range, by its types.
pub fn reply_text(alloc: Global, reply: &Reply) -> Result<String, AllocError>
    ensures text { IfOk result (λ s. string_bytes s ≡ reply_text reply.now) }
    ensures fits { ReplyFits reply.now }
{
    reply_fits(reply);
    let mut out = Writer::new(Vec::new(alloc));
    write_reply(alloc, &mut out, reply)?;
    Ok(text_of(out))
}
