//! Writing the bytes of a response.

ghost use Rattle.std.specs.Prelude.{◌≡◌, ◌≢◌, IfOk, IfErr, Err, is_some, true};
ghost use Rattle.ee_wire.specs.Answers.{status_of, kind_of, body_of, whole_text, answer_text, unserved_in, WritesAnswer};
ghost use Rattle.ee_wire.specs.declared.answers.Answer.TheVariants as answer;
ghost use Rattle.ee_wire.specs.declared.answers.WriteEnd.TheVariants as written;

use crate::answers::{Answer, WriteEnd};
use crate::bodies::body_bytes;
use crate::heads::head_text;
use ee_desk_model::Unserved;
use ee_io::{Sink, write_whole};
use ee_wire_calls::WireFault;
use std::alloc::{AllocError, Global};

/// The cause, if the answer says that nothing was served.
fn unserved_in(answer: &Answer) -> Option<Unserved>
    ensures { result ≡ unserved_in answer.now }
{
    match answer {
        Answer::Unserved(cause) => Some(*cause),
        Answer::Fault(WireFault::NoMemory) => Some(Unserved::NoMemory),
        _ => None,
    }
}

fn unserved_bytes(cause: Unserved, closing: bool) -> &'static [u8]
    ensures { result.now ≡ answer_text (answer.Unserved cause) closing }
{
    match (cause, closing) {
        (Unserved::NoMemory, false) =>
            b"HTTP/1.1 503 Service Unavailable\r\nContent-Type: application/json\r\nContent-Length: 32\r\n\r\n{\"code\":1,\"unserved\":\"NoMemory\"}",
        (Unserved::NoMemory, true) =>
            b"HTTP/1.1 503 Service Unavailable\r\nContent-Type: application/json\r\nContent-Length: 32\r\nConnection: close\r\n\r\n{\"code\":1,\"unserved\":\"NoMemory\"}",
        (Unserved::StoreFailed, false) =>
            b"HTTP/1.1 503 Service Unavailable\r\nContent-Type: application/json\r\nContent-Length: 35\r\n\r\n{\"code\":2,\"unserved\":\"StoreFailed\"}",
        (Unserved::StoreFailed, true) =>
            b"HTTP/1.1 503 Service Unavailable\r\nContent-Type: application/json\r\nContent-Length: 35\r\nConnection: close\r\n\r\n{\"code\":2,\"unserved\":\"StoreFailed\"}",
    }
}

#[tactic(auto, unfolding(crate::specs::Answers::whole_text))]
fn whole_bytes(alloc: Global, answer: &Answer, closes: bool) -> Result<Vec<u8>, AllocError>
    ensures { IfOk result (λ v. v.items ≡ whole_text (status_of answer.now) (kind_of answer.now) (body_of answer.now) closes) }
{
    let body = body_bytes(alloc, answer)?;
    let mut text = head_text(alloc, answer.status(), answer.kind(), body.len(), closes)?;
    text.extend_from_slice(&body)?;
    Ok(text)
}

fn write_text<W: Sink>(writer: &mut W, text: &[u8]) -> Result<(), WriteEnd>
    ensures written { WritesAnswer text.now (W.contents writer.old) (W.contents writer.new) result }
    ensures failed { IfErr result (λ end. end ≡ written.WriteFailed → W.may_have_failed writer.new) }
    ensures spare { result ≢ Err written.NoMemory }
{
    if write_whole(writer, text) {
        Ok(())
    } else {
        Err(WriteEnd::WriteFailed)
    }
}

/// Writes a response: its head, which says `Connection: close` if the connection ends with it (`closing`, or a
/// framing fault), and its body. If the writer fails, it has taken only the front of the response. If memory
/// is refused, nothing is written. `Unserved`, and the fault `NoMemory`, which has the same response, take no
/// memory.
pub fn write_reply<W: Sink>(
    alloc: Global,
    writer: &mut W,
    answer: &Answer,
    closing: bool,
) -> Result<(), WriteEnd>
    ensures written { WritesAnswer (answer_text answer.now closing) (W.contents writer.old) (W.contents writer.new) result }
    ensures failed { IfErr result (λ end. end ≡ written.WriteFailed → W.may_have_failed writer.new) }
    ensures untouched { result ≡ Err written.NoMemory → writer.new ≡ writer.old }
    ensures spare { is_some (unserved_in answer.now) ≡ true → result ≢ Err written.NoMemory }
{
    if let Some(cause) = unserved_in(answer) {
        return write_text(writer, unserved_bytes(cause, closing));
    }
    match whole_bytes(alloc, answer, closing || answer.ends_connection()) {
        Ok(text) => write_text(writer, &text),
        Err(AllocError) => Err(WriteEnd::NoMemory),
    }
}
