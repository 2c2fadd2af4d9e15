//! A transcript is a talk with a counter: a line for each thing that is done, and the result below it.
//!
//! - `> METHOD PATH BODY` sends a message by the command `apply`: the status and the body of its answer.
//! - `~ BYTES` sends bytes by `apply`: how it ends, and the whole answer. `|` means the end of a line, and `~` the
//!   byte FF.
//! - `+ NUMBER FILE` imports a file under a number of the first desk, and `+ DESK/NUMBER FILE` under one of another; it
//!   is a file of rates if it begins with `from`: its reply, or the fault. `|` means a line feed.
//! - `- CUSTOMER ROOM` exports an inventory to a device with room for ROOM bytes: how it ends, and what the device has.
//! - `% ROOM METHOD PATH BODY` serves a message to a device with room for ROOM bytes: how many messages were answered, why
//!   it ended, and the status and the front of the body that the device has.
//!
//! `[*COUNT ITEM*]` is a list of COUNT items, `(*COUNT ITEM*)` COUNT items in a row, and `#` in the item is its place,
//! from 1.

use crate::devices::Narrow;
use ee_cli_actions::{Outcome, RunFault, StoreFault, apply_to};
use ee_counter::{export_inventory, import_inventory, import_rates, serve};
use ee_desk_model::{Desk, Number, Unserved, read_desk};
use ee_desk_texts::{GivenReply, reply_text};
use ee_keeper::Keeper;
use ee_wire::{Answer, Call, Query, WireFault, decode, write_reply};
use std::alloc::Global;
use std::fmt::Write;
use std::test::Fail;

/// `count` items, with a text between two.
fn items(alloc: Global, count: u64, item: &str, between: &str) -> Result<String, Fail> {
    let (front, back) = item.split_once('#').unwrap_or((item, ""));
    let is_placed = item.contains("#");
    let mut text = String::new(alloc);
    for place in 1..=count {
        text.push_str(if place > 1 { between } else { "" })?;
        text.push_str(front)?;
        if is_placed {
            write!(text, "{place}{back}")?;
        }
    }
    Ok(text)
}

/// A line with the items between two marks written out.
fn between_marks(
    alloc: Global,
    line: &str,
    marks: (&str, &str),
    ends: (&str, &str),
    between: &str,
) -> Result<String, Fail> {
    let (front, rest) = line.split_once(marks.0).ok_or("items")?;
    let (list, back) = rest.split_once(marks.1).ok_or("their end")?;
    let (count, item) = list.split_once(' ').ok_or("count")?;
    let items = items(alloc, count.parse()?, item, between)?;
    Ok(format!(in alloc; "{front}{}{items}{}{back}", ends.0, ends.1)?)
}

/// A line with its list or its items written out.
fn written_out(alloc: Global, line: &str) -> Result<String, Fail> {
    if line.contains("[*") {
        return between_marks(alloc, line, ("[*", "*]"), ("[", "]"), ",");
    }
    if line.contains("(*") {
        return between_marks(alloc, line, ("(*", "*)"), ("", ""), "");
    }
    Ok(String::from_str(alloc, line)?)
}

/// A transcript with its lists written out.
pub fn whole(alloc: Global, transcript: &str) -> Result<String, Fail> {
    let mut text = String::new(alloc);
    for line in transcript.lines() {
        text.push_str(written_out(alloc, line)?.as_str())?;
        text.push_str("\n")?;
    }
    Ok(text)
}

/// The bytes of a text in which `|` means this end of a line, and `~` the byte FF.
pub fn bytes_of(alloc: Global, text: &str, end: &str) -> Result<Vec<u8>, Fail> {
    let mut bytes = Vec::new(alloc);
    for byte in text.as_bytes() {
        match byte {
            b'|' => bytes.extend_from_slice(end.as_bytes())?,
            b'~' => bytes.push(0xff)?,
            _ => bytes.push(*byte)?,
        }
    }
    Ok(bytes)
}

/// The HTTP text of a message `METHOD PATH BODY`; the body may be missing.
pub fn message(alloc: Global, line: &str) -> Result<String, Fail> {
    let (method, rest) = line.split_once(' ').ok_or("method")?;
    let (path, body) = rest.split_once(' ').unwrap_or((rest, ""));
    let length = body.len();
    Ok(format!(in alloc; "{method} {path} HTTP/1.1\r\nContent-Length: {length}\r\n\r\n{body}")?)
}

/// All messages of a transcript, one after another.
pub fn stream(alloc: Global, transcript: &str) -> Result<String, Fail> {
    let mut text = String::new(alloc);
    for line in transcript.lines() {
        if let Some(line) = line.strip_prefix("> ") {
            text.push_str(message(alloc, line)?.as_str())?;
        }
    }
    Ok(text)
}

/// Status and body of an answer.
fn text_of(alloc: Global, answer: &str) -> Result<String, Fail> {
    let (head, body) = answer.split_once("\r\n\r\n").ok_or("head")?;
    let status = head.split_ascii_whitespace().nth(1).ok_or("status")?;
    Ok(format!(in alloc; "{status} {body}")?)
}

/// An answer of JSON; `headers` come after its length.
pub fn json(alloc: Global, status: &str, headers: &str, body: &str) -> Result<String, Fail> {
    let length = body.len();
    Ok(format!(in alloc;
        "HTTP/1.1 {status}\r\nContent-Type: application/json\r\nContent-Length: {length}\r\n{headers}\r\n{body}"
    )?)
}

fn end_text(end: Result<Outcome, RunFault>) -> &'static str {
    match end {
        Ok(Outcome::Done) => "Done",
        Ok(Outcome::NoMessage) => "Refused",
        Err(RunFault::Store(StoreFault::StoreFailed)) => "StoreFailed",
        _ => "Failed",
    }
}

/// How the command `apply` ends on a stream, and what it answers. There is room for an answer before it is asked for, so
/// that want of memory cuts none.
pub fn applied<K: Keeper>(alloc: Global, keeper: &mut K, stream: &[u8]) -> Result<String, Fail> {
    let mut reader = stream;
    let mut text = Vec::with_capacity(alloc, 4_096)?;
    let end = end_text(apply_to(alloc, keeper, &mut reader, &mut text));
    Ok(format!(in alloc; "{end} {}", str::from_utf8(&text)?)?)
}

/// By which calls the messages of a transcript are sent.
#[derive(Clone, Copy, Debug, PartialEq, Eq)]
pub enum By {
    /// The command `apply`, a connection for each.
    Apply,
    /// Serving a connection.
    Serve,
    /// The keeper's own calls.
    Calls,
}

/// The answer to one message, after how `apply` ends if it isn't done; or only that if nothing is answered.
fn ask_apply<K: Keeper>(alloc: Global, keeper: &mut K, line: &str) -> Result<String, Fail> {
    let message = message(alloc, line)?;
    let text = applied(alloc, keeper, message.as_bytes())?;
    let (end, answer) = text.split_once(' ').ok_or("end")?;
    if answer.is_empty() {
        return Ok(String::from_str(alloc, end)?);
    }
    let answer = text_of(alloc, answer)?;
    if end == "Done" {
        return Ok(answer);
    }
    Ok(format!(in alloc; "{end} {answer}")?)
}

/// The answer to one message on a connection; or why the connection ended, if none was written.
fn ask_serve<K: Keeper>(alloc: Global, keeper: &mut K, line: &str) -> Result<String, Fail> {
    let message = message(alloc, line)?;
    let mut text = Vec::new(alloc);
    let ended = serve(alloc, keeper, &mut message.as_bytes(), &mut text);
    if ended.messages == 0 {
        return Ok(format!(in alloc; "{:?}", ended.why)?);
    }
    text_of(alloc, str::from_utf8(&text)?)
}

/// What a query finds by the keeper's own call.
fn found<K: Keeper>(keeper: &mut K, query: Query) -> Result<Answer, Unserved> {
    Ok(match query {
        Query::Inventory { customer, month } => Answer::Sheet(keeper.inventory(customer, month)?),
        Query::Ticket(number) => Answer::Ticket(keeper.ticket(number)?),
        Query::Batch(day) => Answer::Batch(keeper.batch(day)?),
        Query::Value {
            denom,
            issued,
            month,
        } => Answer::Row(keeper.quote(denom, issued, month)?),
        // No message asks for them.
        Query::Bonds(_) => Answer::Fault(WireFault::NoRoute),
    })
}

/// What the keeper's own call answers.
fn called<K: Keeper>(keeper: &mut K, call: &Call) -> Result<Answer, Unserved> {
    match call {
        Call::Request(request) => {
            let reply = keeper.deliver(request)?;
            Ok(Answer::Reply(GivenReply::Reply(reply)))
        }
        Call::Query(query) => found(keeper, *query),
    }
}

/// The answer to one message, which is read, by the keeper's own call.
fn ask_calls<K: Keeper>(alloc: Global, keeper: &mut K, line: &str) -> Result<String, Fail> {
    let (method, rest) = line.split_once(' ').ok_or("method")?;
    let (path, body) = rest.split_once(' ').unwrap_or((rest, ""));
    let answer = match decode(alloc, path.as_bytes(), method.as_bytes(), body.as_bytes()) {
        Ok(call) => called(keeper, &call).unwrap_or_else(|cause| Answer::Unserved(cause)),
        Err(WireFault::NoMemory) => Answer::Unserved(Unserved::NoMemory),
        Err(fault) => Answer::Fault(fault),
    };
    let mut text = Vec::new(alloc);
    let written = write_reply(alloc, &mut text, &answer, false);
    written.ok().ok_or("NoMemory of the text")?;
    text_of(alloc, str::from_utf8(&text)?)
}

fn ask<K: Keeper>(alloc: Global, keeper: &mut K, by: By, line: &str) -> Result<String, Fail> {
    match by {
        By::Apply => ask_apply(alloc, keeper, line),
        By::Serve => ask_serve(alloc, keeper, line),
        By::Calls => ask_calls(alloc, keeper, line),
    }
}

/// The result of bytes, on a line.
fn send<K: Keeper>(alloc: Global, keeper: &mut K, line: &str) -> Result<String, Fail> {
    let bytes = bytes_of(alloc, line, "\r\n")?;
    let got = applied(alloc, keeper, &bytes)?;
    let mut text = String::new(alloc);
    for part in got.as_str().split("\r\n") {
        text.push_str(part)?;
        text.push_str("|")?;
    }
    Ok(text)
}

/// The desk and the number that `DESK/NUMBER` names, or `NUMBER` of the first desk.
fn place(text: &str) -> Result<(Desk, Number), Fail> {
    let (desk, number) = text.split_once('/').unwrap_or(("0", text));
    let desk = read_desk(desk).ok_or("desk")?;
    let number = Number::new(number.parse()?).ok_or("number")?;
    Ok((desk, number))
}

/// The result of a file.
fn enter<K: Keeper>(alloc: Global, keeper: &mut K, line: &str) -> Result<String, Fail> {
    let (named, file) = line.split_once(' ').ok_or("number")?;
    let (desk, number) = place(named)?;
    let file = bytes_of(alloc, file, "\n")?;
    let mut reader = file.as_slice();
    let reply = if file.starts_with(b"from") {
        import_rates(alloc, keeper, desk, number, &mut reader)
    } else {
        import_inventory(alloc, keeper, desk, number, &mut reader)
    };
    match reply {
        Ok(reply) => Ok(reply_text(alloc, &reply)?),
        Err(fault) => Ok(fault.to_string(alloc)?),
    }
}

/// The result of an export.
fn leave<K: Keeper>(alloc: Global, keeper: &mut K, line: &str) -> Result<String, Fail> {
    let (customer, room) = line.split_once(' ').ok_or("room")?;
    let mut writer = Narrow::new(alloc, room.parse()?);
    let rows = export_inventory(alloc, keeper, customer.parse()?, &mut writer);
    Ok(format!(in alloc; "{rows:?} {}", str::from_utf8(&writer.text)?)?)
}

/// The result of a message whose answer is cut.
fn lose<K: Keeper>(alloc: Global, keeper: &mut K, line: &str) -> Result<String, Fail> {
    let (room, line) = line.split_once(' ').ok_or("room")?;
    let message = message(alloc, line)?;
    let mut writer = Narrow::new(alloc, room.parse()?);
    let ended = serve(alloc, keeper, &mut message.as_bytes(), &mut writer);
    let front = text_of(alloc, str::from_utf8(&writer.text)?)?;
    Ok(format!(in alloc; "{} {:?} {front}", ended.messages, ended.why)?)
}

/// The result of a line, with its message sent by these calls; `None` for a line that is a result.
pub fn line_text<K: Keeper>(
    alloc: Global,
    keeper: &mut K,
    by: By,
    line: &str,
) -> Result<Option<String>, Fail> {
    let (sign, rest) = line.split_once(' ').unwrap_or(("", line));
    match sign {
        ">" => ask(alloc, keeper, by, rest).map(Some),
        "~" => send(alloc, keeper, rest).map(Some),
        "+" => enter(alloc, keeper, rest).map(Some),
        "-" => leave(alloc, keeper, rest).map(Some),
        "%" => lose(alloc, keeper, rest).map(Some),
        _ => Ok(None),
    }
}

/// What `apply` does on each message of a transcript, in all bytes.
pub fn answers<K: Keeper>(alloc: Global, keeper: &mut K, transcript: &str) -> Result<String, Fail> {
    let transcript = whole(alloc, transcript)?;
    let mut text = String::new(alloc);
    for line in transcript.lines() {
        if let Some(line) = line.strip_prefix("> ") {
            let message = message(alloc, line)?;
            text.push_str(applied(alloc, keeper, message.as_bytes())?.as_str())?;
        }
    }
    Ok(text)
}

/// The requests and imports of a transcript, each with its result.
pub fn requests_of(alloc: Global, transcript: &str) -> Result<String, Fail> {
    let mut text = String::new(alloc);
    let mut lines = transcript.lines();
    while let Some(line) = lines.next() {
        if line.starts_with("> POST ") || line.starts_with("+ ") {
            let got = lines.next().ok_or("what is got")?;
            write!(text, "{line}\n{got}\n")?;
        }
    }
    Ok(text)
}

/// The transcript of doing the same again, with its messages sent by these calls.
pub fn replay_by<K: Keeper>(
    alloc: Global,
    keeper: &mut K,
    by: By,
    transcript: &str,
) -> Result<String, Fail> {
    let mut text = String::new(alloc);
    for line in transcript.lines() {
        if let Some(got) = line_text(alloc, keeper, by, line)? {
            write!(text, "{line}\n{got}\n")?;
        }
    }
    Ok(text)
}

/// The transcript that comes of doing the same again.
pub fn replay<K: Keeper>(alloc: Global, keeper: &mut K, transcript: &str) -> Result<String, Fail> {
    replay_by(alloc, keeper, By::Apply, transcript)
}
