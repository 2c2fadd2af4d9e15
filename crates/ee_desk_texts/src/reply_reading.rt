//! Reading replies from their texts.

ghost use Rattle.std.specs.Prelude.{◌≡◌, ◌≢◌, IfOk, IfSome, MatchOption, Some, option_map};
ghost use Rattle.json.specs.Value.{value_view, items_view};
ghost use Rattle.ee_desk_model.specs.declared.replies.Reply.{Reply};
ghost use Rattle.ee_desk_texts.specs.Ranges.{ReplyFits};
ghost use Rattle.ee_desk_texts.specs.Reading.{ReadsReply};
ghost use Rattle.ee_desk_texts.specs.Inner.Reading.{each, added_of, opened_of, batch_of, line_of, ticket_of, short_reply_of, reply_of};
ghost use Rattle.ee_desk_texts.specs.Texts.{reply_text};

use crate::fields::{cents_at, count_at, customer_at, day_at, items_at, serial_at};
use crate::quick::quick_reply;
use crate::refusal_reading::refused_in;
use crate::replies::reply_text;
use ee_desk_model::{Batch, Line, Reply, Rows, Ticket};
use json::{Error, Scratch, Value};
use std::alloc::{AllocError, Global};

#[tactic(auto, unfolding(crate::specs::Inner::Reading::added_of))]
fn added_in(value: &Value<'_>) -> Option<Reply>
    ensures { result ≡ added_of (value_view value.now) }
{
    let new = count_at(value, "new")?;
    let same = count_at(value, "same")?;
    Some(Reply::Added { new, same })
}

fn opened_in(value: &Value<'_>) -> Option<Reply>
    ensures { result ≡ opened_of (value_view value.now) }
{
    Some(Reply::Opened(day_at(value, "opened")?))
}

#[tactic(auto, unfolding(crate::specs::Inner::Reading::batch_of))]
fn batch_in(value: &Value<'_>) -> Option<Reply>
    ensures { result ≡ batch_of (value_view value.now) }
{
    let bonds = count_at(value, "bonds")?;
    let day = day_at(value, "day")?;
    let tickets = count_at(value, "tickets")?;
    let total = cents_at(value, "total")?;
    Some(Reply::Batch(Batch {
        day,
        tickets,
        bonds,
        total,
    }))
}

#[tactic(auto, unfolding(crate::specs::Inner::Reading::line_of))]
fn line_in(value: &Value<'_>) -> Option<Line>
    ensures { result ≡ line_of (value_view value.now) }
{
    let cents = cents_at(value, "paid")?;
    let serial = serial_at(value, "serial")?;
    Some(Line { serial, cents })
}

fn lines_in(alloc: Global, values: &[Value<'_>]) -> Result<Option<Vec<Line>>, AllocError>
    ensures { IfOk result (λ o. option_map (λ v. v.items) o ≡ each line_of (items_view values.now)) }
{
    let mut lines = Vec::new(alloc);
    for value in values {
        let Some(line) = line_in(value) else {
            return Ok(None);
        };
        lines.push(line)?;
    }
    Ok(Some(lines))
}

#[tactic(auto, unfolding(crate::specs::Inner::Reading::ticket_of))]
fn ticket_in(alloc: Global, value: &Value<'_>) -> Result<Option<Reply>, AllocError>
    ensures { IfOk result (λ o. o ≡ ticket_of (value_view value.now)) }
{
    let Some(day) = day_at(value, "day") else {
        return Ok(None);
    };
    let Some(payee) = customer_at(value, "payee") else {
        return Ok(None);
    };
    let Some(ticket) = count_at(value, "ticket") else {
        return Ok(None);
    };
    let Some(total) = cents_at(value, "total") else {
        return Ok(None);
    };
    let Some(list) = items_at(value, "lines") else {
        return Ok(None);
    };
    let Some(lines) = lines_in(alloc, list)? else {
        return Ok(None);
    };
    Ok(Some(Reply::Ticket(Ticket {
        ticket,
        day,
        payee,
        lines: Rows::new(lines),
        total,
    })))
}

fn short_reply_in(value: &Value<'_>) -> Option<Reply>
    ensures { result ≡ short_reply_of (value_view value.now) }
{
    added_in(value).or(opened_in(value).or(batch_in(value).or(refused_in(value))))
}

fn reply_in(alloc: Global, value: &Value<'_>) -> Result<Option<Reply>, AllocError>
    ensures { IfOk result (λ o. o ≡ reply_of (value_view value.now)) }
{
    match short_reply_in(value) {
        Some(reply) => Ok(Some(reply)),
        None => ticket_in(alloc, value),
    }
}

/// Reads the text of a reply without a test that it is one: a caller that doesn't know it to be the text of a
/// reply calls `read_reply`. `None` if the text has no reply's shape.
pub(crate) fn read_known_reply(alloc: Global, text: &str) -> Result<Option<Reply>, AllocError>
    ensures { IfOk result (λ o. (p : Reply) → ReplyFits p → text.now ≡ reply_text p → o ≡ Some p) }
{
    match quick_reply_of(alloc, text)? {
        Some(reply) => Ok(Some(reply)),
        None => parse_reply(alloc, text),
    }
}

// Parses the text of a reply by its JSON.
fn parse_reply(alloc: Global, text: &str) -> Result<Option<Reply>, AllocError>
    ensures { IfOk result (λ o. (p : Reply) → ReplyFits p → text.now ≡ reply_text p → o ≡ Some p) }
{
    let mut scratch = Scratch::new(alloc);
    let value = match Value::parse(alloc, text, &mut scratch) {
        Ok(value) => value,
        Err(Error::Invalid) => return Ok(None),
        Err(_) => return Err(AllocError),
    };
    reply_in(alloc, &value)
}

/// Parses the text of a reply. `None` if the text isn't exactly the text of a reply.
pub fn read_reply(alloc: Global, text: &str) -> Result<Option<Reply>, AllocError>
    ensures { IfOk result (λ o. ReadsReply text.now o) }
{
    match quick_reply_of(alloc, text)? {
        Some(reply) => Ok(Some(reply)),
        None => read_any_reply(alloc, text),
    }
}

// The reply, if this is its text.
fn if_reply(alloc: Global, reply: Reply, text: &str) -> Result<Option<Reply>, AllocError>
    ensures { IfOk result (λ o. MatchOption o (text.now ≢ reply_text reply) (λ p. (p ≡ reply) × ReplyFits p × (text.now ≡ reply_text p))) }
{
    if reply_text(alloc, &reply)?.as_str() == text {
        Ok(Some(reply))
    } else {
        Ok(None)
    }
}

// The reply that was read quickly, if this is its text.
fn quick_reply_of(alloc: Global, text: &str) -> Result<Option<Reply>, AllocError>
    ensures { IfOk result (λ o. IfSome o (λ p. ReplyFits p × (text.now ≡ reply_text p))) }
{
    match quick_reply(alloc, text)? {
        Some(quick) => if_reply(alloc, quick, text),
        None => Ok(None),
    }
}

// Parses the text of a reply by its JSON, and tests that it is its text.
fn read_any_reply(alloc: Global, text: &str) -> Result<Option<Reply>, AllocError>
    ensures { IfOk result (λ o. ReadsReply text.now o) }
{
    match parse_reply(alloc, text)? {
        Some(reply) => if_reply(alloc, reply, text),
        None => Ok(None),
    }
}
