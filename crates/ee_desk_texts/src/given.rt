//! Replies that are given again, by themselves or by their texts.

ghost use Rattle.std.specs.Prelude.{◌≡◌, false, IfOk, IfSome, MatchOption, string_bytes};
ghost use Rattle.ee_desk_model.specs.declared.replies.Reply.{Reply};
ghost use Rattle.ee_desk_texts.specs.Given.{is_refusal, IsGiven, IsWhole};
ghost use Rattle.ee_desk_texts.specs.Ranges.{ReplyFits};
ghost use Rattle.ee_desk_texts.specs.Texts.{reply_text};

use crate::reply_reading::read_known_reply;
use ee_desk_model::Reply;
use std::alloc::{AllocError, Global};

/// A reply as it is given: by itself, or by its text, which need not be read to be sent.
#[derive(Drop)]
pub enum GivenReply {
    /// The reply.
    Reply(Reply),
    /// The text of a reply that is no refusal.
    Text(String),
}

/// Whether the reply with this text is a refusal: its first key is its code, and no other reply's first key begins
/// with a `c`.
fn is_refusal(text: &str) -> bool
    ensures { (p : Reply) → text.now ≡ reply_text p → result ≡ is_refusal p }
{
    match text.as_bytes().get(2) {
        Some(first) => *first == b'c',
        None => false,
    }
}

/// Gives the reply with this text again. If `as_text`, a reply that is no refusal is given by its text, which isn't
/// read; any other is read, without a test that this is its text. `None` if a text that is read has no reply's shape.
pub fn give_again(
    alloc: Global,
    text: String,
    as_text: bool,
) -> Result<Option<GivenReply>, AllocError>
    ensures given { IfOk result (λ o. (p : Reply) → ReplyFits p → string_bytes text ≡ reply_text p → MatchOption o ⊥ (λ given. IsGiven given p)) }
    ensures whole { as_text ≡ false → IfOk result (λ o. IfSome o IsWhole) }
{
    if as_text && !is_refusal(&text) {
        return Ok(Some(GivenReply::Text(text)));
    }
    match read_known_reply(alloc, text.as_str())? {
        Some(reply) => Ok(Some(GivenReply::Reply(reply))),
        None => Ok(None),
    }
}
