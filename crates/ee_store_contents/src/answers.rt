//! Kept replies.

ghost use Rattle.std.specs.Prelude.{◌≡◌, ◌↔◌, true, IfOk};
ghost use Rattle.ee_desk_model.specs.declared.replies.Reply.TheVariants.{Refused};
ghost use Rattle.ee_desk_model.specs.declared.refusals.Refusal.TheVariants.{NumberReused};
ghost use Rattle.ee_store_contents.specs.Contents.{KeepsAnswer};

use ee_desk_model::{Refusal, Reply};
use ee_desk_texts::{read_act, read_reply};
use ee_store_load::RowTest;
use ee_store_schema::StoredAnswer;
use std::alloc::{AllocError, Global};

/// Whether a reply says that the number was used for another act.
fn is_reuse(reply: &Reply) -> bool
    ensures { (result ≡ true) ↔ (reply.now ≡ Refused NumberReused) }
{
    match reply {
        Reply::Refused(refusal) => *refusal == Refusal::NumberReused,
        _ => false,
    }
}

/// Whether a row has a valid desk and number, the canonical text of an act, and the text of a reply that
/// may be kept.
fn keeps_answer(alloc: Global, row: &StoredAnswer) -> Result<bool, AllocError>
    ensures { IfOk result (λ right. (right ≡ true) ↔ KeepsAnswer row.now) }
{
    if row.desk > 999 || row.number < 1 || row.number > 9_223_372_036_854_775_807 {
        return Ok(false);
    }
    let Some(_act) = read_act(alloc, row.act.as_str())? else {
        return Ok(false);
    };
    let Some(reply) = read_reply(alloc, row.reply.as_str())? else {
        return Ok(false);
    };
    Ok(!is_reuse(&reply))
}

/// Tests that a row has an act and a reply that may be kept.
pub struct KeptReply;

impl RowTest<StoredAnswer> for KeptReply {
    ghost passes = { KeepsAnswer };

    fn test(alloc: Global, row: &StoredAnswer) -> Result<bool, AllocError> {
        keeps_answer(alloc, row)
    }
}
