//! A request in a transaction, and its delivery: all its effects and its reply are committed together.

ghost use Rattle.std.specs.Prelude.{◌≡◌, IfOk, IfErr, None, IsTrue, string_bytes, true, false, [], ◌∷◌, OnOk, OnErr};
ghost use Rattle.ee_desk_model.specs.declared.acts.Act.{Act};
ghost use Rattle.ee_desk_model.specs.declared.changes.Kept.{Kept};
ghost use Rattle.ee_desk_model.specs.Numbers.{RequestKey, number_of};
ghost use Rattle.ee_desk_model.specs.Answers.{reply_again, answer};
ghost use Rattle.ee_desk_texts.specs.Given.{IsGiven, IsWhole};
ghost use Rattle.ee_desk_texts.specs.Ranges.{ActFits};
ghost use Rattle.ee_desk_texts.specs.Texts.{act_text, reply_text};
ghost use Rattle.ee_store_books.specs.Standing.{IsKept};
ghost use Rattle.std.specs.FinMap as finite;
ghost use Rattle.sqlite.specs.Effect.{IsDatabase};
ghost use Rattle.sqlite.specs.State.{HasCleanDisk, Survives};
ghost use Rattle.ee_store_tables.specs.Rows.{IsInside, HasRoom};
ghost use Rattle.sqlite.specs.Held.{state};
ghost use Rattle.ee_store_tables.specs.Statements.{WritesInside, WritesIfAny, LeavesSound, LeavesOthers};
ghost use Rattle.ee_store_books.specs.Causes.{FailsByCause, IsReady};
ghost use Rattle.ee_store_delivery.specs.Causes.{TextsFit, TakesRequestRoom, DeliversOrFails};
ghost use Rattle.ee_store_delivery.specs.Inner.Causes.{LeavesRoomAfter};
ghost use Rattle.ee_store_delivery.specs.Inner.Delivered.{Decides, Serves, Follows};
ghost use Rattle.ee_store_delivery.specs.Known.{AreKnown, IsInformed};
ghost use Rattle.ee_store_delivery.specs.Inner.Known.{LearnsIn};
ghost use Rattle.ee_desk_model.specs.Acts.{books_after};
ghost use Rattle.sqlite.specs.Tree.{Trees};
ghost use Rattle.ee_desk_model.specs.Repeats.{Content};
ghost use Rattle.ee_desk_model.specs.Contents.{content_after};
ghost use Rattle.ee_store_books.specs.Seen.{StandsFor, HasContent};

use crate::known::Known;
use crate::view::effects_in;
use crate::writing::write_changes;
use ee_desk_model::{Effects, Refusal, Reply, Request, UnitTables};
use ee_desk_texts::{GivenReply, canonical, give_again, reply_text};
use ee_store_tables::{Failure, ReplyRow, add_answer, find_answer};
use sqlite::{Alter, Connection, Transaction};
use std::alloc::Global;
use std::mem;

/// The reply to a repeated number, from the kept texts of its act and reply, and the text of the act that is
/// asked for now: the kept reply if the acts are the same, and `NumberReused` otherwise. If `as_text`, a kept reply
/// that is no refusal is given by its text.
pub fn reply_again(
    alloc: Global,
    act: &str,
    reply: String,
    asked: &str,
    as_text: bool,
) -> Result<GivenReply, Failure>
    ensures read { (number : RequestKey) (kept : Kept) → IsKept number kept → string_bytes reply ≡ reply_text kept.reply → IfErr result (λ e. e ≡ Failure.NoMemory) }
    ensures told { IfOk result (λ told. (number : RequestKey) (kept : Kept) (again : Act) → IsKept number kept → ActFits again
        → act.now ≡ act_text kept.act → string_bytes reply ≡ reply_text kept.reply → asked.now ≡ act_text again
        → IsGiven told (reply_again kept.act kept.reply again)) }
    ensures whole { as_text ≡ false → IfOk result IsWhole }
{
    if act != asked {
        return Ok(GivenReply::Reply(Reply::Refused(Refusal::NumberReused)));
    }
    match give_again(alloc, reply, as_text)? {
        Some(given) => Ok(given),
        None => Err(Failure::StoreFailed),
    }
}

/// Decides a request whose number isn't kept, and writes its changes and its reply.
fn decide_in<S: Alter>(
    tx: &mut Transaction<'_, S>,
    alloc: Global,
    tables: &mut UnitTables,
    known: &mut Known,
    request: &Request,
    act: String,
) -> Result<Reply, Failure>
    requires fits { ActFits request.now.act }
    requires text { string_bytes act ≡ act_text request.now.act }
    ensures same_reference { tx.new.conn.ghost_name ≡ tx.old.conn.ghost_name }
    ensures writes_if_any { WritesIfAny (state S.Store tx.old.conn.now) (state S.Store tx.new.conn.now) result }
    ensures decides { Decides (state S.Store tx.old.conn.now) (state S.Store tx.new.conn.now) known.old request.now result }
    ensures learns { LearnsIn (state S.Store tx.old.conn.now) (state S.Store tx.new.conn.now) result
        (AreKnown known.old) (λ books. AreKnown known.new (books_after books request.now.act)) }
    ensures sound { LeavesSound (state S.Store tx.old.conn.now) (state S.Store tx.new.conn.now) result }
    ensures room { LeavesRoomAfter (state S.Store tx.old.conn.now) (state S.Store tx.new.conn.now) result }
    ensures cause { FailsByCause (state S.Store tx.old.conn.now) (state S.Store tx.new.conn.now) result
        (λ content. AreKnown known.old content.books × (finite.get content.kept (number_of request.now) ≡ None) × TextsFit content request.now
        × HasRoom 501 (state S.Store tx.old.conn.now)) }
{
    let (effects, last_day) = effects_in(tx, alloc, tables, known, &request.act)?;
    let Effects { changes, reply } = effects;
    let words = reply_text(alloc, &reply)?;
    write_changes(tx, alloc, last_day, changes.as_slice())?;
    let entry = ReplyRow { act, reply: words };
    let desk = request.desk.number() as u64;
    add_answer(tx, desk, request.number.value(), &entry)?;
    known.follow(alloc, &request.act, &reply);
    Ok(reply)
}

/// The reply to a request, and whether its number is new. Writes the effects of a new number. A kept reply may be
/// given by its text, if `as_text`.
pub fn serve_in<S: Alter>(
    tx: &mut Transaction<'_, S>,
    alloc: Global,
    tables: &mut UnitTables,
    known: &mut Known,
    request: &Request,
    as_text: bool,
) -> Result<(bool, GivenReply), Failure>
    ensures same_reference { tx.new.conn.ghost_name ≡ tx.old.conn.ghost_name }
    ensures writes_inside { WritesInside (state S.Store tx.old.conn.now) (state S.Store tx.new.conn.now) result }
    ensures serves { Serves (state S.Store tx.old.conn.now) (state S.Store tx.new.conn.now) known.old request.now result }
    ensures whole { as_text ≡ false → IfOk result (λ r. IsWhole r.1) }
    ensures learns { Follows (state S.Store tx.old.conn.now) (state S.Store tx.new.conn.now) known.old known.new request.now result }
    ensures sound { HasCleanDisk (state S.Store tx.new.conn.now) → IsInside (state S.Store tx.old.conn.now)
        → IfOk result (λ r. IsTrue r.0 → IsTrue (state S.Store tx.new.conn.now).is_open → IsDatabase (state S.Store tx.new.conn.now).now) }
    ensures room { LeavesRoomAfter (state S.Store tx.old.conn.now) (state S.Store tx.new.conn.now) result }
    ensures cause { FailsByCause (state S.Store tx.old.conn.now) (state S.Store tx.new.conn.now) result
        (λ content. AreKnown known.old content.books × TextsFit content request.now × HasRoom 501 (state S.Store tx.old.conn.now)) }
{
    let act = canonical(alloc, &request.act)?;
    let desk = request.desk.number() as u64;
    if let Some(entry) = find_answer(tx, desk, request.number.value())? {
        let ReplyRow {
            act: kept_act,
            reply: kept_reply,
        } = entry;
        let kept = kept_act.as_str();
        let asked = act.as_str();
        let reply = reply_again(alloc, kept, kept_reply, asked, as_text)?;
        return Ok((false, reply));
    }
    let reply = decide_in(tx, alloc, tables, known, request, act)?;
    Ok((true, GivenReply::Reply(reply)))
}

/// Answers a request, which acts once: all its effects and its reply are committed together. A kept reply may be
/// given by its text, if `as_text`.
///
/// Each clause about the effects of a request assumes that what is known of the store is correct
/// (`IsInformed`). The call keeps it correct (`informed`); if the call fails, nothing stays known.
pub fn deliver_on<S: Alter>(
    conn: &mut Connection<S>,
    alloc: Global,
    tables: &mut UnitTables,
    known: &mut Known,
    request: &Request,
    as_text: bool,
) -> Result<GivenReply, Failure>
    ensures told { HasCleanDisk (state S.Store conn.new) → IsInformed (state S.Store conn.old) known.old
        → IfOk result (λ reply. (content : Content) → HasContent (state S.Store conn.old) content → IsGiven reply (answer content [] request.now)) }
    ensures whole { as_text ≡ false → IfOk result IsWhole }
    ensures kept { HasCleanDisk (state S.Store conn.new) → IsInformed (state S.Store conn.old) known.old → OnOk result
        ((content : Content) → HasContent (state S.Store conn.old) content → HasContent (state S.Store conn.new) (content_after content (request.now ∷ []))) }
    ensures failed { HasCleanDisk (state S.Store conn.new)
        → OnErr result ((content : Content) → HasContent (state S.Store conn.old) content → HasContent (state S.Store conn.new) content) }
    ensures others { HasCleanDisk (state S.Store conn.new) → (content : Content) → HasContent (state S.Store conn.old) content
        → LeavesOthers (state S.Store conn.old) (state S.Store conn.new) }
    ensures informed { IsInformed (state S.Store conn.old) known.old → IsInformed (state S.Store conn.new) known.new }
    ensures crash { Survives (state S.Store conn.old) (state S.Store conn.new) (λ db. IsInformed (state S.Store conn.old) known.old
        → (content : Content) → HasContent (state S.Store conn.old) content → StandsFor db (content_after content (request.now ∷ []))) }
    ensures opened { HasCleanDisk (state S.Store conn.new)
        → OnOk result ((content : Content) → HasContent (state S.Store conn.old) content → finite.contains_key content.kept (number_of request.now) ≡ false
        → IsTrue (state S.Store conn.new).is_open) }
    ensures durable { HasCleanDisk (state S.Store conn.new)
        → OnOk result ((content : Content) → HasContent (state S.Store conn.old) content → finite.contains_key content.kept (number_of request.now) ≡ false
        → (db : Trees) → (state S.Store conn.new).may_leave db → db ≡ (state S.Store conn.new).committed.trees) }
    ensures again { HasCleanDisk (state S.Store conn.new)
        → OnOk result ((content : Content) → HasContent (state S.Store conn.old) content → finite.contains_key content.kept (number_of request.now) ≡ true
        → (db : Trees) → (state S.Store conn.new).may_leave db → (state S.Store conn.old).may_leave db) }
    ensures ready { IsReady (state S.Store conn.old) → IsReady (state S.Store conn.new) }
    ensures room { TakesRequestRoom (state S.Store conn.old) (state S.Store conn.new) }
    ensures cause { DeliversOrFails (state S.Store conn.old) (state S.Store conn.new) known.old request.now result }
{
    if !conn.is_autocommit() {
        return Err(Failure::StoreFailed);
    }
    let mut own = mem::replace(known, Known::nothing(alloc));
    let mut tx = conn.transaction();
    let (is_new, reply) = serve_in(&mut tx, alloc, tables, &mut own, request, as_text)?;
    if !is_new {
        *known = own;
        return Ok(reply);
    }
    tx.commit()?;
    *known = own;
    Ok(reply)
}
