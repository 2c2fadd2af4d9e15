//! A keeper over the tables.

ghost use Rattle.std.specs.Prelude.{◌≡◌, false, IfOk};
ghost use Rattle.std.specs.Result.{result_err};
ghost use Rattle.sqlite.specs.Held.{state};
ghost use Rattle.sqlite.specs.State.{HasCleanDisk};
ghost use Rattle.ee_desk_model.specs.Repeats.{Content};
ghost use Rattle.ee_desk_texts.specs.Given.{IsWhole};
ghost use Rattle.ee_keeper.specs.Keeping.{Delivers, Responds};
ghost use Rattle.ee_store_books.specs.Seen.{HasContent};
ghost use Rattle.ee_store_delivery.specs.Known.{IsInformed};
ghost use Rattle.ee_store.specs.Acting.{ActsOnce};

use crate::failures::unserved;
use ee_desk_laws::{StoreOfContents, ties_to_stores_law};
use ee_desk_model::{Reply, Request, UnitTables, Unserved};
use ee_desk_texts::GivenReply;
use ee_store_delivery::{Known, deliver_on};
use sqlite::{Alter, Connection};
use std::alloc::Global;

/// Keeps books and replies in the tables of a store. It also caches the open day, the last closed day, the
/// number of tickets, and the terms of periods, as its redemptions found and left them, so that the next one
/// doesn't read them again.
#[derive(Drop)]
pub struct SqlKeeper<S: Alter> {
    pub(crate) alloc: Global,
    pub(crate) tables: UnitTables,
    pub(crate) known: Known,
    pub(crate) conn: Connection<S>,
}

impl<S: Alter> SqlKeeper<S> {
    /// Answers a request, which acts once: all its effects and its reply are committed together. A number with a
    /// kept reply gets that reply if the act is the same, and `NumberReused` otherwise. If the answer is
    /// `Unserved`, nothing has changed.
    ///
    /// - `acts`: what the request does to the store and to what a crash leaves of it, to the room for rows, to the
    ///   cache, and to the events of the law of stops and retries; and why it fails (`ActsOnce`).
    ///
    /// The cache is correct (`IsInformed`) in a new keeper (`SqlKeeper::adopt`), and stays so. If a request isn't
    /// served, the cache is emptied. The clauses about the effects of a request assume a correct cache.
    pub fn deliver(&mut self, request: &Request) -> Result<Reply, Unserved>
        ensures delivers { HasCleanDisk (state S.Store self.new.conn) → IsInformed (state S.Store self.old.conn) self.old.known
            → (content : Content) → HasContent (state S.Store self.old.conn) content
            → Delivers content request.now result (HasContent (state S.Store self.new.conn)) }
        ensures acts { ActsOnce (state S.Store self.old.conn) (state S.Store self.new.conn) self.old.known self.new.known request.now (result_err result) }
    {
        match self.respond(request, false) {
            Ok(GivenReply::Reply(reply)) => Ok(reply),
            Ok(GivenReply::Text(_)) => unreachable!(),
            Err(cause) => Err(cause),
        }
    }

    /// Answers a request, as `deliver` does and with the same clauses. If `as_text`, the reply to a kept number is given
    /// by its text, which isn't read, unless it is a refusal.
    ///
    /// - `responds`: what is given is the reply, or its text.
    /// - `whole`: it is the reply itself, unless a text is asked for.
    pub fn respond(&mut self, request: &Request, as_text: bool) -> Result<GivenReply, Unserved>
        ensures responds { HasCleanDisk (state S.Store self.new.conn) → IsInformed (state S.Store self.old.conn) self.old.known
            → (content : Content) → HasContent (state S.Store self.old.conn) content
            → Responds content request.now result (HasContent (state S.Store self.new.conn)) }
        ensures acts { ActsOnce (state S.Store self.old.conn) (state S.Store self.new.conn) self.old.known self.new.known request.now (result_err result) }
        ensures whole { as_text ≡ false → IfOk result IsWhole }
    {
        ties_to_stores_law::<SqlKeeper<S>>();
        match deliver_on(
            &mut self.conn,
            self.alloc,
            &mut self.tables,
            &mut self.known,
            request,
            as_text,
        ) {
            Ok(reply) => {
                // For the proof alone: a connection that has a schema sees a database, which `goes` needs.
                let _schema = self.conn.schema();
                Ok(reply)
            }
            Err(failure) => Err(unserved(failure)),
        }
    }
}

impl<S: Alter> StoreOfContents for SqlKeeper<S> {
    ghost use Rattle.sqlite.specs.Held.{state};
    ghost use Rattle.sqlite.specs.Tree.{Trees};
    ghost use Rattle.ee_store_books.specs.Seen.{StandsFor};

    ghost Disk = { Trees };

    ghost stands = { StandsFor };

    ghost may_leave = { λ keeper. (state S.Store keeper.conn).may_leave };
}
