//! Queries of a keeper over the tables.

ghost use Rattle.std.specs.Prelude.{IfOk};
ghost use Rattle.sqlite.specs.Held.{state};
ghost use Rattle.sqlite.specs.State.{HasCleanDisk, Survives};
ghost use Rattle.ee_desk_model.specs.Repeats.{Content};
ghost use Rattle.ee_desk_model.specs.Queries.{ShowsQuery, IsKind};
ghost use Rattle.ee_desk_laws.specs.Events.{World};
ghost use Rattle.ee_keeper.specs.Keeping.{Shows};
ghost use Rattle.ee_store_books.specs.Causes.{IsReady};
ghost use Rattle.ee_store_delivery.specs.Known.{IsInformed};
ghost use Rattle.ee_store_queries.specs.Asking.{KeepsRoom};
ghost use Rattle.ee_store.specs.Served.{ServesOrFails};
ghost use Rattle.ee_store_books.specs.Seen.{HasContent};
ghost use Rattle.ee_store.specs.Served.{FollowsWorld};

use crate::failures::unserved;
use crate::keeper::SqlKeeper;
use ee_desk_model::{Query, Reply, Request, Shown, Unserved};
use ee_desk_texts::GivenReply;
use ee_keeper::Keeper;
use ee_store_queries::ask;
use sqlite::Alter;

impl<S: Alter> SqlKeeper<S> {
    /// Shows what the books have, in one transaction that is read and rolled back.
    ///
    /// - `clean`, `shows`: what is shown is correct, and the content doesn't change, also if the answer is
    ///   `Unserved`.
    /// - `kind`: what is shown is what the query asks for.
    /// - `informed`: the cache stays correct.
    /// - `crash`: whenever the keeper stops, a crash leaves what it could leave before.
    /// - `ready`, `room`, `cause`: the keeper takes requests as before, with room for as many rows. If its store was
    ///   ready, it answers `StoreFailed` only if the device failed once more, or the store was shut before.
    /// - `follows`: so a query is no event of the law of stops and retries.
    ///
    /// It answers `NoMemory` if memory was refused, and `StoreFailed` if the store failed, has a row that no counter
    /// has, or was left within a transaction.
    pub fn ask(&mut self, query: &Query) -> Result<Shown, Unserved>
        ensures clean { HasCleanDisk (state S.Store self.new.conn) → HasCleanDisk (state S.Store self.old.conn) }
        ensures informed { IsInformed (state S.Store self.old.conn) self.old.known → IsInformed (state S.Store self.new.conn) self.new.known }
        ensures shows { HasCleanDisk (state S.Store self.new.conn) → (content : Content) → HasContent (state S.Store self.old.conn) content
            → Shows (ShowsQuery content.books query.now) result (HasContent (state S.Store self.new.conn) content) }
        ensures kind { IfOk result (IsKind query.now) }
        ensures crash { Survives (state S.Store self.old.conn) (state S.Store self.new.conn) (λ _. ⊥) }
        ensures ready { IsReady (state S.Store self.old.conn) → IsReady (state S.Store self.new.conn) }
        ensures room { KeepsRoom (state S.Store self.old.conn) (state S.Store self.new.conn) }
        ensures cause { ServesOrFails (state S.Store self.old.conn) (state S.Store self.new.conn) result }
        ensures follows { HasCleanDisk (state S.Store self.new.conn) → (w : World) → FollowsWorld (state S.Store self.old.conn) w
            → FollowsWorld (state S.Store self.new.conn) w }
    {
        match ask(&mut self.conn, self.alloc, &mut self.tables, query) {
            Ok(shown) => Ok(shown),
            Err(failure) => Err(unserved(failure)),
        }
    }
}

impl<S: Alter> Keeper for SqlKeeper<S> {
    ghost use Rattle.sqlite.specs.Held.{state};
    ghost use Rattle.sqlite.specs.State.{HasCleanDisk};
    ghost use Rattle.ee_store_books.specs.Seen.{HasContent};
    ghost use Rattle.ee_store_delivery.specs.Known.{IsInformed};
    ghost use Rattle.std.specs.Prelude.{◌*◌, ◌≤◌, ℕ};
    ghost use Rattle.std.proofs.Math.Logic.{∥∥₁_map};
    ghost use Rattle.ee_store.specs.History.{HasCome};
    ghost use Rattle.std.proofs.Common.{inl, le-add_right, le_trans};
    ghost use Rattle.ee_desk_laws.specs.Events.{one, unserved};
    ghost use Rattle.ee_desk_laws.proofs.Lemmas.{happens_missed, in_tail, leaves_unserved};
    ghost use Rattle.ee_store_books.specs.Seen.{StandsFor};
    ghost use Rattle.ee_store_books.specs.Causes.{IsReady};
    ghost use Rattle.ee_store_books.proofs.Lemmas.Lookups.{one_content};
    ghost use Rattle.ee_store_tables.specs.Rows.{HasRoom};
    ghost use Rattle.ee_store_delivery.specs.Causes.{TextsFit};

    // The last commit left the content, and the cache is correct for its books.
    ghost has = { λ k content. HasContent (state S.Store k.conn) content × IsInformed (state S.Store k.conn) k.known };

    ghost is_clean = { λ k. HasCleanDisk (state S.Store k.conn) };

    ghost is_guarded = { λ k. (state S.Store k.conn).IsShielded };

    ghost may_fail = { Unit {0} };

    ghost is_open = { λ k. (state S.Store k.conn).is_open };

    ghost faults = { λ k. (state S.Store k.conn).faults };

    // It is in no transaction, without a limit on steps, and has room for the rows of up to this many requests.
    ghost takes = { λ n k. IsReady (state S.Store k.conn) × ((m : ℕ) → m ≤ n → HasRoom (501 * m) (state S.Store k.conn)) };

    ghost fits = { TextsFit };

    ghost sound = { λ _ _ has. has.0.right.sound };

    ghost went = { λ k start events. HasCome start events (state S.Store k.conn) × IsInformed (state S.Store k.conn) k.known };

    ghost one = { λ k c d is_open has other. one_content _ c d is_open has.0 other.0 };

    ghost fewer = { λ _ n takes. (takes.0, λ m few. takes.1 m (le_trans few (le-add_right n 1))) };

    ghost missed = { λ _ start events request went. (
      ∥∥₁_map went.0 (λ (w, happened, up, follows). (
        unserved w request,
        happens_missed start events w request happened up.up,
        record { up = up.up; among = in_tail (one w.now request) w.may w.now up.among },
        (follows.0, leaves_unserved StandsFor _ _ w request (λ _ may. inl may) follows.1),
      )),
      went.1,
    ) };

    ghost gone = { λ _ _ _ went. ∥∥₁_map went.0 (λ (w, happened, up, follows). (w, happened, (follows.0, went.1))) };

    fn deliver(&mut self, request: &Request) -> Result<Reply, Unserved> {
        SqlKeeper::deliver(self, request)
    }

    fn respond(&mut self, request: &Request) -> Result<GivenReply, Unserved> {
        SqlKeeper::respond(self, request, true)
    }

    fn ask(&mut self, query: &Query) -> Result<Shown, Unserved> {
        SqlKeeper::ask(self, query)
    }
}
