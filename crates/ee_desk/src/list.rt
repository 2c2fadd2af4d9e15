//! A keeper in memory.

ghost use Rattle.std.specs.Prelude.{◌≡◌, [], ◌∷◌, None, IfOk, IfErr, OnOk, OnErr};
ghost use Rattle.std.specs.FinMap as finite;
ghost use Rattle.ee_desk_model.specs.Numbers.{number_of};
ghost use Rattle.ee_desk_model.specs.Outcomes.{act};
ghost use Rattle.ee_desk_model.specs.Paid.{paid_lines, NoneTwice, ArePaidRight};
ghost use Rattle.ee_desk_model.specs.Sound.{IsSound};
ghost use Rattle.ee_desk_model.specs.Conserved.{IsConserved};
ghost use Rattle.ee_desk_model.specs.Repeats.{nothing};
ghost use Rattle.ee_desk_model.specs.Contents.{content_after};
ghost use Rattle.ee_desk_model.specs.Answers.{answer, reply_again};
ghost use Rattle.ee_desk_model.specs.Queries.{ShowsQuery, IsKind};
ghost use Rattle.ee_desk.specs.Inner.Kept.{kept_in};

use crate::books::Books;
use ee_desk_model::{Act, Kept, Query, Refusal, Reply, Request, RequestNumber, Shown, Unserved};
use ee_keeper::Keeper;
use std::alloc::{AllocError, Global};
use std::collections::BTreeMap;
use std::marker::Model;

/// Books, and the one reply kept for each desk and number, in memory. Never answers `StoreFailed`.
#[derive(Drop)]
pub struct ListKeeper {
    books: Books,
    kept: BTreeMap<RequestNumber, Kept>,
}

impl Model for ListKeeper {
    ghost use Rattle.std.specs.Coded.{codes};
    ghost use Rattle.std.specs.FinMap as finite;
    ghost use Rattle.ee_desk_model.specs.Repeats.{Content};

    ghost Value = { Content };

    ghost coded = { Prim.hlevel (codes, finite.code) };

    ghost view = { λ k. record { books = k.books; kept = finite.from_entries k.kept.entries } };
}

impl ListKeeper {
    /// A keeper with empty books and no kept replies. Takes no memory.
    pub fn empty(alloc: Global) -> ListKeeper
        ensures empty { result ≡ nothing }
        ensures sound { IsSound result.books }
    {
        let books = Books::empty(alloc);
        books.known();
        ListKeeper {
            books,
            kept: BTreeMap::new(alloc),
        }
    }

    /// What holds for the keeper's books at all times: no serial number is paid twice, and each line pays the
    /// value of its bond in the month of its ticket's day. The batches and the open day together add up to
    /// what was paid.
    pub fn known(&self)
        ensures sound { IsSound self.now.books }
        ensures once { NoneTwice (paid_lines self.now.books.tickets) }
        ensures right { ArePaidRight self.now.books }
        ensures conserved { IsConserved self.now.books }
    {
        self.books.known();
    }

    /// Answers a request, and keeps the reply to a new number together with the effects of its act. A number
    /// with a kept reply gets that reply if the act is the same, and `NumberReused` otherwise. If memory is
    /// refused, nothing has changed. Never answers `StoreFailed`.
    pub fn deliver(&mut self, request: &Request) -> Result<Reply, Unserved>
        ensures reply { IfOk result (λ r. r ≡ answer self.old [] request.now) }
        ensures content { OnOk result (self.new ≡ content_after self.old (request.now ∷ [])) }
        ensures err { OnErr result (self.new ≡ self.old) }
        ensures memory { IfErr result (λ e. e ≡ Unserved.NoMemory) }
    {
        match self.answer(request) {
            Ok(reply) => Ok(reply),
            Err(_) => Err(Unserved::NoMemory),
        }
    }

    fn answer(&mut self, request: &Request) -> Result<Reply, AllocError>
        ensures reply { IfOk result (λ r. r ≡ answer self.old [] request.now) }
        ensures content { OnOk result (self.new ≡ content_after self.old (request.now ∷ [])) }
        ensures err { OnErr result (self.new ≡ self.old) }
    {
        if let Some(kept) = self.kept.get(&request.request_number()) {
            let reply = reply_again(kept, &request.act)?;
            return Ok(reply);
        }
        self.decide(request)
    }

    /// Decides a request with a new number, and keeps its reply.
    fn decide(&mut self, request: &Request) -> Result<Reply, AllocError>
        requires { finite.get self.old.kept (number_of request.now) ≡ None }
        ensures reply { IfOk result (λ r. r ≡ (act self.old.books request.now.act).reply) }
        ensures content { OnOk result (self.new ≡ content_after self.old (request.now ∷ [])) }
        ensures err { OnErr result (self.new ≡ self.old) }
    {
        let effects = self.books.effects_of(&request.act)?;
        let reply = effects.reply.copy()?;
        let kept = kept_of(&request.act, &effects.reply)?;
        let number = request.request_number();
        keep(&mut self.kept, number, kept)?;
        match self.books.apply(&effects) {
            Ok(_) => Ok(reply),
            Err(_) => {
                forget(&mut self.kept, number);
                Err(AllocError)
            }
        }
    }
}

impl ListKeeper {
    /// Shows what the books have.
    pub fn ask(&self, query: &Query) -> Result<Shown, Unserved>
        ensures shown { IfOk result (ShowsQuery self.now.books query.now) }
        ensures kind { IfOk result (IsKind query.now) }
        ensures memory { IfErr result (λ e. e ≡ Unserved.NoMemory) }
    {
        match *query {
            Query::Inventory { customer, month } => {
                Ok(Shown::Sheet(self.books.inventory(customer, month)?))
            }
            Query::Bonds(customer) => Ok(Shown::Bonds(self.books.bonds_of(customer)?)),
            Query::Ticket(number) => Ok(Shown::Ticket(self.books.ticket(number)?)),
            Query::Batch(day) => Ok(Shown::Batch(self.books.batch(day))),
            Query::Value {
                denom,
                issued,
                month,
            } => Ok(Shown::Row(self.books.quote(denom, issued, month)?)),
        }
    }
}

impl Keeper for ListKeeper {
    ghost use Rattle.std.specs.Prelude.{◌≡◌, true};
    ghost use Rattle.std.proofs.Common.{◌∙◌, sym, subst};
    ghost use Rattle.std.proofs.Math.Logic.{∥∥₁_map};
    ghost use Rattle.ee_desk_model.specs.Repeats.{Content};
    ghost use Rattle.ee_desk_model.specs.Sound.{IsSound};
    ghost use Rattle.ee_desk.specs.History.{HasGone};
    ghost use Rattle.ee_desk_laws.specs.Events.{unserved};
    ghost use Rattle.ee_desk_laws.proofs.Lemmas.{happens_missed};

    ghost has = { λ k c. (k ≡ c) × IsSound c.books };

    ghost is_clean = { λ _. Unit {0} };

    ghost is_guarded = { λ _. Unit {0} };

    ghost may_fail = { ⊥ };

    ghost is_open = { λ _. true };

    ghost faults = { λ _. 0 };

    ghost takes = { λ _ _. Unit {0} };

    ghost fits = { λ _ _. Unit {0} };

    ghost sound = { λ _ _ has. has.1 };

    ghost went = { λ k start events. IsSound k.books × HasGone k start events };

    ghost one = { λ _ _ _ _ has other. sym has.0 ∙ other.0 };

    ghost fewer = { λ _ _ _. tt };

    ghost missed = { λ _ start events request went. (
      went.0,
      ∥∥₁_map went.1 (λ (w, happened, up, is).
          (unserved w request, happens_missed start events w request happened up, up, is)),
    ) };

    ghost gone = { λ _ _ _ went. ∥∥₁_map went.1 (λ (w, happened, up, is). (w, happened, (is, subst (λ (c : Content). IsSound c.books) is went.0))) };

    fn deliver(&mut self, request: &Request) -> Result<Reply, Unserved> {
        let answer = ListKeeper::deliver(self, request);
        self.known();
        answer
    }

    fn ask(&mut self, query: &Query) -> Result<Shown, Unserved> {
        ListKeeper::ask(self, query)
    }
}

fn kept_of(act: &Act, reply: &Reply) -> Result<Kept, AllocError>
    ensures { IfOk result (λ k. k ≡ record { act = act.now; reply = reply.now }) }
{
    let act = act.copy()?;
    let reply = reply.copy()?;
    Ok(Kept { act, reply })
}

/// Keeps an act and its reply under a number.
fn keep(
    kept: &mut BTreeMap<RequestNumber, Kept>,
    number: RequestNumber,
    entry: Kept,
) -> Result<(), AllocError>
    ensures ok { OnOk result (kept_in kept.new.entries ≡ finite.insert (kept_in kept.old.entries) number entry) }
    ensures err { OnErr result (kept.new.entries ≡ kept.old.entries) }
{
    kept.insert(number, entry)?;
    Ok(())
}

/// Removes the entry of a number.
fn forget(kept: &mut BTreeMap<RequestNumber, Kept>, number: RequestNumber)
    ensures { kept_in kept.new.entries ≡ finite.remove (kept_in kept.old.entries) number }
{
    let _ = kept.remove(&number);
}

/// The reply to a repeated number.
fn reply_again(kept: &Kept, again: &Act) -> Result<Reply, AllocError>
    ensures { IfOk result (λ r. r ≡ reply_again kept.now.act kept.now.reply again.now) }
{
    if kept.act.is_same(again) {
        kept.reply.copy()
    } else {
        Ok(Reply::Refused(Refusal::NumberReused))
    }
}
