//! What is known of a store's books, so that a redemption doesn't read it again.

ghost use Rattle.std.specs.Prelude.{◌≡◌, ℕ, ◌+◌, List, IfOk, IfSome, OnOk};
ghost use Rattle.std.specs.FinMap as finite;
ghost use Rattle.std.specs.Option.{option_copied};
ghost use Rattle.ee_desk_model.specs.Acts.{books_after, reply_to};
ghost use Rattle.ee_desk_model.specs.PlainBooks.{PlainBooks};
ghost use Rattle.ee_desk_model.specs.declared.acts.Act.TheVariants as act;
ghost use Rattle.ee_units.specs.Spelling.{SerialNumber};
ghost use Rattle.ee_desk_model.specs.Views.{needed_counts};
ghost use Rattle.ee_store_books.specs.Found.{terms_found, with_found};
ghost use Rattle.ee_store_delivery.specs.Known.{IsDayState, AreKnown, redeemed_counts};
ghost use Rattle.ee_store_delivery.specs.Inner.Known.{IsDayStateAfter};

use ee_desk_decide::DayCounts;
use ee_desk_model::{Act, Reply, Terms};
use ee_store_books::{no_terms, note_terms};
use ee_units::{Day, IssueMonth};
use std::alloc::{AllocError, Global};
use std::collections::BTreeMap;

/// The days, the number of tickets, and the open day's tickets, for acts that count them.
#[derive(Clone, Copy)]
pub struct DayState {
    pub(crate) day: Option<Day>,
    pub(crate) last_day: Option<Day>,
    pub(crate) tickets: u64,
    pub(crate) counts: DayCounts,
}

/// What is known of the books of a store without reading it: the day state as a redemption counts it, and the
/// terms of periods.
///
/// A served redemption leaves it known for the next one. Any other act with a new number, and each failure,
/// leaves nothing known, and the next redemption reads it again.
#[derive(Drop)]
pub struct Known {
    pub(crate) day_state: Option<DayState>,
    pub(crate) terms: BTreeMap<IssueMonth, Terms>,
}

fn found(known: &BTreeMap<IssueMonth, Terms>, period: IssueMonth) -> Option<&Terms>
    ensures { option_copied result ≡ finite.get (terms_found known.now.entries) period }
{
    known.get(&period)
}

/// The known terms of a period.
pub fn known_terms(
    known: &BTreeMap<IssueMonth, Terms>,
    period: IssueMonth,
) -> Result<Option<Terms>, AllocError>
    ensures { IfOk result (λ terms. terms ≡ finite.get (terms_found known.now.entries) period) }
{
    match found(known, period) {
        Some(terms) => Ok(Some(terms.share()?)),
        None => Ok(None),
    }
}

fn shared(terms: &Option<Terms>) -> Result<Option<Terms>, AllocError>
    ensures { IfOk result (λ own. own ≡ terms.now) }
{
    match terms {
        Some(terms) => Ok(Some(terms.share()?)),
        None => Ok(None),
    }
}

/// Keeps the terms of a period, if it has any.
pub fn learn_terms(
    known: &mut BTreeMap<IssueMonth, Terms>,
    period: IssueMonth,
    terms: &Option<Terms>,
) -> Result<(), AllocError>
    ensures { OnOk result (terms_found known.new.entries ≡ with_found (terms_found known.old.entries) period terms.now) }
{
    note_terms(known, period, shared(terms)?)
}

impl DayState {
    /// The day state with one more ticket of the open day; `None` above 2^64 - 1.
    fn with_ticket(self) -> Option<DayState>
        ensures { IfSome result (λ day_state. (day_state.day ≡ self.day) × (day_state.last_day ≡ self.last_day) × (day_state.tickets ≡ self.tickets + 1)
            × (day_state.counts.tickets ≡ self.counts.tickets + 1) × (day_state.counts.bonds ≡ self.counts.bonds) × (day_state.counts.total.0 ≡ self.counts.total.0)) }
    {
        let tickets = self.tickets.checked_add(1)?;
        let day_tickets = self.counts.tickets.checked_add(1)?;
        Some(DayState {
            day: self.day,
            last_day: self.last_day,
            tickets,
            counts: DayCounts {
                tickets: day_tickets,
                bonds: self.counts.bonds,
                total: self.counts.total,
            },
        })
    }
}

/// A known day state, after a redemption with this reply.
fn after_redemption(day_state: Option<DayState>, reply: &Reply) -> Option<DayState>
    ensures { (books : PlainBooks) (day payee : ℕ) (serials : List SerialNumber) → IfSome day_state (λ day_state. IsDayState day_state books (redeemed_counts books))
        → reply.now ≡ reply_to books (act.Redeem day payee serials) → IfSome result (IsDayStateAfter books (act.Redeem day payee serials)) }
{
    match reply {
        Reply::Refused(_) => day_state,
        Reply::Ticket(_) => match day_state {
            Some(day_state) => day_state.with_ticket(),
            None => None,
        },
        Reply::Added { .. } | Reply::Opened(_) | Reply::Batch(_) => None,
    }
}

impl Known {
    /// Knows nothing. Takes no memory.
    pub fn nothing(alloc: Global) -> Known
        ensures { (books : PlainBooks) → AreKnown result books }
    {
        Known {
            day_state: None,
            terms: no_terms(alloc),
        }
    }

    /// The day state, if it is known as this act counts it.
    pub fn day_state_for(&self, act: &Act) -> Option<DayState>
        ensures { (books : PlainBooks) → AreKnown self.now books → IfSome result (λ day_state. IsDayState day_state books (needed_counts books act.now)) }
    {
        match act {
            Act::Redeem { .. } => self.day_state,
            Act::AddRates(_) | Act::AddBonds(_) | Act::OpenDay(_) | Act::CloseDay(_) => None,
        }
    }

    /// Keeps the day state, if it is counted as for a redemption.
    pub fn note_day_state(&mut self, act: &Act, day_state: &DayState)
        ensures { (books : PlainBooks) → AreKnown self.old books → IsDayState day_state.now books (needed_counts books act.now) → AreKnown self.new books }
    {
        if matches!(act, Act::Redeem { .. }) {
            self.day_state = Some(*day_state);
        }
    }

    /// Updates what is known after an act with this reply: after a redemption it stays known, after any other
    /// act nothing does.
    pub fn follow(&mut self, alloc: Global, act: &Act, reply: &Reply)
        ensures { (books : PlainBooks) → AreKnown self.old books → reply.now ≡ reply_to books act.now → AreKnown self.new (books_after books act.now) }
    {
        match act {
            Act::Redeem { .. } => self.day_state = after_redemption(self.day_state, reply),
            Act::AddRates(_) | Act::AddBonds(_) | Act::OpenDay(_) | Act::CloseDay(_) => {
                *self = Known::nothing(alloc);
            }
        }
    }
}
