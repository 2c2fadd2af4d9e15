//! What an act sees of the books.

ghost use Rattle.std.specs.Prelude.{◌≡◌, ◌≤◌, IfSome, IsSome, None};
ghost use Rattle.std.specs.Option.{option_copied};
ghost use Rattle.std.specs.FinMap as finite;
ghost use Rattle.ee_desk_model.specs.declared.acts.Act.{Act};
ghost use Rattle.ee_desk_model.specs.PlainBooks.{PlainBooks};
ghost use Rattle.ee_desk_model.specs.Sound.{IsSound};
ghost use Rattle.ee_desk_model.specs.Limits.{highest_ticket};
ghost use Rattle.ee_desk_model.specs.Values.{unsettled};
ghost use Rattle.ee_desk_model.specs.Views.{view_of, needed_of, no_view};
ghost use Rattle.ee_desk_decide.specs.Parts.{plain_parts};

use ee_desk_model::{Held, Terms};
use ee_units::{Cents, Day, IssueMonth, Serial};
use ee_value::Rates;
use std::alloc::Global;
use std::collections::BTreeMap;
use std::marker::Model;

/// The maximum number of tickets in sound books: 1,000 on each day.
const MOST_TICKETS: u64 = 71_200_000;

/// The tickets of the open day: how many there are, how many bonds they paid, and their sum.
#[derive(Clone, Copy)]
pub struct DayCounts {
    pub tickets: u64,
    pub bonds: u64,
    pub total: Cents,
}

impl DayCounts {
    /// Counts `tickets` tickets, without what they paid.
    pub const fn of_tickets(tickets: u64) -> DayCounts
        ensures tickets { result.tickets ≡ tickets }
        ensures bonds { result.bonds ≡ 0 }
        ensures total { result.total.0 ≡ 0 }
    {
        DayCounts {
            tickets,
            bonds: 0,
            total: Cents(0),
        }
    }
}

/// The parts of a view, as a store supplies them: the rates and bonds that the act names, the days, and
/// the counts of tickets.
#[derive(Drop)]
pub struct ViewParts {
    /// The terms by period, for the months of the rows, or for the issue periods of the rows or of the
    /// registered bonds that are named. Terms carry their table, which is made once and shared.
    pub rates: BTreeMap<IssueMonth, Terms>,
    /// The named bonds that are registered, and the tickets that paid them.
    pub bonds: BTreeMap<Serial, Held>,
    /// The open day.
    pub day: Option<Day>,
    /// The last closed day.
    pub last_day: Option<Day>,
    /// The number of tickets across all days.
    pub tickets: u64,
    /// The number of tickets of the open day, for acts that count them; else 0.
    pub day_tickets: u64,
    /// The number of bonds that these paid. A redemption doesn't depend on it.
    pub day_bonds: u64,
    /// Their sum. A redemption doesn't depend on it.
    pub day_total: Cents,
}

/// What an act sees of the books: the rates and bonds that it names, the days, and the counts of
/// tickets. The rates leave no value unsettled, and their tables are shared with the books. The view
/// counts at most 71,200,000 tickets.
#[derive(Drop)]
pub struct View {
    parts: ViewParts,
}

impl Model for View {
    ghost use Rattle.std.specs.Prelude.{◌≤◌};
    ghost use Rattle.std.specs.Coded.{codes};
    ghost use Rattle.std.specs.FinMap as finite;
    ghost use Rattle.ee_desk_model.specs.Views.{PlainView};
    ghost use Rattle.ee_desk_decide.specs.Parts.{plain_parts};
    ghost use Rattle.ee_desk_model.specs.Limits.{highest_ticket};

    ghost Value = { PlainView };

    ghost coded = { Prim.hlevel (codes, finite.code) };

    ghost view = { λ v. plain_parts v.parts };

    ghost invariant = { λ v. v.parts.tickets ≤ highest_ticket };
}

impl View {
    /// The view with these parts.
    pub fn new(parts: ViewParts) -> View
        requires { parts.tickets ≤ highest_ticket }
        ensures { result ≡ plain_parts parts }
    {
        View { parts }
    }

    /// A view that shows nothing. Takes no memory.
    pub fn of_nothing(alloc: Global) -> View
        ensures { result ≡ no_view }
    {
        View {
            parts: ViewParts {
                rates: BTreeMap::new(alloc),
                bonds: BTreeMap::new(alloc),
                day: None,
                last_day: None,
                tickets: 0,
                day_tickets: 0,
                day_bonds: 0,
                day_total: Cents(0),
            },
        }
    }

    /// The view with the parts that a store supplies; `None` if they count more than 71,200,000 tickets,
    /// which sound books never do. Takes no memory.
    pub fn from_parts(parts: ViewParts) -> Option<View>
        ensures some { IfSome result (λ v. v ≡ plain_parts parts) }
        ensures fits { (books : PlainBooks) (asked : Act) → IsSound books → plain_parts parts ≡ view_of books asked → IsSome result }
        ensures needed { (books : PlainBooks) (asked : Act) → IsSound books → plain_parts parts ≡ needed_of books asked → IsSome result }
    {
        if parts.tickets <= MOST_TICKETS {
            Some(View { parts })
        } else {
            None
        }
    }

    /// The terms of a period.
    pub fn terms(&self, period: IssueMonth) -> Option<&Terms>
        ensures { option_copied result ≡ finite.get self.now.rates period }
    {
        self.parts.rates.get(&period)
    }

    /// The rates of a period.
    pub fn rates(&self, period: IssueMonth) -> Option<Rates>
        ensures value { result ≡ finite.get self.now.rates period }
        ensures settled { IfSome result (λ rates. unsettled rates ≡ None) }
    {
        match self.terms(period) {
            Some(terms) => Some(terms.rates()),
            None => None,
        }
    }

    /// A registered bond.
    pub fn held(&self, serial: Serial) -> Option<Held>
        ensures { result ≡ finite.get self.now.bonds serial }
    {
        self.parts.bonds.get(&serial).copied()
    }

    /// The open day.
    pub fn day(&self) -> Option<Day>
        ensures { result ≡ self.now.day }
    {
        self.parts.day
    }

    /// The last closed day.
    pub fn last_day(&self) -> Option<Day>
        ensures { result ≡ self.now.last_day }
    {
        self.parts.last_day
    }

    /// The number of tickets across all days.
    pub fn tickets(&self) -> u64
        ensures value { result ≡ self.now.tickets }
        ensures few { self.now.tickets ≤ highest_ticket }
    {
        self.parts.tickets
    }

    /// The tickets of the open day.
    pub fn counts(&self) -> DayCounts
        ensures tickets { result.tickets ≡ self.now.day_tickets }
        ensures bonds { result.bonds ≡ self.now.day_bonds }
        ensures total { result.total.0 ≡ self.now.day_total }
    {
        DayCounts {
            tickets: self.parts.day_tickets,
            bonds: self.parts.day_bonds,
            total: self.parts.day_total,
        }
    }
}
