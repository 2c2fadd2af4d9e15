//! The records of a desk, in memory.

ghost use Rattle.std.specs.Prelude.{◌≡◌, IfOk, OnOk, OnErr, [], Some, map};
ghost use Rattle.std.specs.List.{AllByRecursion};
ghost use Rattle.std.specs.Option.{option_copied};
ghost use Rattle.std.specs.FinMap as finite;
ghost use Rattle.ee_desk_model.specs.PlainBooks.{no_books, of_day, batch_so_far};
ghost use Rattle.ee_desk_model.specs.Acts.{changed, applied};
ghost use Rattle.ee_desk_model.specs.Seen.{held_of, open_batch};
ghost use Rattle.ee_desk_model.specs.Queries.{ticket_numbered, batch_on, bonds_of};
ghost use Rattle.ee_desk_model.specs.declared.changes.Change.TheVariants as change;
ghost use Rattle.ee_desk_soundness.specs.Parts.{parts_of};
ghost use Rattle.ee_desk_soundness.specs.Checks.{HaveRisingSerials};
ghost use Rattle.ee_desk_soundness.specs.Marks.{bond_of};
ghost use Rattle.ee_desk.specs.Inner.Marks.{by_serial, AreMarked};
ghost use Rattle.ee_desk.specs.Inner.Kept.{books_of, AreCounts, AreKeyed};
ghost use Rattle.ee_desk.specs.Parts.{as_lists};
ghost use Rattle.ee_desk_decide.specs.Noted.{rates_in};
ghost use Rattle.ee_desk_decide.specs.Inner.NewRows.{rate_row, bond_row, AreNew};
ghost use Rattle.ee_desk.specs.Inner.Added.{with_changes};
ghost use Rattle.ee_desk_decide.specs.Inner.Applicable.{IsUnpaid, IsNextTicket, AreApplicable};

use crate::additions::{add_bonds, add_rates};
use crate::marks::mark_all;
use crate::parts::{Parts, copy_tickets, held_bonds, held_map, rate_rows};
use crate::queries;
use ee_calculator::Bond;
use ee_desk_decide::DayCounts;
use ee_desk_model::{Batch, Change, Held, Rows, Terms, Ticket, UnitTables};
use ee_desk_soundness::Indexes;
use ee_units::{Cents, Customer, Day, IssueMonth, Serial};
use std::alloc::{AllocError, Global};
use std::collections::BTreeMap;
use std::marker::Model;

/// Rates, bonds, days, tickets and batches. Each bond is marked with the ticket that pays it, and
/// the open day's tickets are counted. Equal rates share one table of unit values.
#[derive(Drop)]
pub struct Ledger {
    tables: UnitTables,
    rates: BTreeMap<IssueMonth, Terms>,
    bonds: BTreeMap<Serial, Held>,
    day: Option<Day>,
    last_day: Option<Day>,
    tickets: Vec<Ticket>,
    batches: Vec<Batch>,
    counts: DayCounts,
}

impl Model for Ledger {
    ghost use Rattle.std.specs.Coded.{codes};
    ghost use Rattle.std.specs.FinMap as finite;
    ghost use Rattle.ee_desk_model.specs.PlainBooks.{PlainBooks, batch_so_far};
    ghost use Rattle.ee_desk.specs.Inner.Marks.{AreMarked};
    ghost use Rattle.ee_desk.specs.Inner.Kept.{books_of, AreCounts};

    ghost Value = { PlainBooks };

    ghost coded = { Prim.hlevel (codes, finite.code) };

    ghost view = { λ b. books_of b.rates.entries b.bonds.entries b.day b.last_day b.tickets.items b.batches.items };

    ghost invariant = { λ b. AreMarked b.bonds.entries b.tickets.items × AreCounts (batch_so_far b.day b.tickets.items) b.counts };
}

impl Ledger {
    /// An empty ledger.
    pub fn empty(alloc: Global) -> Ledger
        ensures { result ≡ no_books }
    {
        Ledger {
            tables: UnitTables::new(alloc),
            rates: BTreeMap::new(alloc),
            bonds: BTreeMap::new(alloc),
            day: None,
            last_day: None,
            tickets: Vec::new(alloc),
            batches: Vec::new(alloc),
            counts: DayCounts::of_tickets(0),
        }
    }

    /// Adds rates with new periods: all of them, or none.
    fn add_rates(&mut self, changes: &[Change]) -> Result<(), AllocError>
        requires { AreNew rate_row self.old.rates changes.now }
        ensures ok { OnOk result (self.new ≡ record self.old { rates = with_changes rate_row self.old.rates changes.now }) }
        ensures err { OnErr result (self.new ≡ self.old) }
    {
        add_rates(&mut self.tables, &mut self.rates, changes)
    }

    /// Registers bonds with new serial numbers that no ticket names: all of them, or none.
    fn add_bonds(&mut self, changes: &[Change]) -> Result<(), AllocError>
        requires fresh { AreNew bond_row self.old.bonds changes.now }
        requires unpaid { AllByRecursion (IsUnpaid self.old) changes.now }
        ensures ok { OnOk result (self.new ≡ record self.old { bonds = with_changes bond_row self.old.bonds changes.now }) }
        ensures err { OnErr result (self.new ≡ self.old) }
    {
        add_bonds(&mut self.bonds, changes)
    }

    /// Opens a day that has no tickets.
    fn open_day(&mut self, day: Day)
        requires { of_day day self.old.tickets ≡ [] }
        ensures { self.new ≡ changed self.old (change.Day day) }
    {
        self.day = Some(day);
        self.counts = DayCounts::of_tickets(0);
    }

    /// Closes the open day.
    fn close_day(&mut self, batch: Batch) -> Result<(), AllocError>
        ensures ok { OnOk result (self.new ≡ changed self.old (change.Batch batch)) }
        ensures err { OnErr result (self.new ≡ self.old) }
    {
        let day = batch.day;
        self.batches.push(batch)?;
        self.last_day = Some(day);
        self.day = None;
        self.counts = DayCounts::of_tickets(0);
        Ok(())
    }

    /// Adds a ticket of the open day, whose bonds are unpaid.
    fn add_ticket(&mut self, ticket: &Ticket) -> Result<(), AllocError>
        requires { IsNextTicket self.old ticket.now }
        ensures ok { OnOk result (self.new ≡ changed self.old (change.Ticket ticket.now)) }
        ensures err { OnErr result (self.new ≡ self.old) }
    {
        let copy = ticket.copy()?;
        self.tickets.push(copy)?;
        mark_all(&mut self.bonds, ticket.lines.as_slice(), ticket.ticket);
        let total = self.counts.total;
        let paid = ticket.total;
        self.counts = DayCounts {
            tickets: self.counts.tickets + 1,
            bonds: self.counts.bonds + ticket.lines.as_slice().len() as u64,
            total: Cents(total.0 + paid.0),
        };
        Ok(())
    }
}

impl Ledger {
    /// Applies changes in order: all of them, or none.
    pub fn apply(&mut self, changes: &[Change]) -> Result<(), AllocError>
        requires { AreApplicable self.old changes.now }
        ensures ok { OnOk result (self.new ≡ applied self.old changes.now) }
        ensures err { OnErr result (self.new ≡ self.old) }
    {
        if changes.is_empty() {
            return Ok(());
        }
        match &changes[0] {
            Change::Rates(_, _) => self.add_rates(changes),
            Change::Bond(_) => self.add_bonds(changes),
            Change::Day(day) => {
                self.open_day(*day);
                Ok(())
            }
            Change::Ticket(ticket) => self.add_ticket(ticket),
            Change::Batch(batch) => self.close_day(*batch),
        }
    }

    /// The terms of a period.
    pub fn terms(&self, period: IssueMonth) -> Option<&Terms>
        ensures { option_copied result ≡ finite.get self.now.rates period }
    {
        self.rates.get(&period)
    }

    /// The terms of each period.
    pub fn rates(&self) -> &BTreeMap<IssueMonth, Terms>
        ensures { rates_in result.now.entries ≡ self.now.rates }
    {
        &self.rates
    }

    /// A registered bond, and the ticket that paid it.
    pub fn held(&self, serial: Serial) -> Option<Held>
        ensures { result ≡ held_of self.now serial }
    {
        self.bonds.get(&serial).copied()
    }

    /// The open day.
    pub fn day(&self) -> Option<Day>
        ensures { result ≡ self.now.day }
    {
        self.day
    }

    /// The last closed day.
    pub fn last_day(&self) -> Option<Day>
        ensures { result ≡ self.now.last_day }
    {
        self.last_day
    }

    /// The tickets in order of number.
    pub fn tickets(&self) -> &[Ticket]
        ensures { result.now ≡ self.now.tickets }
    {
        self.tickets.as_slice()
    }

    /// The counts of the open day's tickets; zeros if no day is open.
    pub fn counts(&self) -> DayCounts
        ensures { AreCounts (open_batch self.now) result }
    {
        self.counts
    }
}

impl Ledger {
    /// A copy of the ticket with this number.
    pub fn ticket(&self, number: u64) -> Result<Option<Ticket>, AllocError>
        ensures { IfOk result (λ ticket. ticket ≡ ticket_numbered self.now number) }
    {
        queries::ticket_numbered(self.tickets.as_slice(), number)
    }

    /// The batch of a closed day.
    pub fn batch(&self, day: Day) -> Option<Batch>
        ensures { result ≡ batch_on self.now day }
    {
        queries::batch_on(self.batches.as_slice(), day)
    }

    /// The unpaid bonds of an owner, in order of serial number.
    pub fn bonds_of(&self, alloc: Global, customer: Customer) -> Result<Vec<Bond>, AllocError>
        requires { AreKeyed self.now }
        ensures { IfOk result (λ bonds. bonds.items ≡ bonds_of self.now customer) }
    {
        queries::own_bonds(alloc, &self.bonds, customer)
    }
}

impl Ledger {
    /// The ledger with these parts, their bonds as rows, and their indexes. Fails only if memory is refused.
    pub fn of_parts(
        alloc: Global,
        parts: Parts,
        rows: &[Held],
        indexes: Indexes,
    ) -> Result<Ledger, AllocError>
        requires rising { HaveRisingSerials (map bond_of rows.now) }
        requires marked { AreMarked (by_serial rows.now) parts.tickets }
        requires counted { AreCounts (batch_so_far parts.day parts.tickets) indexes.counts }
        ensures { IfOk result (λ ledger. ledger ≡ books_of indexes.terms.entries (by_serial rows.now) parts.day parts.last_day parts.tickets parts.batches) }
    {
        let Indexes {
            tables,
            terms,
            counts,
        } = indexes;
        let bonds = held_map(alloc, rows)?;
        let Parts {
            day,
            last_day,
            tickets,
            batches,
            ..
        } = parts;
        Ok(Ledger {
            tables,
            rates: terms,
            bonds,
            day,
            last_day,
            tickets: tickets.into_vec(),
            batches: batches.into_vec(),
            counts,
        })
    }

    /// A copy of the ledger as lists.
    pub fn parts(&self, alloc: Global) -> Result<Parts, AllocError>
        ensures { IfOk result (λ parts. as_lists parts ≡ parts_of self.now) }
    {
        let rates = rate_rows(alloc, &self.rates)?;
        let bonds = held_bonds(alloc, &self.bonds)?;
        let tickets = copy_tickets(alloc, self.tickets.as_slice())?;
        let batches = Vec::from_slice(alloc, self.batches.as_slice())?;
        Ok(Parts {
            rates: Rows::new(rates),
            bonds: Rows::new(bonds),
            day: self.day,
            last_day: self.last_day,
            tickets: Rows::new(tickets),
            batches: Rows::new(batches),
        })
    }
}
