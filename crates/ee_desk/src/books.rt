//! The books of a desk.

ghost use Rattle.std.specs.Prelude.{◌≡◌, map, Some, IfOk, IfSome, OnOk, OnErr, IfErr};
ghost use Rattle.std.specs.Option.{option_map};
ghost use Rattle.ee_desk_model.specs.declared.acts.Act.{Act};
ghost use Rattle.ee_desk_model.specs.PlainBooks.{no_books, batch_of};
ghost use Rattle.ee_desk_model.specs.Sound.{IsSound};
ghost use Rattle.ee_desk_model.specs.Paid.{paid_lines, NoneTwice, ArePaidRight};
ghost use Rattle.ee_desk_model.specs.Conserved.{IsConserved};
ghost use Rattle.ee_desk_model.specs.Effects.{effects_of};
ghost use Rattle.ee_desk_model.specs.Acts.{applied, books_after, reply_to};
ghost use Rattle.ee_desk_model.specs.Views.{shown_by, view_of};
ghost use Rattle.ee_desk_model.specs.Queries.{ticket_numbered, batch_on, bonds_of, inventory, quote_of, shown_in_row, shown_in_sheet};
ghost use Rattle.ee_desk_soundness.specs.Parts.{parts_of, AreUnsound};
ghost use Rattle.ee_desk.specs.Parts.{as_lists};

use crate::ledger::Ledger;
use crate::parts::{Checked, Parts, checked_parts};
use crate::seeing;
use ee_calculator::{Bond, Row, Sheet, sheet};
use ee_desk_decide::{View, decide, quote, rows_of};
use ee_desk_model::{Act, Batch, Effects, Reply, Ticket, in_range};
use ee_desk_soundness::PartsFault;
use ee_units::calendar::period_of;
use ee_units::{Customer, Day, Denom, IssueMonth, Month};
use std::alloc::{AllocError, Global};
use std::marker::Model;

/// The books of a desk: rates by period, registered bonds, the open day, tickets and batches. They
/// are always sound: no serial number is paid twice, and each bond is paid its value in the month of its
/// ticket's day.
#[derive(Drop)]
pub struct Books {
    alloc: Global,
    ledger: Ledger,
}

impl Model for Books {
    ghost use Rattle.std.specs.Coded.{codes};
    ghost use Rattle.std.specs.FinMap as finite;
    ghost use Rattle.ee_desk_model.specs.PlainBooks.{PlainBooks};
    ghost use Rattle.ee_desk_model.specs.Sound.{IsSound};

    ghost Value = { PlainBooks };

    ghost coded = { Prim.hlevel (codes, finite.code) };

    ghost view = { λ b. b.ledger };

    ghost invariant = { λ b. IsSound b.ledger };
}

impl Books {
    /// Empty books. Takes no memory.
    pub fn empty(alloc: Global) -> Books
        ensures { result ≡ no_books }
    {
        Books {
            alloc,
            ledger: Ledger::empty(alloc),
        }
    }

    /// The books with these parts. `Unsound` if and only if no sound books have them; for example, rates or
    /// bonds in another order.
    pub fn from_parts(alloc: Global, parts: Parts) -> Result<Books, PartsFault>
        ensures ok { IfOk result (λ books. parts_of books ≡ as_lists parts) }
        ensures unsound { IfErr result (λ fault. fault ≡ PartsFault.Unsound → AreUnsound (as_lists parts)) }
    {
        let own = checked_parts(alloc, &parts)?;
        let Checked { rows, indexes } = own;
        let ledger = Ledger::of_parts(alloc, parts, rows.as_slice(), indexes)?;
        Ok(Books { alloc, ledger })
    }

    /// A copy of the books as lists: rates sorted by month, bonds by serial number, tickets by number,
    /// batches by day.
    pub fn parts(&self) -> Result<Parts, AllocError>
        ensures { IfOk result (λ parts. as_lists parts ≡ parts_of self.now) }
    {
        self.ledger.parts(self.alloc)
    }

    /// What holds for all books. They are sound, so no serial number is paid twice, and each line pays the
    /// value of its bond in the month of its ticket's day. The batches and the open day together add up to
    /// what was paid.
    pub fn known(&self)
        ensures sound { IsSound self.now }
        ensures once { NoneTwice (paid_lines self.now.tickets) }
        ensures right { ArePaidRight self.now }
        ensures conserved { IsConserved self.now }
    {
        let _ledger = &self.ledger;
    }

    /// What an act sees of the books: only what it names.
    pub fn view_of(&self, act: &Act) -> Result<View, AllocError>
        ensures { IfOk result (λ v. v ≡ view_of self.now act.now) }
    {
        seeing::view_of(self.alloc, &self.ledger, act)
    }

    /// The changes of an act and its reply, decided on what it sees of the books, and not applied yet. Reads
    /// only what the act depends on: nothing if the length of its list refuses it.
    pub fn effects_of(&self, act: &Act) -> Result<Effects, AllocError>
        ensures { IfOk result (λ e. e ≡ effects_of (shown_by (view_of self.now act.now)) act.now) }
    {
        let view = seeing::needed_of(self.alloc, &self.ledger, act)?;
        let effects = decide(self.alloc, &view, act)?;
        Ok(effects)
    }

    /// Applies the effects of an act: all of them, or none if memory is refused.
    pub fn apply(&mut self, effects: &Effects) -> Result<(), AllocError>
        requires { (asked : Act) × (effects.now ≡ effects_of (shown_by (view_of self.old asked)) asked) }
        ensures ok { OnOk result (self.new ≡ applied self.old effects.now.changes) }
        ensures err { OnErr result (self.new ≡ self.old) }
    {
        in_range(effects.changes.as_slice());
        self.ledger.apply(effects.changes.as_slice())
    }

    /// Does an act and returns its reply. If memory is refused, nothing changes.
    pub fn step(&mut self, act: &Act) -> Result<Reply, AllocError>
        ensures reply { IfOk result (λ r. r ≡ reply_to self.old act.now) }
        ensures books { OnOk result (self.new ≡ books_after self.old act.now) }
        ensures err { OnErr result (self.new ≡ self.old) }
    {
        let effects = self.effects_of(act)?;
        self.apply(&effects)?;
        let Effects { reply, .. } = effects;
        Ok(reply)
    }
}

impl Books {
    /// A copy of the ticket with this number; tickets are numbered from 1.
    pub fn ticket(&self, number: u64) -> Result<Option<Ticket>, AllocError>
        ensures { IfOk result (λ ticket. ticket ≡ ticket_numbered self.now number) }
    {
        self.ledger.ticket(number)
    }

    /// The batch of a closed day: the number of its tickets, the number of bonds they paid, and their sum.
    pub fn batch(&self, day: Day) -> Option<Batch>
        ensures found { result ≡ batch_on self.now day }
        ensures sums { IfSome result (λ batch. batch ≡ batch_of day self.now.tickets) }
    {
        self.ledger.batch(day)
    }

    /// The unpaid bonds whose owner is this customer, in order of serial number.
    pub fn bonds_of(&self, customer: Customer) -> Result<Vec<Bond>, AllocError>
        ensures { IfOk result (λ bonds. bonds.items ≡ bonds_of self.now customer) }
    {
        self.ledger.bonds_of(self.alloc, customer)
    }

    /// The sheet, in a month, of the unpaid bonds whose owner is this customer, in order of serial number.
    pub fn inventory(&self, customer: Customer, month: Month) -> Result<Sheet, AllocError>
        ensures sheet { IfOk result (λ sheet. shown_in_sheet sheet ≡ inventory self.now customer month) }
        // Each of the bonds has a row.
        ensures whole { IfOk result (λ sheet. map (λ row. row.serial) sheet.rows.items ≡ map (λ bond. Some bond.serial) (bonds_of self.now customer)) }
    {
        let bonds = self.bonds_of(customer)?;
        let rows = rows_of(self.alloc, self.ledger.rates(), bonds.as_slice(), month)?;
        Ok(sheet(rows))
    }

    /// The row, in a month, of a bond of this denomination and issue month, registered or not; `None`
    /// without rates for its issue period.
    pub fn quote(
        &self,
        denom: Denom,
        issued: IssueMonth,
        month: Month,
    ) -> Result<Option<Row>, AllocError>
        ensures { IfOk result (λ row. option_map shown_in_row row ≡ quote_of self.now denom issued month) }
    {
        let terms = self.ledger.terms(period_of(issued));
        Ok(quote(terms, denom, issued, month))
    }
}
