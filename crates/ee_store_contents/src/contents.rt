//! The books that the rows of a store represent.

ghost use Rattle.std.specs.Prelude.{◌≡◌, ◌↔◌, Some, None, IfOk, IfErr, IfSome, map, option_map};
ghost use Rattle.ee_desk_model.specs.Repeats.{Content};
ghost use Rattle.ee_desk_soundness.specs.Parts.{AreUnsound};
ghost use Rattle.ee_desk_soundness.specs.Checks.{HaveRisingSerials};
ghost use Rattle.ee_desk_soundness.specs.Marks.{bond_of, AreMarked};
ghost use Rattle.ee_desk_soundness.specs.Made.{IsMadeOf};
ghost use Rattle.ee_store_contents.specs.Inner.Reading.{tickets_in, parts_in};
ghost use Rattle.ee_store_tables.specs.Rows.{Rows as TableRows};
ghost use Rattle.ee_store_load.specs.Whole.{AreInOrder, AreRead};
ghost use Rattle.ee_store_books.specs.Standing.{StandAt};
ghost use Rattle.ee_store_schema.specs.Forms.{version_of};
ghost use Rattle.ee_store_contents.specs.Contents.{KeepsAnswer, tables_for};
ghost use Rattle.ee_store_contents.specs.Inner.Contents.{PartsFit, parts_of_read};

use crate::invariants::parts_fit;
use crate::parts::ReadParts;
use crate::rates::rates_in;
use crate::reading::{batches_in, days_in};
use crate::tickets::tickets_in;
use crate::unit_tables::kept_tables;
use ee_desk_model::{Ticket, UnitTables};
use ee_desk_soundness::{Indexes, PartsFault, checked};
use ee_store_load::{AllRows, StoredLine, StoredTicket};
use ee_store_schema::StoredAnswer;
use std::alloc::{AllocError, Global};
use std::mem;
use thiserror::Error;

/// Why rows give no books.
#[derive(Clone, Copy, Debug, PartialEq, Eq, Error)]
pub enum ContentFault {
    /// The rows represent no books and kept replies.
    #[error("the rows of the store are unusable")]
    Unusable,
    /// Memory was refused.
    #[error("out of memory")]
    NoMemory,
}

impl From<AllocError> for ContentFault {
    ghost use Rattle.std.specs.Prelude.{◌≡◌};
    ghost use Rattle.ee_store_contents.specs.declared.contents.ContentFault.TheVariants.{NoMemory};

    ghost from_gives = { λ _ e. e ≡ NoMemory };

    fn from(_: AllocError) -> ContentFault {
        ContentFault::NoMemory
    }
}

/// The tickets of rows, as `tickets_in`. Drops the rows.
fn own_tickets(
    alloc: Global,
    rows: Vec<StoredTicket>,
    lines: Vec<StoredLine>,
) -> Result<Option<Vec<Ticket>>, AllocError>
    ensures { IfOk result (λ o. option_map (λ v. v.items) o ≡ tickets_in rows.items lines.items) }
{
    tickets_in(alloc, &rows, &lines)
}

/// The parts of the books with these rows. Drops the rows of each table as soon as their parts are made.
#[tactic(auto, unfolding(crate::specs::Inner::Reading::parts_in))]
fn parts_in(alloc: Global, stored: AllRows) -> Result<Option<ReadParts>, AllocError>
    ensures value { IfOk result (λ o. option_map parts_of_read o ≡ parts_in stored) }
    ensures fits { IfOk result (λ o. IfSome o (λ found. PartsFit (parts_of_read found))) }
    ensures rows { IfOk result (λ o. IfSome o (λ found. found.bonds.items ≡ stored.bonds.items)) }
{
    let AllRows {
        form,
        desk,
        rates,
        bonds,
        tickets,
        lines,
        batches,
        extensions,
        replies: _,
    } = stored;
    let Some(days) = days_in(form.version(), &desk) else {
        return Ok(None);
    };
    let Some(rates) = rates_in(alloc, &rates, &extensions)? else {
        return Ok(None);
    };
    let Some(tickets) = own_tickets(alloc, tickets, lines)? else {
        return Ok(None);
    };
    let Some(batches) = batches_in(alloc, &batches)? else {
        return Ok(None);
    };
    let parts = ReadParts {
        rates,
        bonds,
        day: days.day,
        last_day: days.last_day,
        tickets,
        batches,
    };
    parts_fit(&parts);
    Ok(Some(parts))
}

/// The parts of the books with these rows. Drops the rows.
fn right_parts(alloc: Global, stored: AllRows) -> Result<ReadParts, ContentFault>
    ensures found { IfOk result (λ parts. Some (parts_of_read parts) ≡ parts_in stored) }
    ensures fits { IfOk result (λ parts. PartsFit (parts_of_read parts)) }
    ensures rows { IfOk result (λ parts. parts.bonds.items ≡ stored.bonds.items) }
    ensures none { IfErr result (λ fault. fault ≡ ContentFault.Unusable → None ≡ parts_in stored) }
{
    match parts_in(alloc, stored)? {
        Some(parts) => Ok(parts),
        None => Err(ContentFault::Unusable),
    }
}

/// Takes the kept replies of version 1 out of what was read.
fn take_earlier(alloc: Global, stored: &mut AllRows) -> Vec<StoredAnswer>
    ensures taken { result ≡ stored.old.replies.earlier }
    ensures rest { stored.new ≡ record stored.old { replies = stored.new.replies } }
{
    mem::replace(&mut stored.replies.earlier, Vec::new(alloc))
}

/// Parts that no sound books have are unusable.
fn fault_of(fault: PartsFault) -> ContentFault
    ensures { (result ≡ ContentFault.Unusable) ↔ (fault ≡ PartsFault.Unsound) }
{
    match fault {
        PartsFault::Unsound => ContentFault::Unusable,
        PartsFault::NoMemory => ContentFault::NoMemory,
    }
}

/// What is made of these parts while they are checked; `Unusable` if no sound books have them, or if a row names
/// another ticket than the one that pays its bond. Drops the parts.
fn indexes_of(alloc: Global, parts: ReadParts) -> Result<Indexes, ContentFault>
    requires { HaveRisingSerials (map bond_of parts.bonds.items) }
    ensures ok { IfOk result (IsMadeOf (parts_of_read parts)) }
    ensures marked { IfOk result (λ _. AreMarked parts.tickets.items parts.bonds.items) }
    ensures unusable { IfErr result (λ fault. fault ≡ ContentFault.Unusable → AreMarked parts.tickets.items parts.bonds.items → AreUnsound (parts_of_read parts)) }
{
    let ReadParts {
        rates,
        bonds,
        day,
        last_day,
        tickets,
        batches,
    } = parts;
    match checked(alloc, &rates, &bonds, day, last_day, &tickets, &batches) {
        Ok(indexes) => Ok(indexes),
        Err(fault) => Err(fault_of(fault)),
    }
}

/// What opening needs of rows that represent books and kept replies.
#[derive(Drop)]
pub struct TestedContent {
    /// The tables of unit values for the rates of the books.
    pub tables: UnitTables,
    /// The kept replies of a store of version 1, which its migration writes again; none for version 2.
    pub answers: Vec<StoredAnswer>,
}

/// The tables of unit values for the rates of the books that the rows of a store represent: one table for
/// each pair of rates, made while the books were tested. The rows are those that were read; their kept
/// replies have been tested (`KeptReply`), and all other rows are given. `Unusable` if and only if the rows
/// represent no books and kept replies. Drops the rows as soon as they are tested.
pub fn tables_of(alloc: Global, stored: AllRows) -> Result<TestedContent, ContentFault>
    requires { AreInOrder stored }
    ensures ok { IfOk result (λ tested. (rows : TableRows) → AreRead KeepsAnswer stored rows → (content : Content)
        × (tested.tables ≡ tables_for content.books.rates) × StandAt (version_of stored.form) rows content) }
    ensures left { IfOk result (λ tested. tested.answers ≡ stored.replies.earlier) }
    ensures unusable { IfErr result (λ fault. fault ≡ ContentFault.Unusable
        → (rows : TableRows) → AreRead KeepsAnswer stored rows → (content : Content) → StandAt (version_of stored.form) rows content → ⊥) }
{
    if !stored.replies.pass {
        return Err(ContentFault::Unusable);
    }
    let mut rest = stored;
    let answers = take_earlier(alloc, &mut rest);
    let parts = right_parts(alloc, rest)?;
    let indexes = indexes_of(alloc, parts)?;
    let tables = kept_tables(alloc, &indexes.terms)?;
    Ok(TestedContent { tables, answers })
}
