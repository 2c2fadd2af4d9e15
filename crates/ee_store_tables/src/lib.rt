//! The eight tables of a counter's store: their rows, and the statements that read and write them.
//!
//! It promises what each statement finds, changes and leaves of the rows, why it fails, and what a crash may
//! then leave. Begin with `specs/Rows.antt` and `specs/Tables.antt`; `bonds.rt` is typical of the statements.
//!
//! It doesn't promise anything once a disk gave wrong bytes as right ones, or while another program writes
//! the file.
#![tactic(auto)]

mod answers;
mod batches;
mod bonds;
mod desk;
mod extensions;
mod failures;
mod lines;
mod rates;
mod reading;
mod records;
mod tickets;
mod values;

pub use answers::{add_answer, add_answer_texts, find_answer};
pub use batches::{add_batch, find_batch};
pub use bonds::{add_bond, add_new_bonds, bonds_of_owner, find_bond, mark_bond};
pub use desk::{find_desk, set_day, set_version};
pub use extensions::{add_extension, find_extension};
pub use failures::Failure;
pub use lines::{add_paid, pay_lines, ticket_lines};
pub use rates::{add_rate, find_rate};
pub use records::{
    BatchRow, BondRow, DeskRow, PaidRow, PeriodRate, PlacedLine, ReplyRow, SerialKey, TicketRow,
    TicketSum, UnpaidBond,
};
pub use tickets::{add_ticket, day_tickets, find_ticket, first_ticket, last_ticket};
