//! The rules by which a client of the counter keeps one act one request, as a machine without input or output.
//! `clients/teller` and `clients/python` follow them, and are tested beside it.
//!
//! It promises the machine's turns exactly, and `end_to_end_law`: what any number of desks with such a machine
//! each may rely on. Begin with `specs/Turns.antt` and `specs/Desks.antt`.
//!
//! It doesn't promise that a journal's file, a network or a person does what the events say.
#![tactic(auto)]

mod calls;
mod events;
mod journals;
mod laws;
mod machines;

pub use calls::{ClientEvent, ClientJournal, ClientTurn, ee_client_turn};
pub use events::{Action, Answer, Event, Outcome};
pub use journals::{Journal, Open};
pub use laws::end_to_end_law;
pub use machines::{Machine, Phase, Turn};
