//! The JSON texts of acts and replies: canonical texts, by which acts are kept and compared, and texts of
//! replies. Both can be read back. Also writes JSON one value at a time.
//!
//! It promises one text for each act and reply, and that each text is read back as what it was written for, and
//! as nothing else. Begin with `specs/Data.antt` for the texts, and `specs/Reading.antt` for reading them.
//!
//! It doesn't promise to read other JSON: these texts alone are read, byte for byte.
#![tactic(auto)]

mod act_reading;
mod acts;
mod fields;
mod given;
mod invariants;
mod laws;
mod money;
mod quick;
mod refusal_reading;
mod refusals;
mod replies;
mod reply_reading;
mod writing;

pub use act_reading::read_act;
pub use acts::canonical;
pub use given::{GivenReply, give_again};
pub use invariants::{batch_fits, bonds_fit, day_fits, rate_rows_fit, ticket_fits};
pub use laws::texts_law;
pub use replies::reply_text;
pub use reply_reading::read_reply;
pub use writing::{text_of, write_number_member, write_string_member, write_text_member};
