//! The counter of a paying agent, over any keeper: lists of requests, connections, and files.
//!
//! The contract of `run` promises: the books and the answers are those of the list with its repeats taken out. Begin
//! with `requests.rt`, then `connections.rt` for streams and `files.rt` for imports and exports.
//!
//! It doesn't promise that a request is served, or when. It doesn't know who asks: whoever reaches it can pay.
#![tactic(auto)]

mod answering;
mod connections;
mod decoding;
mod files;
mod laws;
mod requests;
mod soundness;

pub use answering::answer_message;
pub use connections::{Ended, MOST_MESSAGES, Why, serve};
pub use files::{ExportFault, ImportFault, export_inventory, import_inventory, import_rates};
pub use laws::{
    one_stream_law, one_text_law, same_answers_law, served_requests_law, short_texts_law,
};
pub use requests::run;
pub use soundness::known;
