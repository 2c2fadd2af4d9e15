//! HTTP messages: requests from a stream, what they ask for, and the bytes of the responses.
//!
//! It promises the bytes of each response: its status, headers and body. Begin with `specs/Answers.antt`, then
//! `answers.rt`.
//!
//! It doesn't promise that a response arrives.
#![tactic(auto)]

mod answers;
mod bodies;
mod heads;
mod rows;
mod writing;

pub use answers::{Answer, WriteEnd};
pub use ee_wire_calls::{Call, Field, Query, Routes, WireFault, decode, decode_with};
pub use ee_wire_framing::{
    BODY_LIMIT, BUFFER_LIMIT, Buffer, FramingFault, HEAD_LIMIT, HEADER_LIMIT, Message, Next, Span,
    WireEnd, next_message, one_split_law,
};
pub use writing::write_reply;
