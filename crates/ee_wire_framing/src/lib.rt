//! Requests of HTTP/1.x from a stream of bytes, however a reader cuts them: heads by `httparse`'s grammar,
//! and bodies whose length the head states.
//!
//! It promises the split of a stream into messages by its bytes alone, however they come in pieces, within
//! fixed limits of memory. Begin with `specs/Framing.antt`, then `buffer.rt`.
//!
//! It doesn't promise that a client sends all of a message, nor when.
#![tactic(auto)]

mod buffer;
mod fields;
mod front;
mod head;
mod laws;

pub use buffer::{Buffer, Message, Next, Stop, WireEnd, next_message};
pub use httparse::spans::Span;
pub use laws::{every_split_law, limits_law, one_split_law};
use thiserror::Error;

/// The maximum length of a head in bytes.
pub const HEAD_LIMIT: usize = 16_384;
/// The maximum number of headers.
pub const HEADER_LIMIT: usize = 32;
/// The maximum length of a body in bytes.
pub const BODY_LIMIT: usize = 1_048_576;

/// The maximum number of bytes in one read.
const CHUNK: usize = 4_096;
/// The maximum number of bytes in a `Buffer`: one message and one read.
pub const BUFFER_LIMIT: usize = HEAD_LIMIT + BODY_LIMIT + CHUNK;

/// Room for headers: more than fit into a head within the limit.
const HEADER_ROOM: usize = 5_462;
/// Room for headers that is tried first: more than a message may have.
const FEW_HEADERS: usize = 64;

/// Why a stream isn't a sequence of messages.
#[derive(Clone, Copy, Debug, PartialEq, Eq, Error)]
pub enum FramingFault {
    /// The bytes begin with no head, or with one that has more than 32 headers.
    #[error("no head of HTTP/1.x with at most 32 headers")]
    BadHead,
    /// No head ends within 16,384 bytes.
    #[error("the head is longer than 16,384 bytes")]
    HeadTooLong,
    /// The head states a body of more than 1,048,576 bytes.
    #[error("the body is longer than 1,048,576 bytes")]
    BodyTooLong,
    /// The length isn't digits alone or is stated twice, or the body has a transfer coding.
    #[error("the head states no length of its body")]
    BadLength,
    /// The stream ends inside a message.
    #[error("the message is cut")]
    Truncated,
}
