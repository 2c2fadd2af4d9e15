//! The act and the reply of a request, as read from a row.

/// The act and the reply under a desk and a number, as texts.
#[derive(Drop)]
pub struct StoredAnswer {
    /// The desk that numbered the request.
    pub desk: u64,
    /// The number of the request at its desk.
    pub number: u64,
    /// The canonical text of the act.
    pub act: String,
    /// The text of the reply.
    pub reply: String,
}
