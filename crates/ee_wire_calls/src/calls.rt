//! What a message can ask for.

use ee_desk_model::{Query, Request};

/// What a message asks for.
#[derive(Debug, Drop)]
pub enum Call {
    Request(Request),
    /// A query, sent by GET. None asks for [`Query::Bonds`].
    Query(Query),
}
