//! What a resource server is told.
use bytes_and_lists::bytes::Bytes;
use gnap_model::rights::Rights;

/// What an introspection says of a token (RFC 9767, section 3.3).
#[derive(Drop)]
pub enum Judgement {
    /// It is live, and has these rights.
    Active {
        access: Rights,
        /// The key to which it is bound; a bearer token has none.
        key: Option<Bytes>,
        /// The second, since 1970, from which on it isn't live any more (`exp`).
        exp: u64,
    },
    Inactive,
}
