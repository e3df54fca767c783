//! What a line says.
use bytes_and_lists::bytes::Bytes;
use gnap_model::objects::GrantRequest;

/// What a line has the client do. A token is named by its place, counted from 0.
#[derive(Drop)]
pub enum Deed {
    Begin(GrantRequest),
    Poll,
    Finish {
        hash: Bytes,
        reference: Bytes,
    },
    Patch(GrantRequest),
    Cancel,
    Rotate(usize),
    Revoke(usize),
    Use {
        token: usize,
        method: Bytes,
        path: Bytes,
    },
}

/// What a line says: a deed, its moment, and the nonce with which its request is signed.
#[derive(Drop)]
pub struct ScriptStep {
    /// In seconds since 1970.
    pub at: u64,
    /// 1 to 64 letters, digits, `.`, `_` or `-`.
    pub nonce: Bytes,
    pub deed: Deed,
}
