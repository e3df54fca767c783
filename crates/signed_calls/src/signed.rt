//! Calls with what their signatures say of themselves, and the notes that the machine with marks leaves. Moments are in seconds since 1970-01-01.
use bytes_and_lists::bytes::Bytes;
use gnap_model::calls::Call;
use gnap_model::notes::Note;

/// What a signature says of itself (RFC 9421, section 2.3).
#[derive(Drop)]
pub struct Mark {
    /// What the signer made for this signature alone.
    pub nonce: Bytes,
    /// The moment of the signature.
    pub created: u64,
}

/// A call as it was signed.
#[derive(Drop)]
pub struct Signed {
    /// The signature's mark, where it has one.
    pub mark: Option<Mark>,
    /// The call.
    pub call: Call,
}

/// A key used a nonce.
#[derive(Drop)]
pub struct NonceNote {
    /// The id of the key.
    pub key: Bytes,
    /// The nonce.
    pub nonce: Bytes,
    /// It is remembered up to this moment, and at it.
    pub until: u64,
}

/// What an entry of the machine with marks notes.
#[derive(Drop)]
pub enum SignedNote {
    /// A key used a nonce.
    Nonce(NonceNote),
    /// What the machine without marks notes.
    Plain(Note),
}
