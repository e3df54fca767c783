//! What a file is opened for.
use bytes_and_lists::bytes::Bytes;
use gnap_model::objects::Setup;
use printed_answers::Kind;

/// What a file is opened for.
#[derive(Clone, Copy)]
pub enum Purpose<'a> {
    /// Its lines are a setup and calls, and the calls are answered.
    Replay,
    /// Its text is a structured field, whose canonical text is printed.
    Field(Kind),
    /// Its message is printed with the signature of this setup's key with this id, created at this moment, with this nonce where there is one.
    Sign(&'a Setup, &'a Bytes, u64, Option<&'a Bytes>),
    /// The key of this setup is printed that signed its message, as it stands at this moment.
    Verify(&'a Setup, u64),
}
