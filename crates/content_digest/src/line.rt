//! The field of a body.
ghost use Rattle.std.specs.Prelude.{◌≡◌, IfOk};
ghost use Rattle.content_digest.specs.Digest.{digest_text, text_of_digest};

use base64::engine::general_purpose::STANDARD;
use bytes_and_lists::bytes::Bytes;
use bytes_and_lists::memory::Mem;
use sha2::{Digest, Sha256};
use std::alloc::Global;

/// What the field of a SHA-256 digest begins with.
pub(crate) const FRONT: &[u8] = b"sha-256=:";

/// So many bytes such a field has: that, 44 letters of base64, and `:`.
pub(crate) const FIELD_LEN: usize = 54;

// It stands apart because a constant's tables are written out in the function that uses it, at its beginning.
pub(crate) fn text_of_digest(digest: &[u8; 32]) -> [u8; FIELD_LEN]
    ensures { result ≡ text_of_digest digest.now }
{
    let mut text = [b':'; FIELD_LEN];
    text[..FRONT.len()].copy_from_slice(FRONT);
    let _written = STANDARD.encode_slice(digest, &mut text[FRONT.len()..FIELD_LEN - 1]);
    text
}

/// The Content-Digest field of a body: its SHA-256 digest in base64 (RFC 9530, section 2).
pub fn digest_line(alloc: Global, body: &[u8]) -> Result<Bytes, Mem>
    ensures { IfOk result (λ b. b ≡ digest_text body.now) }
{
    Bytes::from_slice(alloc, &text_of_digest(&Sha256::digest(body)))
}
