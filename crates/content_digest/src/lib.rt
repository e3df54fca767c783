//! The Content-Digest field of HTTP (RFC 9530): the digest of a body by SHA-256, and whether a field that came with a body is of it.
//!
//! `check` answers Ok exactly where the field is a dictionary whose members under `sha-256` and `sha-512` are the digests of the body, with one of the two at
//! least. Each of its faults has one cause (`specs/Judged.antt`), and of a field and a body one answer alone is so (`field_laws`).
//! The digests are FIPS 180-4 as the crate `sha2` states it. What `digest_line` writes fits its body (`field_laws`).
#![tactic(auto)]

mod checking;
mod fault;
mod line;

pub use checking::check;
pub use fault::DigestFault;
pub use line::digest_line;
