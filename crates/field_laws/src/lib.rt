//! What follows from the definitions of `structured_fields` and `content_digest`.
//!
//! A text of an item, a list or a dictionary has one value at most, which is in range, and the canonical text of a value in range reads as it (`texts`). Of a
//! Content-Digest field and a body one answer alone is so, and a written field fits its body (`digests`).
//! The functions do nothing: another crate cites a law by calling its function.
#![tactic(auto)]

pub mod digests;
pub mod texts;
