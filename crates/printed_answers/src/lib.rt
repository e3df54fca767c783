//! One answer to a file or to words, printed: the canonical text of a structured field, a message with its signature, who signed one, an interaction hash.
//!
//! The contracts say: what is printed is the exact answer, by RFC 9651 (`specs/Fields`), RFC 9421 (`specs/MessageAnswers`, and the definitions of
//! `signed_files`) and RFC 9635, section 4.2.3 (`specs/HashLines`); or a beginning of it where a write failed; or nothing.
#![tactic(auto)]

mod fields;
mod hash_lines;
mod signed_messages;

pub use fields::{Kind, print_field};
pub use hash_lines::{HashedTexts, print_hash};
pub use signed_messages::{print_signed, print_verdict};
