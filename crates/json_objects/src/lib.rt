//! JSON objects (RFC 8259), read member by member and made member by member.
//!
//! A reader answers exactly what its definition in `specs/` gives for the JSON value, or that memory ran out; what is made is the JSON value that the
//! definition says. The numbers of a body are whole ones from -2^63 to 2^64 - 1, and an object's members stand in the ascending byte order of their
//! names. Nothing here keeps a state.
#![tactic(auto)]

pub mod body;
pub mod drafts;
pub mod members;
pub mod sizes;
pub mod text_set;
pub mod values;

pub use body::{BodyFault, has_fraction, read_body};
pub use drafts::{Draft, lone_value, word_value};
pub use members::{member, member_within, other_member};
pub use text_set::TextSet;
pub use values::{compact_text, optional_value, put, text_value, texts_value};
