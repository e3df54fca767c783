//! HTTP message signatures (RFC 9421) with `hmac-sha256`: the signature base, signing, and verifying as GNAP asks for it (RFC 9635, section 7.3.1).
//!
//! The contracts speak of functions on data: `signature_base` (`specs/Base.antt`), `signed` (`specs/Signed.antt`) and `verified` (`specs/Verified.antt`), whose
//! lines are the checks in their order. So each fault of `verify` comes exactly where it is the first.
//! The crate `signature_laws` says what they amount to: a message is accepted for a key's id exactly where its signature is that key's, in time, and covers
//! what it must; and a message that was signed is accepted.
//!
//! Want of memory is `OutOfMemory`, and changes nothing. A field of one line is read where it stands, and the body is never copied. Of the fields of signatures
//! the one list with the tag is read, and kept up to its first component that has parameters, and the bytes under its label; other members are passed over, and
//! take no memory that stays.
#![tactic(auto)]

mod base;
mod base_template;
mod components;
mod demands;
mod fault;
mod list_shape;
mod lone;
mod marks;
mod reading;
mod signing;
mod tags;
mod verifying;

pub use base::{append_params_line, base_of, others_behind};
pub use components::{
    FieldValue, append_bytes, append_component, field_value, has_field, target_path,
};
pub use fault::{BaseFault, SigFault, SignFault};
pub use marks::{LATEST_CREATED, LONGEST_NONCE, SignatureMark, is_nonce, mark_of};
pub use signing::{covered_items, sign, sign_marked, signature_lines, signature_params};
pub use tags::{SignatureFields, TaggedSignature, signature_fields, tagged};
pub use verifying::{Verifier, check_tagged, judged_list, verify, verify_marked};
