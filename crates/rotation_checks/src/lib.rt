//! Verifying the two signatures of a message that rotates a key (RFC 9635, section 6.1.1): it is signed under the old key, as any request, and again under the
//! new one, over the first signature. The crate `key_rotation` makes the second.
//!
//! The contracts speak of functions on data: `rotation_base` (`specs/RotationBase.antt`) and `rotated_keys` (`specs/Rotated.antt`), whose lines are the checks
//! in their order. So each fault of `verify_rotation` comes exactly where it is the first. The crate `signature_laws` says what they amount to.
//!
//! Want of memory is `OutOfMemory`, and changes nothing. The two fields are read once for both signatures.
#![tactic(auto)]

mod base;
mod components;
mod fault;
mod verifying;

pub use base::{base_over, base_with};
pub use fault::RotationFault;
pub use verifying::{RotatedKeys, verify_rotation};
