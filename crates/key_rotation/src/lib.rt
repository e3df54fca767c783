//! The rotation of a key by two signatures (RFC 9635, section 6.1.1): a message that is signed under the old key, as any request, and again under the new one,
//! over the first signature. The second is made here, and both are verified by the crate `rotation_checks`, whose `verify_rotation` is reachable here too.
//!
//! The contracts speak of functions on data: `rotation_base` (`rotation_checks/specs/RotationBase.antt`) and `signed_rotation` (`specs/SignedRotation.antt`).
//! The crate `signature_laws` says what they amount to: both keys are the answer exactly where each signature is its key's and the second covers the first, and
//! else each fault is the answer where it is the first; where the second covers the first, the text that it signs has the bytes and the list of the first; and
//! a message that was signed by both gives both keys.
//!
//! Want of memory is `OutOfMemory`, and changes nothing.
#![tactic(auto)]

mod base;
mod fault;
mod signing;

pub use base::rotation_base;
pub use fault::RotationSignFault;
pub use rotation_checks::{RotatedKeys, RotationFault, verify_rotation};
pub use signing::sign_rotation;
