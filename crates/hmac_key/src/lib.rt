//! HMAC-SHA-256 (RFC 2104 over SHA-256), and the secrets that it is keyed with.
//!
//! `hmac` is the RFC's function itself (`specs/Hmac.antt`), with SHA-256 as the crate `sha2` states it from FIPS 180-4. A `Keyring` holds secrets under
//! distinct ids, in the order in which they came; contracts see the list of ids and secrets.
//! Only `Keyring::add` takes memory. `same` takes the time that the lengths ask for, wherever the bytes differ: that is so by its construction, and not proved.
#![tactic(auto)]

mod keyring;
mod mac;

pub use keyring::Keyring;
pub use mac::{HmacKey, hmac, same};
