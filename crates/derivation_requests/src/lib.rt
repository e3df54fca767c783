//! What a grant request asks by which a resource server derives a token of its own from one that was presented to it (RFC 9767, section 4).
//!
//! A setup names a client key for this use, and a file of pairs ties it to the resource server: `read_pairs` answers exactly what the definition `pairs_of`
//! gives for the text and the setup (`specs/Pairs.antt`), or that memory ran out. `derive_call` is a function of what `as_requests::desk_call` answers
//! (`specs/Deriving.antt`): for a grant request of a pair's client it finds the parent, the token that is presented in `existing_access_token`, and the
//! server of the pair; of all other requests it changes nothing. `derive_body` is the body that asks so. Nothing here keeps a state.
#![tactic(auto)]

pub mod derive_calls;
mod pair_reading;
pub mod pairs;
pub mod request_bodies;

pub use derive_calls::{DeriveStep, derive_call};
pub use pair_reading::read_pairs;
pub use pairs::Pairs;
pub use request_bodies::derive_body;
