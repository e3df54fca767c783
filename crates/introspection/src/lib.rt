//! What an introspection is told of the row of a token (RFC 9767, section 3.3).
#![tactic(auto)]

pub mod judgement;

pub use judgement::{Judged, judge};
