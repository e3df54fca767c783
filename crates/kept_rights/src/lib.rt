//! Rights and asks, each list kept in one run of bytes, in place of a vector for each text and each list of texts.
//!
//! Contracts see of `KeptRights` and `KeptAsks` the list that was kept, as of `Rights` and `Asks`. `specs/Written` says which bytes stand for a list,
//! `specs/Reading`
//! what is read out of bytes, of any bytes; what was written is read again.
#![tactic(auto)]

pub mod asks;
mod form;
mod lengths;
mod members;
pub mod rights;

pub use asks::KeptAsks;
pub use rights::KeptRights;
