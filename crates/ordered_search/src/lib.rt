//! Searches by halves in lists that stand in the order of their keys.
//!
//! A search says which place a key has, and how many steps it takes at most: with n items `2^steps <= 2n + 1`. A step is a comparison of keys, counted by a
//! ledger that costs nothing when it runs.
#![tactic(auto)]

pub mod keyed;
pub mod search;
pub mod steps;

pub use keyed::Keyed;
pub use search::{place, place_of};
pub use steps::Steps;
