//! The nonces that are remembered, kept by the key that used them.
//!
//! `NonceStore` meets `Nonces`: its contracts say for each key and nonce up to which moment it is remembered, and how many are so at any moment. A look-up
//! compares O(log n) keys and nonces and takes no memory. A sweep takes out the seconds that are over, each with its nonces, and doesn't touch what stays.
#![tactic(auto)]

mod run;
mod seconds;
pub mod store;
mod sweeping;
mod texts;
mod trees;

pub use store::NonceStore;
