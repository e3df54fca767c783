//! What a call comes to, whatever keeps the state of the grant machine.
//!
//! What a setup says of a key, how a request is settled, what a decision leaves of it, whether a token suits a server, and what an entry draws: values, codes,
//! tokens and rounds. A core asks these of what it looked up.
#![tactic(auto)]

pub mod decided_asks;
pub mod deciding;
pub mod drawing;
pub mod keys;
pub mod limits;
pub mod opening;
pub mod settling;
pub mod suiting;
pub mod supply;
pub mod tokens;
pub mod user_codes;
