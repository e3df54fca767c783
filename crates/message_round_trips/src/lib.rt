//! Ends of round trips over HTTP/1.1: what a client, a resource server or the command `sign` prints, a server or the command `verify` reads as it was.
//!
//! The printers and the reader of messages stand in crates that don't know each other, so the laws that join them stand here, above both. The functions of
//! `laws` do nothing; their contracts are the laws.
#![tactic(auto)]

pub mod laws;
