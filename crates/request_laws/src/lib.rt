//! What follows from the definitions of `as_requests` and `call_replay`: a token's move to a new key is asked only where both keys signed, and an error that
//! is answered at once, over HTTP or to a line of a replay, has its cause.
//!
//! The functions of `laws` do nothing; their contracts are the laws, and `specs` has the statements.
#![tactic(auto)]

pub mod laws;
