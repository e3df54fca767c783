//! Grant requests and modifications as JSON, as a client sends them (RFC 9635, sections 2 and 5.3; RFC 9767, section 4).
//!
//! `grant_value` gives the JSON value that the definition `grant_data` says, and `grant_text` its compact text; `request_text` is the text of a request that
//! presents an existing token, from which another one is to be derived. Their only other answer is that memory ran out. By the law `laws::reads_back` what
//! `read_grant` reads of the value is the request, for each request that `read_grant` gives. Nothing here
//! keeps a state.
#![tactic(auto)]

pub mod grants;
mod interactions;
pub mod laws;
mod token_requests;

pub use grants::{grant_text, grant_value, request_text};
