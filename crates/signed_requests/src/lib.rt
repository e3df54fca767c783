//! Signed requests of GNAP's clients and resource servers, as bytes (RFC 9112; RFC 9635, section 7.3.1).
//!
//! `signed_request`, and `marked_request` with a nonce in the signature, answer exactly the bytes of their definitions in `specs/Requests.antt`, or that
//! memory ran out: the request line, `Host`, `Connection: close`, `Authorization` where a token is presented, `Content-Type` and `Content-Digest` where
//! there is a body, the two fields of the signature, `Content-Length` where there is a body, an empty line, and the body.
#![tactic(auto)]

pub mod forms;
mod nonces;
mod request_bytes;
pub mod unsigned;

pub use forms::{is_method, is_target};
pub use nonces::line_nonce;
pub use unsigned::{Scheme, UnsignedRequest, marked_request, signed_request};
