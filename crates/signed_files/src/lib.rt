//! Files that hold one HTTP request: signed, and verified (RFC 9421), as by a server with a setup.
//!
//! The contracts say what is answered to the text of a file: the text to print, or the name of the fault, which comes exactly where the rules of
//! `http_edge` on messages, or those of `message_signature` on signatures, have it first (`specs/MessageFiles`, `SignedText`, `Verdicts`). Want of
//! memory may come in place of any answer.
#![tactic(auto)]

mod fault;
mod message_file;
mod message_text;
mod signing;
mod verifying;

pub use fault::FileFault;
pub use signing::sign_file;
pub use verifying::verify_file;
