//! What follows from the definitions of `message_signature`, `rotation_checks` and `key_rotation`.
//!
//! A message is accepted for a key's id exactly where its signature is that key's, in time, and covers what it must (`acceptance`), and one that was
//! signed is accepted (`signing`). Of two signatures (`rotation`): both keys are the answer exactly where each signature is its key's and the second
//! covers the first, and else each fault is the answer where it is the first; where the second covers the first, the text that it signs has the bytes and
//! the list of the first; and a message that was signed by both gives both keys.
//! The functions do nothing: another crate cites a law by calling its function.
#![tactic(auto)]

pub mod acceptance;
pub mod rotation;
pub mod signing;
