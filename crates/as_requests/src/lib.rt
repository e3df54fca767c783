//! What an HTTP request asks of the authorization server (RFC 9635, RFC 9767): a call of its machine, or an answer that needs no state.
//!
//! `desk_call` answers exactly what the definition of that name gives (`specs/DeskCalls.antt`), for every message, or that memory ran out: the route and
//! its method (`specs/Routes.antt`), the signature and its mark (`message_signature`, `specs/Signers.antt`), the call that the body is (`gnap_objects`), and
//! the second signature of a rotation that names a key (`rotation_checks`, `specs/KeyRotations.antt`), in this order. Nothing here keeps a state or knows how a
//! message came and how an answer is printed. A call that is asked can be taken: its texts can be shown, it has at most 8 asks, and its mark, where it has
//! one, a nonce of 1 to 64 bytes.
//!
//! The crate `request_laws` says what this amounts to: a token's move to a new key is asked only where both keys signed, and an error that is answered at
//! once has its cause.
#![tactic(auto)]

pub mod authorization;
pub mod desk_calls;
pub mod edge;
mod key_rotations;
pub mod request_reader;
pub mod routes;
pub mod signers;

pub use authorization::presented_value;
pub use desk_calls::{DirectAnswer, RequestStep, desk_call};
pub use edge::Edge;
pub use request_reader::RequestReader;
pub use routes::{Purpose, Route};
pub use signers::{Signer, find_signer};
