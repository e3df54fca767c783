//! The authorization server that derives tokens (RFC 9767, section 4).
//!
//! A resource server that has to call another one asks for a token of its own, by a client key that a pair ties to it, and presents the token that was
//! presented
//! to it, the parent. `DerivingServer` is a server and a front in the sense of `serving`, for the grant machine. For a grant request of a pair's client it
//! makes two
//! entries at one moment (`specs/DerivedTurns.antt`): the pair's server asks about the parent; where that is live, the grant is asked for, up to the parent's
//! end.
//! Where it isn't, the request is denied and nothing else is entered. All other messages have the turns that they have without pairs.
//!
//! So of the entries of one worker, a grant of a pair's client begins only next after a question of the pair's server that was answered active, and with that
//! end (`specs/DerivedSessions.antt`); and no token of a grant that was asked for with an end is told to be active at or after it (`laws::ends_with_its_term`).
//! That the parent is revoked later ends no token that was derived from it. `as_service` serves it at an address of a world.
#![tactic(auto)]

pub mod deriving_server;
pub mod laws;
mod workers;

pub use derivation_requests::{DeriveStep, Pairs, derive_body, derive_call, read_pairs};
pub use deriving_server::DerivingServer;
pub use workers::{DeriveWorker, serve_deriving, serve_deriving_workers};
