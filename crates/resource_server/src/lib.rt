//! A resource server of GNAP (RFC 9635, section 7; RFC 9767): the setup, and what a request comes to.
//!
//! `guard` asks the authorization server about the token of a request, once, for the right of the request's route, and lets the request through where the
//! token is live, its rights cover that right, and, where the token is bound to a key, that key has signed the request. `laws` says so in both
//! directions, and which cause each refusal has. Its steps can be called one by one: `question` finds the route and the token, `introspection_text` is the
//! question about it, `ask` exchanges it, and `judged` says what the reply comes to, by `says` and `answer_of`. `RequestGuard` is whoever guards requests one
//! after another: `AskingGuard` keeps nothing between them. `read_rs_setup` answers exactly what its definition gives for the bytes, or that memory ran out.
//! Nothing here keeps a state or knows how a message came.
#![tactic(auto)]

pub mod guarded;
pub mod guarding;
pub mod introspecting;
pub mod judging;
pub mod laws;
pub mod request_guard;
pub mod routing;
pub mod setup;
pub mod setup_reading;

pub use guarded::{Guarded, Why};
pub use guarding::guard;
pub use introspecting::{ask, introspection_text, wanted_of};
pub use judging::{answer_of, judged, says};
pub use request_guard::{AskingGuard, RequestGuard};
pub use routing::question;
pub use setup::{Route, Routes, RsSetup};
pub use setup_reading::read_rs_setup;
