//! Replies of an authorization server, as a client and a resource server read them (RFC 9635, section 3; RFC 9767, section 3.3).
//!
//! `read_grant_reply` and `read_judgement` answer exactly what their definitions in `specs/` give for the status and the body, or that memory ran out.
//! A reply is read by its form, so that more is read than `gnap_replies` prints: other members, their order and white space aren't looked at. Nothing
//! here keeps a state.
#![tactic(auto)]

pub mod grant_reply;
mod grants;
pub mod introspections;
pub mod judgement;
mod members;
pub mod reading;
mod refusals;
mod tokens;
pub mod values;

pub use grant_reply::{GrantReply, Interaction, ReplyKind};
pub use introspections::read_judgement;
pub use judgement::Judgement;
pub use reading::read_grant_reply;
