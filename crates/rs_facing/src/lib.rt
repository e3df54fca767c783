//! The server of resource sets over HTTP (RFC 9767, section 3.4): resource servers register sets of rights, and resource servers and the consent front ask what
//! a reference means.
//!
//! `set_call` says what a request asks: a call of the machine of `resource_sets`, or an answer that needs no state (`specs/SetRequests.antt`). `SetServer` is a
//! server in the sense of `serving` for that machine, so what goes out on a connection is, for each of its requests in order, the reply to it
//! (`specs/SetFace.antt`, `specs/SetReplies.antt`). `serve_sets_at` serves it at an address of a world. Its contract has one legal history of sets behind all
//! that the gears tell, in which a reference that was handed out keeps its meaning (`specs/SetServices.antt`).
#![tactic(auto)]

pub mod laws;
mod service;
pub mod set_replies;
pub mod set_requests;
pub mod set_server;

pub use resource_sets::set_table::SetTable;
pub use resource_sets::sets::{SetCall, SetNote, SetReply, Sets};
pub use service::serve_sets_at;
pub use serving::connection::serve_connection as serve_set_connection;
pub use serving::threads::serve_workers as serve_set_workers;
pub use set_requests::{SetAnswer, SetRoute, SetStep, set_call};
pub use set_server::{SetServer, SetWorker};
