//! A client of GNAP (RFC 9635): what it holds, the requests that it sends, and what it makes of replies.
//!
//! A `Client` is plain data in contracts. Each request call answers exactly the bytes that its definition says (`specs/Calls.antt`), and `take_reply`
//! leaves exactly what the reply hands out (`specs/Received.antt`): so after any list of calls and replies, lost, repeated or foreign ones among them,
//! what the client has is the fold of the replies that it took (`laws`).
#![tactic(auto)]

pub mod calls;
pub mod client;
pub mod config;
pub mod config_reading;
pub mod laws;
pub mod sending;
pub mod taking;

pub use calls::DueRequest;
pub use client::{Asked, Client, ClientFault, ReadReply, Received, State, Took};
pub use config::ClientConfig;
pub use config_reading::read_client_config;
pub use reply_readers::Interaction;
