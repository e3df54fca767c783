//! HTTP/1 at the edge (RFC 9112): requests out of bytes, replies into bytes and out of bytes.
#![tactic(auto)]

mod fault;
mod framing;
mod held;
pub mod laws;
mod messages;
mod places;
mod reading;
mod reply;
mod reply_reading;
mod request_heads;
mod writing;

pub use fault::EdgeFault;
pub use held::Held;
pub use reading::next_message;
pub use reply::{Extra, HttpReply, fault_reply};
pub use reply_reading::{ReplyFault, read_reply};
pub use writing::{WriteFault, write_reply};
