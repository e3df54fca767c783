//! HTTP as what connections bring to a server: requests are read, and replies written.
//!
//! What a server of `serving` needs of HTTP is here once: `HttpReader`, which reads requests and refuses what is none, the fixed 503, and replies that may
//! be written. How requests stand in the bytes of a connection is `specs/EdgeWire.antt`. Nothing here knows what a request asks.
#![tactic(auto)]

mod http_reader;
mod ready_reply;
mod requests;

pub use http_reader::{Ended, HttpFront, HttpReader};
pub use ready_reply::ReadyReply;
pub use requests::write_busy;
