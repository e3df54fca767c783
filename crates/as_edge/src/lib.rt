//! The authorization server over HTTP (RFC 9635, RFC 9767).
//!
//! `AuthorizationServer` is a server in the sense of `serving`, for the grant machine. By the front of `serving` and the reader of `http_serving` it is served
//! over HTTP. So what goes out on a connection is, for each of its requests in order, the reply to it (`specs/EdgeFace.antt`): what needs no call is answered
//! at once (`specs/DirectReplies.antt`), and for the others the reply of an entry in the machine's one history is printed. It asks for no call by itself, and
//! keeps nothing between two requests.
#![tactic(auto)]

pub mod authorization_server;
pub mod laws;
pub mod replies;

pub use authorization_server::AuthorizationServer;
pub use replies::{http_reply, print_direct};
pub use serving::connection::serve_connection;
pub use serving::threads::serve_workers;
pub use serving::worker::Worker;
