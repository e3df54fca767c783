//! The replies of the authorization server as they go out: an HTTP status and, mostly, a compact JSON object (RFC 9635, section 3; RFC 9767, section
//! 3.3). Also what the server says of itself to clients and to resource servers.
//!
//! `print_reply` is exact for every reply of the machine: the status and the text are those of `specs/Responses`. Its only other answer is that memory
//! ran out. It is asked that the texts of the reply can be shown (`ReplyFits`), which holds of each reply in a legal history, and that the setup's two
//! addresses are UTF-8.
#![tactic(auto)]

pub mod discovery;
mod endpoints;
mod errors;
mod grants;
mod interactions;
mod introspections;
mod printer;
pub mod responses;
mod rights;
mod tokens;

pub use discovery::{print_client_discovery, print_server_discovery};
pub use responses::{print_error, print_reply};
