//! A resource server over HTTP (RFC 9635, section 7): what is written on its connections.
//!
//! `serve_resources` serves one connection: for each of its requests in order, the reply to what a `RequestGuard` answers. `serve_door` does so with all
//! connections of a gear, over one link and with one guard, and `serve_resources_at` opens link and gear in a world. So the exchanges of that link are those
//! of these requests, and no others, and what the guard keeps goes from request to request, over all connections. A connection ends as at the authorization
//! server (`serving`), and what is no request is refused in the same way.
#![tactic(auto)]

pub mod cached_connections;
pub mod connections;
pub mod doors;
mod guarded_link;
mod guarded_server;
pub mod laws;
mod replies;
mod service;
mod turns;

pub use cached_connections::serve_cached;
pub use connections::serve_resources;
pub use doors::serve_door;
pub use service::serve_resources_at;
