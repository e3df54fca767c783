//! A resource server that keeps what the authorization server said of a token for 30 seconds (RFC 9767, section 3.3).
//!
//! `CachedGuard` guards requests as `resource_server::guard` does, and keeps the replies by which requests were let through. Where a reply to the question of
//! a request is kept and fresh, nothing is asked: the kept reply is judged anew, at this moment and for this request, so that the client's signature is
//! verified each time. `laws` say what it takes that a request is let through, that a fresh reply spares the exchange, and that what is kept came from the
//! link at its moment. A token that was revoked may be let through for 30 seconds more.
#![tactic(auto)]

pub mod cached_guard;
pub mod kept_reply;
pub mod laws;
mod replies;

pub use cached_guard::CachedGuard;
pub use kept_reply::KeptReply;
