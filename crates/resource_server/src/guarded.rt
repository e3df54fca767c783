//! What a resource server answers.
use bytes_and_lists::bytes::Bytes;
use std::fmt;

/// What a request comes to.
#[derive(Drop)]
pub enum Guarded {
    /// The route of this place, counted from 0, is shown.
    Allow(usize),
    /// It is refused with this HTTP status.
    Deny(u16, Why),
    /// The link to the authorization server failed.
    LinkFault,
    /// Memory ran out.
    Memory,
}

/// Why a request is refused.
#[derive(Drop)]
pub enum Why {
    /// No route has the path: 404.
    NoRoute,
    /// No route with the path has the method: 405.
    NoMethod,
    /// No token is presented: 401.
    NoToken,
    /// The authorization server's reply, which is here, says nothing of the token: 502.
    BadReply(Bytes),
    /// There is no such token: 401.
    Inactive,
    /// The token's rights don't cover the route's: 403.
    TooNarrow,
    /// The token's key hasn't signed the request: 401.
    Signature,
}

impl fmt::Display for Why {
    fn fmt<W: fmt::Write>(&self, f: &mut fmt::Formatter<W>) -> fmt::Result {
        f.write_str(match self {
            Why::NoRoute => "no route has the path",
            Why::NoMethod => "no route with the path has the method",
            Why::NoToken => "no token is presented",
            Why::BadReply(_) => "the authorization server's reply says nothing of the token",
            Why::Inactive => "there is no such token",
            Why::TooNarrow => "the token's rights don't cover the route's",
            Why::Signature => "the token's key hasn't signed the request",
        })
    }
}
