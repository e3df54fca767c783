//! Replies, and those that are fixed.
ghost use Rattle.std.specs.Prelude.{◌≡◌, true, None, IfSome};
ghost use Rattle.std.specs.List.{list_all};
ghost use Rattle.http_edge.specs.Replies.{is_used, is_method_byte, plain_reply, busy_reply, fault_reply, MayWrite};

use crate::fault::EdgeFault;
use bytes_and_lists::bytes::Bytes;

/// What a reply has beside its status and its body.
#[derive(Drop)]
pub enum Extra {
    Nothing,
    /// The methods of a path, with commas and SP between them.
    Allow(Bytes),
    /// The challenge `GNAP`.
    Challenge,
}

/// A reply. Where it has a body, that is JSON.
#[derive(Drop)]
pub struct HttpReply {
    pub status: u16,
    pub extra: Extra,
    pub body: Option<Bytes>,
    /// The connection closes behind it.
    pub last: bool,
}

impl HttpReply {
    /// A reply of this status, with the challenge where that is 401.
    pub fn new(status: u16, body: Option<Bytes>, last: bool) -> HttpReply
        requires status { is_used status ≡ true }
        requires no_content { status ≡ 204 → body ≡ None }
        ensures value { result ≡ plain_reply status body last }
        ensures fits { MayWrite result }
    {
        let extra = if status == 401 {
            Extra::Challenge
        } else {
            Extra::Nothing
        };
        HttpReply {
            status,
            extra,
            body,
            last,
        }
    }

    /// The reply to a method that a path doesn't have, with those that it has.
    pub fn not_allowed(methods: Bytes, last: bool) -> HttpReply
        requires { list_all is_method_byte methods ≡ true }
        ensures value { result ≡ record { status = 405; extra = Extra.Allow methods; body = None; last = last } }
        ensures fits { MayWrite result }
    {
        HttpReply {
            status: 405,
            extra: Extra::Allow(methods),
            body: None,
            last,
        }
    }

    /// The reply where memory ran out.
    pub fn busy() -> HttpReply
        ensures value { result ≡ busy_reply }
        ensures fits { MayWrite result }
    {
        HttpReply::new(503, None, true)
    }
}

/// The last reply of a connection that ends with this fault, where one is written.
pub fn fault_reply(fault: EdgeFault) -> Option<HttpReply>
    ensures value { result ≡ fault_reply fault }
    ensures fits { IfSome result MayWrite }
{
    match fault {
        EdgeFault::BadHead => Some(HttpReply::new(400, None, true)),
        EdgeFault::TooLarge => Some(HttpReply::new(413, None, true)),
        EdgeFault::Coded => Some(HttpReply::new(501, None, true)),
        EdgeFault::Truncated => None,
        EdgeFault::ReadFault => None,
        EdgeFault::OutOfMemory => Some(HttpReply::busy()),
    }
}
