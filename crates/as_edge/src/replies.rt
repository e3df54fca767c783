//! Replies of the authorization server over HTTP, ready to be written.
ghost use Rattle.std.specs.Prelude.{◌≡◌, IfOk, IsUtf8};
ghost use Rattle.gnap_objects.specs.CallsFit.{ReplyFits};
ghost use Rattle.gnap_replies.specs.Responses.{response_of};
ghost use Rattle.as_edge.specs.DirectReplies.{http_reply, allow_reply, direct_reply};

use as_requests::{DirectAnswer, Route};
use bytes_and_lists::bytes::Bytes;
use bytes_and_lists::memory::Mem;
use gnap_model::calls::Reply;
use gnap_model::objects::Setup;
use gnap_replies::discovery::{print_client_discovery, print_server_discovery};
use gnap_replies::responses::{print_error, print_reply};
use http_serving::ReadyReply;
use std::alloc::Global;

// The reply to a method that the route doesn't have.
fn not_allowed(alloc: Global, route: Route, last: bool) -> Result<ReadyReply, Mem>
    ensures { IfOk result (λ ready. ready ≡ allow_reply last route) }
{
    let methods = Bytes::from_slice(alloc, route.allowed_methods().as_bytes())?;
    Ok(ReadyReply::not_allowed(methods, last))
}

/// The HTTP reply for a reply of the machine: its status, the challenge `GNAP` at each 401 (RFC 9635, section 7.3), and its JSON body, where it has one.
/// `last` says that the connection closes behind it.
pub fn http_reply(
    alloc: Global,
    setup: &Setup,
    reply: &Reply,
    last: bool,
) -> Result<ReadyReply, Mem>
    requires base { IsUtf8 setup.now.base }
    requires front { IsUtf8 setup.now.front }
    requires reply { ReplyFits reply.now }
    ensures { IfOk result (λ ready. ready ≡ http_reply last (response_of setup.now reply.now)) }
{
    let (status, body) = print_reply(alloc, setup, reply)?;
    Ok(ReadyReply::new(status, body, last))
}

/// The HTTP reply for an answer that needs no state: 404; 405 with the methods of the route; 200 with what the server says of itself; an error with its
/// status and code.
pub fn print_direct(
    alloc: Global,
    setup: &Setup,
    answer: DirectAnswer,
    last: bool,
) -> Result<ReadyReply, Mem>
    requires { IsUtf8 setup.now.base }
    ensures { IfOk result (λ ready. ready ≡ direct_reply setup.now last answer) }
{
    match answer {
        DirectAnswer::NotFound => Ok(ReadyReply::new(404, None, last)),
        DirectAnswer::NotAllowed(route) => not_allowed(alloc, route, last),
        DirectAnswer::Discovery => {
            let text = print_client_discovery(alloc, setup.base.as_slice())?;
            Ok(ReadyReply::new(200, Some(text), last))
        }
        DirectAnswer::RsDiscovery => {
            let text = print_server_discovery(alloc, setup.base.as_slice())?;
            Ok(ReadyReply::new(200, Some(text), last))
        }
        DirectAnswer::Error(code) => {
            let (status, text) = print_error(alloc, code)?;
            Ok(ReadyReply::new(status, text, last))
        }
    }
}
