//! Replies.
ghost use Rattle.std.specs.Prelude.{◌≡◌, ◌≤◌, ◌∷◌, ◌++◌, [], true, IfOk, OnOk, IsUtf8, Some, slice_get};
ghost use Rattle.std.specs.List.{list_all};
ghost use Rattle.serde_json.specs.View.{view};
ghost use Rattle.json_objects.specs.Objects.{object_of};
ghost use Rattle.structured_fields.specs.Canonical.{further_text};
ghost use Rattle.http_edge.specs.Replies.{is_method_byte, plain_reply, MayWrite};
ghost use Rattle.resource_server.specs.Fits.{RsSetupFits};
ghost use Rattle.resource_server.specs.Guarding.{status_of, IsAnswer};
ghost use Rattle.rs_edge.specs.RsReplies.{shown_fields, shown_text, methods_at, allow_text, allow_reply, refusal_reply, rs_reply};

use bytes_and_lists::bytes::Bytes;
use bytes_and_lists::memory::Mem;
use bytes_and_lists::message::Message;
use http_edge::HttpReply;
use json_objects::{Draft, compact_text, text_value};
use message_signature::target_path;
use resource_server::{Guarded, Route, Routes, RsSetup, Why};
use serde_json::Value;
use std::alloc::Global;

fn shown_value(alloc: Global, text: &[u8]) -> Result<Value, Mem>
    requires { IsUtf8 text.now }
    ensures { IfOk result (λ v. view v ≡ object_of (shown_fields text.now)) }
{
    Draft::new(alloc)
        .with("text", text_value(alloc, text))
        .value()
}

fn shown_text(alloc: Global, text: &[u8]) -> Result<Bytes, Mem>
    requires { IsUtf8 text.now }
    ensures { IfOk result (λ b. b ≡ shown_text text.now) }
{
    compact_text(alloc, &shown_value(alloc, text)?)
}

fn push_behind(out: &mut Bytes, method: &[u8]) -> Result<(), Mem>
    ensures { OnOk result (out.new ≡ out.old ++ further_text (44 ∷ 32 ∷ []) (λ m. m) (method.now ∷ [])) }
{
    out.extend(b", ")?;
    out.extend(method)
}

// The methods of the path, each with `, ` before it.
fn methods_behind(alloc: Global, path: &[u8], routes: &Routes) -> Result<Bytes, Mem>
    ensures { IfOk result (λ b. b ≡ further_text (44 ∷ 32 ∷ []) (λ m. m) (methods_at path.now routes.now)) }
{
    let mut out = Bytes::new(alloc);
    for route in routes.as_slice() {
        if route.has_path(path) {
            push_behind(&mut out, route.method.as_slice())?;
        }
    }
    Ok(out)
}

#[tactic(auto, using(crate::proofs::Methods::without_first))]
fn allow_text(alloc: Global, path: &[u8], routes: &Routes) -> Result<Bytes, Mem>
    ensures { IfOk result (λ b. b ≡ allow_text (methods_at path.now routes.now)) }
{
    let all = methods_behind(alloc, path, routes)?;
    match all.as_slice().get(2..) {
        Some(rest) => Bytes::from_slice(alloc, rest),
        None => Ok(Bytes::new(alloc)),
    }
}

fn allow_reply(
    alloc: Global,
    setup: &RsSetup,
    message: &Message,
    last: bool,
) -> Result<HttpReply, Mem>
    requires { RsSetupFits setup.now }
    ensures value { IfOk result (λ r. r ≡ allow_reply setup.now.routes message.now last) }
    ensures fits { IfOk result MayWrite }
{
    let path = target_path(message.target.as_slice());
    Ok(HttpReply::not_allowed(allow_text(alloc, path, &setup.routes)?, last))
}

fn shown_reply(alloc: Global, route: &Route, last: bool) -> Result<HttpReply, Mem>
    requires { IsUtf8 route.now.text }
    ensures value { IfOk result (λ r. r ≡ plain_reply 200 (Some (shown_text route.now.text)) last) }
    ensures fits { IfOk result MayWrite }
{
    let text = shown_text(alloc, route.text.as_slice())?;
    Ok(HttpReply::new(200, Some(text), last))
}

fn refusal_reply(
    alloc: Global,
    setup: &RsSetup,
    message: &Message,
    last: bool,
    why: &Why,
) -> Result<HttpReply, Mem>
    requires { RsSetupFits setup.now }
    ensures value { IfOk result (λ r. r ≡ refusal_reply setup.now message.now last (status_of why.now) why.now) }
    ensures fits { IfOk result MayWrite }
{
    match why {
        Why::NoRoute => Ok(HttpReply::new(404, None, last)),
        Why::NoMethod => allow_reply(alloc, setup, message, last),
        Why::NoToken => Ok(HttpReply::new(401, None, last)),
        Why::BadReply(_) => Ok(HttpReply::new(502, None, last)),
        Why::Inactive => Ok(HttpReply::new(401, None, last)),
        Why::TooNarrow => Ok(HttpReply::new(403, None, last)),
        Why::Signature => Ok(HttpReply::new(401, None, last)),
    }
}

/// The reply to what the request came to.
#[tactic(auto, using(crate::proofs::Methods::text_at))]
pub(crate) fn answer_reply(
    alloc: Global,
    setup: &RsSetup,
    message: &Message,
    answer: &Guarded,
    last: bool,
) -> Result<HttpReply, Mem>
    requires setup { RsSetupFits setup.now }
    requires answer { IsAnswer setup.now answer.now }
    ensures value { IfOk result (λ r. r ≡ rs_reply setup.now message.now last answer.now) }
    ensures fits { IfOk result MayWrite }
{
    match answer {
        Guarded::Allow(i) => shown_reply(alloc, setup.routes.at(*i), last),
        Guarded::Deny(_, why) => refusal_reply(alloc, setup, message, last, why),
        Guarded::LinkFault => Ok(HttpReply::new(502, None, last)),
        Guarded::Memory => Ok(HttpReply::busy()),
    }
}
