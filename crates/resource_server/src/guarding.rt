//! Guarding a request.
ghost use Rattle.std.specs.Prelude.{◌≡◌, ◌<◌, ◌^◌, Ok, length, IsUtf8};
ghost use Rattle.outside.specs.Outside.{Rose};
ghost use Rattle.resource_server.specs.Fits.{RsSetupFits};
ghost use Rattle.resource_server.specs.Guarding.{Guards, GuardsOver, IsAnswer};
ghost use Rattle.resource_server.specs.Routing.{question_of};

use crate::guarded::Guarded;
use crate::introspecting::{ask, introspection_text, wanted_of};
use crate::judging::judged;
use crate::routing::question;
use crate::setup::RsSetup;
use bytes_and_lists::message::Message;
use outside::link::{Link, LinkFault};
use signed_requests::Scheme;
use std::alloc::Global;

// Introspects the token for the right of the route at this place.
#[tactic(auto, using(crate::proofs::Places::right_fits))]
fn guard_by<L: Link>(
    alloc: Global,
    message: &Message,
    setup: &RsSetup,
    link: &mut L,
    now: u64,
    i: usize,
    scheme: Scheme,
    value: &[u8],
) -> Guarded
    requires now { now < 10 ^ 15 }
    requires setup { RsSetupFits setup.now }
    requires place { question_of setup.now.routes message.now ≡ Ok (i, (scheme, value.now)) }
    requires within { i < length setup.now.routes }
    requires value { IsUtf8 value.now }
    ensures guards { GuardsOver (Guards setup.now message.now now) (L.link link.old) (L.link link.new) result }
    ensures answer { IsAnswer setup.now result }
{
    let Ok(wanted) = wanted_of(alloc, setup.routes.at(i)) else {
        return Guarded::Memory;
    };
    let Ok(text) = introspection_text(alloc, setup, &wanted, scheme, value) else {
        return Guarded::Memory;
    };
    match ask(alloc, setup, link, now, text) {
        Ok(reply) => judged(alloc, setup, message, now, i, &wanted, reply.as_slice()),
        Err(LinkFault::Failed) => Guarded::LinkFault,
        Err(LinkFault::OutOfMemory) => Guarded::Memory,
    }
}

// The first answer that applies.
#[tactic(auto, using(crate::proofs::Putting::refused_now))]
fn first_answer<L: Link>(
    alloc: Global,
    message: &Message,
    setup: &RsSetup,
    link: &mut L,
    now: u64,
) -> Guarded
    requires now { now < 10 ^ 15 }
    requires setup { RsSetupFits setup.now }
    ensures guards { GuardsOver (Guards setup.now message.now now) (L.link link.old) (L.link link.new) result }
    ensures answer { IsAnswer setup.now result }
{
    match question(setup, message) {
        Ok((i, scheme, value)) => guard_by(alloc, message, setup, link, now, i, scheme, value),
        Err(refusal) => refusal,
    }
}

/// What the request comes to at this moment, in seconds since 1970: the first of these that applies.
///
/// `Deny(404, NoRoute)` where no route has its path, the target before the first `?`; `Deny(405, NoMethod)` where none of those has its method;
/// `Deny(401, NoToken)` where there isn't exactly one `Authorization` field, or it isn't the scheme `GNAP` or `Bearer` in any case, one SP and a value
/// (`reply_readers::values::is_value`). Then the token is introspected over the link, by one request, for the right of its route (RFC 9767, section 3.3):
/// `LinkFault` where that exchange failed; `Deny(502, BadReply)` where the reply is none to an introspection; `Deny(401, Inactive)`;
/// `Deny(403, TooNarrow)` where the token's rights don't cover the route's; `Deny(401, Signature)` where the token is bound and
/// `message_signature::verify` with the tag `gnap` doesn't give the key that the reply names; else `Allow`. `Memory` may come at any time.
///
/// `LinkFault` comes only where the link's count of faults rose.
#[tactic(auto, using(crate::proofs::Allowing::fault_rose))]
pub fn guard<L: Link>(
    alloc: Global,
    message: &Message,
    setup: &RsSetup,
    link: &mut L,
    now: u64,
) -> Guarded
    requires now { now < 10 ^ 15 }
    requires setup { RsSetupFits setup.now }
    ensures guards { GuardsOver (Guards setup.now message.now now) (L.link link.old) (L.link link.new) result }
    ensures answer { IsAnswer setup.now result }
    ensures cause { result ≡ Guarded.LinkFault → Rose (L.link link.old).faults (L.link link.new).faults }
{
    first_answer(alloc, message, setup, link, now)
}
