//! What a reply of the authorization server comes to.
ghost use Rattle.std.specs.Prelude.{◌≡◌, ◌⊎◌, ◌<◌, length, Ok, IfOk};
ghost use Rattle.resource_server.specs.declared.guarded.Why.TheVariants as why;
ghost use Rattle.resource_server.specs.declared.setup.RsSetup.{RsSetup};
ghost use Rattle.resource_server.specs.Guarding.{has_signed, answer_of, Judged, SaysToken, IsAnswer};

use crate::guarded::{Guarded, Why};
use crate::setup::RsSetup;
use access_rights::covers;
use bytes_and_lists::bytes::Bytes;
use bytes_and_lists::memory::Mem;
use bytes_and_lists::message::Message;
use gnap_model::rights::Rights;
use http_edge::{ReplyFault, read_reply};
use message_signature::{SigFault, verify};
use reply_readers::{Judgement, read_judgement};
use std::alloc::Global;

/// What the bytes of a reply say of a token: what `reply_readers::read_judgement` gives for its status and its body. `None` where they say nothing of the
/// kind, or are no reply.
#[tactic(auto, using(crate::proofs::Sayings::says_none, crate::proofs::Sayings::says_by))]
pub fn says(alloc: Global, bytes: &[u8]) -> Result<Option<Judgement>, Mem>
    ensures { IfOk result (SaysToken bytes.now) }
{
    match read_reply(alloc, bytes) {
        Ok((status, body)) => read_judgement(alloc, status, body.as_slice()),
        Err(ReplyFault::NotAReply) => Ok(None),
        Err(ReplyFault::OutOfMemory) => Err(Mem),
    }
}

// A bound token's key has signed the message.
fn has_signed(
    alloc: Global,
    setup: &RsSetup,
    message: &Message,
    now: u64,
    key: &Option<Bytes>,
) -> Result<bool, Mem>
    ensures { IfOk result (λ b. b ≡ has_signed setup.now message.now now key.now) }
{
    let Some(key) = key else {
        return Ok(true);
    };
    let tag = Bytes::from_slice(alloc, b"gnap")?;
    match verify(alloc, message, &setup.base, &setup.ring, now, &tag) {
        Ok(id) => Ok(id.as_slice() == key.as_slice()),
        Err(SigFault::OutOfMemory) => Err(Mem),
        Err(_) => Ok(false),
    }
}

/// What a request comes to at this moment, for the route at this place, which needs these rights, where this is said of its token.
pub fn answer_of(
    alloc: Global,
    setup: &RsSetup,
    message: &Message,
    now: u64,
    i: usize,
    wanted: &Rights,
    says: &Judgement,
) -> Result<Guarded, Mem>
    requires within { i < length setup.now.routes }
    ensures value { IfOk result (λ g. g ≡ answer_of setup.now message.now now i wanted.now says.now) }
    ensures answer { IfOk result (IsAnswer setup.now) }
{
    let (access, key) = match says {
        Judgement::Inactive => return Ok(Guarded::Deny(401, Why::Inactive)),
        Judgement::Active { access, key, .. } => (access, key),
    };
    if !covers(access, wanted) {
        return Ok(Guarded::Deny(403, Why::TooNarrow));
    }
    if has_signed(alloc, setup, message, now, key)? {
        Ok(Guarded::Allow(i))
    } else {
        Ok(Guarded::Deny(401, Why::Signature))
    }
}

// A reply that says nothing of a token.
fn bad_reply(alloc: Global, reply: &[u8]) -> Guarded
    ensures value { (result ≡ Guarded.Deny 502 (why.BadReply reply.now)) ⊎ (result ≡ Guarded.Memory) }
    ensures answer { (setup : RsSetup) → IsAnswer setup result }
{
    match Bytes::from_slice(alloc, reply) {
        Ok(reply) => Guarded::Deny(502, Why::BadReply(reply)),
        Err(Mem) => Guarded::Memory,
    }
}

/// What the reply comes to at this moment, for the route at this place, which needs these rights.
#[tactic(auto, using(crate::proofs::Putting::judged_by, crate::proofs::Putting::judged_bad, crate::proofs::Putting::judged_starved))]
pub fn judged(
    alloc: Global,
    setup: &RsSetup,
    message: &Message,
    now: u64,
    i: usize,
    wanted: &Rights,
    reply: &[u8],
) -> Guarded
    requires within { i < length setup.now.routes }
    ensures judged { Judged setup.now message.now now i wanted.now (Ok reply.now) result }
    ensures answer { IsAnswer setup.now result }
{
    match says(alloc, reply) {
        Ok(Some(says)) => match answer_of(alloc, setup, message, now, i, wanted, &says) {
            Ok(answer) => answer,
            Err(Mem) => Guarded::Memory,
        },
        Ok(None) => bad_reply(alloc, reply),
        Err(Mem) => Guarded::Memory,
    }
}
