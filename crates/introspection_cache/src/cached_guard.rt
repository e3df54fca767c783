//! Guarding requests with a cache.
ghost use Rattle.std.specs.Prelude.{◌≡◌, ◌≢◌, ◌<◌, ◌≤◌, ◌^◌, ℕ, Ok, Some, None, Err, length, IfOk, IsUtf8, IfSome};
ghost use Rattle.std.specs.List.{AllByRecursion};
ghost use Rattle.std.specs.Map.{lookup};
ghost use Rattle.std.specs.Str.{bytes_eq};
ghost use Rattle.lru.specs.LruCache.{promoted};
ghost use Rattle.access_rights.specs.Fits.{Fits};
ghost use Rattle.outside.specs.Outside.{Rose};
ghost use Rattle.resource_server.specs.Fits.{RsSetupFits};
ghost use Rattle.resource_server.specs.Guarding.{GuardsOver, IsAnswer, Judged};
ghost use Rattle.resource_server.specs.Introspecting.{introspection_text, IsAsked};
ghost use Rattle.resource_server.specs.Routing.{question_of};
ghost use Rattle.introspection_cache.specs.Caching.{Cache, Caches, fresh_to, new_cache};
ghost use Rattle.introspection_cache.specs.Seen.{kept_in, cache_of};
ghost use Rattle.introspection_cache.specs.declared.kept_reply.KeptReply.{KeptReply};
ghost use Rattle.resource_server.specs.declared.setup.RsSetup.{RsSetup};
ghost use Rattle.introspection_cache.specs.Steps.{exp_of, KeepsReply, KeepsJudged, AnswersAnew};

use crate::kept_reply::KeptReply;
use crate::replies::{Replies, forget, fresh_to, keep, promote};
use bytes_and_lists::bytes::Bytes;
use bytes_and_lists::memory::{Duplicate, Mem};
use bytes_and_lists::message::Message;
use gnap_model::rights::Rights;
use lru::LruCache;
use outside::link::{Link, LinkFault};
use reply_readers::Judgement;
use resource_server::{
    Guarded, RequestGuard, RsSetup, Why, answer_of, ask, introspection_text, judged, question,
    says, wanted_of,
};
use signed_requests::Scheme;
use std::alloc::Global;
use std::marker::Model;
use std::num::NonZeroUsize;

/// Guards requests, and keeps the replies by which they were let through, for 30 seconds at most and not beyond the token's end.
#[derive(Drop)]
pub struct CachedGuard {
    replies: Replies,
}

impl Model for CachedGuard {
    ghost use Rattle.introspection_cache.specs.Caching.{Cache};
    ghost use Rattle.introspection_cache.specs.Seen.{cache_of};

    ghost Value = { Cache };

    ghost view = { λ guard. cache_of guard.replies.entries guard.replies.cap };
}

// Until when the token is live.
fn exp_of(says: &Judgement) -> Option<u64>
    ensures { result ≡ exp_of says.now }
{
    match says {
        Judgement::Active { exp, .. } => Some(*exp),
        Judgement::Inactive => None,
    }
}

// The answer, whose reply is kept where the request is let through.
#[tactic(auto, using(crate::proofs::Keeping::keeps_it, crate::proofs::Keeping::keeps_no_room, crate::proofs::Keeping::keeps_denied, crate::proofs::Keeping::keeps_fault, crate::proofs::Keeping::keeps_memory))]
fn with_kept(replies: &mut Replies, text: Bytes, kept: KeptReply, answer: Guarded) -> Guarded
    requires new { lookup (bytes_eq text) (kept_in replies.old.entries) ≡ None }
    ensures keeps { KeepsReply replies.old.cap text kept (kept_in replies.old.entries) answer result (kept_in replies.new.entries) }
    ensures answer { (setup : RsSetup) → IsAnswer setup answer → IsAnswer setup result }
    ensures capacity { replies.new.cap ≡ replies.old.cap }
{
    match answer {
        Guarded::Allow(i) => match keep(replies, text, kept) {
            Ok(()) => Guarded::Allow(i),
            Err(Mem) => Guarded::Memory,
        },
        Guarded::Deny(status, why) => Guarded::Deny(status, why),
        Guarded::LinkFault => Guarded::LinkFault,
        Guarded::Memory => Guarded::Memory,
    }
}

// What a new reply to the question comes to. It is kept where the request is let through.
#[tactic(auto, using(resource_server::proofs::Putting::judged_by, resource_server::proofs::Putting::judged_starved, crate::proofs::Keeping::judged_kept, crate::proofs::Keeping::keeps_judged, crate::proofs::Keeping::keeps_inactive, crate::proofs::Keeping::keeps_bad, crate::proofs::Keeping::keeps_none))]
fn judge_new(
    replies: &mut Replies,
    alloc: Global,
    setup: &RsSetup,
    message: &Message,
    now: u64,
    i: usize,
    wanted: &Rights,
    text: Bytes,
    reply: Bytes,
) -> Guarded
    requires within { i < length setup.now.routes }
    requires new { lookup (bytes_eq text) (kept_in replies.old.entries) ≡ None }
    ensures judged { Judged setup.now message.now now i wanted.now (Ok reply) result }
    ensures keeps { KeepsJudged replies.old.cap text now reply (kept_in replies.old.entries) result (kept_in replies.new.entries) }
    ensures answer { IsAnswer setup.now result }
    ensures capacity { replies.new.cap ≡ replies.old.cap }
{
    let said = match says(alloc, reply.as_slice()) {
        Ok(Some(said)) => said,
        Ok(None) => return Guarded::Deny(502, Why::BadReply(reply)),
        Err(Mem) => return Guarded::Memory,
    };
    let Ok(answer) = answer_of(alloc, setup, message, now, i, wanted, &said) else {
        return Guarded::Memory;
    };
    match exp_of(&said) {
        Some(exp) => {
            let kept = KeptReply {
                reply,
                moment: now,
                exp,
            };
            with_kept(replies, text, kept, answer)
        }
        None => answer,
    }
}

// Asks the question, to which nothing is kept any more.
#[tactic(auto, using(crate::proofs::Keeping::never_asked, crate::proofs::Keeping::asked_reply, crate::proofs::Keeping::asked_fault, crate::proofs::Keeping::asked_no_room))]
fn ask_anew<L: Link>(
    replies: &mut Replies,
    alloc: Global,
    setup: &RsSetup,
    message: &Message,
    link: &mut L,
    now: u64,
    i: usize,
    wanted: &Rights,
    text: Bytes,
) -> Guarded
    requires now { now < 10 ^ 15 }
    requires setup { RsSetupFits setup.now }
    requires within { i < length setup.now.routes }
    requires new { lookup (bytes_eq text) (kept_in replies.old.entries) ≡ None }
    ensures anew { AnswersAnew setup.now message.now now i wanted.now text replies.old.cap (L.link link.old) (L.link link.new)
        (kept_in replies.old.entries) result (kept_in replies.new.entries) }
    ensures answer { IsAnswer setup.now result }
    ensures capacity { replies.new.cap ≡ replies.old.cap }
{
    let Ok(asked) = text.copy() else {
        return Guarded::Memory;
    };
    match ask(alloc, setup, link, now, asked) {
        Ok(reply) => judge_new(replies, alloc, setup, message, now, i, wanted, text, reply),
        Err(LinkFault::Failed) => Guarded::LinkFault,
        Err(LinkFault::OutOfMemory) => Guarded::Memory,
    }
}

// What a fresh reply to the question comes to, where one is kept. It then comes first.
fn answer_again(
    replies: &mut Replies,
    alloc: Global,
    setup: &RsSetup,
    message: &Message,
    now: u64,
    i: usize,
    wanted: &Rights,
    text: &[u8],
) -> Option<Guarded>
    requires within { i < length setup.now.routes }
    ensures again { IfSome result (λ answer. (r : KeptReply) × (fresh_to text.now now (kept_in replies.old.entries) ≡ Some r)
        × Judged setup.now message.now now i wanted.now (Ok r.reply) answer
        × (kept_in replies.new.entries ≡ promoted (bytes_eq text.now) (kept_in replies.old.entries))) }
    ensures none { result ≡ None → (fresh_to text.now now (kept_in replies.old.entries) ≡ None) × (replies.new.entries ≡ replies.old.entries) }
    ensures answer { IfSome result (IsAnswer setup.now) }
    ensures capacity { replies.new.cap ≡ replies.old.cap }
{
    let kept = fresh_to(replies, text, now)?;
    let answer = judged(alloc, setup, message, now, i, wanted, kept.reply.as_slice());
    promote(replies, text);
    Some(answer)
}

// Answers by the token for the right of the route at this place.
#[tactic(auto, using(resource_server::proofs::Places::right_fits))]
fn guard_by<L: Link>(
    replies: &mut Replies,
    alloc: Global,
    setup: &RsSetup,
    message: &Message,
    link: &mut L,
    now: u64,
    i: usize,
    scheme: Scheme,
    value: &[u8],
) -> Guarded
    requires now { now < 10 ^ 15 }
    requires setup { RsSetupFits setup.now }
    requires place { question_of setup.now.routes message.now ≡ Ok (i, (scheme, value.now)) }
    requires within { i < length setup.now.routes }
    requires value { IsUtf8 value.now }
    ensures guards { GuardsOver (λ exchanges answer. Caches setup.now message.now now (cache_of replies.old.entries replies.old.cap) exchanges answer
        (cache_of replies.new.entries replies.new.cap)) (L.link link.old) (L.link link.new) result }
    ensures answer { IsAnswer setup.now result }
{
    let Ok(wanted) = wanted_of(alloc, setup.routes.at(i)) else {
        return Guarded::Memory;
    };
    let Ok(text) = introspection_text(alloc, setup, &wanted, scheme, value) else {
        return Guarded::Memory;
    };
    match answer_again(
        replies,
        alloc,
        setup,
        message,
        now,
        i,
        &wanted,
        text.as_slice(),
    ) {
        Some(given) => given,
        None => {
            forget(replies, text.as_slice());
            ask_anew(replies, alloc, setup, message, link, now, i, &wanted, text)
        }
    }
}

// The first answer that applies.
fn first_answer<L: Link>(
    replies: &mut Replies,
    alloc: Global,
    setup: &RsSetup,
    message: &Message,
    link: &mut L,
    now: u64,
) -> Guarded
    requires now { now < 10 ^ 15 }
    requires setup { RsSetupFits setup.now }
    ensures guards { GuardsOver (λ exchanges answer. Caches setup.now message.now now (cache_of replies.old.entries replies.old.cap) exchanges answer
        (cache_of replies.new.entries replies.new.cap)) (L.link link.old) (L.link link.new) result }
    ensures answer { IsAnswer setup.now result }
{
    match question(setup, message) {
        Ok((i, scheme, value)) => guard_by(
            replies, alloc, setup, message, link, now, i, scheme, value,
        ),
        Err(refusal) => refusal,
    }
}

impl CachedGuard {
    /// A guard that keeps at most so many replies, and none yet. Its table takes its memory at once.
    ///
    /// The hash of questions has a fixed seed. Only questions about tokens by which requests were let through are kept, whose values the authorization
    /// server drew.
    pub fn new(alloc: Global, capacity: usize) -> Result<CachedGuard, Mem>
        requires { (1 ≤ capacity) × (capacity ≤ 16384) }
        ensures { IfOk result (λ guard. guard ≡ new_cache capacity) }
    {
        let Some(capacity) = NonZeroUsize::new(capacity) else {
            unreachable!();
        };
        match LruCache::new(alloc, capacity) {
            Ok(replies) => Ok(CachedGuard { replies }),
            Err(_) => Err(Mem),
        }
    }
}

impl RequestGuard for CachedGuard {
    ghost Kept = { Cache };

    ghost kept = { λ cache. cache };

    ghost guards = { λ setup message now before exchanges answer after. Caches setup message now before exchanges answer after };

    /// What the request comes to, as for `resource_server::guard`. Where a reply to the same question is kept that came at this moment or at most 30 seconds
    /// before, and by which the token still lasts, nothing is asked: that reply is judged. A moment before the reply's, since a clock may go back, is none
    /// of these. Another reply to the question goes out before it is asked. An answer that lets the request through keeps its reply, where question and
    /// reply have at most 13,500 bytes; where memory runs out for that, it is `Memory`.
    fn guard<L: Link>(
        &mut self,
        alloc: Global,
        message: &Message,
        setup: &RsSetup,
        link: &mut L,
        now: u64,
    ) -> Guarded {
        first_answer(&mut self.replies, alloc, setup, message, link, now)
    }
}
