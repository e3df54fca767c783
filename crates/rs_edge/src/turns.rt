//! One message's turn.
ghost use Rattle.std.specs.Prelude.{◌≡◌, ◌≢◌, IfOk};
ghost use Rattle.http_edge.specs.Replies.{reply_bytes, busy_reply, MayWrite};
ghost use Rattle.resource_server.specs.Fits.{RsSetupFits};
ghost use Rattle.resource_server.specs.Guarding.{IsAnswer};
ghost use Rattle.serving.specs.MessageTurns.{HasWrittenText, TakesTurn};
ghost use Rattle.rs_edge.specs.GuardedLinks.{guarded_link};
ghost use Rattle.rs_edge.specs.RsReplies.{rs_reply};
ghost use Rattle.rs_edge.specs.RsTurns.{IsRsTurn};

use crate::guarded_link::GuardedLink;
use crate::replies::answer_reply;
use bytes_and_lists::memory::Mem;
use bytes_and_lists::message::Message;
use http_edge::{HttpReply, WriteFault, write_reply};
use outside::device::{Sink, Source};
use outside::gear::Clock;
use outside::link::Link;
use resource_server::{Guarded, RequestGuard, RsSetup};
use serving::ends::AfterTurn;
use std::alloc::Global;

fn say<K: Sink>(reply: &HttpReply, conn: &mut K) -> AfterTurn
    requires { MayWrite reply.now }
    ensures written { HasWrittenText (reply_bytes reply.now) (K.told conn.old) (K.told conn.new) (K.faults conn.old) (K.faults conn.new) result }
    ensures fed { result ≢ AfterTurn.OutOfMemory }
{
    match write_reply(conn, reply) {
        Ok(()) => AfterTurn::MoreMayCome,
        Err(WriteFault) => AfterTurn::WriteFailed,
    }
}

fn say_busy<K: Sink>(conn: &mut K) -> AfterTurn
    ensures written { HasWrittenText (reply_bytes busy_reply) (K.told conn.old) (K.told conn.new) (K.faults conn.old) (K.faults conn.new) result }
    ensures starved { result ≢ AfterTurn.MoreMayCome }
{
    match write_reply(conn, &HttpReply::busy()) {
        Ok(()) => AfterTurn::OutOfMemory,
        Err(WriteFault) => AfterTurn::WriteFailed,
    }
}

// The reply to an answer that isn't want of memory.
fn reply_of(
    alloc: Global,
    setup: &RsSetup,
    message: &Message,
    answer: &Guarded,
    last: bool,
) -> Result<HttpReply, Mem>
    requires setup { RsSetupFits setup.now }
    requires answer { IsAnswer setup.now answer.now }
    ensures value { IfOk result (λ r. r ≡ rs_reply setup.now message.now last answer.now) }
    ensures fits { IfOk result MayWrite }
    ensures fed { IfOk result (λ _. answer.now ≢ Guarded.Memory) }
{
    match answer {
        Guarded::Memory => Err(Mem),
        Guarded::Allow(_) | Guarded::Deny(_, _) | Guarded::LinkFault => answer_reply(
            alloc, setup, message, answer, last,
        ),
    }
}

/// One message's turn: it is guarded, and the reply to the answer is written.
pub(crate) fn guarded_turn<K: RequestGuard, L: Link, S: Source + Sink, G: Clock>(
    alloc: Global,
    setup: &RsSetup,
    backend: &mut GuardedLink<'_, L, K>,
    conn: &mut S,
    gear: &mut G,
    message: &Message,
    last: bool,
) -> AfterTurn
    requires { RsSetupFits setup.now }
    ensures { (past : _) → (past.0 ≡ L.link backend.old.link.now) × (past.1 ≡ K.kept backend.old.guard.now)
        → TakesTurn (guarded_link L.link K.kept setup.now) (IsRsTurn K.guards setup.now) last message.now backend.old past backend.new
        (G.state gear.old) (G.state gear.new) (S.told conn.old) (S.told conn.new) (S.faults conn.old) (S.faults conn.new) result }
{
    let moment = gear.now();
    let answer = backend
        .guard
        .guard(alloc, message, setup, backend.link, moment);
    match reply_of(alloc, setup, message, &answer, last) {
        Ok(reply) => say(&reply, conn),
        Err(Mem) => say_busy(conn),
    }
}
