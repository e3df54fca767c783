//! The steps of a call: a ticket, the wait for the turn, the core's step, and the hand-on.
ghost use Rattle.std.specs.Prelude.{◌≡◌, ◌≢◌, ℕ, ◌+◌, ◌*◌, ◌<◌, ◌≤◌, ◌^◌, true, false, List, [], ◌∷◌, ◌++◌, length, Some, IfOk, OnErr, IsOk};
ghost use Rattle.histories.specs.History.{last_moment};
ghost use Rattle.histories.specs.Steps.{Answers, Lapses};
ghost use Rattle.shared_server.specs.Rule.{drawn, on, HasTurn};
ghost use Rattle.shared_server.specs.Seats.{IsTable, IsSame, CanDraw, CanLook, CanHand, Added, AddedReply};

use crate::giving_way::give_way;
use crate::rule::{Draw, EntryOf, Hand, Look, Mark, SeatOf, Told, Top};
use crate::words::{SERVING, TICKET, word_of};
use bytes_and_lists::memory::Mem;
use histories::machine::{Core, Machine};
use random_words::RandomWords;
use std::marker::Brand;
use std::sync::Wait;

/// How often a worker looks before it sleeps, which takes some twenty microseconds, longer than most steps of a core. It looks again at once, without the hint
/// for such loops, which would take as long as thirty looks: its turn then begins as soon as the one before it ends.
const LOOKS: u32 = 16_000;

/// How many turns before its own a worker is woken, so that it looks already when its turn comes.
const AHEAD: u64 = 1;

// Draws a ticket.
fn take_ticket<C: Core>(top: &Top<C>, seat: &mut SeatOf<C>) -> u64
    requires table { IsTable top.now.table_id seat.old.table_id }
    requires may { CanDraw seat.old.me }
    ensures seat { IsSame seat.old seat.new }
    ensures drawn { seat.new.me ≡ (drawn seat.old.me.0 result, seat.old.me.1) }
{
    top.fetch_add::<Draw>(seat, TICKET, 1)
}

// Waits until the ticket is served, and takes the slot with the core.
fn wait_for_turn<C: Core, R: Wait>(rt: &R, top: &Top<C>, seat: &mut SeatOf<C>, ticket: u64)
    requires table { IsTable top.now.table_id seat.old.table_id }
    requires may { CanLook seat.old.me × (ticket ≡ seat.old.me.0.ticket) }
    ensures seat { IsSame seat.old seat.new }
    ensures turn { HasTurn (λ b. C.stands b.value) (λ b. C.rules b.value) seat.old.me seat.new.me }
{
    let mut looks = 0;
    for _ in rt.forever() {
        let serving = top.load::<Look<C>>(seat, SERVING);
        if serving == ticket {
            return;
        }
        if looks < LOOKS && ticket.wrapping_sub(serving) <= AHEAD {
            looks += 1;
        } else {
            sleep(rt, top, seat, ticket);
            looks = 0;
        }
    }
    unreachable!()
}

// Writes whether somebody sleeps on a word, and answers what stood there.
fn mark<C: Core>(top: &Top<C>, seat: &mut SeatOf<C>, word: usize, sleeps: u64) -> u64
    requires table { IsTable top.now.table_id seat.old.table_id }
    requires word { (8 < word) × (word < 528) }
    ensures seat { IsSame seat.old seat.new }
    ensures stays { seat.new.me ≡ seat.old.me }
{
    top.swap::<Mark>(seat, word, sleeps)
}

// Sleeps until the ticket is served, or for no reason. Who serves it between the mark and the sleep takes the mark away first.
fn sleep<C: Core, R: Wait>(rt: &R, top: &Top<C>, seat: &mut SeatOf<C>, ticket: u64)
    requires table { IsTable top.now.table_id seat.old.table_id }
    ensures seat { IsSame seat.old seat.new }
    ensures stays { seat.new.me ≡ seat.old.me }
{
    let word = word_of(ticket);
    mark(top, seat, word, 1);
    if top.peek(SERVING) != ticket {
        top.park(rt, word, 1);
    }
}

// Wakes who has a ticket, where it sleeps.
fn wake<C: Core>(top: &Top<C>, seat: &mut SeatOf<C>, ticket: u64)
    requires table { IsTable top.now.table_id seat.old.table_id }
    ensures seat { IsSame seat.old seat.new }
    ensures stays { seat.new.me ≡ seat.old.me }
{
    let word = word_of(ticket);
    if mark(top, seat, word, 0) == 1 {
        top.wake_one(word);
    }
}

// Wakes who has the next ticket, and who is now near its turn. Who draws the next ticket later finds it served.
fn wake_next<C: Core>(top: &Top<C>, seat: &mut SeatOf<C>, ticket: u64)
    requires table { IsTable top.now.table_id seat.old.table_id }
    ensures seat { IsSame seat.old seat.new }
    ensures stays { seat.new.me ≡ seat.old.me }
{
    let out = top.peek(TICKET).wrapping_sub(ticket);
    if 1 < out {
        wake(top, seat, ticket.wrapping_add(1));
    }
    if 1 + AHEAD < out {
        wake(top, seat, ticket.wrapping_add(1 + AHEAD));
    }
}

// Gives the slot back and serves the next ticket. The arguments behind `seat` say which entry the history gets. They are for the proof alone.
fn hand_on<C: Core, W: Told<EntryOf<C>>>(
    top: &Top<C>,
    seat: &mut SeatOf<C>,
    _moment: u64,
    _draw: &RandomWords,
    _call: &<C::M as Machine>::Call,
    _reply: &Result<<C::M as Machine>::Reply, Mem>,
)
    requires table { IsTable top.now.table_id seat.old.table_id }
    requires may { CanHand (λ b. C.stands b.value) (λ b. C.rules b.value) (C.rules top.now.key.core.value) W.entry seat.old.me }
    ensures seat { IsSame seat.old seat.new }
    ensures on { (e : _) → W.entry ≡ Some e → seat.new.me ≡ (on seat.old.me.0 e, []) }
{
    top.fetch_add::<Hand<W>>(seat, SERVING, 1);
}

// The core makes its step where it lies.
fn make_step<C: Core>(
    core: &mut Box<C>,
    moment: u64,
    draw: &RandomWords,
    call: &<C::M as Machine>::Call,
) -> Result<<C::M as Machine>::Reply, Mem>
    requires fits { C.M.law.fits call.now }
    requires no_lapse { call.now ≢ C.M.law.lapse }
    requires in_time { moment ≤ last_moment }
    requires short { (h : _) × C.stands core.old.value h × (length h < 2 ^ 58) }
    ensures rules { C.rules core.new.value ≡ C.rules core.old.value }
    ensures ok { IfOk result (λ reply. (h : _) → C.stands core.old.value h
        → Answers C.M.law (C.rules core.old.value) h moment draw.now call.now reply (C.stands core.new.value)) }
    ensures err { OnErr result ((h : _) → C.stands core.old.value h
        → Lapses C.M.law (C.rules core.old.value) h moment draw.now (C.stands core.new.value)) }
    ensures frugal { C.frugal call.now → IsOk result }
{
    core.as_mut().step(moment, draw, call)
}

/// Makes one call in its turn: between taking the core out of the slot and putting it back there is the core's step, and nothing else.
pub(crate) fn call_once<C: Core, R: Wait>(
    rt: &R,
    top: &Top<C>,
    seat: &mut SeatOf<C>,
    moment: u64,
    draw: &RandomWords,
    call: &<C::M as Machine>::Call,
) -> Result<<C::M as Machine>::Reply, Mem>
    requires table { IsTable top.now.table_id seat.old.table_id }
    requires may { CanDraw seat.old.me × (seat.old.me.1 ≡ []) × (seat.old.me.0.own ≡ []) × (seat.old.me.0.rules ≡ Some (C.rules top.now.key.core.value)) }
    requires fits { C.M.law.fits call.now }
    requires no_lapse { call.now ≢ C.M.law.lapse }
    requires in_time { moment ≤ last_moment }
    ensures seat { IsSame seat.old seat.new }
    ensures ok { IfOk result (λ reply. AddedReply C.M.law (C.rules top.now.key.core.value) moment draw.now call.now reply seat.old.me seat.new.me) }
    ensures err { OnErr result (Added C.M.law (C.rules top.now.key.core.value) moment draw.now C.M.law.lapse seat.old.me seat.new.me) }
    ensures frugal { C.frugal call.now → IsOk result }
{
    give_way(rt, top);
    let ticket = take_ticket(top, seat);
    wait_for_turn(rt, top, seat, ticket);
    let held = top.exchange(seat, 0, None);
    let Some(mut core) = held else { unreachable!() };
    let reply = make_step(&mut core, moment, draw, call);
    let left = top.exchange(seat, 0, Some(core));
    let None = left else { unreachable!() };
    hand_on::<C, Brand>(top, seat, moment, draw, call, &reply);
    wake_next(top, seat, ticket);
    reply
}
