//! One message's turn at a desk of a machine.
ghost use Rattle.std.specs.Prelude.{◌≡◌, ◌≢◌, ◌<◌, ◌≤◌, length};
ghost use Rattle.histories.specs.History.{last_moment};
ghost use Rattle.histories.specs.Turns.{IsTurn};
ghost use Rattle.histories.specs.Whole.{own_of};
ghost use Rattle.serving.specs.Desks.{desk_backend};
ghost use Rattle.serving.specs.MessageTurns.{EntersCall, HasWrittenText, TakesTurn};

use crate::ends::AfterTurn;
use crate::message_step::MessageStep;
use crate::server::Server;
use bytes_and_lists::memory::Mem;
use histories::machine::{Desk, Machine};
use outside::device::{Failed, Sink, Source};
use outside::gear::{Clock, Draws};
use std::alloc::Global;

/// Writes a response. At `WriteFailed` a beginning of it went out.
pub fn say<V: Server, S: Source + Sink>(
    server: &V,
    conn: &mut S,
    response: &V::Response,
) -> AfterTurn
    ensures written { HasWrittenText (V.text response.now) (S.told conn.old) (S.told conn.new) (S.faults conn.old) (S.faults conn.new) result }
    ensures fed { result ≢ AfterTurn.OutOfMemory }
{
    match server.write_response(response, conn) {
        Ok(()) => AfterTurn::MoreMayCome,
        Err(Failed) => AfterTurn::WriteFailed,
    }
}

/// Writes what is said where memory ran out. At `WriteFailed` a beginning of it went out.
pub fn say_busy<V: Server, S: Source + Sink>(server: &V, conn: &mut S) -> AfterTurn
    ensures written { HasWrittenText V.face.busy (S.told conn.old) (S.told conn.new) (S.faults conn.old) (S.faults conn.new) result }
    ensures starved { result ≢ AfterTurn.MoreMayCome }
{
    match server.write_busy(conn) {
        Ok(()) => AfterTurn::OutOfMemory,
        Err(Failed) => AfterTurn::WriteFailed,
    }
}

/// Draws words, and enters a call at a moment. Each of a worker's entries has its own words.
pub fn enter<D: Desk, G: Draws>(
    desk: &mut D,
    gear: &mut G,
    moment: u64,
    call: <D::M as Machine>::Call,
) -> Result<<D::M as Machine>::Reply, Mem>
    requires fits { D.M.law.fits call }
    requires no_lapse { call ≢ D.M.law.lapse }
    requires in_time { moment ≤ last_moment }
    requires room { (h : _) × D.seen desk.old h × (length (own_of (D.number desk.old) h) < 4503599627370496) }
    ensures rules { D.rules desk.new ≡ D.rules desk.old }
    ensures number { D.number desk.new ≡ D.number desk.old }
    ensures home { D.home desk.new ≡ D.home desk.old }
    ensures entered { (h : _) → D.seen desk.old h → EntersCall D.M.law (D.rules desk.old) (D.number desk.old) h moment call (D.seen desk.new)
        (G.state gear.old) (G.state gear.new) result }
{
    let draw = gear.draw();
    desk.submit(moment, &draw, call)
}

/// The turn of a message that asks one call at most: the clock is read once, and words are drawn once for the call.
pub fn take_turn<V: Server, D: Desk<M = V::M>, S: Source + Sink, G: Clock + Draws>(
    server: &V,
    alloc: Global,
    scratch: &mut V::Scratch,
    desk: &mut D,
    conn: &mut S,
    gear: &mut G,
    message: &V::Message,
    last: bool,
) -> AfterTurn
    requires { (desk_backend D.rules D.number D.home D.seen (V.rules server.now)).has_room desk.old 1 }
    ensures { (h : _) → D.seen desk.old h → TakesTurn (desk_backend D.rules D.number D.home D.seen (V.rules server.now))
        (IsTurn V.M.law V.face (V.rules server.now)) last message.now desk.old h desk.new (G.state gear.old) (G.state gear.new)
        (S.told conn.old) (S.told conn.new) (S.faults conn.old) (S.faults conn.new) result }
{
    let moment = gear.now();
    match server.step(alloc, scratch, message, moment, last) {
        Ok(MessageStep::Say(response)) => say(server, conn, &response),
        Ok(MessageStep::Ask(call)) => match enter(desk, gear, moment, call) {
            Ok(reply) => match server.respond(alloc, &reply, last) {
                Ok(response) => say(server, conn, &response),
                Err(Mem) => say_busy(server, conn),
            },
            Err(Mem) => say_busy(server, conn),
        },
        Err(Mem) => say_busy(server, conn),
    }
}
