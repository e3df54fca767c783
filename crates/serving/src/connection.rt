//! A connection's messages, one after another.
ghost use Rattle.std.specs.Prelude.{◌≡◌};
ghost use Rattle.outside.specs.Outside.{IsUntouched, served_of};
ghost use Rattle.serving.specs.Connections.{ServesTurns, is_closing, most_messages};
ghost use Rattle.serving.specs.Reading.{Stops};

use crate::ends::{AfterTurn, ConnectionEnd, NoMessage};
use crate::message_reader::MessageReader;
use crate::turn_taker::TurnTaker;
use outside::device::{Failed, Sink, Source};
use outside::gear::Clock;
use std::alloc::Global;

// The place of the last message that a connection may bring, counted from 0.
const LAST_PLACE: u64 = 999;

// Whether the response to the message of a place, counted from 0, is the last one.
fn closes<W: MessageReader>(reader: &W, message: &W::Message, place: u64) -> bool
    ensures { result ≡ is_closing W.wire place message.now }
{
    reader.is_last(message) || place == LAST_PLACE
}

// Says what is said where there is no message.
fn stop<W: MessageReader, S: Source + Sink>(
    reader: &W,
    conn: &mut S,
    why: NoMessage<W::Fault>,
) -> ConnectionEnd<W::Fault>
    ensures { Stops W.wire (S.told conn.old) (S.told conn.new) (S.faults conn.old) (S.faults conn.new) why result }
{
    match why {
        NoMessage::Truncated => ConnectionEnd::Truncated,
        NoMessage::Failed => ConnectionEnd::ReadFault,
        NoMessage::Refused(fault) => match reader.write_refusal(&fault, conn) {
            Ok(()) => ConnectionEnd::Refused(fault),
            Err(Failed) => ConnectionEnd::WriteFault,
        },
        NoMessage::OutOfMemory => match reader.write_starved(conn) {
            Ok(()) => ConnectionEnd::Memory,
            Err(Failed) => ConnectionEnd::WriteFault,
        },
    }
}

/// Serves the messages that a reader reads off a connection that nothing was done with before, up to 1,000, each by one turn, until it ends. The turns make
/// at most 2,000 entries.
pub fn serve_connection<
    W: MessageReader,
    V: TurnTaker<B, G, Message = W::Message>,
    B,
    S: Source + Sink,
    G: Clock,
>(
    reader: &W,
    server: &V,
    alloc: Global,
    backend: &mut B,
    conn: &mut S,
    gear: &mut G,
) -> ConnectionEnd<W::Fault>
    requires room { (V.backend_kind server.now).has_room backend.old most_messages }
    requires untouched { IsUntouched (S.told conn.old) (S.faults conn.old) }
    ensures { (past : _) → (V.backend_kind server.now).seen backend.old past
        → ServesTurns (V.backend_kind server.now) W.wire (V.is_turn server.now) backend.old past backend.new (G.state gear.old) (G.state gear.new)
        (served_of (S.told conn.new) (S.faults conn.new)) result }
{
    let mut scratch = server.scratch(alloc);
    let mut held = reader.hold_none(alloc);
    let mut place = 0u64;
    loop {
        match reader.next_message(alloc, conn, &mut held) {
            Ok(None) => return ConnectionEnd::Closed,
            Ok(Some(message)) => {
                let last = closes(reader, &message, place);
                match server.turn(alloc, &mut scratch, backend, conn, gear, &message, last) {
                    AfterTurn::MoreMayCome => {
                        if last {
                            if place == LAST_PLACE {
                                return ConnectionEnd::Quota;
                            }
                            return ConnectionEnd::Closed;
                        }
                        place += 1;
                    }
                    AfterTurn::OutOfMemory => return ConnectionEnd::Memory,
                    AfterTurn::WriteFailed => return ConnectionEnd::WriteFault,
                }
            }
            Err(why) => return stop(reader, conn, why),
        }
    }
}
