//! Bytes as messages.
ghost use Rattle.std.specs.Prelude.{◌≡◌, ◌<◌, length, [], ◌∷◌, ◌++◌, IfOk};
ghost use Rattle.serving.specs.Desks.{desk_backend};
ghost use Rattle.serving.specs.MessageTurns.{TakesTurn};
ghost use Rattle.test_adding.specs.Bytewise.{Fills, HasFillCause, IsByteTurn};

use crate::adding::{Adding, Call, Reply};
use crate::fault::NoAmount;
use bytes_and_lists::bytes::Bytes;
use bytes_and_lists::memory::Mem;
use histories::machine::Desk;
use outside::device::{Failed, Sink, Source, write_all};
use outside::gear::{Clock, Draws};
use serving::connection::serve_connection;
use serving::ends::{AfterTurn, NoMessage};
use serving::front::Front;
use serving::message_reader::MessageReader;
use serving::message_step::MessageStep;
use serving::message_turn::{enter, say, say_busy, take_turn};
use serving::server::Server;
use serving::turn_taker::TurnTaker;
use std::alloc::Global;

/// A server of an adding machine that starts from an amount, and the reader of its bytes.
#[derive(Drop)]
pub struct Bytewise {
    pub start: u64,
}

// Takes the first byte off.
fn take_first(alloc: Global, held: &mut Bytes) -> Result<u8, Mem>
    requires { 0 < length held.old }
    ensures { IfOk result (λ byte. held.old ≡ byte ∷ held.new) }
{
    let byte = held.as_slice()[0];
    let rest = Bytes::from_slice(alloc, &held.as_slice()[1..])?;
    *held = rest;
    Ok(byte)
}

// Reads some bytes, where none are held.
fn fill<S: Source>(source: &mut S, held: &mut Bytes) -> Result<(), NoMessage<NoAmount>>
    ensures fills { Fills held.old held.new (S.told source.old) (S.told source.new) result }
    ensures cause { HasFillCause (S.faults source.old) (S.faults source.new) result }
{
    if held.len() > 0 {
        return Ok(());
    }
    let mut buf = [0u8; 4];
    match source.read(&mut buf) {
        Err(Failed) => Err(NoMessage::Failed),
        Ok(count) => match held.extend(&buf[..count]) {
            Ok(()) => Ok(()),
            Err(Mem) => Err(NoMessage::OutOfMemory),
        },
    }
}

impl MessageReader for Bytewise {
    ghost use Rattle.test_adding.specs.Bytewise.{byte_wire, stays};

    type Message = u8;

    type Fault = NoAmount;

    type Held = Bytes;

    ghost wire = { byte_wire };

    ghost held_bytes = { λ held. held };

    ghost stays = { stays };

    fn hold_none(&self, alloc: Global) -> Bytes {
        Bytes::new(alloc)
    }

    fn next_message<S: Source>(
        &self,
        alloc: Global,
        source: &mut S,
        held: &mut Bytes,
    ) -> Result<Option<u8>, NoMessage<NoAmount>> {
        fill(source, held)?;
        if held.len() == 0 {
            return Ok(None);
        }
        match take_first(alloc, held) {
            Err(Mem) => Err(NoMessage::OutOfMemory),
            Ok(byte) => {
                if byte == 0 {
                    return Err(NoMessage::Refused(NoAmount));
                }
                Ok(Some(byte))
            }
        }
    }

    fn is_last(&self, message: &u8) -> bool {
        *message == 255
    }

    fn write_starved<K: Sink>(&self, out: &mut K) -> Result<(), Failed> {
        write_all(out, &[2])
    }

    fn write_refusal<K: Sink>(&self, _fault: &NoAmount, out: &mut K) -> Result<(), Failed> {
        write_all(out, &[0])
    }
}

impl Server for Bytewise {
    ghost use Rattle.test_adding.specs.Bytewise.{byte_face};

    type M = Adding;

    type Message = u8;

    type Response = Bytes;

    type Scratch = ();

    ghost rules = { λ server. server.start };

    ghost face = { byte_face };

    ghost text = { λ response. response };

    ghost can_say = { λ reply. Unit {0} };

    ghost says_all = { λ rules before e after legal. tt };

    fn scratch(&self, _alloc: Global) {}

    fn step(
        &self,
        alloc: Global,
        _scratch: &mut (),
        message: &u8,
        _moment: u64,
        _last: bool,
    ) -> Result<MessageStep<Bytes, Call>, Mem> {
        if *message == 254 {
            return Ok(MessageStep::Say(Bytes::from_slice(alloc, &[254])?));
        }
        Ok(MessageStep::Ask(Call::Add(u64::from(*message))))
    }

    fn respond(&self, alloc: Global, reply: &Reply, last: bool) -> Result<Bytes, Mem> {
        let byte = match *reply {
            Reply::Sum(sum) => (sum % 256) as u8,
            Reply::Lapsed => 0,
        };
        if last {
            return Bytes::from_slice(alloc, &[byte, 255]);
        }
        Bytes::from_slice(alloc, &[byte])
    }

    fn write_response<K: Sink>(&self, response: &Bytes, out: &mut K) -> Result<(), Failed> {
        write_all(out, response.as_slice())
    }

    fn write_busy<K: Sink>(&self, out: &mut K) -> Result<(), Failed> {
        write_all(out, &[1])
    }
}

// The turn of the byte 253: two amounts are entered at one moment, and the second sum is said.
fn turn_in_two<D: Desk<M = Adding>, S: Source + Sink, G: Clock + Draws>(
    server: &Bytewise,
    alloc: Global,
    desk: &mut D,
    conn: &mut S,
    gear: &mut G,
    last: bool,
) -> AfterTurn
    requires { (desk_backend D.rules D.number D.home D.seen server.now.start).has_room desk.old 1 }
    ensures { (h : _) → D.seen desk.old h → TakesTurn (desk_backend D.rules D.number D.home D.seen server.now.start) (IsByteTurn server.now.start) last 253
        desk.old h desk.new (G.state gear.old) (G.state gear.new) (S.told conn.old) (S.told conn.new) (S.faults conn.old) (S.faults conn.new) result }
{
    let moment = gear.now();
    match enter(desk, gear, moment, Call::Add(250)) {
        Err(Mem) => say_busy(server, conn),
        Ok(_) => match enter(desk, gear, moment, Call::Add(3)) {
            Err(Mem) => say_busy(server, conn),
            Ok(reply) => match server.respond(alloc, &reply, last) {
                Err(Mem) => say_busy(server, conn),
                Ok(response) => say(server, conn, &response),
            },
        },
    }
}

impl<D: Desk<M = Adding>, G: Clock + Draws> TurnTaker<D, G> for Bytewise {
    ghost use Rattle.std.specs.Prelude.{List};
    ghost use Rattle.serving.specs.Desks.{desk_backend};
    ghost use Rattle.test_adding.specs.Amounts.{AddingEntry};
    ghost use Rattle.test_adding.specs.Bytewise.{IsByteTurn};

    type Message = u8;

    type Scratch = ();

    ghost Entry = { AddingEntry };

    ghost Past = { List AddingEntry };

    ghost backend_kind = { λ server. desk_backend D.rules D.number D.home D.seen server.start };

    ghost is_turn = { λ server. IsByteTurn server.start };

    fn scratch(&self, _alloc: Global) {}

    fn turn<S: Source + Sink>(
        &self,
        alloc: Global,
        scratch: &mut (),
        desk: &mut D,
        conn: &mut S,
        gear: &mut G,
        message: &u8,
        last: bool,
    ) -> AfterTurn {
        if *message == 253 {
            return turn_in_two(self, alloc, desk, conn, gear, last);
        }
        take_turn(self, alloc, scratch, desk, conn, gear, message, last)
    }
}

impl Front for Bytewise {
    ghost use Rattle.test_adding.specs.Bytewise.{IsByteSession};

    type M = Adding;

    type Message = u8;

    ghost rules = { λ server. server.start };

    ghost session = { λ server. IsByteSession server.start };

    fn serve<D: Desk<M = Adding>, S: Source + Sink, G: Clock + Draws>(
        &self,
        alloc: Global,
        desk: &mut D,
        conn: &mut S,
        gear: &mut G,
    ) {
        serve_connection(self, self, alloc, desk, conn, gear);
    }
}
