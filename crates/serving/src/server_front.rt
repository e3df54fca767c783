//! The front of a machine's server.
use crate::connection::serve_connection;
use crate::ends::AfterTurn;
use crate::front::Front;
use crate::message_reader::MessageReader;
use crate::message_turn::take_turn;
use crate::server::Server;
use crate::turn_taker::TurnTaker;
use histories::machine::Desk;
use outside::device::{Sink, Source};
use outside::gear::{Clock, Draws};
use std::alloc::Global;

/// Serves connections by a server of a machine: its messages are those that a reader reads off them, and each has the turn of one call at most.
#[derive(Drop)]
pub struct ServerFront<W, V> {
    pub reader: W,
    pub server: V,
}

impl<
    W: MessageReader,
    V: Server<Message = W::Message>,
    D: Desk<M = V::M>,
    G: Clock + Draws,
> TurnTaker<D, G> for ServerFront<W, V> {
    ghost use Rattle.std.specs.Prelude.{List};
    ghost use Rattle.histories.specs.declared.entry.Entry as history;
    ghost use Rattle.histories.specs.Turns.{IsTurn};
    ghost use Rattle.serving.specs.Desks.{desk_backend};

    type Message = W::Message;

    type Scratch = V::Scratch;

    ghost Entry = { history.Entry V.M.Call V.M.Reply V.M.Note };

    ghost Past = { List (history.Entry V.M.Call V.M.Reply V.M.Note) };

    ghost backend_kind = { λ front. desk_backend D.rules D.number D.home D.seen (V.rules front.server) };

    ghost is_turn = { λ front. IsTurn V.M.law V.face (V.rules front.server) };

    fn scratch(&self, alloc: Global) -> V::Scratch {
        self.server.scratch(alloc)
    }

    fn turn<S: Source + Sink>(
        &self,
        alloc: Global,
        scratch: &mut V::Scratch,
        desk: &mut D,
        conn: &mut S,
        gear: &mut G,
        message: &W::Message,
        last: bool,
    ) -> AfterTurn {
        take_turn(
            &self.server,
            alloc,
            scratch,
            desk,
            conn,
            gear,
            message,
            last,
        )
    }
}

impl<W: MessageReader, V: Server<Message = W::Message>> Front for ServerFront<W, V> {
    ghost use Rattle.histories.specs.Turns.{IsTurn};
    ghost use Rattle.serving.specs.Connections.{Session};
    ghost use Rattle.serving.specs.declared.ends.ConnectionEnd.{ConnectionEnd};

    type M = V::M;

    type Message = W::Message;

    ghost rules = { λ front. V.rules front.server };

    ghost session = { λ front conn turns. (ended : ConnectionEnd W.Fault) × Session W.wire (IsTurn V.M.law V.face (V.rules front.server)) conn turns ended };

    fn serve<D: Desk<M = V::M>, S: Source + Sink, G: Clock + Draws>(
        &self,
        alloc: Global,
        desk: &mut D,
        conn: &mut S,
        gear: &mut G,
    ) {
        serve_connection(&self.reader, self, alloc, desk, conn, gear);
    }
}
