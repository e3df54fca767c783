//! The resource server, as `serving` serves it.
use crate::guarded_link::GuardedLink;
use crate::turns::guarded_turn;
use bytes_and_lists::message::Message;
use outside::device::{Sink, Source};
use outside::gear::Clock;
use outside::link::Link;
use resource_server::{RequestGuard, RsSetup};
use serving::ends::AfterTurn;
use serving::turn_taker::TurnTaker;
use std::alloc::Global;

/// The resource server of a setup. What is kept from request to request is the guard's.
#[derive(Drop)]
pub(crate) struct GuardedServer<'a> {
    pub(crate) setup: &'a RsSetup,
}

impl<'a, 'b, K: RequestGuard, L: Link, G: Clock> TurnTaker<GuardedLink<'b, L, K>, G>
    for GuardedServer<'a> {
    ghost use Rattle.outside.specs.Links.{LinkState};
    ghost use Rattle.rs_edge.specs.GuardedLinks.{guarded_link};
    ghost use Rattle.rs_edge.specs.GuardedSteps.{GuardedStep};
    ghost use Rattle.rs_edge.specs.RsTurns.{IsRsTurn};

    type Message = Message;

    type Scratch = ();

    ghost Entry = { GuardedStep K.Kept };

    ghost Past = { LinkState × K.Kept };

    ghost backend_kind = { λ server. guarded_link L.link K.kept server.setup.now };

    ghost is_turn = { λ server. IsRsTurn K.guards server.setup.now };

    fn scratch(&self, _alloc: Global) {}

    fn turn<S: Source + Sink>(
        &self,
        alloc: Global,
        _scratch: &mut (),
        backend: &mut GuardedLink<'b, L, K>,
        conn: &mut S,
        gear: &mut G,
        message: &Message,
        last: bool,
    ) -> AfterTurn {
        guarded_turn(alloc, self.setup, backend, conn, gear, message, last)
    }
}
