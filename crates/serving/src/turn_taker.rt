//! Who takes a turn at each message.
ghost use Rattle.std.specs.Prelude.{Bool};
ghost use Rattle.histories.specs.Turns.{Turn};
ghost use Rattle.serving.specs.Backends.{BackendKind};
ghost use Rattle.serving.specs.MessageTurns.{TakesTurn};

use crate::ends::AfterTurn;
use outside::device::{Sink, Source};
use outside::gear::Clock;
use std::alloc::Global;

/// Answers each message by a turn at a backend: a desk of a machine, or whatever else it asks.
pub trait TurnTaker<B, G: Clock> {
    /// What comes on a connection.
    type Message;

    /// Memory that is used again from message to message of a connection.
    type Scratch: Drop;

    /// What turns make: entries of a history, or what was asked of another server.
    ghost Entry: { Type 0 };

    /// What may be known of a backend.
    ghost Past: { Type 0 };

    /// How turns change a backend.
    ghost backend_kind: { Self → BackendKind B Past Entry };

    /// What a turn may be. The Bool tells whether the connection closes after it.
    ghost is_turn: { Self → Bool → Turn Self.Message Entry → Type 0 };

    /// Memory for the turns of one connection.
    fn scratch(&self, alloc: Global) -> Self::Scratch;

    /// One message's turn. `last` says whether the connection closes after it.
    fn turn<S: Source + Sink>(
        &self,
        alloc: Global,
        scratch: &mut Self::Scratch,
        backend: &mut B,
        conn: &mut S,
        gear: &mut G,
        message: &Self::Message,
        last: bool,
    ) -> AfterTurn
        requires { (backend_kind self.now).has_room backend.old 1 }
        ensures { (past : _) → (backend_kind self.now).seen backend.old past → TakesTurn (backend_kind self.now) (is_turn self.now) last message.now
            backend.old past backend.new (G.state gear.old) (G.state gear.new) (S.told conn.old) (S.told conn.new) (S.faults conn.old) (S.faults conn.new)
            result };
}
