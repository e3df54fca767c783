//! What comes of a call.
ghost use Rattle.std.specs.Prelude.{◌≡◌};

use gnap_model::calls::Reply;

/// The reply to a call, with what its notes count.
#[derive(Drop)]
pub struct Answered {
    /// The reply.
    pub reply: Reply,
    /// How many grants were opened.
    pub opened: u64,
    /// How many values were drawn.
    pub drawn: u64,
}

/// A reply to a call that opens no grant and draws no value.
pub fn undrawn(reply: Reply) -> Answered
    ensures { result ≡ record { reply = reply; opened = 0; drawn = 0 } }
{
    Answered {
        reply,
        opened: 0,
        drawn: 0,
    }
}
