//! Who guards the requests of a resource server, one after another.
ghost use Rattle.std.specs.Prelude.{◌≡◌, ℕ, ◌<◌, ◌^◌, List};
ghost use Rattle.bytes_and_lists.specs.declared.message.Message.{Message};
ghost use Rattle.outside.specs.Links.{Exchange};
ghost use Rattle.outside.specs.Outside.{Rose};
ghost use Rattle.resource_server.specs.declared.guarded.Guarded.{Guarded};
ghost use Rattle.resource_server.specs.declared.setup.RsSetup.{RsSetup};
ghost use Rattle.resource_server.specs.Fits.{RsSetupFits};
ghost use Rattle.resource_server.specs.Guarding.{Guards, GuardsOver, IsAnswer};

use crate::guarded::Guarded;
use crate::guarding;
use crate::setup::RsSetup;
use bytes_and_lists::message::Message;
use outside::link::Link;
use std::alloc::Global;

/// Guards requests, and may keep something from one to the next.
pub trait RequestGuard {
    /// What contracts see of what it keeps.
    ghost Kept: { Type 0 };

    ghost kept: { Self → Kept };

    /// What a request comes to at a moment: by what was kept, with these exchanges over the link, and what is kept then.
    ghost guards: { RsSetup → Message → ℕ → Kept → List Exchange → Guarded → Kept → Type 0 };

    /// What the request comes to at this moment, in seconds since 1970. `LinkFault` comes only where the link's count of faults rose.
    fn guard<L: Link>(
        &mut self,
        alloc: Global,
        message: &Message,
        setup: &RsSetup,
        link: &mut L,
        now: u64,
    ) -> Guarded
        requires now { now < 10 ^ 15 }
        requires setup { RsSetupFits setup.now }
        ensures guards { GuardsOver (λ exchanges answer. guards setup.now message.now now (kept self.old) exchanges answer (kept self.new))
            (L.link link.old) (L.link link.new) result }
        ensures answer { IsAnswer setup.now result }
        ensures cause { result ≡ Guarded.LinkFault → Rose (L.link link.old).faults (L.link link.new).faults };
}

/// Asks about the token of each request anew, as `guard` does. It keeps nothing.
#[derive(Drop)]
pub struct AskingGuard;

impl RequestGuard for AskingGuard {
    ghost Kept = { Unit {0} };

    ghost kept = { λ _. tt };

    ghost guards = { λ setup message now _ exchanges answer _. Guards setup message now exchanges answer };

    fn guard<L: Link>(
        &mut self,
        alloc: Global,
        message: &Message,
        setup: &RsSetup,
        link: &mut L,
        now: u64,
    ) -> Guarded {
        guarding::guard(alloc, message, setup, link, now)
    }
}
