//! All connections of a gear.
ghost use Rattle.std.specs.Prelude.{◌≡◌, [], true, false};
ghost use Rattle.outside.specs.Gears.{IsUnused};
ghost use Rattle.resource_server.specs.Fits.{RsSetupFits};
ghost use Rattle.serving.specs.Workers.{HasServedOne, HasServedAll};
ghost use Rattle.rs_edge.specs.RsSessions.{IsRsAccount};

use crate::connections::serve_resources;
use outside::gear::{Door, Gear};
use outside::link::Link;
use resource_server::{RequestGuard, RsSetup};
use std::alloc::Global;

// Serves one connection. It is false where the door gave none: it may give no more, or it failed.
fn serve_one<K: RequestGuard, L: Link, G: Gear>(
    alloc: Global,
    guard: &mut K,
    setup: &RsSetup,
    link: &mut L,
    gear: &mut G,
) -> bool
    requires setup { RsSetupFits setup.now }
    ensures account { (first : _) → IsRsAccount K.guards setup.now first (G.state gear.old).log (L.link link.old).asked (K.kept guard.old)
        → IsRsAccount K.guards setup.now first (G.state gear.new).log (L.link link.new).asked (K.kept guard.new) }
    ensures out { (G.state gear.new).out ≡ (G.state gear.old).out }
    ensures more { result ≡ true → HasServedOne (G.state gear.old) (G.state gear.new) }
    ensures done { result ≡ false → HasServedAll (G.state gear.old) (G.state gear.new) }
{
    let Ok(Some(conn)) = gear.accept() else {
        return false;
    };
    let mut conn = conn;
    serve_resources(alloc, guard, setup, link, &mut conn, gear);
    gear.leave(conn);
    true
}

/// Serves all connections that the door of a gear gives, in order, over one link and with one guard. The gear and the link have done nothing before.
pub fn serve_door<K: RequestGuard, L: Link, G: Gear>(
    alloc: Global,
    guard: &mut K,
    setup: &RsSetup,
    link: &mut L,
    gear: &mut G,
)
    requires setup { RsSetupFits setup.now }
    requires gear { IsUnused (G.state gear.old) }
    requires link { (L.link link.old).asked ≡ [] }
    ensures account { IsRsAccount K.guards setup.now (K.kept guard.old) (G.state gear.new).log (L.link link.new).asked (K.kept guard.new) }
    ensures out { (G.state gear.new).out ≡ 0 }
    ensures done { HasServedAll (G.state gear.old) (G.state gear.new) }
{
    while serve_one(alloc, guard, setup, link, gear) {}
}
