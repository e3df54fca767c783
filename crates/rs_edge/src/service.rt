//! Serving at an address of a world.
ghost use Rattle.std.specs.Prelude.{◌≡◌, ℕ, All, length, map, true, false, IfOk};
ghost use Rattle.outside.specs.Gears.{IsUnused, AreFull};
ghost use Rattle.outside.specs.Links.{new_link};
ghost use Rattle.serving.specs.ServiceEnds.{HaveServedJust};
ghost use Rattle.resource_server.specs.Fits.{RsSetupFits};
ghost use Rattle.rs_edge.specs.RsServices.{IsRsService, ServesOneGear};

use crate::doors::serve_door;
use bytes_and_lists::bytes::Bytes;
use outside::gear::{Door, Gear};
use outside::link::Link;
use outside::world::{World, WorldFault};
use resource_server::{RequestGuard, RsSetup};
use std::alloc::Global;

// Serves all that the door of the one gear gives, and answers whether it failed.
fn serve_gear<K: RequestGuard, L: Link, G: Gear>(
    alloc: Global,
    guard: &mut K,
    setup: &RsSetup,
    link: &mut L,
    gears: Vec<G>,
) -> (Vec<G>, bool)
    requires setup { RsSetupFits setup.now }
    requires one { length gears.items ≡ 1 }
    requires unused { All (λ gear. IsUnused (G.state gear)) gears.items }
    requires link { L.link link.old ≡ new_link }
    ensures served { ServesOneGear K.guards setup.now (K.kept guard.old) (L.link link.new) (map G.state result.0.items) result.1 (K.kept guard.new) }
    ensures just { (quota : ℕ) → AreFull G.state quota gears.items → result.1 ≡ false → HaveServedJust quota (map G.state result.0.items) }
{
    let mut gears = gears;
    let gear = &mut gears[0];
    serve_door(alloc, guard, setup, link, gear);
    let failed = gear.has_failed();
    (gears, failed)
}

/// Serves a resource server at the address `listen` of the world, for at most `quota` connections. The guard introspects tokens at the address `server`, and
/// what it keeps stays from one connection to the next. The link to that address is opened first, then one gear is started; both are given back.
///
/// `Ok` where all these connections came and were served. `Failed` where one of the addresses couldn't be opened, or later no connection be accepted any
/// more; `OutOfMemory` where memory ran out before the first connection. Later want of memory ends the connection that it meets, not the service.
pub fn serve_resources_at<K: RequestGuard, W: World>(
    alloc: Global,
    guard: &mut K,
    world: &mut W,
    setup: &RsSetup,
    listen: &Bytes,
    server: &Bytes,
    quota: u32,
) -> Result<(), WorldFault>
    requires { RsSetupFits setup.now }
    ensures text { W.text world.new ≡ W.text world.old }
    ensures served { IsRsService K.guards setup.now listen.now server.now quota (W.state world.old) (W.state world.new)
        (K.kept guard.old) (K.kept guard.new) result }
    ensures quota { W.gives_quota ≡ true → IfOk result (λ _. HaveServedJust quota (W.state world.new).gears) }
{
    let mut link = match world.open_link(server) {
        Ok(link) => link,
        Err(fault) => return Err(fault),
    };
    match world.start_gears(listen, 1, quota) {
        Err(fault) => {
            world.close_link(link);
            Err(fault)
        }
        Ok(gears) => {
            let (gears, failed) = serve_gear(alloc, guard, setup, &mut link, gears);
            world.stop_gears(gears);
            world.close_link(link);
            if failed {
                Err(WorldFault::Failed)
            } else {
                Ok(())
            }
        }
    }
}
