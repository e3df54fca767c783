//! Serving at an address.
ghost use Rattle.std.specs.Prelude.{◌≡◌, ◌≤◌, [], true, IfOk};
ghost use Rattle.std.specs.List.{list_any};
ghost use Rattle.serving.specs.ServiceEnds.{has_failed, HaveServedJust};
ghost use Rattle.serving.specs.Services.{IsService};

use crate::front::Front;
use crate::threads::serve_gears;
use bytes_and_lists::bytes::Bytes;
use bytes_and_lists::memory::Mem;
use histories::machine::{Core, Machine};
use outside::gear::{Counted, Door};
use outside::world::{World, WorldFault};
use std::alloc::Global;
use std::sync::Wait;
use std::thread::Threads;

fn any_failed<G: Door>(gears: &[G]) -> bool
    ensures { result ≡ list_any (λ gear. has_failed (G.state gear)) gears.now }
{
    for gear in gears {
        if gear.has_failed() {
            return true;
        }
    }
    false
}

/// Serves a front at an address of the world, by 1 to 64 workers on threads of their own, each for at most `quota` connections, all at one core that
/// stands for the empty history; and gives the workers' gears back to the world.
///
/// `Ok` where all these connections came and were served. `Failed` where the address couldn't be listened at, or later no connection be accepted any more;
/// `OutOfMemory` where memory ran out before the first connection. Later want of memory ends the connection that it meets, not the service.
pub fn serve_front_at<
    C: Core + Send + Drop,
    F: Front<M = C::M> + Sync,
    R: Threads + Wait + Sync,
    W: World,
>(
    rt: &R,
    alloc: Global,
    world: &mut W,
    core: C,
    front: &F,
    address: &Bytes,
    workers: usize,
    quota: u32,
) -> Result<(), WorldFault>
where
    C::M: Send,
    <C::M as Machine>::Call: Send,
    <C::M as Machine>::Reply: Send,
    requires some { 1 ≤ workers }
    requires few { workers ≤ 64 }
    requires empty { C.stands core [] }
    requires rules { C.rules core ≡ F.rules front.now }
    ensures text { W.text world.new ≡ W.text world.old }
    ensures served { IsService C.M.law (F.rules front.now) (F.session front.now) address.now workers quota (W.state world.old) (W.state world.new) result }
    ensures quota { W.gives_quota ≡ true → IfOk result (λ _. HaveServedJust quota (W.state world.new).gears) }
{
    let gears = world.start_gears(address, workers, quota)?;
    let (gears, served) = serve_gears(rt, alloc, core, front, gears);
    let failed = any_failed(gears.as_slice());
    world.stop_gears(gears);
    match served {
        Err(Mem) => Err(WorldFault::OutOfMemory),
        Ok(()) => if failed {
            Err(WorldFault::Failed)
        } else {
            Ok(())
        },
    }
}
