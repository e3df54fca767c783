//! Serving at an address.
ghost use Rattle.std.specs.Prelude.{◌≡◌, ◌≤◌, true, IfOk};
ghost use Rattle.gnap_objects.specs.Setups.{IsSetup};
ghost use Rattle.serving.specs.ServiceEnds.{HaveServedJust};
ghost use Rattle.as_service.specs.Services.{IsService};

use as_edge::AuthorizationServer;
use as_requests::Edge;
use bytes_and_lists::bytes::Bytes;
use bytes_and_lists::memory::Duplicate;
use gnap_model::objects::Setup;
use grant_machine::laws::what_holds;
use http_serving::HttpReader;
use outside::world::{World, WorldFault};
use serving::server_front::ServerFront;
use serving::service::serve_front_at;
use std::alloc::Global;
use std::sync::Wait;
use std::thread::Threads;
use table_core::TableCore;

/// Serves the authorization server of a setup at an address of the world, by 1 to 64 workers on threads of their own, each for at most `quota` connections,
/// and gives the workers' gears back to the world.
///
/// `Ok` where all these connections came and were served. `Failed` where the address couldn't be listened at, or later no connection be accepted any more;
/// `OutOfMemory` where memory ran out before the first connection. Later want of memory ends the connection that it meets, not the service.
pub fn serve_at<R: Threads + Wait + Sync, W: World>(
    rt: &R,
    alloc: Global,
    world: &mut W,
    setup: Setup,
    address: &Bytes,
    workers: usize,
    quota: u32,
) -> Result<(), WorldFault>
    requires some { 1 ≤ workers }
    requires few { workers ≤ 64 }
    requires setup { IsSetup setup }
    ensures text { W.text world.new ≡ W.text world.old }
    ensures served { IsService setup address.now workers quota (W.state world.old) (W.state world.new) result }
    ensures quota { W.gives_quota ≡ true → IfOk result (λ _. HaveServedJust quota (W.state world.new).gears) }
{
    let Ok(rules) = setup.copy() else {
        return Err(WorldFault::OutOfMemory);
    };
    let Ok(edge) = Edge::new(alloc, setup) else {
        return Err(WorldFault::OutOfMemory);
    };
    let front = ServerFront {
        reader: HttpReader,
        server: AuthorizationServer { edge },
    };
    let core = TableCore::new(alloc, rules);
    what_holds();
    serve_front_at(rt, alloc, world, core, &front, address, workers, quota)
}
