//! Serving at an address where tokens are derived.
ghost use Rattle.std.specs.Prelude.{◌≡◌, ◌≤◌, true, IfOk};
ghost use Rattle.gnap_objects.specs.Setups.{IsSetup};
ghost use Rattle.derivation_requests.specs.Pairs.{ArePairs};
ghost use Rattle.serving.specs.ServiceEnds.{HaveServedJust};
ghost use Rattle.as_service.specs.DerivedServices.{IsDerivingService};

use as_requests::Edge;
use bytes_and_lists::bytes::Bytes;
use bytes_and_lists::memory::Duplicate;
use derivation_requests::Pairs;
use derived_tokens::DerivingServer;
use derived_tokens::laws::ends_with_its_term;
use gnap_model::objects::Setup;
use grant_machine::laws::what_holds;
use outside::world::{World, WorldFault};
use serving::service::serve_front_at;
use std::alloc::Global;
use std::sync::Wait;
use std::thread::Threads;
use table_core::TableCore;

/// Serves the authorization server of a setup, to which these pairs of it are known, at an address of the world, by 1 to 64 workers on threads of their own,
/// each
/// for at most `quota` connections, and gives the workers' gears back to the world.
///
/// `Ok` where all these connections came and were served. `Failed` where the address couldn't be listened at, or later no connection be accepted any more;
/// `OutOfMemory` where memory ran out before the first connection. Later want of memory ends the connection that it meets, not the service.
pub fn serve_deriving_at<R: Threads + Wait + Sync, W: World>(
    rt: &R,
    alloc: Global,
    world: &mut W,
    setup: Setup,
    pairs: Pairs,
    address: &Bytes,
    workers: usize,
    quota: u32,
) -> Result<(), WorldFault>
    requires some { 1 ≤ workers }
    requires few { workers ≤ 64 }
    requires setup { IsSetup setup }
    requires pairs { ArePairs setup pairs }
    ensures text { W.text world.new ≡ W.text world.old }
    ensures served { IsDerivingService pairs setup address.now workers quota (W.state world.old) (W.state world.new) result }
    ensures quota { W.gives_quota ≡ true → IfOk result (λ _. HaveServedJust quota (W.state world.new).gears) }
{
    let Ok(rules) = setup.copy() else {
        return Err(WorldFault::OutOfMemory);
    };
    let Ok(edge) = Edge::new(alloc, setup) else {
        return Err(WorldFault::OutOfMemory);
    };
    let server = DerivingServer::new(edge, pairs);
    let core = TableCore::new(alloc, rules);
    what_holds();
    ends_with_its_term();
    serve_front_at(rt, alloc, world, core, &server, address, workers, quota)
}
