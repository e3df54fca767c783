//! A connection's messages, one after another.
ghost use Rattle.outside.specs.Outside.{IsUntouched, served_of};
ghost use Rattle.resource_server.specs.Fits.{RsSetupFits};
ghost use Rattle.rs_edge.specs.RsSessions.{ServesResources};

use crate::guarded_link::GuardedLink;
use crate::guarded_server::GuardedServer;
use http_edge::EdgeFault;
use http_serving::HttpReader;
use outside::device::{Sink, Source};
use outside::gear::Clock;
use outside::link::Link;
use resource_server::{RequestGuard, RsSetup};
use serving::connection::serve_connection;
use serving::ends::ConnectionEnd;
use std::alloc::Global;

/// Serves the messages of a connection that nothing was done with before, up to 1,000, until it ends: to each the reply to what the guard answers at the
/// moment that the clock gives, read once for each whole message. 200 has the route's text as the member `text` of a JSON object. No other reply has a body;
/// 401 has the challenge `GNAP`, and 405 has `Allow` with the methods of the path's routes in their order.
pub fn serve_resources<K: RequestGuard, L: Link, S: Source + Sink, G: Clock>(
    alloc: Global,
    guard: &mut K,
    setup: &RsSetup,
    link: &mut L,
    conn: &mut S,
    gear: &mut G,
) -> ConnectionEnd<EdgeFault>
    requires setup { RsSetupFits setup.now }
    requires untouched { IsUntouched (S.told conn.old) (S.faults conn.old) }
    ensures { ServesResources K.guards setup.now (L.link link.old) (L.link link.new) (K.kept guard.old) (K.kept guard.new) (G.state gear.old) (G.state gear.new)
        (served_of (S.told conn.new) (S.faults conn.new)) result }
{
    let server = GuardedServer { setup };
    let mut backend = GuardedLink { link, guard };
    serve_connection(&HttpReader, &server, alloc, &mut backend, conn, gear)
}
