//! A connection's messages, with a cache.
ghost use Rattle.outside.specs.Outside.{IsUntouched, served_of};
ghost use Rattle.resource_server.specs.Fits.{RsSetupFits};
ghost use Rattle.rs_edge.specs.CachedTurns.{ServesCached};

use crate::connections::serve_resources;
use http_edge::EdgeFault;
use introspection_cache::CachedGuard;
use outside::device::{Sink, Source};
use outside::gear::Clock;
use outside::link::Link;
use resource_server::RsSetup;
use serving::ends::ConnectionEnd;
use std::alloc::Global;

/// Serves a connection as `serve_resources` does, with a cache that goes on from connection to connection. Each request that is let through is so by one reply
/// of the authorization server: it came in the request's own turn, or in an earlier one to the same question, at most 30 seconds before.
pub fn serve_cached<L: Link, S: Source + Sink, G: Clock>(
    alloc: Global,
    cache: &mut CachedGuard,
    setup: &RsSetup,
    link: &mut L,
    conn: &mut S,
    gear: &mut G,
) -> ConnectionEnd<EdgeFault>
    requires setup { RsSetupFits setup.now }
    requires untouched { IsUntouched (S.told conn.old) (S.faults conn.old) }
    ensures { ServesCached setup.now (L.link link.old) (L.link link.new) cache.old cache.new (G.state gear.old) (G.state gear.new)
        (served_of (S.told conn.new) (S.faults conn.new)) result }
{
    serve_resources(alloc, cache, setup, link, conn, gear)
}
