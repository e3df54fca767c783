//! Laws of connections. The functions do nothing; their contracts are the laws.
ghost use Rattle.rs_edge.specs.CachedTurns.{CachedTurnsMean, CachedAccountsMean};
ghost use Rattle.rs_edge.specs.RsWholes.{UnfailedResourcesAreWhole};

use resource_server::RequestGuard;

/// Where no read and no write failed on a connection to a resource server, its requests are those that its whole input begins with, also the part that
/// wasn't read, and everything that was to be said was written.
pub fn unfailed_resources_are_whole<K: RequestGuard>()
    ensures { UnfailedResourcesAreWhole K.guards }
{}

/// With a cache that was new, each request that is let through is so by one reply, which came in its own turn, or in an earlier one to the same question at
/// most 30 seconds before. Where a fresh reply to its question is kept, nothing is asked.
pub fn cached_turns_mean()
    ensures { CachedTurnsMean }
{}

/// The same of all turns of a gear and a link.
pub fn cached_accounts_mean()
    ensures { CachedAccountsMean }
{}
