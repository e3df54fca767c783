//! Laws of a cache. The functions do nothing; their contracts are the laws.
ghost use Rattle.introspection_cache.specs.Laws.{CachedAllowMeans, CachedIsGuard, FreshIsSilent, KeptAreFew, KeptCame};

/// What it takes that a request is let through: a reply that came now or at most 30 seconds ago to the same question, and the signature of this request.
pub fn cached_allow_means()
    ensures { CachedAllowMeans }
{}

/// Each answer is that of `resource_server::guard`: by what was asked now, or by a reply that is kept.
pub fn cached_is_guard()
    ensures { CachedIsGuard }
{}

/// Where a fresh reply to the question of a request is kept, nothing is asked.
pub fn fresh_is_silent()
    ensures { FreshIsSilent }
{}

/// What is kept came from the link, at its moment, to its question.
pub fn kept_came()
    ensures { KeptCame }
{}

/// There are never more replies kept than the capacity.
pub fn kept_are_few()
    ensures { KeptAreFew }
{}
