//! A law of connections. The function does nothing; its contract is the law.
ghost use Rattle.rs_facing.specs.SetSessions.{UnfailedSetsAreWhole};

/// Where no read and no write failed on a connection, its requests are those that its whole input begins with, also the part that wasn't read, and
/// everything that was to be said was written.
pub fn unfailed_sets_are_whole()
    ensures { UnfailedSetsAreWhole }
{}
