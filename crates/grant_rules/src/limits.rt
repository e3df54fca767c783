//! The limits of the machine, which RFC 9635 leaves to the server. Times are in seconds.

/// A continuation value may be used for a poll after so many seconds (section 3.1).
pub const WAIT: u64 = 5;

/// The user may decide for so many seconds, if the grant lasts so long (section 3.3).
pub const INTERACTION_TIME: u64 = 600;

/// A round is over after so many seconds.
pub const ROUND_TIME: u64 = 1_200;

/// A token lasts so many seconds, if its grant does (section 3.2.1).
pub const TOKEN_TIME: u64 = 3_600;

/// A grant lasts so many seconds.
pub const GRANT_TIME: u64 = 2_592_000;

/// So many wrong references in a round end the grant.
pub const WRONG_LIMIT: usize = 5;

/// So many grants may be live, and so many tokens.
pub const LIVE_LIMIT: usize = 65_536;
