//! What an entry draws on.
ghost use Rattle.std.specs.Prelude.{◌≤◌, ◌<◌, ◌^◌};
ghost use Rattle.bytes_and_lists.specs.Moments.{last_moment};

use random_words::RandomWords;

/// What an entry draws on.
#[derive(Clone, Copy)]
pub struct Supply<'a> {
    /// The greatest moment so far, in seconds since 1970.
    pub moment: u64,
    /// The serial of the first value that the entry draws.
    pub first: u64,
    /// The words of the entry.
    pub words: &'a RandomWords,
    pub ghost in_time: { moment ≤ last_moment },
    pub ghost room: { first < 2 ^ 63 },
}
