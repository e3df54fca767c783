//! How far a worker has come with its share.
ghost use Rattle.std.specs.Prelude.{◌≡◌};
ghost use Rattle.desk_load.specs.Loads.{begun};

use crate::tally::Tally;
use crate::words::Words;

/// The words that a worker draws from, and what it has counted.
#[derive(Drop)]
pub struct Progress {
    pub words: Words,
    pub tally: Tally,
}

impl Progress {
    /// A worker at the beginning of its words, which has counted nothing.
    pub fn new(start: u64, worker: u64) -> Progress
        ensures { result ≡ begun start worker }
    {
        Progress {
            words: Words::new(start, worker),
            tally: Tally::new(),
        }
    }
}
