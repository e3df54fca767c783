//! Replies, counted.
ghost use Rattle.std.specs.Prelude.{◌≡◌, ◌+◌, ◌<◌, ◌≤◌, ◌^◌};
ghost use Rattle.desk_load.specs.Tallies.{none_counted, counted_in, tally_of_reply, Adds};

use gnap_model::calls::Reply;

/// How many replies said that a token is active, that there is no such token, and that a grant was ended.
#[derive(Clone, Copy)]
pub struct Tally {
    pub active: u64,
    pub inactive: u64,
    pub done: u64,
}

impl Tally {
    /// Nothing was counted.
    pub fn new() -> Tally
        ensures { result ≡ none_counted }
    {
        Tally {
            active: 0,
            inactive: 0,
            done: 0,
        }
    }

    /// Counts a reply.
    pub(crate) fn count(&mut self, reply: &Reply)
        requires room { counted_in self.old + 1 < 2 ^ 64 }
        ensures counted { Adds (tally_of_reply reply.now) self.old self.new }
        ensures most { counted_in self.new ≤ counted_in self.old + 1 }
    {
        match reply {
            Reply::Active { .. } => self.active += 1,
            Reply::Inactive => self.inactive += 1,
            Reply::Done => self.done += 1,
            _ => {}
        }
    }

    /// Adds what another one counted.
    pub(crate) fn add(&mut self, other: &Tally)
        requires room { counted_in self.old + counted_in other.now < 2 ^ 64 }
        ensures { Adds other.now self.old self.new }
    {
        self.active += other.active;
        self.inactive += other.inactive;
        self.done += other.done;
    }
}
