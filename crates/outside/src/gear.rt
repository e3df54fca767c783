//! A worker's part of the outside: a door that gives connections, a clock, and random words.
ghost use Rattle.std.specs.Prelude.{◌≡◌, ℕ, ◌<◌, ◌≤◌, nat_lt, IfOk, IfSome};
ghost use Rattle.outside.specs.Outside.{IsUntouched, served_of};
ghost use Rattle.bytes_and_lists.specs.Moments.{last_moment};
ghost use Rattle.outside.specs.Gears.{GearState, Accepts, with_served, with_moment, with_draw};

use crate::device::{Failed, Sink, Source};
use random_words::RandomWords;

/// What contracts see of a gear.
pub trait Counted: Drop {
    /// What it counts, and its log: the connections that it took back, the moments and the words that it gave.
    ghost state: { Self → GearState };
}

/// Gives connections, one after another, and takes them back.
pub trait Door: Counted {
    type Conn: Source + Sink + Send;

    /// The next connection, which has not failed, and which nothing was read from or written to. `None` comes only where none is left, and an
    /// `Err` only where the count of faults rose.
    fn accept(&mut self) -> Result<Option<Self::Conn>, Failed>
        ensures state { Accepts (Self.state self.old) (Self.state self.new) result }
        ensures conn { IfOk result (λ given. IfSome given (λ conn. IsUntouched (Self.Conn.told conn) (Self.Conn.faults conn))) };

    /// Takes a connection back, as the last that was served. This takes no memory.
    fn leave(&mut self, conn: Self::Conn)
        requires { 0 < (Self.state self.old).out }
        ensures { Self.state self.new ≡ with_served (served_of (Self.Conn.told conn) (Self.Conn.faults conn)) (Self.state self.old) };

    /// Whether a fault of the door was counted.
    fn has_failed(&self) -> bool
        ensures { result ≡ nat_lt 0 (Self.state self.now).faults };
}

/// Tells the time.
pub trait Clock: Counted {
    /// A moment, in seconds since 1970. It is at most the last second of the year 9999.
    fn now(&mut self) -> u64
        ensures bound { result ≤ last_moment }
        ensures state { Self.state self.new ≡ with_moment result (Self.state self.old) };
}

/// Gives random words.
pub trait Draws: Counted {
    /// The next 48 words.
    fn draw(&mut self) -> RandomWords
        ensures { Self.state self.new ≡ with_draw result (Self.state self.old) };
}

/// One worker's part of the outside. It may move to a thread.
pub trait Gear: Door + Clock + Draws {}
