//! What serves a connection at a desk.
ghost use Rattle.std.specs.Prelude.{◌≡◌, ℕ, ◌+◌, ◌<◌, List, length};
ghost use Rattle.outside.specs.Outside.{Served, IsUntouched, served_of};
ghost use Rattle.histories.specs.declared.entry.Entry.{Entry};
ghost use Rattle.serving.specs.Logs.{Serves};
ghost use Rattle.histories.specs.Turns.{Turn};
ghost use Rattle.histories.specs.Whole.{own_of};

use histories::machine::{Desk, Machine};
use outside::device::{Sink, Source};
use outside::gear::{Clock, Draws};
use std::alloc::Global;

/// Serves connections, by the messages that come on them.
pub trait Front {
    /// The machine that is asked.
    type M: Machine;

    /// What comes on a connection.
    type Message;

    /// The rules of that machine.
    ghost rules: { Self → Self.M.Rules };

    /// A connection was served by these turns.
    ghost session: { Self → Served → List (Turn Self.Message (Entry Self.M.Call Self.M.Reply Self.M.Note)) → Type 0 };

    /// Serves a connection at a desk with these rules, with the moments and the words of a gear, until it ends. It makes at most 2,000 entries.
    fn serve<D: Desk<M = Self::M>, S: Source + Sink, G: Clock + Draws>(
        &self,
        alloc: Global,
        desk: &mut D,
        conn: &mut S,
        gear: &mut G,
    )
        requires rules { D.rules desk.old ≡ rules self.now }
        requires room { (h : _) × D.seen desk.old h × (length (own_of (D.number desk.old) h) + 2000 < 4503599627370496) }
        requires untouched { IsUntouched (S.told conn.old) (S.faults conn.old) }
        ensures rules { D.rules desk.new ≡ D.rules desk.old }
        ensures number { D.number desk.new ≡ D.number desk.old }
        ensures home { D.home desk.new ≡ D.home desk.old }
        ensures serves { (h : _) → D.seen desk.old h → Serves (session self.now) (D.number desk.old) (D.seen desk.new) h
            (G.state gear.old) (G.state gear.new) (served_of (S.told conn.new) (S.faults conn.new)) };
}
