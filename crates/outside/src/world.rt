//! The world, which hands files, gears and links out and takes them back.
ghost use Rattle.std.specs.Prelude.{◌≡◌, ℕ, ◌<◌, List, Option, Bool, true, MatchResult, IfOk, IfSome, map, vec_len, vec_capacity};
ghost use Rattle.outside.specs.Outside.{untouched, served_of, one_more};
ghost use Rattle.outside.specs.Gears.{AreStarted, AreFull};
ghost use Rattle.outside.specs.Links.{new_link};
ghost use Rattle.outside.specs.Worlds.{WorldState, HasWorldCause, with_opened, with_returned, with_opening, with_gears, with_link};

use crate::device::Source;
use crate::gear::Gear;
use crate::link::Link;
use bytes_and_lists::bytes::Bytes;
use bytes_and_lists::memory::Duplicate;
use thiserror::Error;

/// Why the world handed nothing out.
#[derive(Clone, Copy, Debug, Error)]
pub enum WorldFault {
    /// It failed: its count of faults rose.
    #[error("it can't be opened")]
    Failed,
    /// Memory ran out.
    #[error("memory ran out")]
    OutOfMemory,
}

/// What was opened, with the words and numbers of the call.
#[derive(Drop)]
pub enum Opening {
    /// The file of this name.
    File(Bytes),
    /// So many gears at this address, each for so many connections at most.
    Gears(Bytes, usize, u32),
    /// A link to this address.
    Link(Bytes),
}

/// Hands out named files, gears and links, and takes them back.
pub trait World {
    type File: Source;

    type Gear: Gear + Send;

    type Link: Link;

    /// What it counts and keeps.
    ghost state: { Self → WorldState };

    /// The bytes of a named file, where they are known. No call changes them.
    ghost text: { Self → List ℕ → Option (List ℕ) };

    /// Whether each gear that it starts may give as many connections as were asked for. Else it may give fewer.
    ghost gives_quota: { Bool };

    /// Opens the file of this name. An `Err` changes the count of faults alone.
    fn open_file(&mut self, name: &Bytes) -> Result<Self::File, WorldFault>
        ensures text { text self.new ≡ text self.old }
        ensures state { MatchResult result
            (λ _. state self.new ≡ with_opened (Opening.File name.now) (state self.old))
            (λ _. state self.new ≡ record (state self.old) { faults = (state self.new).faults }) }
        ensures file { MatchResult result
            (λ file. (Self.File.faults file ≡ 0) × (Self.File.told file ≡ untouched (text self.old name.now)))
            (λ fault. HasWorldCause (state self.old).faults (state self.new).faults fault) };

    /// Takes a file back. This takes no memory.
    fn close_file(&mut self, file: Self::File)
        requires { 0 < (state self.old).lent }
        ensures text { text self.new ≡ text self.old }
        ensures state { state self.new ≡ with_returned (served_of (Self.File.told file) (Self.File.faults file)) (state self.old) };

    /// Starts gears at an address, each for so many connections at most. An `Err` changes the count of faults alone.
    fn start_gears(
        &mut self,
        address: &Bytes,
        n: usize,
        quota: u32,
    ) -> Result<Vec<Self::Gear>, WorldFault>
        ensures text { text self.new ≡ text self.old }
        ensures state { MatchResult result
            (λ _. state self.new ≡ with_opening (Opening.Gears address.now n quota) (state self.old))
            (λ _. state self.new ≡ record (state self.old) { faults = (state self.new).faults }) }
        ensures gears { MatchResult result
            (λ gears. AreStarted Self.Gear.state n quota gears.items)
            (λ fault. HasWorldCause (state self.old).faults (state self.new).faults fault) }
        ensures quota { gives_quota ≡ true → IfOk result (λ gears. AreFull Self.Gear.state quota gears.items) };

    /// Takes gears back. This takes no memory.
    fn stop_gears(&mut self, gears: Vec<Self::Gear>)
        ensures text { text self.new ≡ text self.old }
        ensures state { state self.new ≡ with_gears (map Self.Gear.state gears.items) (state self.old) };

    /// Opens a link to an address. An `Err` changes the count of faults alone.
    fn open_link(&mut self, address: &Bytes) -> Result<Self::Link, WorldFault>
        ensures text { text self.new ≡ text self.old }
        ensures state { MatchResult result
            (λ _. state self.new ≡ with_opening (Opening.Link address.now) (state self.old))
            (λ _. state self.new ≡ record (state self.old) { faults = (state self.new).faults }) }
        ensures link { MatchResult result
            (λ link. Self.Link.link link ≡ new_link)
            (λ fault. HasWorldCause (state self.old).faults (state self.new).faults fault) };

    /// Takes a link back. This takes no memory.
    fn close_link(&mut self, link: Self::Link)
        ensures text { text self.new ≡ text self.old }
        ensures state { state self.new ≡ with_link (Self.Link.link link) (state self.old) };
}

/// A copy of the name, where there is memory for it and for one more opening: then the list has room for that.
pub fn name_to_keep(opened: &mut Vec<Opening>, name: &Bytes) -> Option<Bytes>
    ensures items { opened.new.items ≡ opened.old.items }
    ensures room { IfSome result (λ copy. (copy ≡ name.now) × (vec_len opened.new < vec_capacity opened.new)) }
{
    if opened.reserve(1).is_err() {
        return None;
    }
    name.copy().ok()
}

/// Counts a fault of a world, up to 18,446,744,073,709,551,615, and says that the world failed.
pub fn failed(faults: &mut u64) -> WorldFault
    ensures fault { result ≡ WorldFault.Failed }
    ensures counted { faults.new ≡ one_more faults.old }
{
    *faults = faults.saturating_add(1);
    WorldFault::Failed
}
