//! A worker: a station at a shared core, and a gear.
ghost use Rattle.std.specs.Prelude.{◌≡◌, ◌+◌, ◌*◌, ◌<◌, [], true, false};
ghost use Rattle.outside.specs.Gears.{IsUnused};
ghost use Rattle.serving.specs.Logs.{IsAccount};
ghost use Rattle.histories.specs.Whole.{own_of};
ghost use Rattle.shared_server.specs.Passes.{IsPassOf};
ghost use Rattle.serving.specs.Workers.{IsSameWorker, HasServedOne, HasServedAll, Drained};

use crate::front::Front;
use histories::machine::{Core, Machine};
use outside::gear::{Door, Gear};
use shared_server::shared::{Pass, Shared};
use shared_server::station::Station;
use std::alloc::Global;
use std::marker::Model;
use std::sync::Wait;

/// Serves the connections of one gear, with a station of its own. Contracts see the front, the station, and what the gear counts and tells. What the
/// gear tells is accounted for by the entries of the station's number in what the station has seen.
#[derive(Drop)]
pub struct Worker<'a, C: Core, F: Front<M = C::M>, G: Gear, R> {
    alloc: Global,
    station: Station<'a, C, R>,
    gear: G,
    front: &'a F,
}

impl<'a, C: Core, F: Front<M = C::M>, G: Gear, R> Model for Worker<'a, C, F, G, R> {
    ghost use Rattle.histories.specs.declared.entry.Entry.{Entry};
    ghost use Rattle.serving.specs.Workers.{WorkerState, IsSoundWorker};

    ghost Value = { WorkerState F C.M.Rules (Entry C.M.Call C.M.Reply C.M.Note) };

    ghost view = { λ w. record { front = w.front.now; station = w.station; gear = G.state w.gear } };

    ghost invariant = { λ w. IsSoundWorker C.M.law (F.session w.front.now) (F.rules w.front.now)
        (record { front = w.front.now; station = w.station; gear = G.state w.gear }) };
}

impl<'a, C: Core, F: Front<M = C::M>, G: Gear, R: Wait> Worker<'a, C, F, G, R> {
    /// A worker with a pass to this core, with which nothing was seen yet, and with a gear that has done nothing yet.
    pub fn new(
        rt: &'a R,
        alloc: Global,
        shared: &'a Shared<C>,
        pass: Pass<C>,
        gear: G,
        front: &'a F,
    ) -> Worker<'a, C, F, G, R>
        requires of { IsPassOf shared.now pass }
        requires rules { shared.now.rules ≡ F.rules front.now }
        requires unseen { pass.seen ≡ [] }
        requires unused { IsUnused (G.state gear) }
        requires room { 2000 * (G.state gear).left + 2000 < 4503599627370496 }
        ensures { result ≡ record { front = front.now; station = record { home = shared.now; number = pass.number; seen = pass.seen }; gear = G.state gear } }
    {
        Worker {
            alloc,
            station: Station::new(rt, shared, pass),
            gear,
            front,
        }
    }

    /// Serves one connection. It is false where the door gave none: it may give no more, or it failed.
    pub fn turn(&mut self) -> bool
        ensures same { IsSameWorker self.old self.new }
        ensures more { result ≡ true → HasServedOne self.old.gear self.new.gear }
        ensures done { result ≡ false → HasServedAll self.old.gear self.new.gear }
    {
        let Ok(Some(conn)) = self.gear.accept() else {
            return false;
        };
        let mut conn = conn;
        self.front
            .serve(self.alloc, &mut self.station, &mut conn, &mut self.gear);
        self.gear.leave(conn);
        true
    }

    /// Serves all that the door gives.
    pub fn drain(&mut self)
        ensures { Drained self.old self.new }
    {
        while self.turn() {}
    }

    /// The pass and the gear, with the account of what the gear tells.
    pub fn leave(self) -> (Pass<C>, G)
        ensures of { IsPassOf self.entry.station.home result.0 }
        ensures number { result.0.number ≡ self.entry.station.number }
        ensures gear { G.state result.1 ≡ self.entry.gear }
        ensures out { self.entry.gear.out ≡ 0 }
        ensures account { IsAccount (F.session self.entry.front) self.entry.gear.log (own_of self.entry.station.number result.0.seen) }
    {
        let Worker {
            alloc: _,
            station,
            gear,
            front: _,
        } = self;
        (station.leave(), gear)
    }
}
