//! A worker: a station at a shared core, and its share of a load.
ghost use Rattle.std.specs.Prelude.{◌≡◌, ◌<◌, [], IfOk};
ghost use Rattle.shared_server.specs.Passes.{IsPassOf};
ghost use Rattle.desk_load.specs.Sharing.{IsSameWorker, HasCounted};

use crate::share::do_share;
use crate::tally::Tally;
use bytes_and_lists::memory::Mem;
use grant_machine::Gnap;
use histories::machine::Core;
use shared_server::shared::{Pass, Shared};
use shared_server::station::Station;
use std::alloc::Global;
use std::marker::Model;
use std::sync::Wait;

/// Does one share of a load, with a station and words of its own. Its type keeps that what was counted is of just the calls of the share, each with the
/// next draw of these words.
#[derive(Drop)]
pub struct Worker<'a, C: Core<M = Gnap>, R> {
    alloc: Global,
    station: Station<'a, C, R>,
    grants: u32,
    start: u64,
    workers: usize,
    worker: usize,
    begun: bool,
    made: Result<Tally, Mem>,
}

impl<'a, C: Core<M = Gnap>, R> Model for Worker<'a, C, R> {
    ghost use Rattle.desk_load.specs.Sharing.{WorkerState, IsSoundWorker};

    ghost Value = { WorkerState };

    ghost view = { λ w. record {
      station = w.station;
      grants = w.grants;
      start = w.start;
      workers = w.workers;
      worker = w.worker;
      begun = w.begun;
      made = w.made;
    } };

    ghost invariant = { λ w. IsSoundWorker (record {
      station = w.station;
      grants = w.grants;
      start = w.start;
      workers = w.workers;
      worker = w.worker;
      begun = w.begun;
      made = w.made;
    }) };
}

impl<'a, C: Core<M = Gnap>, R: Wait> Worker<'a, C, R> {
    /// The worker of a number, with a pass with which nothing was seen yet, of so many workers that share so many grants.
    pub fn new(
        rt: &'a R,
        alloc: Global,
        shared: &'a Shared<C>,
        pass: Pass<C>,
        grants: u32,
        start: u64,
        workers: usize,
        worker: usize,
    ) -> Worker<'a, C, R>
        requires of { IsPassOf shared.now pass }
        requires unseen { pass.seen ≡ [] }
        requires some { 0 < workers }
        ensures station { result.station ≡ record { home = shared.now; number = pass.number; seen = pass.seen } }
        ensures share { (result.grants ≡ grants) × (result.start ≡ start) × (result.workers ≡ workers) × (result.worker ≡ worker) }
    {
        Worker {
            alloc,
            station: Station::new(rt, shared, pass),
            grants,
            start,
            workers,
            worker,
            begun: false,
            made: Err(Mem),
        }
    }

    /// Does the share, where it wasn't begun yet.
    pub fn work(&mut self)
        ensures { IsSameWorker self.old self.new }
    {
        if self.begun {
            return;
        }
        self.begun = true;
        self.made = do_share(
            self.alloc,
            &mut self.station,
            self.grants,
            self.start,
            self.workers,
            self.worker,
        );
    }

    /// The pass, and what was counted. An `Err` says that memory ran out, or that the share wasn't begun.
    pub fn leave(self) -> (Pass<C>, Result<Tally, Mem>)
        ensures of { IsPassOf self.entry.station.home result.0 }
        ensures number { result.0.number ≡ self.entry.station.number }
        ensures counted { IfOk result.1
            (HasCounted self.entry.grants self.entry.start self.entry.workers self.entry.worker self.entry.station.number result.0.seen) }
    {
        let Worker {
            alloc: _,
            station,
            grants: _,
            start: _,
            workers: _,
            worker: _,
            begun: _,
            made,
        } = self;
        (station.leave(), made)
    }
}
