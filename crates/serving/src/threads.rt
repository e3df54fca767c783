//! Workers on threads, all at one shared core.
ghost use Rattle.std.specs.Prelude.{◌≡◌, ℕ, ◌+◌, ◌*◌, ◌<◌, ◌≤◌, [], All, map, length, slice_index_or, vec_len, vec_capacity, IsOk, IsErr};
ghost use Rattle.outside.specs.Gears.{IsUnused};
ghost use Rattle.histories.specs.History.{Legal};
ghost use Rattle.histories.specs.Whole.{OneHistory, AllKeep, Joined};
ghost use Rattle.shared_server.specs.Passes.{AreAll, AreNew};
ghost use Rattle.serving.specs.Workers.{AreWorkers, HaveServedAll, Drained, accounts_of};

use crate::front::Front;
use crate::worker::Worker;
use bytes_and_lists::memory::Mem;
use histories::machine::{Core, Machine};
use outside::gear::Gear;
use shared_server::shared::{Pass, Shared, close};
use std::alloc::Global;
use std::sync::Wait;
use std::thread;
use std::thread::Threads;

/// Runs all workers at once, each until its door is done.
pub fn serve_workers<
    'a,
    C: Core + Send,
    F: Front<M = C::M> + Sync,
    G: Gear + Send,
    R: Threads + Wait + Sync,
>(rt: &R, workers: &mut [Worker<'a, C, F, G, R>])
where
    C::M: Send,
    <C::M as Machine>::Call: Send,
    <C::M as Machine>::Reply: Send,
    ensures each { (i : ℕ) (d : _) → i < length workers.old → Drained (slice_index_or workers.old i d) (slice_index_or workers.new i d) }
    ensures many { length workers.new ≡ length workers.old }
{
    let count = workers.len();
    if count == 0 {
        return;
    }
    thread::for_each_mut(rt, workers, count, &|_, worker| worker.drain());
}

// A worker for each pass and its gear, in order. The rooms of both stay, for what the workers leave.
fn start_workers<'a, C: Core, F: Front<M = C::M>, G: Gear, R: Wait>(
    rt: &'a R,
    alloc: Global,
    shared: &'a Shared<C>,
    front: &'a F,
    passes: &mut Vec<Pass<C>>,
    gears: &mut Vec<G>,
    mut workers: Vec<Worker<'a, C, F, G, R>>,
) -> Vec<Worker<'a, C, F, G, R>>
    requires rules { shared.now.rules ≡ F.rules front.now }
    requires passes { AreNew shared.now passes.old.items }
    requires many { length gears.old.items ≡ length passes.old.items }
    requires unused { All (λ gear. IsUnused (G.state gear)) gears.old.items }
    requires within { All (λ gear. (G.state gear).left ≤ 4294967295) gears.old.items }
    requires room { (vec_len workers ≡ 0) × (length passes.old.items ≤ vec_capacity workers) }
    ensures workers { AreWorkers shared.now front.now result.items }
    ensures gears { map (λ worker. worker.gear) result.items ≡ map G.state gears.old.items }
    ensures room { (vec_len passes.new ≡ 0) × (vec_len gears.new ≡ 0)
        × (length result.items ≤ vec_capacity passes.new) × (length result.items ≤ vec_capacity gears.new) }
{
    while gears.len() > 0 {
        let pass = passes.remove(0);
        let gear = gears.remove(0);
        workers.push_reserved(Worker::new(rt, alloc, shared, pass, gear, front));
    }
    workers
}

// The passes and the gears of workers, in order.
fn end_workers<'a, C: Core, F: Front<M = C::M>, G: Gear, R: Wait>(
    shared: &Shared<C>,
    front: &F,
    workers: Vec<Worker<'a, C, F, G, R>>,
    passes: &mut Vec<Pass<C>>,
    gears: &mut Vec<G>,
)
    requires workers { AreWorkers shared.now front.now workers.items }
    requires room { (vec_len passes.old ≡ 0) × (vec_len gears.old ≡ 0)
        × (length workers.items ≤ vec_capacity passes.old) × (length workers.items ≤ vec_capacity gears.old) }
    ensures passes { AreAll shared.now passes.new.items }
    ensures gears { map G.state gears.new.items ≡ map (λ worker. worker.gear) workers.entry.items }
    ensures out { All (λ gear. (G.state gear).out ≡ 0) gears.new.items }
    ensures accounts { AllKeep 0 (accounts_of (F.session front.now) (map G.state gears.new.items)) (map (λ pass. pass.seen) passes.new.items) }
{
    let _shared = shared;
    let _front = front;
    for worker in workers {
        let (pass, gear) = worker.leave();
        passes.push_reserved(pass);
        gears.push_reserved(gear);
    }
}

// Takes all passes back. What was seen with them is joined by one legal history.
fn close_all<C: Core + Drop>(shared: Shared<C>, passes: Vec<Pass<C>>)
    requires all { AreAll shared passes.items }
    ensures { (h : _) × Legal C.M.law shared.rules h × Joined (map (λ p. p.seen) passes.items) h }
{
    close(shared, passes);
}

/// Serves all that the doors of gears give, each by a worker of its own at one core, and gives the gears back, in their order.
///
/// There is one legal history by the front's rules, in which the entries of each number account for what the gear of that place tells, and
/// which has no others; and no connection is out. At `Ok` each gear took back all connections that its door gave, which gives no more, or
/// failed. At `Err` memory ran out before the first connection, and the gears are as before.
pub fn serve_gears<
    C: Core + Send + Drop,
    F: Front<M = C::M> + Sync,
    G: Gear + Send,
    R: Threads + Wait + Sync,
>(rt: &R, alloc: Global, core: C, front: &F, gears: Vec<G>) -> (Vec<G>, Result<(), Mem>)
where
    C::M: Send,
    <C::M as Machine>::Call: Send,
    <C::M as Machine>::Reply: Send,
    requires some { 0 < length gears.items }
    requires few { length gears.items ≤ 64 }
    requires empty { C.stands core [] }
    requires rules { C.rules core ≡ F.rules front.now }
    requires unused { All (λ gear. IsUnused (G.state gear)) gears.items }
    requires within { All (λ gear. (G.state gear).left ≤ 4294967295) gears.items }
    ensures one { OneHistory C.M.law (F.rules front.now) (accounts_of (F.session front.now) (map G.state result.0.items)) }
    ensures many { length result.0.items ≡ length gears.items }
    ensures out { All (λ gear. (G.state gear).out ≡ 0) result.0.items }
    ensures done { IsOk result.1 → HaveServedAll (map G.state gears.items) (map G.state result.0.items) }
    ensures unserved { IsErr result.1 → result.0.items ≡ gears.items }
{
    let n = gears.len();
    let Ok((shared, mut passes)) = Shared::new(alloc, core, n) else {
        return (gears, Err(Mem));
    };
    let Ok(room) = Vec::with_capacity(alloc, n) else {
        return (gears, Err(Mem));
    };
    let mut gears = gears;
    let mut workers = start_workers(rt, alloc, &shared, front, &mut passes, &mut gears, room);
    serve_workers(rt, workers.as_mut_slice());
    end_workers(&shared, front, workers, &mut passes, &mut gears);
    close_all(shared, passes);
    (gears, Ok(()))
}
