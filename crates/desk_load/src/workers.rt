//! Workers on threads, all at one shared core.
ghost use Rattle.std.specs.Prelude.{◌≡◌, ◌<◌, ◌≤◌, ℕ, List, [], map, length, slice_index_or, IfOk};
ghost use Rattle.histories.specs.History.{Legal};
ghost use Rattle.histories.specs.Whole.{Joined};
ghost use Rattle.shared_server.specs.Passes.{AreAll, AreNew};
ghost use Rattle.grant_machine.specs.Gnap.{gnap};
ghost use Rattle.desk_load.specs.LoadCalls.{load_setup};
ghost use Rattle.desk_load.specs.Loads.{IsLoad};
ghost use Rattle.desk_load.specs.Sharing.{IsSameWorker, AreWorkers, HaveDone};

use crate::tally::Tally;
use crate::worker::Worker;
use bytes_and_lists::memory::Mem;
use grant_machine::Gnap;
use histories::machine::Core;
use shared_server::shared::{Pass, Shared, close};
use std::alloc::Global;
use std::sync::Wait;
use std::thread;
use std::thread::Threads;

// A worker for each pass, in order, which share so many grants.
fn start_workers<'a, C: Core<M = Gnap>, R: Wait>(
    rt: &'a R,
    alloc: Global,
    shared: &'a Shared<C>,
    passes: Vec<Pass<C>>,
    grants: u32,
    start: u64,
) -> Result<Vec<Worker<'a, C, R>>, Mem>
    requires new { AreNew shared.now passes.items }
    ensures { IfOk result (λ workers. AreWorkers shared.now grants start workers.items) }
{
    let count = passes.len();
    let mut workers = Vec::new(alloc);
    for pass in passes {
        let worker = workers.len();
        workers.push(Worker::new(rt, alloc, shared, pass, grants, start, count, worker))?;
    }
    Ok(workers)
}

// Has all workers do their shares at once.
fn run_workers<'a, C: Core<M = Gnap> + Send, R: Threads + Wait + Sync>(
    rt: &R,
    workers: &mut [Worker<'a, C, R>],
)
    ensures each { (i : ℕ) (d : _) → i < length workers.old → IsSameWorker (slice_index_or workers.old i d) (slice_index_or workers.new i d) }
    ensures many { length workers.new ≡ length workers.old }
{
    let count = workers.len();
    if count == 0 {
        return;
    }
    thread::for_each_mut(rt, workers, count, &|_, worker| worker.work());
}

// The passes of workers, in order, and what they counted together.
fn end_workers<'a, C: Core<M = Gnap>, R: Wait>(
    alloc: Global,
    shared: &Shared<C>,
    workers: Vec<Worker<'a, C, R>>,
    grants: u32,
    start: u64,
) -> Result<(Vec<Pass<C>>, Tally), Mem>
    requires workers { AreWorkers shared.now grants start workers.items }
    requires few { length workers.items ≤ 64 }
    ensures { IfOk result (λ r. HaveDone shared.now grants start r.0.items r.1) }
{
    let _shared = shared;
    let mut passes = Vec::new(alloc);
    let mut total = Tally::new();
    for worker in workers {
        let (pass, made) = worker.leave();
        passes.push(pass)?;
        total.add(&made?);
    }
    Ok((passes, total))
}

// Takes all passes back. What was seen with them is joined by one legal history.
fn take_back<C: Core<M = Gnap> + Drop>(shared: Shared<C>, passes: Vec<Pass<C>>)
    requires all { AreAll shared passes.items }
    ensures { (h : _) × Legal gnap shared.rules h × Joined (map (λ p. p.seen) passes.items) h }
{
    close(shared, passes);
}

/// Shares a core that stands for the empty history among workers, each on a thread of its own, which put so many grants through together. The words
/// of worker k are those of ChaCha20 under the key that begins with `start`, in stream k, from the first on.
///
/// The tally is that of all replies of one legal history, in which each worker did its share with its words and nobody else anything. An `Err` says that memory
/// ran out.
pub fn put_load<C: Core<M = Gnap> + Send + Drop, R: Threads + Wait + Sync>(
    rt: &R,
    alloc: Global,
    core: C,
    grants: u32,
    start: u64,
    workers: usize,
) -> Result<Tally, Mem>
    requires rules { C.rules core ≡ load_setup }
    requires empty { C.stands core [] }
    requires some { 0 < workers }
    requires few { workers ≤ 64 }
    ensures { IfOk result (IsLoad grants start workers) }
{
    let Ok((shared, passes)) = Shared::new(alloc, core, workers) else {
        return Err(Mem);
    };
    let mut all = start_workers(rt, alloc, &shared, passes, grants, start)?;
    run_workers(rt, all.as_mut_slice());
    let (passes, tally) = end_workers(alloc, &shared, all, grants, start)?;
    take_back(shared, passes);
    Ok(tally)
}
