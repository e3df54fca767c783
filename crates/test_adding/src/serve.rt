//! Each pass is served by a thread of its own.
ghost use Rattle.std.specs.Prelude.{◌≡◌, ◌+◌, ◌*◌, ◌<◌, ◌≤◌, ◌^◌, length, map, replicate, sum, IfOk, IfSome};
ghost use Rattle.histories.specs.History.{places};
ghost use Rattle.histories.specs.Steps.{Enters};
ghost use Rattle.shared_server.specs.Passes.{IsPassOf, AreAll, AreNew};
ghost use Rattle.test_adding.specs.Adding.{adding};
ghost use Rattle.test_adding.specs.Amounts.{GrewBy};
ghost use Rattle.test_adding.specs.declared.adding.Call.TheVariants.{Total};
ghost use Rattle.test_adding.specs.declared.adding.Reply.TheVariants.{Sum};
ghost use Rattle.test_adding.specs.Ones.{EachServed, AreSums};

use crate::adder::Adder;
use crate::calls::{Made, add_often, total_at};
use shared_server::shared::{Pass, Shared, close};
use shared_server::station::Station;
use std::alloc::{AllocError, Global};
use std::sync::Wait;
use std::thread;
use std::thread::Threads;

/// A pass that came back, and what the calls with it came to.
#[derive(Drop)]
struct Served {
    pass: Pass<Adder>,
    made: Made,
}

/// What workers came to.
#[derive(Drop)]
pub struct Sums {
    /// How many calls of each worker were answered, as that worker counted them, in the order of their numbers.
    pub answered: Vec<u64>,
    /// The sum that the core had at the end.
    pub total: u64,
}

/// Adds 1 so many times with a pass, and gives the pass back.
fn work<R: Wait>(rt: &R, shared: &Shared<Adder>, pass: Pass<Adder>, times: u64) -> Served
    requires of { IsPassOf shared.now pass }
    requires room { length (places pass.number pass.seen) + times < 2 ^ 52 }
    ensures of { IsPassOf shared.now result.pass }
    ensures number { result.pass.number ≡ pass.number }
    ensures made { GrewBy pass.number 1 times result.made pass.seen result.pass.seen }
{
    let mut station = Station::new(rt, shared, pass);
    let made = add_often(&mut station, 1, times);
    Served {
        pass: station.leave(),
        made,
    }
}

/// The sum that a worker was told, and its pass.
#[derive(Drop)]
pub struct Told {
    pub pass: Pass<Adder>,
    pub sum: u64,
}

/// Asks with a pass for the sum so far. Asking takes no memory, so that at a shared core too the call never lapses, whatever the core refuses: there is
/// always an answer.
pub fn told_sum<R: Wait>(rt: &R, shared: &Shared<Adder>, pass: Pass<Adder>) -> Told
    requires of { IsPassOf shared.now pass }
    requires room { length (places pass.number pass.seen) < 2 ^ 52 }
    ensures of { IsPassOf shared.now result.pass }
    ensures number { result.pass.number ≡ pass.number }
    ensures entered { Enters adding shared.now.rules pass.number pass.seen 0 (replicate 48 0) Total (Sum result.sum)
        (λ h. h ≡ result.pass.seen) }
{
    let mut station = Station::new(rt, shared, pass);
    let sum = total_at(&mut station);
    Told {
        pass: station.leave(),
        sum,
    }
}

/// Adds 1 so many times with each pass, each in a thread of its own.
fn serve_all<R: Threads + Wait + Sync>(
    rt: &R,
    shared: &Shared<Adder>,
    passes: Vec<Pass<Adder>>,
    times: u64,
) -> Result<Vec<Served>, AllocError>
    requires new { AreNew shared.now passes.items }
    requires room { times < 2 ^ 52 }
    ensures all { IfOk result (λ v. AreAll shared.now (map (λ s. s.pass) v.items)) }
    ensures made { IfOk result (λ v. EachServed times (map (λ s. s.pass) v.items) (map (λ s. s.made.answered) v.items)) }
{
    thread::map_vec(
        rt,
        passes,
        &|pass: Pass<Adder>| -> Served
            requires { IsPassOf shared.now pass × (length (places pass.number pass.seen) + times < 2 ^ 52) }
            ensures { IsPassOf shared.entry.now result.pass × (result.pass.number ≡ pass.number)
                × GrewBy pass.number 1 times result.made pass.seen result.pass.seen }
        { work(rt, shared, pass, times) },
    )
}

/// How many calls were answered with each pass.
fn counts(alloc: Global, served: &[Served]) -> Result<Vec<u64>, AllocError>
    ensures { IfOk result (λ v. v.items ≡ map (λ s. s.made.answered) served.now) }
{
    let mut counts = Vec::new(alloc);
    for one in served {
        counts.push(one.made.answered)?;
    }
    Ok(counts)
}

/// The passes alone.
fn passes_back(alloc: Global, served: Vec<Served>) -> Result<Vec<Pass<Adder>>, AllocError>
    ensures { IfOk result (λ v. v.items ≡ map (λ s. s.pass) served.items) }
{
    served.into_iter().map(|s| s.pass).collect(alloc)
}

/// What so many workers come to that add 1 so many times each, at a core that refuses memory at some of its steps.
///
/// There is one legal history in which each worker has as many entries as it was asked for calls, and the total is how many of these add.
/// It is the sum of the counts that come back with it. At which calls memory runs out isn't said. `None` says that it ran out outside the
/// calls.
pub fn sum_of_workers<R: Threads + Wait + Sync>(
    rt: &R,
    alloc: Global,
    workers: usize,
    times: u64,
    refuses_each: u64,
) -> Option<Sums>
    requires some { 0 < workers }
    requires few { workers ≤ 64 }
    requires room { times < 2 ^ 52 }
    ensures history { IfSome result (λ r. AreSums workers times r.answered.items r.total) }
    ensures total { IfSome result (λ r. r.total ≡ sum r.answered.items) }
    ensures most { IfSome result (λ r. r.total ≤ workers * times) }
{
    let (shared, passes) = Shared::new(alloc, Adder::new(alloc, 0, refuses_each), workers).ok()?;
    let served = serve_all(rt, &shared, passes, times).ok()?;
    let answered = counts(alloc, &served).ok()?;
    let passes = passes_back(alloc, served).ok()?;
    Some(Sums {
        answered,
        total: close(shared, passes).total(),
    })
}
