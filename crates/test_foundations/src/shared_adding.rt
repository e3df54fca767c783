ghost use Rattle.std.specs.Prelude.{◌<◌, ◌≤◌};

use shared_server::shared::Shared;
use std::alloc::Global;
use std::sync::Wait;
use std::thread::Threads;
use test_adding::adder::Adder;
use test_adding::serve::{sum_of_workers, told_sum};

// The sum of so many workers that call a thousand times each, where memory is refused so often.
fn total<R: Threads + Wait + Sync>(
    rt: &R,
    alloc: Global,
    workers: usize,
    refuses_each: u64,
) -> Option<u64>
    requires some { 0 < workers }
    requires few { workers ≤ 64 }
{
    Some(sum_of_workers(rt, alloc, workers, 1000, refuses_each)?.total)
}

/// Each sum is a count: the calls of all workers, less those at which the core refused memory.
#[test]
fn all_calls_are_in_the_sum(rt: HostRuntime) {
    assert!(rt; total(&rt, rt.alloc(), 1, 0) == Some(1000));
    assert!(rt; total(&rt, rt.alloc(), 4, 0) == Some(4000));
    assert!(rt; total(&rt, rt.alloc(), 1, 3) == Some(667));
    assert!(rt; total(&rt, rt.alloc(), 4, 3) == Some(2667));
}

/// At a shared core that refuses each add a worker is told the sum all the same.
#[test]
fn a_sum_is_told_where_every_add_is_refused(rt: HostRuntime) {
    let Ok((shared, mut passes)) = Shared::new(rt.alloc(), Adder::new(rt.alloc(), 5, 1), 1) else {
        panic!(rt; "memory");
    };
    let Some(pass) = passes.pop() else {
        panic!(rt; "no pass");
    };
    let told = told_sum(&rt, &shared, pass);
    assert!(rt; told.sum == 5);
}
