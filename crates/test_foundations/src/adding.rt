use bytes_and_lists::memory::Mem;
use histories::laws::{by_order, one_alone, one_history};
use histories::lone::Lone;
use histories::machine::{Core, Desk};
use random_words::RandomWords;
use std::alloc::Global;
use test_adding::adder::Adder;
use test_adding::adding::{Adding, Call, Reply};
use test_adding::calls::{Made, add_often, total_at};

// Equal calls at a desk of one's own.
struct Run {
    start: u64,
    refuses_each: u64,
    amount: u64,
    times: u32,
    made: Made,
    total: u64,
}

// What each comes to was computed by hand.
const FROM_NOTHING: Run = Run {
    start: 0,
    refuses_each: 0,
    amount: 7,
    times: 10,
    made: Made {
        answered: 10,
        lapsed: 0,
        last: 70,
    },
    total: 70,
};

const REFUSED_EACH_THIRD: Run = Run {
    start: 5,
    refuses_each: 3,
    amount: 2,
    times: 7,
    made: Made {
        answered: 5,
        lapsed: 2,
        last: 15,
    },
    total: 15,
};

const UP_TO_THE_GREATEST: Run = Run {
    start: u64::MAX - 3,
    refuses_each: 0,
    amount: 2,
    times: 2,
    made: Made {
        answered: 2,
        lapsed: 0,
        last: u64::MAX,
    },
    total: u64::MAX,
};

fn comes_out(alloc: Global, run: &Run) -> bool {
    let mut desk = Lone::new(Adder::new(alloc, run.start, run.refuses_each));
    let made = add_often(&mut desk, run.amount, u64::from(run.times));
    made == run.made && desk.into_core().total() == run.total
}

/// The sum is as computed, at each start and with each third step refused.
#[test]
fn a_desk_of_ones_own_adds(rt: HostRuntime) {
    assert!(rt; comes_out(rt.alloc(), &FROM_NOTHING));
    assert!(rt; comes_out(rt.alloc(), &REFUSED_EACH_THIRD));
    assert!(rt; comes_out(rt.alloc(), &UP_TO_THE_GREATEST));
}

/// A desk whose core refuses each add tells its sum all the same.
#[test]
fn a_sum_takes_no_memory(rt: HostRuntime) {
    let mut desk = Lone::new(Adder::new(rt.alloc(), 5, 1));
    assert!(rt; total_at(&mut desk) == 5);
}

fn answer_of_a_step(alloc: Global, refuses_each: u64) -> Result<Reply, Mem> {
    Adder::new(alloc, 1, refuses_each).step(20, &RandomWords::zeros(), &Call::Add(41))
}

#[test]
fn a_step_answers_the_sum(rt: HostRuntime) {
    assert!(rt; answer_of_a_step(rt.alloc(), 0) == Ok(Reply::Sum(42)));
    assert!(rt; answer_of_a_step(rt.alloc(), 1) == Err(Mem));
}

#[test]
fn the_laws_hold_of_a_machine(rt: HostRuntime) {
    one_history::<Adding>();
    one_alone::<Adding>();
    by_order::<Adding>();
    assert!(rt; true);
}
