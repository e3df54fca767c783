//! Measures what tasks of the libraries cost.
//!
//!     bench TASK TIMES
//!
//! measures one, done so often, and prints the nanoseconds of one, the mean. The tasks are `covering`, `requests`, `grants` and `adding`; a module of each name
//! says what is done and printed. Without words each is done a few times, and no time is printed.
//!
//! Standard input has the four lines of the requests. For another task alone it isn't read.
#![tactic(auto)]

mod adding;
mod connections;
mod covering;
mod grants;
mod hashes;
mod requests;
mod timings;

use crate::timings::input_lines;
use std::rt::Clock;
use std::sync::Wait;
use std::thread::Threads;
use std::{env, io};

#[derive(Clone, Copy)]
enum Task {
    Covering,
    Requests,
    Grants,
    Adding,
}

const TASKS: [Task; 4] = [Task::Covering, Task::Requests, Task::Grants, Task::Adding];

impl Task {
    fn named(word: &str) -> Option<Task> {
        match word {
            "covering" => Some(Task::Covering),
            "requests" => Some(Task::Requests),
            "grants" => Some(Task::Grants),
            "adding" => Some(Task::Adding),
            _ => None,
        }
    }

    fn takes_lines(self) -> bool {
        match self {
            Task::Requests => true,
            Task::Covering | Task::Grants | Task::Adding => false,
        }
    }

    // Does the task as often as asked, with the lines of the requests.
    fn measure<R: Threads + Wait + Sync + Clock + Print + AllocGlobal>(
        self,
        rt: &R,
        lines: &[String],
        asked: Option<u64>,
    ) -> io::Result<()> {
        match self {
            Task::Covering => covering::measure(rt, asked),
            Task::Requests => requests::measure(rt, lines, asked),
            Task::Grants => grants::measure(rt, asked),
            Task::Adding => adding::measure(rt, asked),
        }
    }
}

// What the words ask for.
#[derive(Clone, Copy)]
enum Order {
    Each,
    One(Task, u64),
}

impl Order {
    // None where the words are of another form.
    fn told_by(words: &[String]) -> Option<Order> {
        match words {
            [] => Some(Order::Each),
            [task, times] => {
                let task = Task::named(task.as_str())?;
                Some(Order::One(task, times.parse::<u64>().ok()?))
            }
            _ => None,
        }
    }
}

fn main(rt: HostRuntime) -> io::Result<()> {
    let words: Vec<String> = env::args(&rt)?.skip(1).collect(rt.alloc())?;
    let Some(order) = Order::told_by(words.as_slice()) else {
        return println!(rt; "usage: bench [covering|requests|grants|adding TIMES]");
    };
    match order {
        Order::Each => {
            let lines = input_lines(&rt)?;
            for task in TASKS {
                task.measure(&rt, lines.as_slice(), None)?;
            }
            Ok(())
        }
        Order::One(task, times) => {
            let lines = if task.takes_lines() {
                input_lines(&rt)?
            } else {
                Vec::new(rt.alloc())
            };
            task.measure(&rt, lines.as_slice(), Some(times))
        }
    }
}
