//! The runs of a case.
use gnap_io::memory_devices::MemSink;
use gnap_tool::run;
use serde_json::{Value, json};
use std::alloc::Global;
use std::sync::Wait;
use std::thread::Threads;
use test_cases::case::{Case, numbers, text};
use test_cases::fault::Fault;
use test_cases::outcome::{EndedRun, outcome_in_order};
use test_cases::stretch::{Stretch, add_stretch, longest_connection, stretch_list};
use test_cases::world::world;

// How many bytes can be written to standard output, and to standard error.
const ROOM: usize = 1_048_576;

fn words(alloc: Global, case: &Case<'_>) -> Result<Vec<String>, Fault> {
    let mut words = Vec::new(alloc);
    for word in case.words {
        words.push(String::from_str(alloc, text(word)?)?)?;
    }
    Ok(words)
}

fn run_case<R: Threads + Wait + Sync>(
    rt: &R,
    alloc: Global,
    case: &Case<'_>,
    most: usize,
) -> Result<EndedRun, Fault> {
    let mut out = MemSink::new(alloc, ROOM, numbers(alloc, case.bad_writes)?)?;
    let mut err = MemSink::new(alloc, ROOM, Vec::new(alloc))?;
    let words = words(alloc, case)?;
    let mut world = world(alloc, case, most)?;
    let status = run(rt, alloc, words.as_slice(), &mut world, &mut out, &mut err);
    Ok(EndedRun {
        status,
        world,
        out,
        err,
    })
}

// What came of a case for each beginning of its connections' bytes.
fn stretches<R: Threads + Wait + Sync>(
    rt: &R,
    alloc: Global,
    case: &Case<'_>,
) -> Result<Vec<Stretch>, Fault> {
    let mut stretches = Vec::new(alloc);
    for most in 0..=longest_connection(alloc, case)? {
        let ended = run_case(rt, alloc, case, most)?;
        add_stretch(&mut stretches, Stretch::of(alloc, &ended, most)?)?;
    }
    Ok(stretches)
}

fn shown<R: Threads + Wait + Sync>(rt: &R, alloc: Global, case: &Case<'_>) -> Result<Value, Fault> {
    if case.cut {
        let stretches = stretches(rt, alloc, case)?;
        let cut = stretch_list(alloc, stretches.as_slice())?;
        return Ok(json!(in alloc; {"cut": cut, "name": case.name})?);
    }
    if case.in_order {
        return outcome_in_order(rt, alloc, case);
    }
    run_case(rt, alloc, case, usize::MAX)?.outcome(alloc, case)
}

/// Runs the case of the line, and tells what came of it.
pub fn outcome_line<R: Threads + Wait + Sync>(
    rt: &R,
    alloc: Global,
    line: &str,
) -> Result<String, Fault> {
    let line = Value::from_str(alloc, line)?;
    let case = Case::read(&line)?;
    Ok(shown(rt, alloc, &case)?.to_string(alloc)?)
}
