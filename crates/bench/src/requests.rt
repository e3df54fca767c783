//! What reading and verifying a signed request costs, beside the two hashes that it takes.
//!
//! It takes four lines: a request, with `|` for each CR LF; its signature base, with `|` for each LF; and in base64 the SHA-256 of its body and the HMAC of
//! its signature base. Another program made them. Printed is, for each step, how often it came out as it has to, and where it was asked how often, behind
//! that the nanoseconds of one, the mean, and how many that is a second.

use crate::connections::{SignatureCheck, requests_read};
use crate::hashes::Hashes;
use crate::timings::nanos_of_one;
use bytes_and_lists::bytes::Bytes;
use bytes_and_lists::memory::Mem;
use gnap_io::memory_devices::MemSource;
use std::alloc::Global;
use std::io;
use std::rt::Clock;
use std::time::Instant;

// How often a step is done where no number asks for more.
const FEW: u64 = 3;

// What is done with it.
#[derive(Clone, Copy)]
enum Step {
    Parse,
    ParseAndVerify,
    Hashes,
}

impl Step {
    fn name(self) -> &'static str {
        match self {
            Step::Parse => "parse",
            Step::ParseAndVerify => "parse and verify",
            Step::Hashes => "hashes",
        }
    }
}

// What the steps are done with.
#[derive(Drop)]
struct Subject {
    request: Bytes,
    check: SignatureCheck,
    hashes: Hashes,
}

// A line with this in place of each `|`.
fn with_ends(alloc: Global, line: &str, end: &[u8]) -> Result<Bytes, Mem> {
    let mut text = Bytes::new(alloc);
    for byte in line.as_bytes() {
        if *byte == b'|' {
            text.extend(end)?;
        } else {
            text.push(*byte)?;
        }
    }
    Ok(text)
}

impl Subject {
    fn new(
        alloc: Global,
        request: &str,
        base: &str,
        digest: &str,
        mac: &str,
    ) -> Result<Subject, Mem> {
        let body = request.split_once("||").unwrap_or(("", "")).1;
        Ok(Subject {
            request: with_ends(alloc, request, b"\r\n")?,
            check: SignatureCheck::new(alloc)?,
            hashes: Hashes::new(alloc, body, with_ends(alloc, base, b"\n")?, digest, mac)?,
        })
    }

    // A connection from which so many of the requests come.
    fn connection(&self, alloc: Global, times: u64) -> Result<MemSource, Mem> {
        let mut requests = Bytes::new(alloc);
        for _ in 0..times {
            requests.extend(self.request.as_slice())?;
        }
        Ok(MemSource::new(requests, Vec::new(alloc)))
    }

    // Does the step so many times, and counts how often it came out as it has to.
    fn count(&self, alloc: Global, step: Step, times: u64, connection: &mut MemSource) -> u64 {
        match step {
            Step::Parse => requests_read(alloc, connection, times, None),
            Step::ParseAndVerify => requests_read(alloc, connection, times, Some(&self.check)),
            Step::Hashes => self.hashes.made(times),
        }
    }
}

// Does a step, and prints what came of it.
fn report<R: Clock + Print + AllocGlobal>(
    rt: &R,
    subject: &Subject,
    step: Step,
    asked: Option<u64>,
) -> io::Result<()> {
    let (name, times) = (step.name(), asked.unwrap_or(FEW));
    let Ok(mut connection) = subject.connection(rt.alloc(), times) else {
        return println!(rt; "{name}: out of memory");
    };
    let start = Instant::now(rt)?;
    let count = subject.count(rt.alloc(), step, times, &mut connection);
    let nanos = nanos_of_one(start.elapsed(rt)?, times);
    let per_second = 1_000_000_000 / nanos.max(1);
    match asked {
        Some(_) => println!(rt;
            "{name}: {count} of {times}, {nanos} ns each, {per_second} a second"
        ),
        None => println!(rt; "{name}: {count} of {times}"),
    }
}

/// Does each step as often as asked, with what the lines tell.
pub fn measure<R: Clock + Print + AllocGlobal>(
    rt: &R,
    lines: &[String],
    asked: Option<u64>,
) -> io::Result<()> {
    let [request, base, digest, mac] = lines else {
        return println!(rt; "the requests have not four lines");
    };
    let Ok(subject) = Subject::new(rt.alloc(), request, base, digest, mac) else {
        return println!(rt; "out of memory, or no base64");
    };
    println!(rt; "a request of {} bytes", subject.request.len())?;
    for step in [Step::Parse, Step::ParseAndVerify, Step::Hashes] {
        report(rt, &subject, step, asked)?;
    }
    Ok(())
}
