//! What came of a case, as JSON.
use crate::case::Case;
use crate::fault::Fault;
use crate::latin::text_of;
use crate::ordered_gears::{OrderedGear, served_in_order};
use gnap_io::memory_devices::MemSink;
use gnap_io::memory_gear::MemGear;
use gnap_io::memory_link::MemLink;
use gnap_io::memory_world::MemWorld;
use outside::gear::Door;
use serde_json::{Value, json};
use std::alloc::Global;
use std::sync::Wait;
use std::sync::atomic::AtomicU64;
use std::thread::Threads;

// The status of `as` where a door failed.
const DOOR_FAILED: u8 = 4;

/// A run that has ended, with the world and both outputs as it left them.
#[derive(Drop)]
pub struct EndedRun {
    pub status: u8,
    pub world: MemWorld,
    pub out: MemSink,
    pub err: MemSink,
}

// What was written to each connection of a gear that was served.
fn written(alloc: Global, gear: &MemGear) -> Result<Value, Fault> {
    let mut texts = Vec::new(alloc);
    for conn in gear.served() {
        texts.push(Value::String(text_of(alloc, conn.written())?))?;
    }
    Ok(Value::Array(texts))
}

fn served(alloc: Global, gears: &[MemGear]) -> Result<Vec<Value>, Fault> {
    let mut served = Vec::new(alloc);
    for gear in gears {
        served.push(written(alloc, gear)?)?;
    }
    Ok(served)
}

fn ordered_served(alloc: Global, gears: &[OrderedGear<'_>]) -> Result<Vec<Value>, Fault> {
    let mut served = Vec::new(alloc);
    for ordered in gears {
        served.push(written(alloc, &ordered.gear)?)?;
    }
    Ok(served)
}

fn told(alloc: Global, case: &Case<'_>, err: &MemSink) -> Result<String, Fault> {
    if case.tells {
        text_of(alloc, err.written())
    } else {
        Ok(String::new(alloc))
    }
}

fn asked(alloc: Global, link: Option<&MemLink>) -> Result<Vec<Value>, Fault> {
    let mut texts = Vec::new(alloc);
    if let Some(link) = link {
        for (request, _) in link.asked() {
            texts.push(Value::String(text_of(alloc, request.as_slice())?))?;
        }
    }
    Ok(texts)
}

impl EndedRun {
    /// What came of the case: the status; what was written to standard output; for each gear that was taken back, what was written to each of its connections
    /// that were served; what was written to standard error, where the case asks for it; and the requests that were sent over the link.
    pub fn outcome(&self, alloc: Global, case: &Case<'_>) -> Result<Value, Fault> {
        Ok(json!(in alloc; {
            "name": case.name,
            "status": self.status,
            "out": text_of(alloc, self.out.written())?,
            "served": served(alloc, self.world.stopped_gears())?,
            "told": told(alloc, case, &self.err)?,
            "asked": asked(alloc, self.world.closed_link())?
        })?)
    }
}

// The status of `as` at these gears.
fn status_at(gears: &[OrderedGear<'_>]) -> u8 {
    for ordered in gears {
        if ordered.has_failed() {
            return DOOR_FAILED;
        }
    }
    0
}

/// What came of the case, whose connections were served in one order.
pub fn outcome_in_order<R: Threads + Wait + Sync>(
    rt: &R,
    alloc: Global,
    case: &Case<'_>,
) -> Result<Value, Fault> {
    let count = AtomicU64::new(0);
    let gears = served_in_order(rt, alloc, case, &count)?;
    Ok(json!(in alloc; {
        "name": case.name,
        "status": status_at(gears.as_slice()),
        "out": "",
        "served": ordered_served(alloc, gears.as_slice())?,
        "told": "",
        "asked": []
    })?)
}
