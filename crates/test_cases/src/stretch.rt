//! What comes of a case whose connections are cut off after so many of their bytes.
use crate::case::{Case, GearCase};
use crate::fault::Fault;
use crate::latin::{bytes_of, text_of};
use crate::outcome::EndedRun;
use gnap_io::memory_world::MemWorld;
use serde_json::{Value, json};
use std::alloc::Global;

/// What came of a case for some beginnings of its connections' bytes.
#[derive(Drop)]
pub struct Stretch {
    /// The beginnings have so many bytes, from the first number to the last.
    first: usize,
    last: usize,
    status: u8,
    /// What was written to the first connection; it is empty where none was served.
    text: String,
}

// What was written to the first connection; it is empty where none was served.
fn first_written(alloc: Global, world: &MemWorld) -> Result<String, Fault> {
    let first = world
        .stopped_gears()
        .first()
        .and_then(|gear| gear.served().first());
    match first {
        None => Ok(String::new(alloc)),
        Some(conn) => text_of(alloc, conn.written()),
    }
}

impl Stretch {
    /// What came of a run whose connections had at most so many of their bytes.
    pub fn of(alloc: Global, ended: &EndedRun, most: usize) -> Result<Stretch, Fault> {
        Ok(Stretch {
            first: most,
            last: most,
            status: ended.status,
            text: first_written(alloc, &ended.world)?,
        })
    }

    fn value(&self, alloc: Global) -> Result<Value, Fault> {
        Ok(json!(in alloc; [self.first, self.last, self.status, self.text.as_str()])?)
    }
}

/// How many bytes the longest connection has.
pub fn longest_connection(alloc: Global, case: &Case<'_>) -> Result<usize, Fault> {
    let mut longest = 0;
    for gear in case.gears {
        for bytes in GearCase::read(gear)?.connections {
            longest = bytes_of(alloc, case, bytes)?.len().max(longest);
        }
    }
    Ok(longest)
}

/// Adds what came of one byte more, to the last stretch where it is the same.
pub fn add_stretch(stretches: &mut Vec<Stretch>, next: Stretch) -> Result<(), Fault> {
    if let Some(last) = stretches.last_mut() {
        if last.status == next.status && last.text == next.text {
            last.last = next.last;
            return Ok(());
        }
    }
    stretches.push(next)?;
    Ok(())
}

/// The stretches as a list.
pub fn stretch_list(alloc: Global, stretches: &[Stretch]) -> Result<Vec<Value>, Fault> {
    let mut values = Vec::new(alloc);
    for stretch in stretches {
        values.push(stretch.value(alloc)?)?;
    }
    Ok(values)
}
