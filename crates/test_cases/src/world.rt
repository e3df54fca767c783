//! The worlds of the table.
ghost use Rattle.std.specs.Prelude.{◌≡◌, ◌≤◌, IfOk, All};
ghost use Rattle.bytes_and_lists.specs.Moments.{last_moment};
ghost use Rattle.outside.specs.Gears.{IsUnused};
ghost use Rattle.outside.specs.Links.{new_link};
ghost use Rattle.gnap_io.specs.MemoryForms.{IsUnusedConn, link_state};

use crate::case::{Case, GearCase, items_of, number, numbers, pair, text};
use crate::fault::Fault;
use crate::latin::bytes_of;
use bytes_and_lists::bytes::Bytes;
use bytes_and_lists::memory::Mem;
use gnap_io::memory_conn::MemConn;
use gnap_io::memory_devices::MemSource;
use gnap_io::memory_gear::MemGear;
use gnap_io::memory_link::MemLink;
use gnap_io::memory_world::MemWorld;
use outside::gear::Counted;
use random_words::RandomWords;
use serde_json::Value;
use std::alloc::Global;

const LAST_MOMENT: u64 = 253_402_300_799;

// How many bytes can be written to a connection of which the case doesn't say it.
const ROOM: u64 = 262_144;

// No server takes more from a gear.
const MOST_CONNECTIONS: usize = 4_294_967_295;

// The numbers of the calls that fail, at a place of a list of them.
fn plan(alloc: Global, plans: &[Value], place: usize) -> Result<Vec<u64>, Fault> {
    match plans.get(place) {
        None => Ok(Vec::new(alloc)),
        Some(plan) => numbers(alloc, items_of(plan)?),
    }
}

fn files(alloc: Global, case: &Case<'_>) -> Result<Vec<(Bytes, MemSource)>, Fault> {
    let mut files = Vec::new(alloc);
    for (place, file) in case.files.iter().enumerate() {
        let (name, bytes) = pair(file)?;
        let source = MemSource::new(
            bytes_of(alloc, case, bytes)?,
            plan(alloc, case.bad_reads, place)?,
        );
        files.push((Bytes::from_slice(alloc, text(name)?.as_bytes())?, source))?;
    }
    Ok(files)
}

// At most so many of the first bytes.
fn beginning(alloc: Global, bytes: &[u8], most: usize) -> Result<Bytes, Mem> {
    Bytes::from_slice(alloc, &bytes[..bytes.len().min(most)])
}

// How many bytes can be written to the connection at this place.
fn room(gear: &GearCase<'_>, place: usize) -> Result<usize, Fault> {
    match gear.rooms.get(place) {
        None => Ok(ROOM as usize),
        Some(room) => Ok(number(room)?.min(ROOM) as usize),
    }
}

fn connection(
    alloc: Global,
    case: &Case<'_>,
    gear: &GearCase<'_>,
    place: usize,
    bytes: &Value,
    most: usize,
) -> Result<MemConn, Fault>
    ensures { IfOk result IsUnusedConn }
{
    let all = bytes_of(alloc, case, bytes)?;
    let bytes = beginning(alloc, all.as_slice(), most)?;
    let bad_reads = plan(alloc, gear.bad_reads, place)?;
    let bad_writes = plan(alloc, gear.bad_writes, place)?;
    Ok(MemConn::new(alloc, bytes, room(gear, place)?, bad_reads, bad_writes)?)
}

fn connections(
    alloc: Global,
    case: &Case<'_>,
    gear: &GearCase<'_>,
    most: usize,
) -> Result<Vec<MemConn>, Fault>
    ensures { IfOk result (λ conns. All IsUnusedConn conns.items) }
{
    let mut conns = Vec::new(alloc);
    for (place, bytes) in gear.connections.iter().enumerate() {
        conns.push(connection(alloc, case, gear, place, bytes, most)?)?;
    }
    Ok(conns)
}

fn moments(alloc: Global, gear: &GearCase<'_>) -> Result<Vec<u64>, Fault>
    ensures { IfOk result (λ moments. All (λ m. m ≤ last_moment) moments.items) }
{
    let mut moments = Vec::new(alloc);
    for moment in gear.moments {
        moments.push(number(moment)?.min(LAST_MOMENT))?;
    }
    Ok(moments)
}

// The first 48 of these words, and 0 for each that lacks.
fn draw(given: &[Value]) -> Result<[u64; 48], Fault> {
    let mut words = [0; 48];
    for (word, given) in words.iter_mut().zip(given) {
        *word = number(given)?;
    }
    Ok(words)
}

fn draws(alloc: Global, gear: &GearCase<'_>) -> Result<Vec<RandomWords>, Fault> {
    let mut draws = Vec::new(alloc);
    for given in gear.draws {
        draws.push(RandomWords::given(alloc, draw(items_of(given)?)?)?)?;
    }
    Ok(draws)
}

/// A gear that has done nothing yet. Each of its connections has at most so many of its bytes.
pub fn gear(
    alloc: Global,
    case: &Case<'_>,
    gear: &GearCase<'_>,
    most: usize,
) -> Result<MemGear, Fault>
    ensures unused { IfOk result (λ gear. IsUnused (⟦<MemGear as Counted>⟧.state gear)) }
    ensures within { IfOk result (λ gear. (⟦<MemGear as Counted>⟧.state gear).left ≤ 4294967295) }
{
    let conns = connections(alloc, case, gear, most)?;
    if MOST_CONNECTIONS < conns.len() {
        return Err(Fault::NotACase);
    }
    Ok(MemGear::new(
        conns,
        moments(alloc, gear)?,
        draws(alloc, gear)?,
        numbers(alloc, gear.bad_accepts)?,
    )?)
}

fn gears(alloc: Global, case: &Case<'_>, most: usize) -> Result<Vec<MemGear>, Fault>
    ensures { IfOk result (λ gears. All (λ gear. IsUnused (⟦<MemGear as Counted>⟧.state gear)) gears.items) }
{
    let mut gears = Vec::new(alloc);
    for given in case.gears {
        gears.push(gear(alloc, case, &GearCase::read(given)?, most)?)?;
    }
    Ok(gears)
}

fn link(alloc: Global, case: &Case<'_>) -> Result<MemLink, Fault>
    ensures { IfOk result (λ link. link_state link ≡ new_link) }
{
    let mut replies = Vec::new(alloc);
    for bytes in case.replies {
        replies.push(bytes_of(alloc, case, bytes)?)?;
    }
    Ok(MemLink::new(replies, numbers(alloc, case.bad_exchanges)?))
}

/// The world of the case, whose connections have at most so many of their bytes.
pub fn world(alloc: Global, case: &Case<'_>, most: usize) -> Result<MemWorld, Fault> {
    let mut at = Vec::new(alloc);
    at.push((Bytes::from_slice(alloc, b"a")?, gears(alloc, case, most)?))?;
    let mut links = Vec::new(alloc);
    links.push((Bytes::from_slice(alloc, b"a")?, link(alloc, case)?))?;
    Ok(MemWorld::new(
        files(alloc, case)?,
        at,
        links,
        numbers(alloc, case.bad_opens)?,
    ))
}
