//! A server whose workers are given their connections in one order: the first one to the first worker, the next to the second, and so on. So what is
//! written to them can be foretold.
ghost use Rattle.std.specs.Prelude.{◌≤◌, IfOk, All};
ghost use Rattle.outside.specs.Gears.{IsUnused};

use crate::case::{Case, GearCase, pair};
use crate::fault::Fault;
use crate::latin::bytes_of;
use crate::world::gear;
use as_edge::AuthorizationServer;
use as_requests::Edge;
use bytes_and_lists::memory::{Duplicate, Mem};
use gnap_io::memory_conn::MemConn;
use gnap_io::memory_gear::MemGear;
use gnap_objects::read_setup;
use http_serving::{HttpFront, HttpReader};
use outside::device::Failed;
use outside::gear::{Clock, Counted, Door, Draws, Gear};
use random_words::RandomWords;
use serving::server_front::ServerFront;
use serving::threads::serve_gears;
use std::alloc::Global;
use std::hint::spin_loop;
use std::sync::Wait;
use std::sync::atomic::{AtomicU64, Ordering};
use std::thread::Threads;
use table_core::TableCore;

// No server has more workers.
const MOST_WORKERS: usize = 64;

// How often a worker looks whether it is its turn.
const LOOKS: u32 = 500_000_000;

/// A gear in memory that gives each connection once all that come before it were served, by whatever worker.
#[derive(Drop)]
pub struct OrderedGear<'a> {
    pub gear: MemGear,
    /// How many connections of all gears were served.
    served: &'a AtomicU64,
    /// How many connections of all gears come before its next one.
    before: u64,
    gears: u64,
    /// How many connections it has left.
    left: usize,
}

impl<'a> Counted for OrderedGear<'a> {
    ghost state = { λ ordered. ⟦<MemGear as Counted>⟧.state ordered.gear };
}

// Waits until so many connections were served.
fn wait(served: &AtomicU64, count: u64) {
    for _ in 0..LOOKS {
        if count <= served.load(Ordering::SeqCst) {
            return;
        }
        spin_loop();
    }
}

impl<'a> Door for OrderedGear<'a> {
    type Conn = MemConn;

    fn accept(&mut self) -> Result<Option<MemConn>, Failed> {
        if 0 < self.left {
            wait(self.served, self.before);
            self.before = self.before.wrapping_add(self.gears);
            self.left -= 1;
        }
        self.gear.accept()
    }

    fn leave(&mut self, conn: MemConn) {
        self.gear.leave(conn);
        self.served.fetch_add(1, Ordering::SeqCst);
    }

    fn has_failed(&self) -> bool {
        self.gear.has_failed()
    }
}

impl<'a> Clock for OrderedGear<'a> {
    fn now(&mut self) -> u64 {
        self.gear.now()
    }
}

impl<'a> Draws for OrderedGear<'a> {
    fn draw(&mut self) -> RandomWords {
        self.gear.draw()
    }
}

impl<'a> Gear for OrderedGear<'a> {}

fn gears_in_order<'a>(
    alloc: Global,
    case: &Case<'_>,
    served: &'a AtomicU64,
) -> Result<Vec<OrderedGear<'a>>, Fault>
    ensures unused { IfOk result (λ gears. All (λ gear. IsUnused (⟦<OrderedGear<'a> as Counted>⟧.state gear)) gears.items) }
    ensures within { IfOk result (λ gears. All (λ gear. (⟦<OrderedGear<'a> as Counted>⟧.state gear).left ≤ 4294967295) gears.items) }
{
    let mut gears = Vec::new(alloc);
    for (place, given) in case.gears.iter().enumerate() {
        let given = GearCase::read(given)?;
        gears.push(OrderedGear {
            gear: gear(alloc, case, &given, usize::MAX)?,
            served,
            before: place as u64,
            gears: case.gears.len() as u64,
            left: given.connections.len(),
        })?;
    }
    Ok(gears)
}

// The authorization server of the setup that the first file of the case is.
fn front(alloc: Global, case: &Case<'_>) -> Result<HttpFront<AuthorizationServer>, Fault> {
    let (_name, text) = pair(case.files.first().ok_or(Fault::NotACase)?)?;
    let text = bytes_of(alloc, case, text)?;
    let Ok(setup) = read_setup(alloc, text.as_slice()) else {
        return Err(Fault::NotACase);
    };
    match Edge::new(alloc, setup) {
        Ok(edge) => Ok(ServerFront {
            reader: HttpReader,
            server: AuthorizationServer { edge },
        }),
        Err((_setup, Mem)) => Err(Fault::OutOfMemory),
    }
}

/// The gears of the case when they were served in one order, at one `TableCore`, under the setup that its first file is. They count in one place how many
/// connections were served.
pub fn served_in_order<'a, R: Threads + Wait + Sync>(
    rt: &R,
    alloc: Global,
    case: &Case<'_>,
    count: &'a AtomicU64,
) -> Result<Vec<OrderedGear<'a>>, Fault> {
    let gears = gears_in_order(alloc, case, count)?;
    if gears.is_empty() || MOST_WORKERS < gears.len() {
        return Err(Fault::NotACase);
    }
    let front = front(alloc, case)?;
    let core = TableCore::new(alloc, front.server.edge.setup().copy()?);
    let (gears, ended) = serve_gears(rt, alloc, core, &front, gears);
    ended?;
    Ok(gears)
}
