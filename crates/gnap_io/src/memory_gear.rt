//! Gears in memory, whose accepts of given numbers fail.
ghost use Rattle.std.specs.Prelude.{◌≡◌, ℕ, ◌<◌, ◌≤◌, All, IfOk, IfSome};
ghost use Rattle.outside.specs.Outside.{IsUntouched, served_of};
ghost use Rattle.bytes_and_lists.specs.Moments.{last_moment};
ghost use Rattle.outside.specs.Gears.{Accepts, with_served, with_moment, with_draw};
ghost use Rattle.gnap_io.specs.MemoryForms.{IsUnusedConn, AcceptsByPlan, unused_gear, next_moment, next_draw, gear_serving, gear_timed, gear_drawn};

use crate::fault_plan::FaultPlan;
use crate::memory_conn::MemConn;
use bytes_and_lists::memory::Mem;
use http_server::Log;
use outside::device::{Device, Failed};
use outside::gear::{Clock, Counted, Door, Draws, Gear};
use random_words::RandomWords;
use std::marker::Model;

/// Connections that wait to be accepted, moments and draws. Where a list is at its end, the last moment and a draw of zeros go on. The room
/// for what it takes back is taken at its making.
#[derive(Drop)]
pub struct MemGear {
    waiting: Vec<MemConn>,
    out: usize,
    served: Vec<MemConn>,
    faults: u64,
    accepts: FaultPlan,
    moments: Vec<u64>,
    at_moment: usize,
    moment: u64,
    given: Log<u64, ()>,
    draws: Vec<RandomWords>,
    drawn: Log<RandomWords, ()>,
}

impl Model for MemGear {
    ghost use Rattle.std.specs.Prelude.{◌+◌, ◌≤◌, All, map, drop, vec_len, vec_capacity};
    ghost use Rattle.bytes_and_lists.specs.Moments.{last_moment};
    ghost use Rattle.gnap_io.specs.MemoryForms.{GearForm, IsUnusedConn};

    ghost Value = { GearForm };

    ghost view = { λ gear. record {
      waiting = gear.waiting.items;
      out = gear.out;
      served = gear.served.items;
      faults = gear.faults;
      accepts = gear.accepts;
      moments = drop gear.at_moment gear.moments.items;
      moment = gear.moment;
      given = map (λ pair. pair.0) gear.given.items;
      draws = gear.draws.items;
      drawn = map (λ pair. pair.0) gear.drawn.items;
    } };

    ghost invariant = { λ gear. (vec_len gear.served + gear.out + vec_len gear.waiting ≤ vec_capacity gear.served) × All IsUnusedConn gear.waiting.items
        × All (λ m. m ≤ last_moment) gear.moments.items × (gear.moment ≤ last_moment) };
}

impl MemGear {
    /// A gear that gives these connections, moments and draws, in order, and whose calls of `accept` of the given numbers, counted from 1,
    /// fail. Without a moment it gives the moment 0.
    pub fn new(
        conns: Vec<MemConn>,
        moments: Vec<u64>,
        draws: Vec<RandomWords>,
        bad_accepts: Vec<u64>,
    ) -> Result<MemGear, Mem>
        requires unused { All IsUnusedConn conns.items }
        requires in_time { All (λ m. m ≤ last_moment) moments.items }
        ensures { IfOk result (λ gear. gear ≡ unused_gear conns.items moments.items draws.items bad_accepts.items) }
    {
        let alloc = *conns.allocator();
        let served = Vec::with_capacity(alloc, conns.len())?;
        Ok(MemGear {
            waiting: conns,
            out: 0,
            served,
            faults: 0,
            accepts: FaultPlan::new(bad_accepts),
            moments,
            at_moment: 0,
            moment: 0,
            given: Log::new(),
            draws,
            drawn: Log::new(),
        })
    }

    // How many connections it may give.
    pub(crate) fn left(&self) -> usize
        ensures { result ≡ (⟦<MemGear as Counted>⟧.state self.now).left }
    {
        self.waiting.len()
    }

    /// The connections that were served, in order.
    pub fn served(&self) -> &[MemConn]
        ensures { result.now ≡ self.now.served }
    {
        self.served.as_slice()
    }
}

impl Counted for MemGear {
    ghost use Rattle.gnap_io.specs.MemoryForms.{gear_state};

    ghost state = { gear_state };
}

impl Door for MemGear {
    type Conn = MemConn;

    fn accept(&mut self) -> Result<Option<MemConn>, Failed>
        ensures state { Accepts (⟦<MemGear as Counted>⟧.state self.old) (⟦<MemGear as Counted>⟧.state self.new) result }
        ensures conn { IfOk result (λ given. IfSome given (λ conn. IsUntouched (⟦<MemConn as Device>⟧.told conn) (⟦<MemConn as Device>⟧.faults conn))) }
        ensures by_plan { AcceptsByPlan self.old self.new result }
    {
        if self.accepts.next_fails() {
            self.faults = self.faults.saturating_add(1);
            return Err(Failed);
        }
        if self.waiting.is_empty() {
            return Ok(None);
        }
        let conn = self.waiting.remove(0);
        self.out += 1;
        Ok(Some(conn))
    }

    fn leave(&mut self, conn: MemConn)
        requires { 0 < (⟦<MemGear as Counted>⟧.state self.old).out }
        ensures state { ⟦<MemGear as Counted>⟧.state self.new
            ≡ with_served (served_of (⟦<MemConn as Device>⟧.told conn) (⟦<MemConn as Device>⟧.faults conn)) (⟦<MemGear as Counted>⟧.state self.old) }
        ensures exact { self.new ≡ gear_serving conn self.old }
    {
        self.served.push_reserved(conn);
        self.out -= 1;
    }

    fn has_failed(&self) -> bool {
        0 < self.faults
    }
}

impl Clock for MemGear {
    fn now(&mut self) -> u64
        ensures bound { result ≤ last_moment }
        ensures state { ⟦<MemGear as Counted>⟧.state self.new ≡ with_moment result (⟦<MemGear as Counted>⟧.state self.old) }
        ensures moment { result ≡ next_moment self.old }
        ensures exact { self.new ≡ gear_timed self.old }
    {
        if self.at_moment < self.moments.len() {
            self.moment = self.moments[self.at_moment];
            self.at_moment += 1;
        }
        self.given = self.given.and(&self.moment, &());
        self.moment
    }
}

impl Draws for MemGear {
    fn draw(&mut self) -> RandomWords
        ensures state { ⟦<MemGear as Counted>⟧.state self.new ≡ with_draw result (⟦<MemGear as Counted>⟧.state self.old) }
        ensures draw { result ≡ next_draw self.old }
        ensures exact { self.new ≡ gear_drawn self.old }
    {
        let words = if self.draws.is_empty() {
            RandomWords::zeros()
        } else {
            self.draws.remove(0)
        };
        self.drawn = self.drawn.and(&words, &());
        words
    }
}

impl Gear for MemGear {}
