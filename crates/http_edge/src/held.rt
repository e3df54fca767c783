//! Bytes that were read of a source and not used yet.
ghost use Rattle.std.specs.Prelude.{◌≡◌, ◌↔◌, ℕ, IsTrue, ◌+◌, ◌-◌, ◌<◌, ◌≤◌, [], length, take, drop, slice_range, IfOk, OnOk, OnErr};
ghost use Rattle.outside.specs.Outside.{HasRead, HasCause};
ghost use Rattle.http_edge.specs.Limits.{message_limit};
ghost use Rattle.http_edge.specs.Streams.{HasNoMessage};
ghost use Rattle.http_edge.specs.Steps.{HasArrived};

use bytes_and_lists::memory::Mem;
use outside::device::{Failed, Source};
use std::alloc::Global;
use std::marker::Model;

/// What came of asking the source for more.
#[derive(Clone, Copy)]
pub enum Arrival {
    More,
    End,
    Failed,
    Memory,
}

/// The bytes of a connection that were read and not used yet: at most 81,920, a head and a body of the largest size. Contracts see the list of them.
#[derive(Drop)]
pub struct Held {
    buffer: Vec<u8>,
    start: usize,
    end: usize,
}

impl Model for Held {
    ghost use Rattle.std.specs.Prelude.{ℕ, List, length, slice_range, ◌≤◌};
    ghost use Rattle.http_edge.specs.Limits.{message_limit};

    ghost Value = { List ℕ };

    ghost view = { λ held. slice_range held.buffer.items held.start held.end };

    ghost invariant = { λ held. (held.start ≤ held.end) × (held.end ≤ length held.buffer.items) × (length held.buffer.items ≤ message_limit) };
}

// Where the bytes from start to end begin, once there is room for more behind them, as far as the buffer has it. They may be moved to the front.
fn start_with_room(buffer: &mut Vec<u8>, start: usize, end: usize, room: usize) -> usize
    requires ordered { start ≤ end }
    requires within { end ≤ length buffer.old.items }
    ensures start { result ≤ start }
    ensures bytes { slice_range buffer.new.items result (result + (end - start)) ≡ slice_range buffer.old.items start end }
    ensures len { length buffer.new.items ≡ length buffer.old.items }
    ensures room { (length buffer.old.items < end + room) → result ≡ 0 }
{
    if buffer.len() - end >= room {
        return start;
    }
    buffer.as_mut_slice().copy_within(start..end, 0);
    0
}

// Makes the buffer so long, where it isn't. An `Err` changes nothing.
fn lengthen(buffer: &mut Vec<u8>, len: usize) -> Result<(), Mem>
    ensures long { OnOk result (len ≤ length buffer.new.items) }
    ensures bytes { take (length buffer.old.items) buffer.new.items ≡ buffer.old.items }
    ensures bound { (n : ℕ) → len ≤ n → length buffer.old.items ≤ n → length buffer.new.items ≤ n }
{
    if buffer.len() < len {
        buffer.resize(len, 0)?;
    }
    Ok(())
}

// Reads into the buffer from this place on.
fn read_at<S: Source>(
    source: &mut S,
    buffer: &mut Vec<u8>,
    at: usize,
    room: usize,
) -> Result<usize, Failed>
    requires room { 0 < room }
    requires within { at + room ≤ length buffer.old.items }
    ensures front { take at buffer.new.items ≡ take at buffer.old.items }
    ensures len { length buffer.new.items ≡ length buffer.old.items }
    ensures bound { IfOk result (λ count. count ≤ room) }
    ensures told { HasRead (S.told source.old) (S.told source.new) result (drop at buffer.new.items) }
    ensures cause { HasCause (S.faults source.old) (S.faults source.new) result }
{
    let part = &mut buffer.as_mut_slice()[at..at + room];
    source.read(part)
}

impl Held {
    /// Nothing. Takes no memory.
    pub fn new(alloc: Global) -> Held
        ensures { result ≡ [] }
    {
        Held {
            buffer: Vec::new(alloc),
            start: 0,
            end: 0,
        }
    }

    /// How many bytes are held.
    pub fn len(&self) -> usize
        ensures value { result ≡ length self.now }
        ensures bound { result ≤ message_limit }
    {
        self.end - self.start
    }

    /// Nothing is held.
    pub fn is_empty(&self) -> bool
        ensures { IsTrue result ↔ (self.now ≡ []) }
    {
        self.start == self.end
    }

    /// The bytes.
    pub(crate) fn as_slice(&self) -> &[u8]
        ensures value { result.now ≡ self.now }
        ensures bound { length self.now ≤ message_limit }
    {
        &self.buffer[self.start..self.end]
    }

    /// Drops the first bytes.
    pub(crate) fn skip(&mut self, count: usize)
        requires { count ≤ length self.old }
        ensures rest { self.new ≡ drop count self.old }
        ensures bound { length self.new ≤ message_limit }
    {
        self.start += count;
    }

    /// Reads once, at most so many bytes.
    pub(crate) fn fill<S: Source>(&mut self, source: &mut S, room: usize) -> Arrival
        requires room { (0 < room) × (length self.old + room ≤ message_limit) }
        requires waiting { HasNoMessage self.old }
        ensures arrived { HasArrived result self.old self.new (S.told source.old) (S.told source.new) (S.faults source.old) (S.faults source.new) }
        ensures bound { length self.new ≤ message_limit }
    {
        let start = start_with_room(&mut self.buffer, self.start, self.end, room);
        self.end -= self.start - start;
        self.start = start;
        if lengthen(&mut self.buffer, self.end + room).is_err() {
            return Arrival::Memory;
        }
        match read_at(source, &mut self.buffer, self.end, room) {
            Err(Failed) => Arrival::Failed,
            Ok(0) => Arrival::End,
            Ok(count) => {
                self.end += count;
                Arrival::More
            }
        }
    }
}
