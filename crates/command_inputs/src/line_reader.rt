//! The lines of a source, one after another, in memory that depends on the longest line that is kept.
ghost use Rattle.std.specs.Prelude.{◌≡◌, ◌+◌, ◌-◌, ◌<◌, ◌≤◌, ◌⊎◌, ◌++◌, ◌∷◌, [], length, take, drop, false, IfOk, OnOk, OnErr, IfSome, IfNone};
ghost use Rattle.command_inputs.specs.Lines.{IsLine};

use crate::line_end::LineEnd;
use bytes_and_lists::bytes::Bytes;
use bytes_and_lists::memory::Mem;
use outside::device::Source;
use std::alloc::Global;

/// The most bytes that are read of one input.
pub const INPUT_LIMIT: u64 = 1_073_741_824;

// So many bytes are asked of the source at once.
const CHUNK: u64 = 16_384;

/// What came of asking the source for more.
#[derive(Clone, Copy, Debug, PartialEq, Eq)]
pub enum Refill {
    More,
    End,
    Full,
    Failed,
    Memory,
}

/// What was read of a source and not used, and how many bytes were read of it.
#[derive(Drop)]
pub struct LineReader {
    buffer: Vec<u8>,
    start: usize,
    taken: u64,
    ghost within: { start ≤ length buffer.items },
    ghost limited: { taken ≤ 1073741824 },
}

// The place of the first LF.
fn newline(bytes: &[u8]) -> Option<usize>
    ensures found { IfSome result (λ at. (at < length bytes.now) × IsLine (take at bytes.now) × (bytes.now ≡ take at bytes.now ++ 10 ∷ drop (at + 1) bytes.now)) }
    ensures none { IfNone result (IsLine bytes.now) }
{
    for (at, byte) in bytes.iter().enumerate() {
        if *byte == b'\n' {
            return Some(at);
        }
    }
    None
}

impl LineReader {
    ghost use Rattle.command_inputs.specs.Reading.{held_by, MovesPart, ReadsLine, CountsFault, CountsTaken};
    ghost use Rattle.command_inputs.specs.Refills.{Refills};

    pub fn new(alloc: Global) -> LineReader
        ensures held { held_by result ≡ [] }
        ensures taken { result.taken ≡ 0 }
    {
        LineReader {
            buffer: Vec::new(alloc),
            start: 0,
            taken: 0,
        }
    }

    // Moves the held bytes up to the next LF, or all of them, to the line, as far as they are within the limit and one byte more.
    // Answers whether an LF was there.
    fn take_held(&mut self, line: &mut Bytes, limit: usize) -> Result<bool, Mem>
        requires limit { limit < 2147483648 }
        requires short { length line.old ≤ limit + 1 }
        ensures short { length line.new ≤ limit + 1 }
        ensures taken { self.new.taken ≡ self.old.taken }
        ensures moves { IfOk result (λ whole. MovesPart (limit + 1 - length line.old) whole (held_by self.old) (held_by self.new) line.old line.new) }
    {
        let held = &self.buffer[self.start..];
        let room = limit + 1 - line.len();
        match newline(held) {
            Some(at) => {
                line.extend(&held[..at.min(room)])?;
                self.start += at + 1;
                Ok(true)
            }
            None => {
                line.extend(&held[..held.len().min(room)])?;
                self.start = self.buffer.len();
                Ok(false)
            }
        }
    }

    /// Moves all held bytes to the end of the text.
    pub fn take_all(&mut self, text: &mut Bytes) -> Result<(), Mem>
        ensures taken { self.new.taken ≡ self.old.taken }
        ensures moves { OnOk result ((held_by self.new ≡ []) × (text.new ≡ text.old ++ held_by self.old)) }
        ensures starved { OnErr result ((held_by self.new ≡ held_by self.old) × (text.new ≡ text.old)) }
    {
        text.extend(&self.buffer[self.start..])?;
        self.start = self.buffer.len();
        Ok(())
    }

    /// Reads more of the source, where nothing is held: at most 16,384 bytes, and at most 1,073,741,824 of one source.
    pub fn refill<S: Source>(&mut self, source: &mut S) -> Refill
        requires { held_by self.old ≡ [] }
        ensures { Refills result (S.told source.old) (S.told source.new) (S.faults source.old) (S.faults source.new) self.old self.new }
    {
        let room = (INPUT_LIMIT - self.taken).min(CHUNK);
        if room == 0 {
            return Refill::Full;
        }
        if self.buffer.resize(room as usize, 0).is_err() {
            self.start = self.buffer.len();
            return Refill::Memory;
        }
        self.start = self.buffer.len();
        match source.read(self.buffer.as_mut_slice()) {
            Err(_) => Refill::Failed,
            Ok(0) => Refill::End,
            Ok(count) => {
                self.buffer.truncate(count);
                self.start = 0;
                self.taken += count as u64;
                Refill::More
            }
        }
    }

    /// Reads the next line into an empty one. Of a line that passes the limit one byte more than the limit is kept. Where the rest of such a
    /// line is not wanted, `through` is false, and the reading stops there. At `Full`, `Failed` and `Memory` the line has no end yet.
    pub fn next_line<S: Source>(
        &mut self,
        source: &mut S,
        line: &mut Bytes,
        limit: usize,
        through: bool,
    ) -> LineEnd
        requires limit { limit < 2147483648 }
        requires empty { line.old ≡ [] }
        ensures read { ReadsLine limit line.new (held_by self.old) (held_by self.new) self.old.taken self.new.taken
            (S.told source.old) (S.told source.new) result }
        ensures cause { CountsFault result (S.faults source.old) (S.faults source.new) }
        ensures full { CountsTaken result self.new.taken }
        ensures long { result ≡ LineEnd.Long → (through ≡ false) × (limit < length line.new) }
        ensures short { (result ≡ LineEnd.Full) ⊎ (result ≡ LineEnd.Failed) → through ≡ false → length line.new ≤ limit }
    {
        loop {
            match self.take_held(line, limit) {
                Ok(true) => return LineEnd::Whole,
                Ok(false) => {}
                Err(Mem) => return LineEnd::Memory,
            }
            if !through && line.len() > limit {
                return LineEnd::Long;
            }
            match self.refill(source) {
                Refill::More => {}
                Refill::End => return LineEnd::Last,
                Refill::Full => return LineEnd::Full,
                Refill::Failed => return LineEnd::Failed,
                Refill::Memory => return LineEnd::Memory,
            }
        }
    }
}

/// No bytes, in the room of those.
pub fn emptied(mut line: Bytes) -> Bytes
    ensures { result ≡ [] }
{
    line.clear();
    line
}
