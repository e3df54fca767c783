//! The real files and standard streams. They tell what the system's calls gave and took so far, by transcripts that take no memory, and that nothing
//! is left once a read gave nothing; before, they don't tell what is left. That the system did what its calls say is trusted; a fault of theirs is counted.
ghost use Rattle.std.specs.Prelude.{◌≡◌, None};
ghost use Rattle.std.specs.Io.{ReadsAtMost, WritesAtMost};
ghost use Rattle.outside.specs.Outside.{untouched};

use crate::device::{Device, Failed, Sink, Source};
use crate::transcript::Transcript;
use std::io;
use std::io::{ErrorKind, Read, Write};

/// How often a call that a signal cuts short is made again.
const RETRIES: u32 = 1000;

/// A reader or a writer of std, with a count of its faults, and transcripts of what its calls gave and took. Once a read gave nothing, nothing is
/// left: it is asked no more.
#[derive(Drop)]
pub struct Stream<T> {
    inner: T,
    faults: u64,
    ended: bool,
    taken: Transcript,
    written: Transcript,
}

impl<T: Drop> Stream<T> {
    /// A reader or a writer that has not failed yet, and of which it isn't known what it has left.
    pub fn new(inner: T) -> Stream<T>
        ensures told { ⟦<Stream<T> as Device>⟧.told result ≡ untouched None }
        ensures faults { ⟦<Stream<T> as Device>⟧.faults result ≡ 0 }
    {
        Stream {
            inner,
            faults: 0,
            ended: false,
            taken: Transcript::new(),
            written: Transcript::new(),
        }
    }
}

impl<T: Drop> Device for Stream<T> {
    ghost use Rattle.std.specs.Prelude.{Some, None, [], if◌then◌else◌};

    ghost faults = { λ stream. stream.faults };

    ghost told = { λ stream. record { taken = stream.taken.bytes; left = if stream.ended then Some [] else None; written = stream.written.bytes } };
}

// A read that no signal cut short.
fn uninterrupted_read<R: Read>(reader: &mut R, buf: &mut [u8]) -> io::Result<usize>
    ensures { ReadsAtMost result buf.new }
{
    for _ in 0..RETRIES {
        match reader.read(buf) {
            Err(error) if error.kind() == ErrorKind::Interrupted => {}
            ended => return ended,
        }
    }
    reader.read(buf)
}

// A write that no signal cut short before it took anything.
fn uninterrupted_write<W: Write>(writer: &mut W, piece: &[u8]) -> io::Result<usize>
    ensures { WritesAtMost result piece.now }
{
    for _ in 0..RETRIES {
        match writer.write(piece) {
            Err(error) if error.kind() == ErrorKind::Interrupted => {}
            ended => return ended,
        }
    }
    writer.write(piece)
}

impl<R: Read + Drop> Source for Stream<R> {
    fn read(&mut self, buf: &mut [u8]) -> Result<usize, Failed> {
        if self.ended {
            return Ok(0);
        }
        match uninterrupted_read(&mut self.inner, buf) {
            Ok(count) => {
                self.taken.note(&buf[..count]);
                self.ended = count == 0;
                Ok(count)
            }
            Err(_) => {
                self.faults = self.faults.saturating_add(1);
                Err(Failed)
            }
        }
    }
}

impl<W: Write + Drop> Sink for Stream<W> {
    fn write(&mut self, piece: &[u8]) -> Result<usize, Failed> {
        match uninterrupted_write(&mut self.inner, piece) {
            Ok(count) if count > 0 => {
                self.written.note(&piece[..count]);
                Ok(count)
            }
            _ => {
                self.faults = self.faults.saturating_add(1);
                Err(Failed)
            }
        }
    }
}
