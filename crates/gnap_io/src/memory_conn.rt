//! Connections in memory, whose calls of given numbers fail.
ghost use Rattle.std.specs.Prelude.{◌≡◌, ◌<◌, ◌≤◌, length, IfOk};
ghost use Rattle.outside.specs.Outside.{HasRead, HasWritten, HasCause};
ghost use Rattle.gnap_io.specs.MemoryForms.{ReadsByPlan, WritesByPlan, new_conn};

use crate::memory_devices::{MemSink, MemSource};
use bytes_and_lists::bytes::Bytes;
use bytes_and_lists::memory::Mem;
use outside::device::{Device, Failed, Sink, Source};
use std::alloc::Global;
use std::marker::Model;

/// A connection: bytes to read, and room for what is written. It has one count of faults, of its reads and writes together.
#[derive(Drop)]
pub struct MemConn {
    source: MemSource,
    sink: MemSink,
}

impl Model for MemConn {
    ghost use Rattle.gnap_io.specs.MemoryForms.{ConnForm};

    ghost Value = { ConnForm };

    ghost view = { λ conn. record { source = conn.source; sink = conn.sink } };
}

impl MemConn {
    /// A connection with these bytes to read and room for so many to write, whose reads and writes of the given numbers, counted from 1,
    /// fail.
    pub fn new(
        alloc: Global,
        bytes: Bytes,
        room: usize,
        bad_reads: Vec<u64>,
        bad_writes: Vec<u64>,
    ) -> Result<MemConn, Mem>
        ensures { IfOk result (λ conn. conn ≡ new_conn bytes room bad_reads.items bad_writes.items) }
    {
        Ok(MemConn {
            source: MemSource::new(bytes, bad_reads),
            sink: MemSink::new(alloc, room, bad_writes)?,
        })
    }

    /// What was written.
    pub fn written(&self) -> &[u8]
        ensures { result.now ≡ self.now.sink.written }
    {
        self.sink.written()
    }
}

impl Device for MemConn {
    ghost use Rattle.gnap_io.specs.MemoryForms.{told_of, faults_of};

    ghost faults = { faults_of };

    ghost told = { told_of };
}

impl Source for MemConn {
    fn read(&mut self, buf: &mut [u8]) -> Result<usize, Failed>
        requires { 0 < length buf.old }
        ensures bound { IfOk result (λ count. count ≤ length buf.old) }
        ensures told { HasRead (⟦<MemConn as Device>⟧.told self.old) (⟦<MemConn as Device>⟧.told self.new) result buf.new }
        ensures cause { HasCause (⟦<MemConn as Device>⟧.faults self.old) (⟦<MemConn as Device>⟧.faults self.new) result }
        ensures by_plan { ReadsByPlan (length buf.old) self.old.source self.new.source result }
        ensures sink { self.new.sink ≡ self.old.sink }
    {
        self.source.read(buf)
    }
}

impl Sink for MemConn {
    fn write(&mut self, piece: &[u8]) -> Result<usize, Failed>
        requires { 0 < length piece.now }
        ensures bound { IfOk result (λ count. (1 ≤ count) × (count ≤ length piece.now)) }
        ensures told { HasWritten (⟦<MemConn as Device>⟧.told self.old) (⟦<MemConn as Device>⟧.told self.new) result piece.now }
        ensures cause { HasCause (⟦<MemConn as Device>⟧.faults self.old) (⟦<MemConn as Device>⟧.faults self.new) result }
        ensures by_plan { WritesByPlan piece.now self.old.sink self.new.sink result }
        ensures source { self.new.source ≡ self.old.source }
    {
        self.sink.write(piece)
    }
}
