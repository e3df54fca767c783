//! A history that is replayed over both cores of the grant machine: what they print is compared.

ghost use Rattle.std.specs.Prelude.{◌≡◌, []};
ghost use Rattle.gnap_objects.specs.Setups.{IsSetup};

use bytes_and_lists::bytes::Bytes;
use bytes_and_lists::memory::{Duplicate, Mem};
use call_replay::replay_lines;
use command_inputs::LineReader;
use gnap_history::{Gnap, list_desk};
use gnap_io::memory_devices::{MemSink, MemSource};
use gnap_objects::{Setup, read_setup};
use histories::machine::Desk;
use std::alloc::Global;
use table_core::table_desk;

// Room for what a replay prints, in bytes.
const ROOM: usize = 1_000_000;

// What a replay of these lines prints at a desk that has seen nothing.
fn printed<D: Desk<M = Gnap>>(
    alloc: Global,
    setup: &Setup,
    desk: &mut D,
    lines: &Bytes,
) -> Result<Bytes, Mem>
    requires rules { D.rules desk.old ≡ setup.now }
    requires setup { IsSetup setup.now }
    requires fresh { D.seen desk.old [] }
{
    let mut source = MemSource::new(lines.copy()?, Vec::new(alloc));
    let mut sink = MemSink::new(alloc, ROOM, Vec::new(alloc))?;
    let mut reader = LineReader::new(alloc);
    replay_lines(alloc, setup, desk, &mut reader, &mut source, &mut sink);
    Bytes::from_slice(alloc, sink.written())
}

// What both cores make a replay under this setup print: by the list, and by tables. Nothing where the text is no setup.
fn printed_by_both(alloc: Global, setup: &str, lines: &Bytes) -> Result<(Bytes, Bytes), Mem> {
    let Ok(setup) = read_setup(alloc, setup.as_bytes()) else {
        return Ok((Bytes::new(alloc), Bytes::new(alloc)));
    };
    let mut list = list_desk(alloc, setup.copy()?);
    let mut tables = table_desk(alloc, setup.copy()?);
    let by_list = printed(alloc, &setup, &mut list, lines)?;
    Ok((by_list, printed(alloc, &setup, &mut tables, lines)?))
}

/// A history that is being read.
#[derive(Drop)]
pub struct History {
    setup: String,
    calls: Bytes,
}

impl History {
    pub fn new(alloc: Global) -> History {
        History {
            setup: String::new(alloc),
            calls: Bytes::new(alloc),
        }
    }

    /// Takes its next line. The first one is the setup.
    pub fn take(&mut self, line: String) -> Result<(), Mem> {
        if self.setup.is_empty() {
            self.setup = line;
            return Ok(());
        }
        self.calls.extend(line.as_bytes())?;
        self.calls.push(b'\n')
    }

    /// How many bytes both cores make its replay print, or that they differ.
    pub fn compared(&self, alloc: Global) -> Result<String, Mem> {
        let (list, tables) = printed_by_both(alloc, self.setup.as_str(), &self.calls)?;
        let count = list.len();
        if list.as_slice() == tables.as_slice() {
            Ok(format!(in alloc; "{count} bytes")?)
        } else {
            Ok(format!(in alloc; "{count} bytes by the list, and others by tables")?)
        }
    }
}
