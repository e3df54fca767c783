//! What a load counted, printed.
ghost use Rattle.std.specs.Prelude.{◌≡◌, ◌≤◌, IfOk};
ghost use Rattle.command_inputs.specs.Ends.{CountsWrites};
ghost use Rattle.load_lines.specs.LoadLines.{load_line, IsLoadLine, PrintsLoad};

use bytes_and_lists::bytes::Bytes;
use bytes_and_lists::memory::Mem;
use command_inputs::{Ended, print_text};
use desk_load::{Tally, load_setup, put_load};
use outside::device::Sink;
use std::alloc::Global;
use std::sync::Wait;
use std::thread::Threads;
use table_core::TableCore;

fn load_line(alloc: Global, grants: u32, tally: &Tally) -> Result<Bytes, Mem>
    ensures { IfOk result (λ line. line ≡ load_line grants tally.now) }
{
    let mut line = Bytes::from_slice(alloc, b"grants ")?;
    line.extend(itoa::Buffer::new().format(grants).as_bytes())?;
    line.extend(b" active ")?;
    line.extend(itoa::Buffer::new().format(tally.active).as_bytes())?;
    line.extend(b" inactive ")?;
    line.extend(itoa::Buffer::new().format(tally.inactive).as_bytes())?;
    line.extend(b" cancelled ")?;
    line.extend(itoa::Buffer::new().format(tally.done).as_bytes())?;
    line.push(b'\n')?;
    Ok(line)
}

// Puts a load on tables, with the words under a number, and says what was counted.
fn line_of_load<R: Threads + Wait + Sync>(
    rt: &R,
    alloc: Global,
    grants: u32,
    start: u64,
    workers: usize,
) -> Result<Bytes, Mem>
    requires workers { (1 ≤ workers) × (workers ≤ 64) }
    ensures { IfOk result (IsLoadLine grants start workers) }
{
    let core = TableCore::new(alloc, load_setup(alloc)?);
    let tally = put_load(rt, alloc, core, grants, start, workers)?;
    load_line(alloc, grants, &tally)
}

/// Has so many workers put so many grants through together, with the words of ChaCha20 under a key that begins with `start`, a stream for each, and prints
/// how many, and how many replies said that a token is active, that there is none, and that a grant was ended.
pub fn print_load<R: Threads + Wait + Sync, O: Sink>(
    rt: &R,
    alloc: Global,
    grants: u32,
    start: u64,
    workers: usize,
    out: &mut O,
) -> Ended
    requires workers { (1 ≤ workers) × (workers ≤ 64) }
    ensures prints { PrintsLoad grants start workers (O.told out.old) (O.told out.new) result }
    ensures writes { CountsWrites result (O.faults out.old) (O.faults out.new) }
{
    match line_of_load(rt, alloc, grants, start, workers) {
        Ok(line) => print_text(&line, out),
        Err(Mem) => Ended::Memory,
    }
}
