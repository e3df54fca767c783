//! A load at a desk that nobody shares.
ghost use Rattle.std.specs.Prelude.{◌≡◌, [], IfOk};
ghost use Rattle.desk_load.specs.LoadCalls.{load_setup};
ghost use Rattle.desk_load.specs.Loads.{IsLoad};

use crate::share::do_share;
use crate::tally::Tally;
use bytes_and_lists::memory::Mem;
use grant_machine::Gnap;
use histories::lone::Lone;
use histories::machine::Core;
use std::alloc::Global;

/// Puts so many grants through at a core that stands for the empty history, on this thread alone and with no other worker. The words are those of
/// the first worker of `put_load`, and the tally is that of its one worker. An `Err` says that memory ran out.
pub fn put_load_alone<C: Core<M = Gnap> + Drop>(
    alloc: Global,
    core: C,
    grants: u32,
    start: u64,
) -> Result<Tally, Mem>
    requires rules { C.rules core ≡ load_setup }
    requires empty { C.stands core [] }
    ensures { IfOk result (IsLoad grants start 1) }
{
    let mut desk = Lone::new(core);
    let tally = do_share(alloc, &mut desk, grants, start, 1, 0)?;
    desk.into_core();
    Ok(tally)
}
