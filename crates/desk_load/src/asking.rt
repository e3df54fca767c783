//! One call, made and counted.
ghost use Rattle.std.specs.Prelude.{◌≡◌, ◌+◌, ◌<◌, ◌≤◌, ◌^◌, ℕ, IfOk, IsOk};
ghost use Rattle.desk_load.specs.Loads.{MayBeMade, HasRoom, Asks};
ghost use Rattle.desk_load.specs.Tallies.{counted_in};

use crate::grant_calls::MOMENT;
use crate::progress::Progress;
use bytes_and_lists::memory::Mem;
use gnap_model::calls::Reply;
use grant_machine::Gnap;
use histories::machine::Desk;
use signed_calls::signed::Signed;

/// Makes a call with the next draw and counts its reply. An `Err` says that memory ran out.
pub fn ask<D: Desk<M = Gnap>>(
    desk: &mut D,
    progress: &mut Progress,
    call: Signed,
) -> Result<Reply, Mem>
    requires may { MayBeMade call }
    requires room { HasRoom (D.number desk.old) (D.seen desk.old) 1 }
    requires few { counted_in progress.old.tally + 1 < 2 ^ 64 }
    ensures rules { D.rules desk.new ≡ D.rules desk.old }
    ensures number { D.number desk.new ≡ D.number desk.old }
    ensures home { D.home desk.new ≡ D.home desk.old }
    ensures asks { IfOk result (λ reply. (h : _) → D.seen desk.old h
        → Asks call reply (D.number desk.old) (D.seen desk.new) h progress.old progress.new) }
    ensures room { IsOk result → (m : ℕ) → HasRoom (D.number desk.old) (D.seen desk.old) (m + 1)
        → HasRoom (D.number desk.new) (D.seen desk.new) m }
    ensures most { counted_in progress.new.tally ≤ counted_in progress.old.tally + 1 }
{
    let draw = progress.words.draw();
    let reply = desk.submit(MOMENT, &draw, call)?;
    progress.tally.count(&reply);
    Ok(reply)
}
