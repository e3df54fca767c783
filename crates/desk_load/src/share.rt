//! A grant put through, and a worker's share of all grants.
ghost use Rattle.std.specs.Prelude.{◌≡◌, ◌+◌, ◌*◌, ◌-◌, ◌<◌, ◌≤◌, ◌^◌, ◌==◌, ◌%◌, ℕ, Bool, IfOk, IsOk};
ghost use Rattle.desk_load.specs.LoadCalls.{calls_after, calls_rotated};
ghost use Rattle.desk_load.specs.Loads.{HasRoom, AsksAbout, PutsThrough, AreMade, IsOpenedThrough, IsPutThrough, IsPart, DoesShare};
ghost use Rattle.desk_load.specs.Tallies.{counted_in};

use crate::asking::ask;
use crate::grant_calls::{cancellation_of, opening_call, question_about, rotation_of};
use crate::progress::Progress;
use crate::tally::Tally;
use bytes_and_lists::memory::Mem;
use gnap_model::calls::Reply;
use grant_machine::Gnap;
use histories::machine::Desk;
use std::alloc::Global;

// Asks about the token of a reply. The answer is only counted.
fn ask_about<D: Desk<M = Gnap>>(
    alloc: Global,
    desk: &mut D,
    progress: &mut Progress,
    reply: &Reply,
) -> Result<(), Mem>
    requires room { HasRoom (D.number desk.old) (D.seen desk.old) 1 }
    requires few { counted_in progress.old.tally + 1 < 2 ^ 64 }
    ensures rules { D.rules desk.new ≡ D.rules desk.old }
    ensures number { D.number desk.new ≡ D.number desk.old }
    ensures home { D.home desk.new ≡ D.home desk.old }
    ensures asks { IfOk result (λ _. (h : _) → D.seen desk.old h
        → AsksAbout reply.now (D.number desk.old) (D.seen desk.new) h progress.old progress.new) }
    ensures room { IsOk result → (m : ℕ) → HasRoom (D.number desk.old) (D.seen desk.old) (m + 1)
        → HasRoom (D.number desk.new) (D.seen desk.new) m }
    ensures most { counted_in progress.new.tally ≤ counted_in progress.old.tally + 1 }
{
    drop(ask(desk, progress, question_about(alloc, reply)?)?);
    Ok(())
}

// Ends a grant where that is to be, and asks about its token once more.
fn end_grant<D: Desk<M = Gnap>>(
    alloc: Global,
    desk: &mut D,
    progress: &mut Progress,
    ends: bool,
    grant: u32,
    opened: &Reply,
    rotated: &Reply,
) -> Result<(), Mem>
    requires room { HasRoom (D.number desk.old) (D.seen desk.old) 2 }
    requires few { counted_in progress.old.tally + 2 < 2 ^ 64 }
    ensures rules { D.rules desk.new ≡ D.rules desk.old }
    ensures number { D.number desk.new ≡ D.number desk.old }
    ensures home { D.home desk.new ≡ D.home desk.old }
    ensures ends { IfOk result (λ _. (h : _) → D.seen desk.old h
        → PutsThrough (AreMade (calls_after ends grant opened.now rotated.now)) (D.number desk.old) (D.seen desk.new) h progress.old progress.new) }
    ensures room { IsOk result → (m : ℕ) → HasRoom (D.number desk.old) (D.seen desk.old) (m + 2)
        → HasRoom (D.number desk.new) (D.seen desk.new) m }
    ensures most { counted_in progress.new.tally ≤ counted_in progress.old.tally + 2 }
{
    if !ends {
        return Ok(());
    }
    drop(ask(desk, progress, cancellation_of(alloc, grant, opened)?)?);
    ask_about(alloc, desk, progress, rotated)
}

// Asks about the tokens of a grant whose token was rotated, the old one and the new one, and ends the grant where that is to be.
fn put_rotated_through<D: Desk<M = Gnap>>(
    alloc: Global,
    desk: &mut D,
    progress: &mut Progress,
    ends: bool,
    grant: u32,
    opened: &Reply,
    rotated: &Reply,
) -> Result<(), Mem>
    requires room { HasRoom (D.number desk.old) (D.seen desk.old) 4 }
    requires few { counted_in progress.old.tally + 4 < 2 ^ 64 }
    ensures rules { D.rules desk.new ≡ D.rules desk.old }
    ensures number { D.number desk.new ≡ D.number desk.old }
    ensures home { D.home desk.new ≡ D.home desk.old }
    ensures puts { IfOk result (λ _. (h : _) → D.seen desk.old h
        → PutsThrough (AreMade (calls_rotated ends grant opened.now rotated.now)) (D.number desk.old) (D.seen desk.new) h progress.old progress.new) }
    ensures room { IsOk result → (m : ℕ) → HasRoom (D.number desk.old) (D.seen desk.old) (m + 4)
        → HasRoom (D.number desk.new) (D.seen desk.new) m }
    ensures most { counted_in progress.new.tally ≤ counted_in progress.old.tally + 4 }
{
    ask_about(alloc, desk, progress, opened)?;
    ask_about(alloc, desk, progress, rotated)?;
    end_grant(alloc, desk, progress, ends, grant, opened, rotated)
}

// Asks about the token of a grant that was opened, rotates it, and puts the rest of the grant through.
fn put_opened_through<D: Desk<M = Gnap>>(
    alloc: Global,
    desk: &mut D,
    progress: &mut Progress,
    ends: bool,
    grant: u32,
    opened: &Reply,
) -> Result<(), Mem>
    requires room { HasRoom (D.number desk.old) (D.seen desk.old) 6 }
    requires few { counted_in progress.old.tally + 6 < 2 ^ 64 }
    ensures rules { D.rules desk.new ≡ D.rules desk.old }
    ensures number { D.number desk.new ≡ D.number desk.old }
    ensures home { D.home desk.new ≡ D.home desk.old }
    ensures puts { IfOk result (λ _. (h : _) → D.seen desk.old h
        → PutsThrough (IsOpenedThrough ends grant opened.now) (D.number desk.old) (D.seen desk.new) h progress.old progress.new) }
    ensures room { IsOk result → (m : ℕ) → HasRoom (D.number desk.old) (D.seen desk.old) (m + 6)
        → HasRoom (D.number desk.new) (D.seen desk.new) m }
    ensures most { counted_in progress.new.tally ≤ counted_in progress.old.tally + 6 }
{
    ask_about(alloc, desk, progress, opened)?;
    let rotated = ask(desk, progress, rotation_of(alloc, grant, opened)?)?;
    let put = put_rotated_through(alloc, desk, progress, ends, grant, opened, &rotated);
    drop(rotated);
    put
}

// Puts a grant through.
fn put_through<D: Desk<M = Gnap>>(
    alloc: Global,
    desk: &mut D,
    progress: &mut Progress,
    ends: bool,
    grant: u32,
) -> Result<(), Mem>
    requires room { HasRoom (D.number desk.old) (D.seen desk.old) 7 }
    requires few { counted_in progress.old.tally + 7 < 2 ^ 64 }
    ensures rules { D.rules desk.new ≡ D.rules desk.old }
    ensures number { D.number desk.new ≡ D.number desk.old }
    ensures home { D.home desk.new ≡ D.home desk.old }
    ensures puts { IfOk result (λ _. (h : _) → D.seen desk.old h
        → PutsThrough (IsPutThrough ends grant) (D.number desk.old) (D.seen desk.new) h progress.old progress.new) }
    ensures room { IsOk result → (m : ℕ) → HasRoom (D.number desk.old) (D.seen desk.old) (m + 7)
        → HasRoom (D.number desk.new) (D.seen desk.new) m }
    ensures most { counted_in progress.new.tally ≤ counted_in progress.old.tally + 7 }
{
    let opened = ask(desk, progress, opening_call(alloc, grant)?)?;
    let put = put_opened_through(alloc, desk, progress, ends, grant, &opened);
    drop(opened);
    put
}

// Puts a grant through where it is the worker's. Each grant of an even number is ended.
fn do_part<D: Desk<M = Gnap>>(
    alloc: Global,
    desk: &mut D,
    progress: &mut Progress,
    grant: u32,
    mine: bool,
) -> Result<(), Mem>
    requires room { HasRoom (D.number desk.old) (D.seen desk.old) 7 }
    requires few { counted_in progress.old.tally + 7 < 2 ^ 64 }
    ensures rules { D.rules desk.new ≡ D.rules desk.old }
    ensures number { D.number desk.new ≡ D.number desk.old }
    ensures home { D.home desk.new ≡ D.home desk.old }
    ensures does { IfOk result (λ _. (h : _) → D.seen desk.old h
        → PutsThrough (IsPart mine grant) (D.number desk.old) (D.seen desk.new) h progress.old progress.new) }
    ensures room { IsOk result → (m : ℕ) → HasRoom (D.number desk.old) (D.seen desk.old) (m + 7)
        → HasRoom (D.number desk.new) (D.seen desk.new) m }
    ensures most { counted_in progress.new.tally ≤ counted_in progress.old.tally + 7 }
{
    if mine {
        return put_through(alloc, desk, progress, grant % 2 == 0, grant);
    }
    Ok(())
}

/// Does a worker's share of so many grants with the words of the worker's number, and counts the replies. An `Err` says that memory ran out.
pub fn do_share<D: Desk<M = Gnap>>(
    alloc: Global,
    desk: &mut D,
    grants: u32,
    start: u64,
    workers: usize,
    worker: usize,
) -> Result<Tally, Mem>
    requires some { 0 < workers }
    requires room { HasRoom (D.number desk.old) (D.seen desk.old) (7 * grants) }
    ensures rules { D.rules desk.new ≡ D.rules desk.old }
    ensures number { D.number desk.new ≡ D.number desk.old }
    ensures home { D.home desk.new ≡ D.home desk.old }
    ensures shares { IfOk result (λ tally. (h : _) → D.seen desk.old h
        → DoesShare grants start workers worker (D.number desk.old) (D.seen desk.new) h tally) }
    ensures most { IfOk result (λ tally. counted_in tally ≤ 7 * grants) }
{
    let mut progress = Progress::new(start, worker as u64);
    for grant in 0..grants {
        let mine = grant as usize % workers == worker;
        do_part(alloc, desk, &mut progress, grant, mine)?;
    }
    Ok(progress.tally)
}
