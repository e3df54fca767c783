//! How many nonces are remembered.
ghost use Rattle.std.specs.Prelude.{◌≡◌, ◌≢◌, ◌≤◌, ◌<◌, ◌+◌, ◌^◌, IfOk, IsOk};
ghost use Rattle.std.specs.Str.{IsUtf8};
ghost use Rattle.histories.specs.History.{last_moment};
ghost use Rattle.signed_calls.specs.Marks.{unmarked_lapse};
ghost use Rattle.gnap_model.specs.declared.calls.Call.TheVariants.{Lapse};
ghost use Rattle.grant_machine.specs.Gnap.{GnapFits, SignedFits};
ghost use Rattle.test_cores.specs.Taken.{HasTaken};

use bytes_and_lists::bytes::Bytes;
use bytes_and_lists::memory::Mem;
use desk_load::load_setup;
use gnap_model::calls::Call;
use grant_machine::Gnap;
use histories::machine::Core;
use itoa::Buffer;
use random_words::RandomWords;
use signed_calls::signed::{Mark, Signed};
use std::alloc::Global;
use table_core::TableCore;

// The second in which many polls come.
const SECOND: u64 = 1_000;

// What is asked with a value that names nothing.
#[derive(Clone, Copy)]
enum Asked {
    Poll,
    Cancellation,
    Revocation,
}

// A call: what is asked, when, and the moment and the nonce of its signature.
#[derive(Clone, Copy)]
struct Sent {
    asked: Asked,
    at: u64,
    created: u64,
    nonce: u64,
}

fn call_of(asked: Asked, key: Bytes, value: Bytes) -> Call
    requires { IsUtf8 key }
    ensures fits { GnapFits result }
    ensures call { result ≢ Lapse }
{
    match asked {
        Asked::Poll => Call::Continue {
            key,
            value,
            reference: None,
        },
        Asked::Cancellation => Call::Cancel { key, value },
        Asked::Revocation => Call::Revoke { key, value },
    }
}

fn signed(alloc: Global, sent: Sent) -> Result<Signed, Mem>
    requires { sent.created ≤ last_moment }
    ensures { IfOk result (λ signed. SignedFits signed × (signed ≢ unmarked_lapse)) }
{
    let nonce = Bytes::from_slice(alloc, Buffer::new().format(sent.nonce).as_bytes())?;
    let key = Bytes::from_slice(alloc, b"c1")?;
    let call = call_of(sent.asked, key, Bytes::new(alloc));
    Ok(Signed {
        mark: Some(Mark {
            nonce,
            created: sent.created,
        }),
        call,
    })
}

// Enters a call behind so many.
fn enter<C: Core<M = Gnap>>(alloc: Global, core: &mut C, sent: Sent, taken: u64) -> Result<(), Mem>
    requires at { sent.at ≤ last_moment }
    requires created { sent.created ≤ last_moment }
    requires few { taken < 2 ^ 58 }
    requires taken { HasTaken (C.stands core.old) taken }
    ensures { IsOk result → HasTaken (C.stands core.new) (taken + 1) }
{
    let signed = signed(alloc, sent)?;
    core.step(sent.at, &RandomWords::zeros(), &signed)?;
    Ok(())
}

// A poll that comes in the second of its signature.
fn poll(at: u64, nonce: u64) -> Sent
    ensures at { result.at ≡ at }
    ensures created { result.created ≡ at }
{
    Sent {
        asked: Asked::Poll,
        at,
        created: at,
        nonce,
    }
}

// Enters so many polls of one second.
fn enter_polls<C: Core<M = Gnap>>(alloc: Global, core: &mut C, polls: u32) -> Result<(), Mem>
    requires { HasTaken (C.stands core.old) 0 }
    ensures { IsOk result → HasTaken (C.stands core.new) polls }
{
    for taken in 0..polls {
        enter(alloc, core, poll(SECOND, taken as u64), taken as u64)?;
    }
    Ok(())
}

// How many nonces are remembered after so many polls of one second, after one more at the last second at which theirs are, and after one a second later.
fn counts(alloc: Global, polls: u32) -> Result<[usize; 3], Mem> {
    let mut core = TableCore::new(alloc, load_setup(alloc)?);
    enter_polls(alloc, &mut core, polls)?;
    let of_the_second = core.marks();
    let taken = polls as u64;
    enter(alloc, &mut core, poll(SECOND + 300, taken), taken)?;
    let with_the_last = core.marks();
    enter(alloc, &mut core, poll(SECOND + 301, taken + 1), taken + 1)?;
    Ok([of_the_second, with_the_last, core.marks()])
}

// A call at a moment with the nonce 1 of a signature that was 300 seconds ahead when it came first.
fn ahead(asked: Asked, at: u64) -> Sent
    ensures at { result.at ≡ at }
    ensures created { result.created ≡ 1_300 }
{
    Sent {
        asked,
        at,
        created: 1_300,
        nonce: 1,
    }
}

// A call with a new nonce in the last second of the nonce 1.
fn beside(asked: Asked, nonce: u64) -> Sent
    ensures at { result.at ≡ 1_600 }
    ensures created { result.created ≡ 1_600 }
{
    Sent {
        asked,
        at: 1_600,
        created: 1_600,
        nonce,
    }
}

// How many nonces are remembered after each of some calls.
fn counts_of_one(alloc: Global) -> Result<[usize; 6], Mem> {
    let mut core = TableCore::new(alloc, load_setup(alloc)?);
    enter(alloc, &mut core, ahead(Asked::Poll, 1_000), 0)?;
    let first = core.marks();
    enter(alloc, &mut core, ahead(Asked::Poll, 1_600), 1)?;
    let in_its_last_second = core.marks();
    enter(alloc, &mut core, beside(Asked::Cancellation, 2), 2)?;
    let cancelled = core.marks();
    enter(alloc, &mut core, beside(Asked::Revocation, 3), 3)?;
    let revoked = core.marks();
    enter(alloc, &mut core, ahead(Asked::Revocation, 1_600), 4)?;
    let refused = core.marks();
    enter(alloc, &mut core, ahead(Asked::Poll, 1_601), 5)?;
    Ok([
        first,
        in_its_last_second,
        cancelled,
        revoked,
        refused,
        core.marks(),
    ])
}

/// A nonce is remembered for 300 seconds after its signature, and not a second longer, also that of a call that is refused.
#[test]
fn nonces_are_remembered_for_300_seconds(rt: HostRuntime) {
    let Ok(counts) = counts(rt.alloc(), 65_536) else {
        panic!(rt; "no memory");
    };
    assert_eq!(rt; counts.as_slice(), &[65_536usize, 65_537, 2][..]);
}

/// A signature that is ahead is remembered from its own moment on; one that is refused leaves no nonce more, nor do a cancellation and a revocation.
#[test]
fn a_cancellation_leaves_no_nonce(rt: HostRuntime) {
    let Ok(counts) = counts_of_one(rt.alloc()) else {
        panic!(rt; "no memory");
    };
    assert_eq!(rt; counts.as_slice(), &[1usize, 1, 1, 1, 1, 0][..]);
}
