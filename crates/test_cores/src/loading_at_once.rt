//! Two workers of a load at once: calls of one come between those of a grant that the other puts through.
ghost use Rattle.std.specs.Prelude.{◌≡◌, ◌≤◌, [], IfOk};
ghost use Rattle.desk_load.specs.LoadCalls.{load_setup};

use bytes_and_lists::memory::Mem;
use desk_load::{load_setup, put_load};
use gnap_model::calls::Reply;
use grant_machine::Gnap;
use histories::machine::Core;
use random_words::RandomWords;
use signed_calls::signed::Signed;
use std::alloc::Global;
use std::hint::spin_loop;
use std::sync::Wait;
use std::sync::atomic::{AtomicU64, Ordering};
use std::thread::Threads;
use table_core::TableCore;

// Each grant's number is one digit, with which the nonces of its calls begin.
const GRANTS: u32 = 8;

// So many looks a call goes on for until two workers were at it at once.
const LOOKS: u32 = 5_000_000;

/// A core that counts the calls behind a grant's first one that come where the last call was one of another grant.
#[derive(Drop)]
struct CountingCore<'a, C> {
    core: C,
    last: u8,
    between: &'a AtomicU64,
}

impl<'a, C> CountingCore<'a, C> {
    // Looks at a call's nonce: its grant's digit, `-`, and `1` for the grant's first call. Calls have their turns in the order in which they came, so while
    // this one takes long the other worker's thread can begin, and its first call is next.
    fn look(&mut self, nonce: &[u8])
        ensures { self.new.core ≡ self.old.core }
    {
        let [grant, _, place] = nonce else {
            return;
        };
        if *place != b'1' && *grant != self.last {
            self.between.fetch_add(1, Ordering::SeqCst);
        }
        self.last = *grant;
        if self.between.load(Ordering::SeqCst) == 0 {
            for _ in 0..LOOKS {
                spin_loop();
            }
        }
    }
}

impl<'a, C: Core<M = Gnap>> Core for CountingCore<'a, C> {
    type M = Gnap;

    ghost rules = { λ counting. C.rules counting.core };

    ghost stands = { λ counting. C.stands counting.core };

    ghost frugal = { C.frugal };

    fn words_to_make(signed: &Signed) -> usize
        ensures { result ≤ 48 }
    {
        C::words_to_make(signed)
    }

    fn step(&mut self, moment: u64, draw: &RandomWords, signed: &Signed) -> Result<Reply, Mem> {
        if let Some(mark) = &signed.mark {
            self.look(mark.nonce.as_slice());
        }
        self.core.step(moment, draw, signed)
    }

    ghost legal = { λ counting. C.legal counting.core };

    ghost renumbers = { λ counting. C.renumbers counting.core };
}

// A core that stands for the empty history under the setup of loads.
fn counting_core<'a>(
    alloc: Global,
    between: &'a AtomicU64,
) -> Result<CountingCore<'a, TableCore>, Mem>
    ensures rules { IfOk result (λ core. ⟦<CountingCore<'a, TableCore> as Core>⟧.rules core ≡ load_setup) }
    ensures empty { IfOk result (λ core. ⟦<CountingCore<'a, TableCore> as Core>⟧.stands core []) }
{
    let core = TableCore::new(alloc, load_setup(alloc)?);
    Ok(CountingCore {
        core,
        last: 0,
        between,
    })
}

fn load<R: Threads + Wait + Sync>(rt: &R, alloc: Global, between: &AtomicU64) -> Result<(), Mem> {
    put_load(rt, alloc, counting_core(alloc, between)?, GRANTS, 7, 2)?;
    Ok(())
}

/// A worker alone, or workers one after the other, would put each grant through before another begins.
#[test]
fn two_workers_load_at_once(rt: HostRuntime) {
    let between = AtomicU64::new(0);
    assert!(rt; load(&rt, rt.alloc(), &between).is_ok(), "no memory");
    assert!(rt; 0 < between.load(Ordering::SeqCst), "one after the other");
}
