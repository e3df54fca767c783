//! For each second the nonces that are remembered up to it.
ghost use Rattle.std.specs.Prelude.{◌≡◌, ℕ, List, ◌||◌, ◌&&◌, ◌==◌, OnOk, OnErr};
ghost use Rattle.gnap_model.specs.Common.{same_text};
ghost use Rattle.nonce_store.specs.Kept.{is_noted};

use crate::run::Run;
use bytes_and_lists::memory::Mem;
use std::alloc::Global;
use std::collections::BTreeMap;

/// The nonces of each second.
pub type Seconds = BTreeMap<u64, Run>;

/// Adds a nonce of a key to a second. An `Err` adds none.
pub fn note(
    alloc: Global,
    seconds: &mut Seconds,
    end: u64,
    key: &[u8],
    nonce: &[u8],
) -> Result<(), Mem>
    ensures ok { OnOk result ((e : ℕ) (k n : List ℕ) → is_noted seconds.new e k n
        ≡ (is_noted seconds.old e k n || (end == e && (same_text key.now k && same_text nonce.now n)))) }
    ensures err { OnErr result ((e : ℕ) (k n : List ℕ) → is_noted seconds.new e k n ≡ is_noted seconds.old e k n) }
{
    if let Some(run) = seconds.get_mut(&end) {
        return run.push(key, nonce);
    }
    let mut run = Run::new(alloc);
    run.push(key, nonce)?;
    seconds.insert(end, run)?;
    Ok(())
}
