//! The nonces that are remembered.
ghost use Rattle.nonce_store.specs.Kept.{Covers, Covers-prop};

use crate::seconds::{Seconds, note};
use crate::sweeping::sweep;
use crate::trees::KeyedNonces;
use bytes_and_lists::bytes::Bytes;
use bytes_and_lists::memory::Mem;
use signed_calls::nonces::Nonces;
use std::alloc::Global;
use std::collections::BTreeMap;

/// The nonces that are remembered: by their keys, and by the seconds up to which they are.
#[derive(Drop)]
pub struct NonceStore {
    alloc: Global,
    kept: KeyedNonces,
    // A nonce that was forgotten may still stand here. Its second takes it along.
    seconds: Seconds,
    ghost covered: { Covers seconds kept.keys } by { Covers-prop seconds kept.keys },
}

impl NonceStore {
    ghost use Rattle.std.specs.Prelude.{◌≡◌, ℕ, List, None};

    /// No nonces. Takes no memory.
    pub fn new(alloc: Global) -> NonceStore
        ensures none { (k n : List ℕ) → ⟦<NonceStore as Nonces>⟧.until result k n ≡ None }
        ensures many { (m : ℕ) → ⟦<NonceStore as Nonces>⟧.many result m ≡ 0 }
    {
        NonceStore {
            alloc,
            kept: KeyedNonces::new(alloc),
            seconds: BTreeMap::new(alloc),
        }
    }
}

impl Nonces for NonceStore {
    ghost use Rattle.nonce_store.specs.Kept.{until_in, many_in};

    ghost until = { λ s. until_in s.kept.keys };

    ghost many = { λ s. many_in s.kept.keys };

    fn sweep(&mut self, latest: u64) {
        sweep(&mut self.kept, &mut self.seconds, latest);
    }

    fn knows(&self, key: &Bytes, nonce: &Bytes, moment: u64) -> bool {
        match self.kept.until(key.as_slice(), nonce.as_slice()) {
            Some(end) => moment <= end,
            None => false,
        }
    }

    fn count(&self, _moment: u64) -> usize {
        self.kept.count()
    }

    fn remember(&mut self, key: &Bytes, nonce: &Bytes, end: u64) -> Result<(), Mem> {
        let key = key.as_slice();
        let nonce = nonce.as_slice();
        note(self.alloc, &mut self.seconds, end, key, nonce)?;
        self.kept.put(self.alloc, key, nonce, end)
    }

    fn forget(&mut self, key: &Bytes, nonce: &Bytes, _end: u64) {
        self.kept.take(key.as_slice(), nonce.as_slice());
    }
}
