//! Secrets under ids.
ghost use Rattle.std.specs.Prelude.{◌≡◌, [], None, length, is_none, IfOk, OnOk, OnErr};
ghost use Rattle.std.specs.Option.{option_copied, option_map};
ghost use Rattle.structured_fields.specs.Named.{value_at, IsDistinct};
ghost use Rattle.hmac_key.specs.Keyring.{with_secret};

use crate::mac::HmacKey;
use bytes_and_lists::bytes::Bytes;
use bytes_and_lists::memory::{Duplicate, Mem};
use std::alloc::Global;
use std::marker::Model;
use structured_fields::Named;

/// Secrets under distinct ids, in the order in which they came. Contracts see the list of ids and secrets.
#[derive(Drop)]
pub struct Keyring {
    secrets: Named<HmacKey>,
}

impl Model for Keyring {
    ghost use Rattle.std.specs.Prelude.{ℕ, List};

    ghost Value = { List (List ℕ × List ℕ) };

    ghost use Rattle.structured_fields.specs.Named.{IsDistinct};

    ghost view = { λ k. k.secrets };

    ghost invariant = { λ k. IsDistinct k.secrets };
}

impl Keyring {
    /// No secrets. Takes no memory.
    pub fn new(alloc: Global) -> Keyring
        ensures { result ≡ [] }
    {
        Keyring {
            secrets: Named::new(alloc),
        }
    }

    /// How many secrets there are.
    pub fn len(&self) -> usize
        ensures len { result ≡ length self.now }
        ensures distinct { IsDistinct self.now }
    {
        self.secrets.len()
    }

    /// Adds a secret under an id, behind the others: true. Where the id is there it changes nothing and takes no memory: false. An `Err` changes nothing.
    pub fn add(&mut self, id: &Bytes, secret: &Bytes) -> Result<bool, Mem>
        ensures answer { IfOk result (λ added. added ≡ is_none (value_at self.old id.now)) }
        ensures ok { OnOk result (self.new ≡ with_secret self.old id.now secret.now) }
        ensures err { OnErr result (self.new ≡ self.old) }
        // Only a new id takes memory.
        ensures absent { OnErr result (value_at self.old id.now ≡ None) }
    {
        if self.find(id.as_slice()).is_some() {
            return Ok(false);
        }
        self.secrets.set(id.copy()?, HmacKey::new(secret.copy()?))?;
        Ok(true)
    }

    /// The secret under the id. None exactly where the id isn't there. Takes no memory.
    pub fn find(&self, id: &[u8]) -> Option<&[u8]>
        ensures { option_map (λ s. s.now) result ≡ value_at self.now id.now }
    {
        self.key(id).map(HmacKey::as_slice)
    }

    /// The secret under the id, ready to make HMACs. None exactly where the id isn't there. Takes no memory.
    pub fn key(&self, id: &[u8]) -> Option<&HmacKey>
        ensures { option_copied result ≡ value_at self.now id.now }
    {
        self.secrets.get(id)
    }
}
