//! A list of asks in one run of bytes.
ghost use Rattle.std.specs.Prelude.{◌≡◌, [], length, IfOk};

use crate::form::Form;
use crate::lengths::length_of;
use bytes_and_lists::bytes::Bytes;
use bytes_and_lists::memory::{Duplicate, Mem};
use gnap_model::objects::Asks;
use std::alloc::Global;
use std::marker::Model;

/// A list of asks, kept in one run of bytes without spare room. Contracts see the list, as of `Asks`.
#[derive(Drop)]
pub struct KeptAsks {
    bytes: Bytes,
}

impl Model for KeptAsks {
    ghost use Rattle.std.specs.Prelude.{List};
    ghost use Rattle.gnap_model.specs.declared.objects.Ask.{Ask};
    ghost use Rattle.kept_rights.specs.Reading.{asks_in};

    ghost Value = { List Ask };

    ghost view = { λ kept. asks_in kept.bytes };
}

impl KeptAsks {
    /// No asks. Takes no memory.
    #[tactic(auto, using(crate::proofs::Again::no_asks))]
    pub fn new(alloc: Global) -> KeptAsks
        ensures { result ≡ [] }
    {
        KeptAsks {
            bytes: Bytes::new(alloc),
        }
    }

    /// How many asks there are.
    #[tactic(auto, using(crate::proofs::Again::count_of_asks))]
    pub fn len(&self) -> usize
        ensures { result ≡ length self.now }
    {
        length_of(self.bytes.as_slice()).0
    }

    /// Keeps these asks. The error is want of memory.
    #[tactic(auto, using(crate::proofs::Again::asks_again))]
    pub fn keep(alloc: Global, asks: &Asks) -> Result<KeptAsks, Mem>
        ensures { IfOk result (λ kept. kept ≡ asks.now) }
    {
        if asks.len() == 0 {
            return Ok(KeptAsks::new(alloc));
        }
        let mut written = Bytes::new(alloc);
        asks.put(&mut written)?;
        let bytes = Bytes::from_slice(alloc, written.as_slice())?;
        Ok(KeptAsks { bytes })
    }

    /// The asks that are kept. The error is want of memory.
    #[tactic(auto, unfolding(crate::specs::Reading::asks_in))]
    pub fn asks(&self, alloc: Global) -> Result<Asks, Mem>
        ensures { IfOk result (λ asks. asks ≡ self.now) }
    {
        let (asks, _) = Asks::read(alloc, self.bytes.as_slice())?;
        Ok(asks)
    }
}

impl Duplicate for KeptAsks {
    fn copy(&self) -> Result<KeptAsks, Mem> {
        Ok(KeptAsks {
            bytes: self.bytes.copy()?,
        })
    }
}
