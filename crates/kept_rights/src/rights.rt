//! A list of rights in one run of bytes.
ghost use Rattle.std.specs.Prelude.{◌≡◌, [], IfOk};

use crate::form::Form;
use bytes_and_lists::bytes::Bytes;
use bytes_and_lists::memory::{Duplicate, Mem};
use gnap_model::rights::Rights;
use std::alloc::Global;
use std::marker::Model;

/// A list of rights, kept in one run of bytes without spare room. Contracts see the list, as of `Rights`.
#[derive(Drop)]
pub struct KeptRights {
    bytes: Bytes,
}

impl Model for KeptRights {
    ghost use Rattle.std.specs.Prelude.{List};
    ghost use Rattle.gnap_model.specs.declared.rights.Right.{Right};
    ghost use Rattle.kept_rights.specs.Reading.{rights_in};

    ghost Value = { List Right };

    ghost view = { λ kept. rights_in kept.bytes };
}

impl KeptRights {
    /// No rights. Takes no memory.
    #[tactic(auto, using(crate::proofs::Again::no_rights))]
    pub fn new(alloc: Global) -> KeptRights
        ensures { result ≡ [] }
    {
        KeptRights {
            bytes: Bytes::new(alloc),
        }
    }

    /// Keeps these rights. The error is want of memory.
    #[tactic(auto, using(crate::proofs::Again::rights_again))]
    pub fn keep(alloc: Global, rights: &Rights) -> Result<KeptRights, Mem>
        ensures { IfOk result (λ kept. kept ≡ rights.now) }
    {
        if rights.len() == 0 {
            return Ok(KeptRights::new(alloc));
        }
        let mut written = Bytes::new(alloc);
        rights.put(&mut written)?;
        let bytes = Bytes::from_slice(alloc, written.as_slice())?;
        Ok(KeptRights { bytes })
    }

    /// The rights that are kept. The error is want of memory.
    #[tactic(auto, unfolding(crate::specs::Reading::rights_in))]
    pub fn rights(&self, alloc: Global) -> Result<Rights, Mem>
        ensures { IfOk result (λ rights. rights ≡ self.now) }
    {
        let (rights, _) = Rights::read(alloc, self.bytes.as_slice())?;
        Ok(rights)
    }
}

impl Duplicate for KeptRights {
    fn copy(&self) -> Result<KeptRights, Mem> {
        Ok(KeptRights {
            bytes: self.bytes.copy()?,
        })
    }
}
