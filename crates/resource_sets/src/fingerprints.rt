//! What stands for a set in the index.
ghost use Rattle.std.specs.Prelude.{◌≡◌, IfOk, take};
ghost use Rattle.std.specs.List.{AllByRecursion};
ghost use Rattle.std.specs.Int.{from_be_bytes, w64};
ghost use Rattle.access_rights.specs.Fits.{Fits};
ghost use Rattle.resource_sets.specs.Fingerprints.{fingerprint};

use access_rights::printing::rights_value;
use bytes_and_lists::memory::Mem;
use gnap_model::rights::Rights;
use json_objects::compact_text;
use sha2::{Digest, Sha256};
use std::alloc::Global;

// The first 8 bytes as a number.
fn first_word(digest: &[u8; 32]) -> u64
    ensures { result ≡ from_be_bytes w64 (take 8 digest.now) }
{
    let mut word = [0u8; 8];
    word.copy_from_slice(&digest[..8]);
    u64::from_be_bytes(word)
}

/// The fingerprint of a set of a server. Two sets may have the same one. The error is want of memory.
#[tactic(auto, using(access_rights::proofs::Whole::rights_whole), unfolding(crate::specs::Fingerprints::fingerprint))]
pub(crate) fn fingerprint(alloc: Global, server: &[u8], rights: &Rights) -> Result<u64, Mem>
    requires { AllByRecursion Fits rights.now }
    ensures { IfOk result (λ n. n ≡ fingerprint server.now rights.now) }
{
    let text = compact_text(alloc, &rights_value(alloc, rights)?)?;
    let mut hasher = Sha256::new();
    hasher.update(server);
    hasher.update(text.as_slice());
    Ok(first_word(&hasher.finalize()))
}
