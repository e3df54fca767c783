//! The two hashes that verifying a request takes.

use crate::connections::SECRET;
use base64::engine::general_purpose::STANDARD;
use bytes_and_lists::bytes::Bytes;
use bytes_and_lists::memory::Mem;
use hmac_key::hmac;
use sha2::{Digest, Sha256};
use std::alloc::Global;

/// What they are made of, and what they are: the digest of the body, and the MAC of the signature base.
#[derive(Drop)]
pub(crate) struct Hashes {
    body: Bytes,
    base: Bytes,
    digest: Bytes,
    mac: Bytes,
}

// The bytes that a text in base64 has.
fn decoded(alloc: Global, text: &str) -> Result<Bytes, Mem> {
    match STANDARD.decode(alloc, text.as_bytes()) {
        Ok(bytes) => Ok(Bytes::from_vec(bytes)),
        Err(_) => Err(Mem),
    }
}

impl Hashes {
    /// Those of this body and this signature base. The digest and the MAC are in base64.
    pub(crate) fn new(
        alloc: Global,
        body: &str,
        base: Bytes,
        digest: &str,
        mac: &str,
    ) -> Result<Hashes, Mem> {
        Ok(Hashes {
            body: Bytes::from_slice(alloc, body.as_bytes())?,
            base,
            digest: decoded(alloc, digest)?,
            mac: decoded(alloc, mac)?,
        })
    }

    /// Makes both so many times, and counts how often they are right.
    pub(crate) fn made(&self, times: u64) -> u64 {
        let mut right: u64 = 0;
        for _ in 0..times {
            let digest = Sha256::digest(self.body.as_slice());
            let mac = hmac(SECRET, self.base.as_slice());
            if self.digest.as_slice() == digest.as_slice()
                && self.mac.as_slice() == mac.as_slice()
            {
                right = right.saturating_add(1);
            }
        }
        right
    }
}
