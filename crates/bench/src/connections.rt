//! Requests of a connection, read and verified.

use bytes_and_lists::bytes::Bytes;
use bytes_and_lists::memory::Mem;
use bytes_and_lists::message::Message;
use gnap_io::memory_devices::MemSource;
use hmac_key::Keyring;
use http_edge::{Held, next_message};
use message_signature::verify;
use std::alloc::Global;

// When the request was signed and is verified, in seconds since 1970.
const MOMENT: u64 = 1000;

/// The secret of the key that signs the request.
pub(crate) const SECRET: &[u8] = b"secret-key-of-c1";

/// What verifying takes beside the message.
#[derive(Drop)]
pub(crate) struct SignatureCheck {
    base: Bytes,
    ring: Keyring,
    tag: Bytes,
}

impl SignatureCheck {
    /// The one of the key `c1`.
    pub(crate) fn new(alloc: Global) -> Result<SignatureCheck, Mem> {
        let mut ring = Keyring::new(alloc);
        let id = Bytes::from_slice(alloc, b"c1")?;
        let secret = Bytes::from_slice(alloc, SECRET)?;
        ring.add(&id, &secret)?;
        let base = Bytes::from_slice(alloc, b"https://as.example")?;
        let tag = Bytes::from_slice(alloc, b"gnap")?;
        Ok(SignatureCheck { base, ring, tag })
    }

    fn passes(&self, alloc: Global, message: &Message) -> bool {
        verify(alloc, message, &self.base, &self.ring, MOMENT, &self.tag).is_ok()
    }
}

/// Reads so many requests from the connection, verifies them where there is a check, and counts those that pass, up to the first that can't be read.
pub(crate) fn requests_read(
    alloc: Global,
    connection: &mut MemSource,
    times: u64,
    check: Option<&SignatureCheck>,
) -> u64 {
    let mut held = Held::new(alloc);
    let mut passed: u64 = 0;
    for _ in 0..times {
        let Ok(Some(message)) = next_message(alloc, connection, &mut held) else {
            return passed;
        };
        let passes = match check {
            Some(check) => check.passes(alloc, &message),
            None => true,
        };
        if passes {
            passed = passed.saturating_add(1);
        }
    }
    passed
}
