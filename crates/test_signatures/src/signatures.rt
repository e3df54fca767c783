//! The table of messages that are verified or signed. The parts of a line stand between `|`:
//!
//! - `verify`, now, and a message: the id of the key, or the fault;
//! - `base`, the id of a key, a list of components, and a message: the signature base and its HMAC in base64, or the fault;
//! - `sign`, when it is created, and a message: the fields that are added, one a line, or the fault. The key is `c1` and the tag `gnap`.
//!
//! A message is its base, method, target, body and fields. What is expected was worked out by the tables of RFC 9421 and `docs/SIGNATURES.md` in another
//! language, apart from this code.

use crate::messages::{Parts, added, message_in, refused, ring, text_of};
use base64::engine::general_purpose::STANDARD;
use bytes_and_lists::bytes::Bytes;
use bytes_and_lists::memory::Mem;
use hmac_key::hmac;
use message_signature::{BaseFault, base_of, sign, verify};
use std::alloc::Global;
use structured_fields::{InnerList, Member, read_list};

fn verified(alloc: Global, parts: &mut Parts) -> Result<String, Mem> {
    let now = parts.number();
    let (base, message) = message_in(alloc, parts)?;
    let tag = Bytes::from_slice(alloc, b"gnap")?;
    match verify(alloc, &message, &base, &ring(alloc)?, now, &tag) {
        Ok(id) => text_of(alloc, id.as_slice()),
        Err(fault) => refused(alloc, fault),
    }
}

fn list_in(alloc: Global, text: &[u8]) -> Option<InnerList> {
    let mut members = read_list(alloc, text).ok()?.into_vec();
    match members.pop() {
        Some(Member::Inner(list)) => Some(list),
        _ => None,
    }
}

// A signature base, and its HMAC under the secret of a key.
fn with_code(alloc: Global, id: &str, base: &[u8]) -> Result<String, Mem> {
    let ring = ring(alloc)?;
    let secret = ring.find(id.as_bytes()).unwrap_or(b"");
    let code = STANDARD.encode(alloc, &hmac(secret, base))?;
    let mut text = text_of(alloc, base)?;
    text.push('\n')?;
    text.push_str(code.as_str())?;
    Ok(text)
}

fn based(alloc: Global, parts: &mut Parts) -> Result<String, Mem> {
    let id = parts.text();
    let Some(list) = list_in(alloc, parts.text().as_bytes()) else {
        return Ok(String::from_str(alloc, "no list")?);
    };
    let (base, message) = message_in(alloc, parts)?;
    match base_of(alloc, &message, &base, &list) {
        Ok(text) => with_code(alloc, id, text.as_slice()),
        Err(BaseFault::Unsupported) => Ok(String::from_str(alloc, "Unsupported")?),
        Err(BaseFault::OutOfMemory) => Err(Mem),
    }
}

fn signed(alloc: Global, parts: &mut Parts) -> Result<String, Mem> {
    let created = parts.number();
    let (base, mut message) = message_in(alloc, parts)?;
    if created > 253_402_300_799 {
        return Ok(String::from_str(alloc, "no moment")?);
    }
    let before = message.fields.len();
    let id = Bytes::from_slice(alloc, b"c1")?;
    let secret = Bytes::from_slice(alloc, b"secret-key-of-c1")?;
    let tag = Bytes::from_slice(alloc, b"gnap")?;
    let outcome = sign(alloc, &mut message, &base, &id, &secret, created, &tag);
    added(alloc, outcome, &message, before)
}

/// What verifying, the signature base or signing gives for a line's message.
pub fn answer(alloc: Global, line: &str) -> Result<String, Mem> {
    let mut parts = Parts::of(line);
    match parts.next() {
        Some("verify") => verified(alloc, &mut parts),
        Some("base") => based(alloc, &mut parts),
        Some("sign") => signed(alloc, &mut parts),
        _ => Ok(String::from_str(alloc, "no such line")?),
    }
}
