//! The table of marks (RFC 9421, section 2.3). The parts of a line stand between `|`:
//!
//! - `of`, a tag, and a message: the mark of its signature with that tag, or `no mark`;
//! - `verify`, now, a tag, and a message: the id of the key and the mark, or the fault;
//! - `sign`, when it is created, the nonce, and a message: the fields that are added, one a line, or the fault. The key is `c1` and the tag `gnap`.
//!
//! A mark is told as its nonce between quotes and its `created`. A message is laid out as in the table of signatures. The marks that are expected were
//! written by hand beside each message, and the signatures worked out in another language, apart from this code.

use crate::messages::{Parts, added, message_in, refused, ring, text_of};
use bytes_and_lists::bytes::Bytes;
use bytes_and_lists::memory::Mem;
use message_signature::{SignatureMark, is_nonce, mark_of, sign_marked, verify_marked};
use std::alloc::Global;

// An Integer has at most 15 digits (RFC 9651, section 3.3.1).
const GREATEST_INTEGER: u64 = 999_999_999_999_999;

fn shown(alloc: Global, mark: Option<&SignatureMark>) -> Result<String, Mem> {
    match mark {
        Some(mark) => {
            let nonce = text_of(alloc, mark.nonce.as_slice())?;
            Ok(format!(in alloc; "\"{nonce}\" {}", mark.created)?)
        }
        None => Ok(String::from_str(alloc, "no mark")?),
    }
}

fn told(alloc: Global, parts: &mut Parts) -> Result<String, Mem> {
    let tag = parts.bytes(alloc)?;
    let (_base, message) = message_in(alloc, parts)?;
    shown(alloc, mark_of(alloc, &message, &tag)?.as_ref())
}

fn verified(alloc: Global, parts: &mut Parts) -> Result<String, Mem> {
    let now = parts.number();
    let tag = parts.bytes(alloc)?;
    let (base, message) = message_in(alloc, parts)?;
    match verify_marked(alloc, &message, &base, &ring(alloc)?, now, &tag) {
        Ok((id, mark)) => {
            let id = text_of(alloc, id.as_slice())?;
            let mark = shown(alloc, mark.as_ref())?;
            Ok(format!(in alloc; "{id}: {mark}")?)
        }
        Err(fault) => refused(alloc, fault),
    }
}

fn signed(alloc: Global, parts: &mut Parts) -> Result<String, Mem> {
    let created = parts.number();
    let nonce = parts.bytes(alloc)?;
    let (base, mut message) = message_in(alloc, parts)?;
    if created > GREATEST_INTEGER || !is_nonce(nonce.as_slice()) {
        return Ok(String::from_str(alloc, "not a mark to write")?);
    }
    let before = message.fields.len();
    let id = Bytes::from_slice(alloc, b"c1")?;
    let secret = Bytes::from_slice(alloc, b"secret-key-of-c1")?;
    let tag = Bytes::from_slice(alloc, b"gnap")?;
    let outcome = sign_marked(
        alloc,
        &mut message,
        &base,
        &id,
        &secret,
        created,
        &nonce,
        &tag,
    );
    added(alloc, outcome, &message, before)
}

/// What the mark of a line's message is, or what signing with one gives.
pub fn answer(alloc: Global, line: &str) -> Result<String, Mem> {
    let mut parts = Parts::of(line);
    match parts.next() {
        Some("of") => told(alloc, &mut parts),
        Some("verify") => verified(alloc, &mut parts),
        Some("sign") => signed(alloc, &mut parts),
        _ => Ok(String::from_str(alloc, "no such line")?),
    }
}
