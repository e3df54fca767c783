//! The mark of a signature (RFC 9421, section 2.3): the `nonce` and the `created` that it tells of itself.
ghost use Rattle.std.specs.Prelude.{◌≡◌, IfOk};
ghost use Rattle.std.specs.List.{list_all};
ghost use Rattle.std.specs.Option.{option_copied};
ghost use Rattle.message_signature.specs.Faults.{Gives};
ghost use Rattle.message_signature.specs.Verified.{lone_list};
ghost use Rattle.message_signature.specs.Marks.{has_nonce_length, nonce_in, created_in, mark_in, marked, mark_of, is_nonce_byte, is_nonce};

use crate::fault::SigFault;
use crate::tags::{dictionary_of, only_one, value_of};
use bytes_and_lists::bytes::Bytes;
use bytes_and_lists::memory::{Duplicate, Mem};
use bytes_and_lists::message::Message;
use std::alloc::Global;
use structured_fields::{Bare, InnerList};

/// So many bytes has a nonce at most.
pub const LONGEST_NONCE: usize = 64;

/// The latest `created` of a mark, in seconds since 1970: 300 behind the last second of the year 9999.
pub const LATEST_CREATED: u64 = 253_402_301_099;

/// What a signature tells of itself, by which a second use of it is known.
#[derive(Drop)]
pub struct SignatureMark {
    /// 1 to 64 bytes.
    pub nonce: Bytes,
    /// In seconds since 1970.
    pub created: u64,
}

fn has_nonce_length(nonce: &[u8]) -> bool
    ensures { result ≡ has_nonce_length nonce.now }
{
    nonce.len() > 0 && nonce.len() <= LONGEST_NONCE
}

// ---- the mark of a list

fn nonce_in(param: Option<&Bare>) -> Option<&Bytes>
    ensures { option_copied result ≡ nonce_in (option_copied param.entry) }
{
    match param {
        Some(Bare::Str(nonce)) if has_nonce_length(nonce.as_slice()) => Some(nonce),
        _ => None,
    }
}

fn created_in(param: Option<&Bare>) -> Option<u64>
    ensures { result ≡ created_in (option_copied param.entry) }
{
    match param {
        Some(Bare::Integer(created)) if *created >= 0 => {
            Some(created.unsigned_abs()).filter(|moment| *moment <= LATEST_CREATED)
        }
        _ => None,
    }
}

/// The mark that the parameters of a list tell. None exactly where `nonce` is no String of 1 to 64 bytes, or `created` no Integer from 0 to 253,402,301,099.
pub(crate) fn mark_in(list: &InnerList) -> Result<Option<SignatureMark>, Mem>
    ensures { IfOk result (λ mark. mark ≡ mark_in list.now) }
{
    let (Some(nonce), Some(created)) = (
        nonce_in(list.params.get(b"nonce")),
        created_in(list.params.get(b"created")),
    ) else {
        return Ok(None);
    };
    Ok(Some(SignatureMark {
        nonce: nonce.copy()?,
        created,
    }))
}

// ---- the mark of a message

fn lone_mark(
    alloc: Global,
    message: &Message,
    tag: &[u8],
) -> Result<Option<SignatureMark>, SigFault>
    ensures { Gives (λ mark. mark) result (marked (lone_list message.now tag.now)) }
{
    let input = value_of(alloc, message, b"signature-input")?;
    let inputs = dictionary_of(alloc, input.as_slice())?;
    let (_, list) = only_one(tag, &inputs)?;
    Ok(mark_in(list)?)
}

/// The mark of the one inner list of `signature-input` with this tag. None exactly where there isn't exactly one such list, or its `nonce` is no String of 1 to
/// 64 bytes, or its `created` no Integer from 0 to 253,402,301,099. No signature is verified (`verify_marked` does both).
#[tactic(auto, unfolding(crate::specs::Marks::mark_of))]
pub fn mark_of(alloc: Global, message: &Message, tag: &Bytes) -> Result<Option<SignatureMark>, Mem>
    ensures { IfOk result (λ mark. mark ≡ mark_of message.now tag.now) }
{
    match lone_mark(alloc, message, tag.as_slice()) {
        Ok(mark) => Ok(mark),
        Err(SigFault::OutOfMemory) => Err(Mem),
        Err(_) => Ok(None),
    }
}

// ---- nonces that are written

fn is_nonce_byte(c: u8) -> bool
    ensures { result ≡ is_nonce_byte c }
{
    c.is_ascii_alphanumeric() || c == b'.' || c == b'_' || c == b'-'
}

fn has_nonce_bytes(text: &[u8]) -> bool
    ensures { result ≡ list_all is_nonce_byte text.now }
{
    text.iter().all(|c| is_nonce_byte(*c))
}

/// Whether `sign_marked` writes it: 1 to 64 letters, digits, `.`, `_` and `-`.
pub fn is_nonce(text: &[u8]) -> bool
    ensures { result ≡ is_nonce text.now }
{
    has_nonce_length(text) && has_nonce_bytes(text)
}
