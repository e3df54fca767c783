//! Rotations that name a key, which has to sign too (RFC 9635, section 6.1.1).
ghost use Rattle.std.specs.Prelude.{◌≡◌, IfOk};
ghost use Rattle.std.specs.Option.{option_copied};
ghost use Rattle.rotation_checks.specs.Rotated.{rotated_keys};
ghost use Rattle.as_requests.specs.Rings.{secrets_of};
ghost use Rattle.as_requests.specs.KeyRotations.{named_key, is_new_key, is_signed_by_named};

use crate::edge::Edge;
use bytes_and_lists::bytes::Bytes;
use bytes_and_lists::memory::Mem;
use bytes_and_lists::message::Message;
use gnap_model::calls::Call;
use rotation_checks::{RotationFault, verify_rotation};
use std::alloc::Global;

// The key that a rotation names, to which the token is to move.
fn named_key(call: &Call) -> Option<&Bytes>
    ensures { option_copied result ≡ named_key call.now }
{
    match call {
        Call::Rotate { new_key, .. } => new_key.as_ref(),
        _ => None,
    }
}

// Whether both signatures of the message pass, and this key made the second.
fn is_new_key(
    alloc: Global,
    edge: &Edge,
    message: &Message,
    moment: u64,
    key: &Bytes,
) -> Result<bool, Mem>
    ensures { IfOk result (λ so. so ≡ is_new_key key.now (rotated_keys message.now edge.now.base (secrets_of edge.now) moment)) }
{
    match verify_rotation(alloc, message, &edge.setup().base, edge.ring(), moment) {
        Ok(keys) => Ok(keys.new.as_slice() == key.as_slice()),
        Err(RotationFault::OutOfMemory) => Err(Mem),
        Err(_) => Ok(false),
    }
}

/// Whether the key that the call names signed the message too, over the first signature. True where the call names none: then no signature is looked at.
pub(crate) fn is_signed_by_named(
    alloc: Global,
    edge: &Edge,
    message: &Message,
    moment: u64,
    call: &Call,
) -> Result<bool, Mem>
    ensures { IfOk result (λ so. so ≡ is_signed_by_named edge.now message.now moment (named_key call.now)) }
{
    match named_key(call) {
        None => Ok(true),
        Some(key) => is_new_key(alloc, edge, message, moment, key),
    }
}
