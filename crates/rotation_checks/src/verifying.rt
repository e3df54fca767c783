//! Verifying both signatures of a message (RFC 9635, section 6.1.1).
ghost use Rattle.std.specs.Prelude.{◌≡◌, IfErr, IfOk, Ok};
ghost use Rattle.message_signature.specs.declared.fault.SigFault.TheVariants.{Unsupported};
ghost use Rattle.message_signature.specs.Faults.{Gives as GivesSignature, need};
ghost use Rattle.message_signature.specs.Seen.{signature_seen};
ghost use Rattle.message_signature.specs.Verified.{judged, signature_fields, tagged_in};
ghost use Rattle.rotation_checks.specs.RotationBase.{rotation_base};
ghost use Rattle.rotation_checks.specs.Faults.{Gives, IsToldOf, in_first, in_second, told_first, told_second};
ghost use Rattle.rotation_checks.specs.SecondSignature.{first_tag, second_tag, judged_again, covers_member, is_chained};
ghost use Rattle.rotation_checks.specs.Rotated.{rotated_keys};

use crate::base::base_over;
use crate::components::is_among;
use crate::fault::RotationFault;
use bytes_and_lists::bytes::Bytes;
use bytes_and_lists::message::Message;
use hmac_key::Keyring;
use message_signature::{
    BaseFault, SigFault, SignatureFields, TaggedSignature, check_tagged, judged_list,
    signature_fields, tagged,
};
use std::alloc::Global;
use structured_fields::InnerList;

/// The keys of a rotation, by their ids.
#[derive(Drop)]
pub struct RotatedKeys {
    /// The key that made the first signature.
    pub old: Bytes,
    /// The key that made the second, over the first.
    pub new: Bytes,
}

// ---- whose fault it is

fn in_first<T>(answer: Result<T, SigFault>) -> Result<T, RotationFault>
    ensures { result ≡ told_first answer }
{
    match answer {
        Ok(value) => Ok(value),
        Err(SigFault::OutOfMemory) => Err(RotationFault::OutOfMemory),
        Err(fault) => Err(RotationFault::First(fault)),
    }
}

fn in_second<T>(answer: Result<T, SigFault>) -> Result<T, RotationFault>
    ensures { result ≡ told_second answer }
{
    match answer {
        Ok(value) => Ok(value),
        Err(SigFault::OutOfMemory) => Err(RotationFault::OutOfMemory),
        Err(fault) => Err(RotationFault::Second(fault)),
    }
}

// ---- the first signature

fn fields_of(alloc: Global, message: &Message) -> Result<SignatureFields, RotationFault>
    ensures gives { Gives (λ fields. fields) result (in_first (signature_fields message.now)) }
    ensures are { IfOk result (λ fields. signature_fields message.now ≡ Ok fields) }
    ensures told { IfErr result IsToldOf }
{
    in_first(signature_fields(alloc, message))
}

fn first_signature(fields: &SignatureFields) -> Result<TaggedSignature<'_>, RotationFault>
    ensures gives { Gives signature_seen result (in_first (tagged_in first_tag fields.now)) }
    ensures told { IfErr result IsToldOf }
{
    in_first(tagged(fields, b"gnap"))
}

fn old_key(
    alloc: Global,
    message: &Message,
    base: &Bytes,
    ring: &Keyring,
    now: u64,
    one: &TaggedSignature,
) -> Result<Bytes, RotationFault>
    ensures gives { Gives (λ id. id) result (in_first (judged message.now base.now ring.now now (signature_seen one.now))) }
    ensures told { IfErr result IsToldOf }
{
    in_first(judged_list(alloc, message, base, ring, now, one.list, one.bytes))
}

// ---- the second

fn second_signature(fields: &SignatureFields) -> Result<TaggedSignature<'_>, RotationFault>
    ensures gives { Gives signature_seen result (in_second (tagged_in second_tag fields.now)) }
    ensures told { IfErr result IsToldOf }
{
    in_second(tagged(fields, b"gnap-rotate"))
}

fn base_again(
    alloc: Global,
    message: &Message,
    base: &Bytes,
    fields: &SignatureFields,
    list: &InnerList,
) -> Result<Bytes, SigFault>
    requires { signature_fields message.now ≡ Ok fields.now }
    ensures { GivesSignature (λ b. b) result (need Unsupported (rotation_base message.now base.now list.now)) }
{
    match base_over(alloc, message, base, fields, list) {
        Ok(text) => Ok(text),
        Err(BaseFault::Unsupported) => Err(SigFault::Unsupported),
        Err(BaseFault::OutOfMemory) => Err(SigFault::OutOfMemory),
    }
}

#[tactic(auto, unfolding(crate::specs::SecondSignature::judged_again))]
fn judged_again(
    alloc: Global,
    message: &Message,
    base: &Bytes,
    fields: &SignatureFields,
    ring: &Keyring,
    now: u64,
    one: &TaggedSignature,
) -> Result<Bytes, SigFault>
    requires { signature_fields message.now ≡ Ok fields.now }
    ensures { GivesSignature (λ id. id) result (judged_again message.now base.now ring.now now (signature_seen one.now)) }
{
    let text = base_again(alloc, message, base, fields, one.list)?;
    check_tagged(alloc, message, &text, ring, now, one.list, one.bytes)
}

fn new_key(
    alloc: Global,
    message: &Message,
    base: &Bytes,
    fields: &SignatureFields,
    ring: &Keyring,
    now: u64,
    one: &TaggedSignature,
) -> Result<Bytes, RotationFault>
    requires { signature_fields message.now ≡ Ok fields.now }
    ensures gives { Gives (λ id. id) result (in_second (judged_again message.now base.now ring.now now (signature_seen one.now))) }
    ensures told { IfErr result IsToldOf }
{
    in_second(judged_again(alloc, message, base, fields, ring, now, one))
}

fn covers_member(name: &[u8], label: &Bytes, list: &InnerList) -> bool
    ensures { result ≡ covers_member name.now label.now list.now }
{
    is_among(name, Some(label), list.items.as_slice())
}

fn is_chained(label: &Bytes, list: &InnerList) -> bool
    ensures { result ≡ is_chained label.now list.now }
{
    covers_member(b"signature", label, list) && covers_member(b"signature-input", label, list)
}

// ---- both

// The keys of both signatures of a message whose two fields were read.
#[tactic(auto, unfolding(crate::specs::Rotated::rotated_keys))]
fn rotated_keys(
    alloc: Global,
    message: &Message,
    base: &Bytes,
    fields: &SignatureFields,
    ring: &Keyring,
    now: u64,
) -> Result<RotatedKeys, RotationFault>
    requires { signature_fields message.now ≡ Ok fields.now }
    ensures gives { Gives (λ keys. keys) result (rotated_keys message.now base.now ring.now now) }
    ensures told { IfErr result IsToldOf }
{
    let first = first_signature(fields)?;
    let old = old_key(alloc, message, base, ring, now, &first)?;
    let second = second_signature(fields)?;
    let new = new_key(alloc, message, base, fields, ring, now, &second)?;
    if !is_chained(first.label, second.list) {
        return Err(RotationFault::NotChained);
    }
    Ok(RotatedKeys { old, new })
}

/// The keys of both signatures of a message which came to the server with this base (RFC 9635, section 6.1.1): the first has the tag `gnap` and is verified as
/// any (`message_signature::verify`), the second has the tag `gnap-rotate`, is verified by the same checks over the base that may cover another signature
/// (`rotation_base`), and covers the first: `signature` and `signature-input` with its label as `key`.
/// The base is scheme, `://` and authority, without a `/` at its end. `now` is in seconds since 1970.
///
/// Errors: First exactly where the first has a fault, and which is its first; else Second exactly where the second has one; else NotChained exactly where the
/// second doesn't cover the first. OutOfMemory may come in place of any answer, and is never the fault in First and Second.
#[tactic(auto, unfolding(crate::specs::Rotated::rotated_keys))]
pub fn verify_rotation(
    alloc: Global,
    message: &Message,
    base: &Bytes,
    ring: &Keyring,
    now: u64,
) -> Result<RotatedKeys, RotationFault>
    ensures gives { Gives (λ keys. keys) result (rotated_keys message.now base.now ring.now now) }
    ensures told { IfErr result IsToldOf }
{
    let fields = fields_of(alloc, message)?;
    rotated_keys(alloc, message, base, &fields, ring, now)
}
