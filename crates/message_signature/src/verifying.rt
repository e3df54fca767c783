//! Verifying the signature of a message (RFC 9421, section 3.2).
ghost use Rattle.std.specs.Prelude.{◌≡◌, ℕ, List, IfOk, Some, codes};
ghost use Rattle.std.specs.Option.{option_copied, option_map};
ghost use Rattle.std.specs.Str.{bytes_eq};
ghost use Rattle.structured_fields.specs.Named.{value_at};
ghost use Rattle.hmac_key.specs.Hmac.{hmac_sha256};
ghost use Rattle.message_signature.specs.declared.fault.SigFault.TheVariants.{Unsupported, UnknownKey};
ghost use Rattle.message_signature.specs.Base.{signature_base};
ghost use Rattle.message_signature.specs.Components.{field_value};
ghost use Rattle.message_signature.specs.Faults.{Gives, GivesBase, and_then, need};
ghost use Rattle.message_signature.specs.Lone.{tagged_read};
ghost use Rattle.message_signature.specs.Marked.{judged_with_mark, verified_marked};
ghost use Rattle.message_signature.specs.Verified.{key_in, has_right_digest, made_under, judged_over, judged, verified};

use crate::base::base_of;
use crate::base_template::filled;
use crate::components::{field_value, has_body};
use crate::demands::{admit, demands_of, demands_with};
use crate::fault::{BaseFault, SigFault};
use crate::list_shape::ShapedList;
use crate::marks::{SignatureMark, mark_in};
use crate::reading::{FoundSignature, ReadSignature, found_signature, kept_list, read_signature};
use bytes_and_lists::bytes::Bytes;
use bytes_and_lists::memory::{Duplicate, Mem};
use bytes_and_lists::message::Message;
use content_digest::DigestFault;
use hmac_key::{HmacKey, Keyring, same};
use std::alloc::Global;
use structured_fields::{Bare, InnerList};

// The signature base under the list of a signature.
#[tactic(auto, using(crate::proofs::FilledTemplates::template_gives_base))]
fn signature_base(
    alloc: Global,
    message: &Message,
    base: &Bytes,
    one: &FoundSignature<'_>,
) -> Result<Bytes, BaseFault>
    ensures { GivesBase (λ b. b) result (signature_base message.now base.now one.now.list.now) }
{
    match one.known {
        Some(known) => filled(alloc, message, base, known.template, known.shown),
        None => base_of(alloc, message, base, one.list),
    }
}

fn base_under(
    alloc: Global,
    message: &Message,
    base: &Bytes,
    one: &FoundSignature<'_>,
) -> Result<Bytes, SigFault>
    ensures { Gives (λ b. b) result (need Unsupported (signature_base message.now base.now one.now.list.now)) }
{
    match signature_base(alloc, message, base, one) {
        Ok(text) => Ok(text),
        Err(BaseFault::Unsupported) => Err(SigFault::Unsupported),
        Err(BaseFault::OutOfMemory) => Err(SigFault::OutOfMemory),
    }
}

fn key_in<'a>(ring: &'a Keyring, keyid: Option<&'a Bare>) -> Option<(&'a Bytes, &'a HmacKey)>
    ensures { option_map (λ k. (k.0.now, k.1.now)) result ≡ key_in ring.now (option_copied keyid.entry) }
{
    let Some(Bare::Str(id)) = keyid else {
        return None;
    };
    let key = ring.key(id.as_slice())?;
    Some((id, key))
}

// The id and the key that `keyid` names.
fn key_of<'a>(ring: &'a Keyring, list: &'a InnerList) -> Result<(&'a Bytes, &'a HmacKey), SigFault>
    ensures { Gives (λ k. (k.0.now, k.1.now)) result (need UnknownKey (key_in ring.now (value_at list.now.params (codes "keyid")))) }
{
    key_in(ring, list.params.get(b"keyid")).ok_or(SigFault::UnknownKey)
}

fn is_hmac(bytes: &Bytes, key: &HmacKey, text: &Bytes) -> bool
    ensures { result ≡ bytes_eq bytes.now (hmac_sha256 key.now text.now) }
{
    same(bytes.as_slice(), &key.hmac(text.as_slice()))
}

// Whether the digest that the field tells is right.
fn is_right_digest(alloc: Global, message: &Message, field: &[u8]) -> Result<bool, Mem>
    requires { field_value (codes "content-digest") message.now.fields ≡ Some field.now }
    ensures { IfOk result (λ right. right ≡ has_right_digest message.now) }
{
    match content_digest::check(alloc, field, message.body.as_slice()) {
        Ok(()) => Ok(true),
        Err(DigestFault::OutOfMemory) => Err(Mem),
        Err(_) => Ok(false),
    }
}

fn has_right_digest(alloc: Global, message: &Message) -> Result<bool, Mem>
    ensures { IfOk result (λ right. right ≡ has_right_digest message.now) }
{
    let Some(field) = field_value(alloc, &message.fields, b"content-digest")? else {
        return Ok(!has_body(message));
    };
    is_right_digest(alloc, message, field.as_slice())
}

#[tactic(auto, unfolding(crate::specs::Verified::made_under))]
fn made_under(
    alloc: Global,
    message: &Message,
    text: &Bytes,
    ring: &Keyring,
    list: &InnerList,
    bytes: &Bytes,
) -> Result<Bytes, SigFault>
    ensures { Gives (λ id. id) result (made_under message.now text.now ring.now list.now bytes.now) }
{
    let (id, key) = key_of(ring, list)?;
    if !is_hmac(bytes, key, text) {
        return Err(SigFault::Differs);
    }
    if !has_right_digest(alloc, message)? {
        return Err(SigFault::Digest);
    }
    Ok(id.copy()?)
}

/// The id of the key that made these bytes for the message, over this signature base and with the parameters of this list.
///
/// Errors: the first fault from Uncovered to Digest that is so, in the order of `SigFault`. OutOfMemory may come in place of any answer.
#[tactic(auto, using(crate::proofs::Admitted::admitted_by_demands), unfolding(crate::specs::Verified::judged_over))]
pub fn check_tagged(
    alloc: Global,
    message: &Message,
    text: &Bytes,
    ring: &Keyring,
    now: u64,
    list: &InnerList,
    bytes: &Bytes,
) -> Result<Bytes, SigFault>
    ensures { Gives (λ id. id) result (judged_over message.now text.now ring.now now list.now bytes.now) }
{
    admit(message, now, &demands_of(list))?;
    made_under(alloc, message, text, ring, list, bytes)
}

// The same of a signature that was found.
#[tactic(auto, using(crate::proofs::Admitted::admitted_by_demands), unfolding(crate::specs::Verified::judged, crate::specs::Verified::judged_over))]
fn judged_found(
    alloc: Global,
    message: &Message,
    base: &Bytes,
    ring: &Keyring,
    now: u64,
    one: &FoundSignature<'_>,
) -> Result<Bytes, SigFault>
    ensures { (label : List ℕ) → Gives (λ id. id) result
        (judged message.now base.now ring.now now (record { label = label; list = one.now.list.now; bytes = one.now.bytes.now })) }
{
    let text = base_under(alloc, message, base, one)?;
    let demands = match one.known {
        Some(known) => demands_with(known.covering, &one.list.params),
        None => demands_of(one.list),
    };
    admit(message, now, &demands)?;
    made_under(alloc, message, &text, ring, one.list, one.bytes)
}

/// The id of the key that made a signature of the message: these bytes, with the covered components and the parameters of this list. Its label doesn't count.
///
/// Errors: the first fault from Unsupported to Digest that is so, in the order of `SigFault`. OutOfMemory may come in place of any answer.
pub fn judged_list<'a>(
    alloc: Global,
    message: &Message,
    base: &Bytes,
    ring: &Keyring,
    now: u64,
    list: &'a InnerList,
    bytes: &'a Bytes,
) -> Result<Bytes, SigFault>
    ensures { (label : List ℕ) → Gives (λ id. id) result
        (judged message.now base.now ring.now now (record { label = label; list = list.now; bytes = bytes.now })) }
{
    judged_found(
        alloc,
        message,
        base,
        ring,
        now,
        &FoundSignature {
            list,
            known: None,
            bytes,
        },
    )
}

// The id of the key of the signature with the tag, by what was read of the two fields.
fn judged_read(
    alloc: Global,
    message: &Message,
    base: &Bytes,
    ring: &Keyring,
    now: u64,
    read: &ReadSignature,
    tag: &Bytes,
) -> Result<Bytes, SigFault>
    ensures { (label : List ℕ) → Gives (λ id. id) result (and_then (judged message.now base.now ring.now now) (tagged_read label tag.now read.now)) }
{
    let one = found_signature(read, tag.as_slice())?;
    judged_found(alloc, message, base, ring, now, &one)
}

// The same with the mark of its list.
fn id_and_mark(
    alloc: Global,
    message: &Message,
    base: &Bytes,
    ring: &Keyring,
    now: u64,
    read: &ReadSignature,
    tag: &Bytes,
) -> Result<(Bytes, Option<SignatureMark>), SigFault>
    ensures { (label : List ℕ) → Gives (λ x. x) result
        (and_then (judged_with_mark message.now base.now ring.now now) (tagged_read label tag.now read.now)) }
{
    let one = found_signature(read, tag.as_slice())?;
    let id = judged_found(alloc, message, base, ring, now, &one)?;
    Ok((id, mark_in(one.list)?))
}

/// Verifies the signatures of messages, one after another (RFC 9421, section 1.1). It holds the list of the signature that it read last, where its text is
/// canonical, with a template of signature bases: of the next list with the same label and the same covered components, as those of one signer mostly are, the
/// parameters alone are read, and of the same text nothing. No answer depends on it.
#[derive(Drop)]
pub struct Verifier {
    known: Option<ShapedList>,
}

impl Verifier {
    /// One that has read nothing. It takes no memory yet.
    pub fn new() -> Verifier {
        Verifier { known: None }
    }

    /// The id of the key that signed a message which came to the server with this base (RFC 9421, section 3.2). The signature is the one whose parameter `tag`
    /// is this tag, and others are passed over; it is the HMAC-SHA-256 (section 3.3.3) of the signature base (section 2.5) under a key of the ring.
    /// The base is scheme, `://` and authority, without a `/` at its end. `now`, `created` and `expires` are in seconds since 1970. Parameters of other names,
    /// as `nonce`, are signed and not looked at.
    ///
    /// Errors: the first fault that is so, in the order of `SigFault`. OutOfMemory may come in place of any answer.
    pub fn verify(
        &mut self,
        alloc: Global,
        message: &Message,
        base: &Bytes,
        ring: &Keyring,
        now: u64,
        tag: &Bytes,
    ) -> Result<Bytes, SigFault>
        ensures { Gives (λ id. id) result (verified message.now base.now ring.now now tag.now) }
    {
        let read = read_signature(alloc, self.known.take(), message, tag.as_slice())?;
        let id = judged_read(alloc, message, base, ring, now, &read, tag);
        self.known = kept_list(read);
        id
    }

    /// What `verify` answers, with the mark of the signature that it verified (`mark_of`): the fields are read once.
    ///
    /// Errors: those of `verify`. OutOfMemory may come in place of any answer.
    pub fn verify_marked(
        &mut self,
        alloc: Global,
        message: &Message,
        base: &Bytes,
        ring: &Keyring,
        now: u64,
        tag: &Bytes,
    ) -> Result<(Bytes, Option<SignatureMark>), SigFault>
        ensures { Gives (λ x. x) result (verified_marked message.now base.now ring.now now tag.now) }
    {
        let read = read_signature(alloc, self.known.take(), message, tag.as_slice())?;
        let both = id_and_mark(alloc, message, base, ring, now, &read, tag);
        self.known = kept_list(read);
        both
    }
}

/// What a `Verifier` answers of one message.
///
/// Errors: those of `Verifier::verify`.
pub fn verify(
    alloc: Global,
    message: &Message,
    base: &Bytes,
    ring: &Keyring,
    now: u64,
    tag: &Bytes,
) -> Result<Bytes, SigFault>
    ensures { Gives (λ id. id) result (verified message.now base.now ring.now now tag.now) }
{
    Verifier::new().verify(alloc, message, base, ring, now, tag)
}

/// What a `Verifier` answers of one message, with the mark of its signature.
///
/// Errors: those of `Verifier::verify_marked`.
pub fn verify_marked(
    alloc: Global,
    message: &Message,
    base: &Bytes,
    ring: &Keyring,
    now: u64,
    tag: &Bytes,
) -> Result<(Bytes, Option<SignatureMark>), SigFault>
    ensures { Gives (λ x. x) result (verified_marked message.now base.now ring.now now tag.now) }
{
    Verifier::new().verify_marked(alloc, message, base, ring, now, tag)
}
