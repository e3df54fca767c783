//! The signature with a tag that one list alone has, read by itself: the other members of the two fields are skipped, and the covered components behind the
//! first one that has parameters are read and not kept. The list of the message before is kept: of one that has
//! its shape the parameters alone are read, and of the same text nothing.
ghost use Rattle.std.specs.Prelude.{◌≡◌, ℕ, List, Some, true, codes, IfOk, IfErr, IfSome};
ghost use Rattle.std.specs.Option.{ForSome, option_map};
ghost use Rattle.structured_fields.specs.declared.item.Member.{Member as MemberValue};
ghost use Rattle.structured_fields.specs.Named.{value_at};
ghost use Rattle.structured_fields.specs.Reading.{dictionary_of};
ghost use Rattle.structured_fields.specs.Strings.{holds_string};
ghost use Rattle.dictionary_lookup.specs.Skipping.{Tells};
ghost use Rattle.message_signature.specs.declared.fault.SigFault.TheVariants.{NotAField};
ghost use Rattle.message_signature.specs.Faults.{Fails, Gives, need};
ghost use Rattle.message_signature.specs.Lone.{IsLone, list_in, bytes_in, formed, lone_seen, read_tagged};
ghost use Rattle.message_signature.specs.ListShapes.{IsKnownOf};
ghost use Rattle.message_signature.specs.Verified.{signature_under, tagged};

use crate::fault::SigFault;
use crate::list_shape::{KnownParts, ShapedList, shaped_list};
use crate::tags::{is_well_formed, must, value_of};
use bytes_and_lists::bytes::Bytes;
use bytes_and_lists::message::Message;
use dictionary_lookup::{Matched, MatchedList, holds_string, matching_list, single_under};
use std::alloc::Global;
use structured_fields::{Bare, FieldFault, InnerList};

/// A list that was read by itself.
#[derive(Drop)]
pub(crate) enum LoneList {
    /// One in canonical text, which is kept for the next message.
    Shaped(ShapedList),
    /// One in another text, up to the first covered component that has parameters.
    Cut(InnerList),
}

impl LoneList {
    pub fn list(&self) -> &InnerList
        ensures { result.now ≡ list_in self.now }
    {
        match self {
            LoneList::Shaped(one) => &one.list,
            LoneList::Cut(list) => list,
        }
    }

    /// What is known of the list.
    pub fn known(&self) -> Option<KnownParts<'_>>
        ensures { ForSome result (λ known. IsKnownOf (list_in self.now) known.template.now known.shown.now known.covering) }
    {
        match self {
            LoneList::Shaped(one) => Some(one.known()),
            LoneList::Cut(_) => None,
        }
    }
}

/// A signature of a message: the list with its tag, and its bytes.
#[derive(Drop)]
pub(crate) struct LoneSignature {
    pub held: LoneList,
    pub bytes: Bytes,
}

fn find_tagged<'a>(alloc: Global, input: &'a [u8], tag: &[u8]) -> Result<Matched<'a>, SigFault>
    ensures ok { IfOk result (λ found. (d : List (List ℕ × MemberValue)) × (dictionary_of input.now ≡ Some d) × Tells (codes "tag") tag.now found d) }
    ensures err { IfErr result (λ e. Fails e (need NotAField (dictionary_of input.now))) }
{
    match matching_list(alloc, input, b"tag", tag) {
        Ok(found) => Ok(found),
        Err(FieldFault::NotInGrammar) => Err(SigFault::NotAField),
        Err(FieldFault::OutOfMemory) => Err(SigFault::OutOfMemory),
    }
}

fn bytes_in(bare: Option<Bare>) -> Option<Bytes>
    ensures { result ≡ bytes_in bare }
{
    match bare {
        Some(Bare::Binary(bytes)) => Some(bytes),
        _ => None,
    }
}

fn bytes_under(alloc: Global, signature: &[u8], label: &[u8]) -> Result<Option<Bytes>, SigFault>
    ensures { Gives (λ o. o) result (need NotAField (option_map (signature_under label.now) (dictionary_of signature.now))) }
{
    match single_under(alloc, signature, label) {
        Ok(bare) => Ok(bytes_in(bare)),
        Err(FieldFault::NotInGrammar) => Err(SigFault::NotAField),
        Err(FieldFault::OutOfMemory) => Err(SigFault::OutOfMemory),
    }
}

fn formed(held: LoneList, bytes: Option<Bytes>) -> Result<LoneSignature, SigFault>
    ensures { (label : List ℕ) → Gives (lone_seen label) result (formed label (list_in held) bytes) }
{
    must(SigFault::Malformed, is_well_formed(held.list()))?;
    match bytes {
        Some(bytes) => Ok(LoneSignature { held, bytes }),
        None => Err(SigFault::Malformed),
    }
}

// The signature of a list with the tag that is in canonical text.
fn shaped_signature(
    alloc: Global,
    one: ShapedList,
    signature: &[u8],
    tag: &[u8],
) -> Result<LoneSignature, SigFault>
    requires { holds_string tag.now (value_at one.list.params (codes "tag")) ≡ true }
    ensures ok { IfOk result (IsLone (read_tagged one.text signature.now tag.now)) }
    ensures err { IfErr result (λ e. Fails e (read_tagged one.text signature.now tag.now)) }
{
    let bytes = bytes_under(alloc, signature, one.label())?;
    let lone = formed(LoneList::Shaped(one), bytes)?;
    Ok(lone)
}

// The same of a list in any text.
fn found_by_members(
    alloc: Global,
    input: &[u8],
    signature: &[u8],
    tag: &[u8],
) -> Result<Option<LoneSignature>, SigFault>
    ensures ok { IfOk result (λ o. IfSome o (IsLone (read_tagged input.now signature.now tag.now))) }
    ensures err { IfErr result (λ e. Fails e (read_tagged input.now signature.now tag.now)) }
{
    let found = find_tagged(alloc, input, tag)?;
    match found {
        Matched::Unsettled => Ok(None),
        Matched::Nowhere => {
            bytes_under(alloc, signature, b"")?;
            Err(SigFault::NoTag)
        }
        Matched::Once(MatchedList { key, strings }) => match strings {
            None => {
                bytes_under(alloc, signature, key)?;
                Err(SigFault::Malformed)
            }
            Some(list) => {
                let bytes = bytes_under(alloc, signature, key)?;
                let lone = formed(LoneList::Cut(list), bytes)?;
                Ok(Some(lone))
            }
        },
    }
}

fn lone_in(
    alloc: Global,
    known: Option<ShapedList>,
    input: &[u8],
    signature: &[u8],
    tag: &[u8],
) -> Result<Option<LoneSignature>, SigFault>
    ensures ok { IfOk result (λ o. IfSome o (IsLone (read_tagged input.now signature.now tag.now))) }
    ensures err { IfErr result (λ e. Fails e (read_tagged input.now signature.now tag.now)) }
{
    if let Some(one) = shaped_list(alloc, known, input) {
        if holds_string(tag, one.list.params.get(b"tag")) {
            let lone = shaped_signature(alloc, one, signature, tag)?;
            return Ok(Some(lone));
        }
    }
    found_by_members(alloc, input, signature, tag)
}

/// What is held of the one signature with the tag, where the members of the two fields settle it without a dictionary; else None. Of a list that has the shape
/// of the known one the parameters alone are read, and of the same text nothing.
///
/// Errors: those of `signature_fields` and `tagged`. OutOfMemory may come in place of any answer.
pub(crate) fn lone_signature(
    alloc: Global,
    known: Option<ShapedList>,
    message: &Message,
    tag: &[u8],
) -> Result<Option<LoneSignature>, SigFault>
    ensures ok { IfOk result (λ o. IfSome o (IsLone (tagged message.now tag.now))) }
    ensures err { IfErr result (λ e. Fails e (tagged message.now tag.now)) }
{
    let input = value_of(alloc, message, b"signature-input")?;
    let signature = value_of(alloc, message, b"signature")?;
    lone_in(alloc, known, input.as_slice(), signature.as_slice(), tag)
}
