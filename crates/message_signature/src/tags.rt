//! The signature of a message with a tag (RFC 9421, sections 4.1 and 4.2).
ghost use Rattle.std.specs.Prelude.{◌≡◌};
ghost use Rattle.std.specs.Option.{option_copied};
ghost use Rattle.structured_fields.specs.Reading.{dictionary_of};
ghost use Rattle.structured_fields.specs.Strings.{is_any_string, are_strings};
ghost use Rattle.message_signature.specs.declared.fault.SigFault.TheVariants.{NoField, NotAField};
ghost use Rattle.message_signature.specs.Components.{field_value, text_of};
ghost use Rattle.message_signature.specs.Faults.{Gives, need, must};
ghost use Rattle.message_signature.specs.Seen.{signature_seen};
ghost use Rattle.message_signature.specs.Verified.{tagged_list, with_tag, only_one, signature_under, is_integer, absent_or, is_well_formed, signature_fields, tagged_in};

use crate::components::{FieldValue, field_value};
use crate::fault::SigFault;
use bytes_and_lists::bytes::Bytes;
use bytes_and_lists::message::Message;
use dictionary_lookup::holds_string;
use std::alloc::Global;
use structured_fields::{
    Bare, Dictionary, FieldFault, InnerList, Item, Items, Member, is_any_string, read_dictionary,
};

/// The two fields of a message's signatures, as dictionaries.
#[derive(Drop)]
pub struct SignatureFields {
    /// The field `Signature-Input`: under each label the covered components with their parameters.
    pub inputs: Dictionary,
    /// The field `Signature`: under each label the bytes.
    pub signatures: Dictionary,
}

/// The one signature with a tag, as it stands in the two fields.
#[derive(Clone, Copy)]
pub struct TaggedSignature<'a> {
    pub label: &'a Bytes,
    /// The covered components with the signature's parameters.
    pub list: &'a InnerList,
    pub bytes: &'a Bytes,
}

// ---- the two fields

pub(crate) fn value_of<'a>(
    alloc: Global,
    message: &'a Message,
    name: &[u8],
) -> Result<FieldValue<'a>, SigFault>
    ensures { Gives text_of result (need NoField (field_value name.now message.now.fields)) }
{
    match field_value(alloc, &message.fields, name)? {
        Some(value) => Ok(value),
        None => Err(SigFault::NoField),
    }
}

pub(crate) fn dictionary_of(alloc: Global, text: &[u8]) -> Result<Dictionary, SigFault>
    ensures { Gives (λ d. d) result (need NotAField (dictionary_of text.now)) }
{
    match read_dictionary(alloc, text) {
        Ok(dictionary) => Ok(dictionary),
        Err(FieldFault::NotInGrammar) => Err(SigFault::NotAField),
        Err(FieldFault::OutOfMemory) => Err(SigFault::OutOfMemory),
    }
}

/// The two fields of a message's signatures.
///
/// Errors: NoField exactly where one of them isn't there, and else NotAField exactly where one is no dictionary. OutOfMemory may come in place of any answer.
pub fn signature_fields(alloc: Global, message: &Message) -> Result<SignatureFields, SigFault>
    ensures { Gives (λ fields. fields) result (signature_fields message.now) }
{
    let input = value_of(alloc, message, b"signature-input")?;
    let signature = value_of(alloc, message, b"signature")?;
    let inputs = dictionary_of(alloc, input.as_slice())?;
    let signatures = dictionary_of(alloc, signature.as_slice())?;
    Ok(SignatureFields { inputs, signatures })
}

// ---- the signature with the tag

fn tagged_list<'a>(tag: &[u8], member: &'a Member) -> Option<&'a InnerList>
    ensures { option_copied result ≡ tagged_list tag.now member.now }
{
    match member {
        Member::Inner(list) if holds_string(tag, list.params.get(b"tag")) => Some(list),
        _ => None,
    }
}

pub(crate) fn only_one<'a>(
    tag: &[u8],
    inputs: &'a Dictionary,
) -> Result<(&'a Bytes, &'a InnerList), SigFault>
    ensures { Gives (λ x. (x.0.now, x.1.now)) result (only_one (with_tag tag.now inputs.now)) }
{
    let mut found = None;
    for i in 0..inputs.len() {
        let (label, member) = inputs.at(i);
        if let Some(list) = tagged_list(tag, member) {
            if found.is_some() {
                return Err(SigFault::SeveralTags);
            }
            found = Some((label, list));
        }
    }
    found.ok_or(SigFault::NoTag)
}

fn signature_under<'a>(label: &[u8], signatures: &'a Dictionary) -> Option<&'a Bytes>
    ensures { option_copied result ≡ signature_under label.now signatures.now }
{
    match signatures.get(label) {
        Some(
            Member::Item(
                Item {
                    bare: Bare::Binary(bytes),
                    ..
                },
            ),
        ) => Some(bytes),
        _ => None,
    }
}

fn are_strings(items: &Items) -> bool
    ensures { result ≡ are_strings items.now }
{
    items
        .as_slice()
        .iter()
        .all(|item| is_any_string(&item.bare))
}

fn is_absent_or_integer(v: Option<&Bare>) -> bool
    ensures { result ≡ absent_or is_integer (option_copied v.entry) }
{
    matches!(v, None | Some(Bare::Integer(_)))
}

fn is_absent_or_string(v: Option<&Bare>) -> bool
    ensures { result ≡ absent_or is_any_string (option_copied v.entry) }
{
    matches!(v, None | Some(Bare::Str(_)))
}

pub(crate) fn is_well_formed(list: &InnerList) -> bool
    ensures { result ≡ is_well_formed list.now }
{
    are_strings(&list.items)
        && is_absent_or_integer(list.params.get(b"created"))
        && is_absent_or_integer(list.params.get(b"expires"))
        && is_absent_or_string(list.params.get(b"keyid"))
        && is_absent_or_string(list.params.get(b"alg"))
}

pub(crate) fn must(fault: SigFault, so: bool) -> Result<(), SigFault>
    ensures { result ≡ must fault so }
{
    if so { Ok(()) } else { Err(fault) }
}

/// The one signature with the tag.
///
/// Errors: NoTag and SeveralTags exactly where no inner list has the tag, and where several have it; else Malformed exactly where it covers what is no String,
/// where `created` or `expires` is there and no Integer, or `keyid` or `alg` and no String, or where no byte sequence is under its label.
pub fn tagged<'a>(fields: &'a SignatureFields, tag: &[u8]) -> Result<TaggedSignature<'a>, SigFault>
    ensures { Gives signature_seen result (tagged_in tag.now fields.now) }
{
    let (label, list) = only_one(tag, &fields.inputs)?;
    must(SigFault::Malformed, is_well_formed(list))?;
    match signature_under(label.as_slice(), &fields.signatures) {
        Some(bytes) => Ok(TaggedSignature { label, list, bytes }),
        None => Err(SigFault::Malformed),
    }
}
