//! The components of a signature that covers another one (RFC 9421, section 2): members of the two fields of signatures are among them (section 2.1.2).
ghost use Rattle.std.specs.Prelude.{◌≡◌, ◌++◌, Some, if◌then◌else◌, codes, option_map};
ghost use Rattle.std.specs.List.{list_any};
ghost use Rattle.std.specs.Option.{option_copied};
ghost use Rattle.std.specs.Str.{bytes_eq};
ghost use Rattle.structured_fields.specs.Canonical.{member_text};
ghost use Rattle.structured_fields.specs.Named.{value_at};
ghost use Rattle.structured_fields.specs.Strings.{string_in};
ghost use Rattle.message_signature.specs.Faults.{GivesBase};
ghost use Rattle.rotation_checks.specs.RotationBase.{key_in, label_in, is_same_label, is_component, plain_value, value_of};

use bytes_and_lists::bytes::Bytes;
use bytes_and_lists::message::Message;
use message_signature::{BaseFault, SignatureFields, append_component};
use std::alloc::Global;
use structured_fields::{Bare, Dictionary, Item, Member, Params, append_inner, append_item};

/// The text of a String.
pub(crate) fn string_of(bare: &Bare) -> Option<&Bytes>
    ensures { option_copied result ≡ string_in bare.now }
{
    match bare {
        Bare::Str(text) => Some(text),
        _ => None,
    }
}

fn key_in(params: &Params) -> Option<&Bytes>
    ensures { option_copied result ≡ key_in params.now }
{
    if params.len() != 1 {
        return None;
    }
    match params.get(b"key") {
        Some(Bare::Str(label)) => Some(label),
        _ => None,
    }
}

/// The label of the member that a component with this name and these parameters names.
pub(crate) fn label_in<'a>(name: &[u8], params: &'a Params) -> Option<&'a Bytes>
    ensures { option_copied result ≡ label_in name.now params.now }
{
    if name == b"signature".as_slice() || name == b"signature-input".as_slice() {
        key_in(params)
    } else {
        None
    }
}

fn is_same_label(a: Option<&Bytes>, b: Option<&Bytes>) -> bool
    ensures { result ≡ is_same_label (option_copied a.entry) (option_copied b.entry) }
{
    match (a, b) {
        (Some(a), Some(b)) => a.as_slice() == b.as_slice(),
        (None, None) => true,
        _ => false,
    }
}

/// Whether the item is the component with this name, and names the member under this label or none.
pub(crate) fn is_component(name: &[u8], label: Option<&Bytes>, item: &Item) -> bool
    ensures { result ≡ is_component name.now (option_copied label.entry) item.now }
{
    match &item.bare {
        Bare::Str(other) => {
            other.as_slice() == name
                && is_same_label(label, label_in(other.as_slice(), &item.params))
        }
        _ => false,
    }
}

/// Whether one of the items is that component.
pub(crate) fn is_among(name: &[u8], label: Option<&Bytes>, items: &[Item]) -> bool
    ensures { result ≡ list_any (is_component name.now (option_copied label.entry)) items.now }
{
    items.iter().any(|item| is_component(name, label, item))
}

// The text with the canonical text of a member behind it. Unsupported exactly where there is none.
fn append_member(
    alloc: Global,
    text: Bytes,
    members: &Dictionary,
    label: &[u8],
) -> Result<Bytes, BaseFault>
    ensures { GivesBase (λ b. b) result (option_map (λ member. text ++ member_text member) (value_at members.now label.now)) }
{
    match members.get(label) {
        Some(Member::Item(item)) => Ok(append_item(alloc, text, item)?),
        Some(Member::Inner(list)) => Ok(append_inner(alloc, text, list)?),
        None => Err(BaseFault::Unsupported),
    }
}

// The text with the value of a component without parameters behind it. Unsupported exactly where it has parameters, or isn't there.
fn append_plain(
    alloc: Global,
    text: Bytes,
    message: &Message,
    base: &Bytes,
    name: &[u8],
    params: &Params,
) -> Result<Bytes, BaseFault>
    ensures { GivesBase (λ b. b) result (option_map (λ v. text ++ v) (plain_value message.now base.now name.now params.now)) }
{
    if params.len() > 0 {
        return Err(BaseFault::Unsupported);
    }
    append_component(alloc, text, message, base, name)
}

// The field that has a member of this name.
fn members_named<'a>(name: &[u8], fields: &'a SignatureFields) -> &'a Dictionary
    ensures { result.now ≡ (if bytes_eq name.now (codes "signature") then fields.now.signatures else fields.now.inputs) }
{
    if name == b"signature".as_slice() {
        &fields.signatures
    } else {
        &fields.inputs
    }
}

/// The text with the value of a component behind it, where the two fields of signatures have these members. Unsupported exactly where it has none.
pub(crate) fn append_value(
    alloc: Global,
    text: Bytes,
    message: &Message,
    base: &Bytes,
    fields: &SignatureFields,
    name: &[u8],
    params: &Params,
) -> Result<Bytes, BaseFault>
    ensures { GivesBase (λ b. b) result (option_map (λ v. text ++ v) (value_of message.now base.now fields.now name.now params.now)) }
{
    match label_in(name, params) {
        Some(label) => append_member(alloc, text, members_named(name, fields), label.as_slice()),
        None => append_plain(alloc, text, message, base, name, params),
    }
}
