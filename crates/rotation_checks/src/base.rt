//! The base of a signature that covers another one (RFC 9421, section 2.5).
ghost use Rattle.std.specs.Prelude.{◌≡◌, ◌++◌, Some, Ok, option_map};
ghost use Rattle.structured_fields.specs.Canonical.{item_text};
ghost use Rattle.message_signature.specs.Faults.{GivesBase};
ghost use Rattle.message_signature.specs.Verified.{signature_fields};
ghost use Rattle.rotation_checks.specs.RotationBase.{value_of, line_with, rotation_line, rotation_lines, base_with, rotation_base};

use crate::components::{append_value, is_among, label_in, string_of};
use bytes_and_lists::bytes::Bytes;
use bytes_and_lists::message::Message;
use message_signature::{
    BaseFault, SignatureFields, append_bytes, append_params_line, others_behind,
};
use std::alloc::Global;
use structured_fields::{InnerList, Item, Items, append_item};

// The text with the canonical text of the item behind it.
fn append_name(alloc: Global, text: Bytes, item: &Item) -> Result<Bytes, BaseFault>
    ensures { GivesBase (λ b. b) result (Some (text ++ item_text item.now)) }
{
    Ok(append_item(alloc, text, item)?)
}

// The text with the line of a component of this name behind it. Unsupported exactly where it has no value.
fn append_valued(
    alloc: Global,
    text: Bytes,
    message: &Message,
    base: &Bytes,
    fields: &SignatureFields,
    name: &[u8],
    item: &Item,
) -> Result<Bytes, BaseFault>
    ensures { GivesBase (λ b. b) result
        (option_map (λ line. text ++ line) (line_with item.now (value_of message.now base.now fields.now name.now item.now.params))) }
{
    let named = append_name(alloc, text, item)?;
    let parted = append_bytes(named, b": ")?;
    let valued = append_value(alloc, parted, message, base, fields, name, &item.params)?;
    append_bytes(valued, b"\n")
}

fn append_line(
    alloc: Global,
    text: Bytes,
    message: &Message,
    base: &Bytes,
    fields: &SignatureFields,
    item: &Item,
    others: &[Item],
) -> Result<Bytes, BaseFault>
    ensures { GivesBase (λ b. b) result (option_map (λ line. text ++ line) (rotation_line message.now base.now fields.now item.now others.now)) }
{
    let Some(name) = string_of(&item.bare) else {
        return Err(BaseFault::Unsupported);
    };
    let name = name.as_slice();
    if is_among(name, label_in(name, &item.params), others) {
        return Err(BaseFault::Unsupported);
    }
    append_valued(alloc, text, message, base, fields, name, item)
}

fn lines_of(
    alloc: Global,
    message: &Message,
    base: &Bytes,
    fields: &SignatureFields,
    items: &Items,
) -> Result<Bytes, BaseFault>
    ensures { GivesBase (λ b. b) result (rotation_lines message.now base.now fields.now items.now) }
{
    let mut text = Bytes::new(alloc);
    for i in 0..items.len() {
        text = append_line(
            alloc,
            text,
            message,
            base,
            fields,
            items.at(i),
            others_behind(items, i),
        )?;
    }
    Ok(text)
}

/// The signature base of a message to the server with this base, under a list of covered components (RFC 9421, section 2.5), where the two fields of signatures
/// have these members: `signature` and `signature-input` with the one parameter `key`, a String, are the member under that label (section 2.1.2), whose value is
/// its canonical text. The base is scheme, `://` and authority, without a `/` at its end.
///
/// Errors: Unsupported exactly where a covered component is no String, isn't lower case or isn't there, has other parameters, or is named again with the same
/// ones. OutOfMemory may come in place of any answer.
#[tactic(auto, unfolding(crate::specs::RotationBase::base_with))]
pub fn base_with(
    alloc: Global,
    message: &Message,
    base: &Bytes,
    fields: &SignatureFields,
    list: &InnerList,
) -> Result<Bytes, BaseFault>
    ensures { GivesBase (λ b. b) result (base_with message.now base.now fields.now list.now) }
{
    let lines = lines_of(alloc, message, base, fields, &list.items)?;
    append_params_line(alloc, lines, list)
}

/// The same of a message whose two fields were read.
pub fn base_over(
    alloc: Global,
    message: &Message,
    base: &Bytes,
    fields: &SignatureFields,
    list: &InnerList,
) -> Result<Bytes, BaseFault>
    requires { signature_fields message.now ≡ Ok fields.now }
    ensures { GivesBase (λ b. b) result (rotation_base message.now base.now list.now) }
{
    base_with(alloc, message, base, fields, list)
}
