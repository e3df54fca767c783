//! The signature base (RFC 9421, section 2.5).
ghost use Rattle.std.specs.Prelude.{◌≡◌, ◌+◌, ◌<◌, ◌++◌, [], length, drop, Some, IfOk};
ghost use Rattle.std.specs.Option.{option_copied, option_map};
ghost use Rattle.message_signature.specs.Faults.{GivesBase};
ghost use Rattle.message_signature.specs.Base.{is_named, name_of, line_of, covers_too_many, base_lines, params_line, signature_base};

use crate::components::{append_bytes, append_component};
use crate::fault::BaseFault;
use bytes_and_lists::bytes::Bytes;
use bytes_and_lists::memory::Mem;
use bytes_and_lists::message::Message;
use std::alloc::Global;
use structured_fields::{Bare, InnerList, Item, Items, append_inner, append_item, is_string};

pub(crate) fn is_named(name: &[u8], items: &[Item]) -> bool
    ensures { result ≡ is_named name.now items.now }
{
    items.iter().any(|item| is_string(name, &item.bare))
}

pub(crate) fn name_of(item: &Item) -> Option<&Bytes>
    ensures { option_copied result ≡ name_of item.now }
{
    if item.params.len() > 0 {
        return None;
    }
    match &item.bare {
        Bare::Str(name) => Some(name),
        _ => None,
    }
}

fn append_line(
    alloc: Global,
    text: Bytes,
    message: &Message,
    base: &Bytes,
    item: &Item,
    others: &[Item],
) -> Result<Bytes, BaseFault>
    ensures { GivesBase (λ b. b) result (option_map (λ line. text ++ line) (line_of message.now base.now item.now others.now)) }
{
    let Some(name) = name_of(item) else {
        return Err(BaseFault::Unsupported);
    };
    if is_named(name.as_slice(), others) {
        return Err(BaseFault::Unsupported);
    }
    let text = append_item(alloc, text, item)?;
    let text = append_bytes(text, b": ")?;
    let text = append_component(alloc, text, message, base, name.as_slice())?;
    append_bytes(text, b"\n")
}

/// The items behind the i-th.
#[tactic(auto, using(std::proofs::lemmas::List::take_rest))]
pub fn others_behind(items: &Items, i: usize) -> &[Item]
    requires { i < length items.now }
    ensures { result.now ≡ drop (i + 1) items.now }
{
    &items.as_slice()[i + 1..]
}

// About how long the base gets: the lengths of the values that it may name, and of the field that names them once more.
pub(crate) fn room_for(message: &Message, base: &Bytes) -> usize {
    let mut room = message
        .method
        .len()
        .saturating_add(base.len())
        .saturating_add(message.target.len());
    for field in message.fields.as_slice() {
        room = room.saturating_add(field.value.len());
    }
    room
}

// No text, with room for so many bytes.
pub(crate) fn text_with_room(alloc: Global, room: usize) -> Result<Bytes, Mem>
    ensures { IfOk result (λ text. text ≡ []) }
{
    Ok(Bytes::from_vec(Vec::with_capacity(alloc, room)?))
}

fn lines_of(
    alloc: Global,
    message: &Message,
    base: &Bytes,
    items: &Items,
) -> Result<Bytes, BaseFault>
    ensures { GivesBase (λ b. b) result (base_lines message.now base.now items.now) }
{
    let empty = text_with_room(alloc, room_for(message, base))?;
    let mut text = empty;
    for i in 0..items.len() {
        text = append_line(
            alloc,
            text,
            message,
            base,
            items.at(i),
            others_behind(items, i),
        )?;
    }
    Ok(text)
}

/// What the last line of a signature base begins with, before the text of the list (section 2.5).
pub(crate) const PARAMS_LINE: &[u8] = b"\"@signature-params\": ";

/// The text with the last line of a signature base behind it, that of the parameters.
pub fn append_params_line(alloc: Global, text: Bytes, list: &InnerList) -> Result<Bytes, BaseFault>
    ensures { GivesBase (λ b. b) result (Some (text ++ params_line list.now)) }
{
    let text = append_bytes(text, PARAMS_LINE)?;
    Ok(append_inner(alloc, text, list)?)
}

// How many derived components there are (section 2.2).
const DERIVED: usize = 6;

// Whether the list is longer than there are components, so that one is named again or isn't there. To find which one takes a comparison of each item with all
// that stand behind it.
fn covers_too_many(message: &Message, items: &Items) -> bool
    ensures { result ≡ covers_too_many message.now items.now }
{
    items.len().saturating_sub(DERIVED) > message.fields.len()
}

/// The signature base of a message to the server with this base, under a list of covered components (RFC 9421, section 2.5). The base is scheme, `://` and
/// authority, without a `/` at its end.
///
/// Errors: Unsupported exactly where a covered component is no String, has parameters, is named again, isn't lower case or isn't there. OutOfMemory may come in
/// place of any answer.
#[tactic(auto, using(crate::proofs::MostComponents::too_many), unfolding(crate::specs::Base::signature_base))]
pub fn base_of(
    alloc: Global,
    message: &Message,
    base: &Bytes,
    list: &InnerList,
) -> Result<Bytes, BaseFault>
    ensures { GivesBase (λ b. b) result (signature_base message.now base.now list.now) }
{
    if covers_too_many(message, &list.items) {
        return Err(BaseFault::Unsupported);
    }
    let lines = lines_of(alloc, message, base, &list.items)?;
    append_params_line(alloc, lines, list)
}
