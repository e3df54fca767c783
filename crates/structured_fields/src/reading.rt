//! Reading whole texts.
ghost use Rattle.std.specs.Prelude.{◌≡◌, ℕ, List, Some, [], length, IfOk};
ghost use Rattle.std.specs.Option.{option_copied};
ghost use Rattle.structured_fields.specs.Reading.{Gives, member_at, entry_at, next_at, members_from, with_last, with_entry, item_of, list_of, dictionary_of};
ghost use Rattle.structured_fields.specs.Grammar.{IsItemText, IsListText, IsDictionaryText};
ghost use Rattle.structured_fields.specs.Canonical.{IsItemInRange, IsListInRange, IsDictionaryInRange};
ghost use Rattle.structured_fields.specs.declared.item.Item.{Item as ItemValue};
ghost use Rattle.structured_fields.specs.declared.item.Member.{Member as MemberValue};

use crate::fault::FieldFault;
use crate::item;
use crate::item::{Dictionary, Item};
use crate::item_reading::{entry_in, item_in, member_in};
use crate::letters::{without_ows, without_spaces};
use std::alloc::Global;

// Behind a member: where the next one stands, if there is one.
#[tactic(auto, unfolding(crate::specs::Reading::next_at))]
pub fn next_in(bytes: &[u8]) -> Result<Option<&[u8]>, FieldFault>
    ensures { Gives (λ next. option_copied next) result (next_at bytes.now) }
{
    match without_ows(bytes) {
        [] => Ok(None),
        [b',', after @ ..] => Ok(Some(without_ows(after))),
        _ => Err(FieldFault::NotInGrammar),
    }
}

fn members_in(alloc: Global, bytes: &[u8]) -> Result<item::List, FieldFault>
    ensures { Gives (λ x. x) result (members_from member_at with_last (length bytes.now) [] bytes.now) }
{
    let mut members = item::List::new(alloc);
    let mut left = bytes;
    for _ in 0..bytes.len() {
        let (member, rest) = member_in(alloc, left)?;
        members.push(member)?;
        let Some(next) = next_in(rest)? else {
            return Ok(members);
        };
        left = next;
    }
    Err(FieldFault::NotInGrammar)
}

fn entries_in(alloc: Global, bytes: &[u8]) -> Result<Dictionary, FieldFault>
    ensures { Gives (λ x. x) result (members_from entry_at with_entry (length bytes.now) [] bytes.now) }
{
    let mut entries = Dictionary::new(alloc);
    let mut left = bytes;
    for _ in 0..bytes.len() {
        let (name, member, rest) = entry_in(alloc, left)?;
        entries.set(name, member)?;
        let Some(next) = next_in(rest)? else {
            return Ok(entries);
        };
        left = next;
    }
    Err(FieldFault::NotInGrammar)
}

#[tactic(auto, unfolding(crate::specs::Reading::item_of))]
fn whole_item(alloc: Global, text: &[u8]) -> Result<Item, FieldFault>
    ensures { Gives (λ x. x) result (item_of text.now) }
{
    let (item, rest) = item_in(alloc, without_spaces(text))?;
    if !without_spaces(rest).is_empty() {
        return Err(FieldFault::NotInGrammar);
    }
    Ok(item)
}

#[tactic(auto, unfolding(crate::specs::Reading::list_of, crate::specs::Reading::members_of))]
fn whole_list(alloc: Global, text: &[u8]) -> Result<item::List, FieldFault>
    ensures { Gives (λ x. x) result (list_of text.now) }
{
    let bytes = without_spaces(text);
    if bytes.is_empty() {
        return Ok(item::List::new(alloc));
    }
    members_in(alloc, bytes)
}

#[tactic(auto, unfolding(crate::specs::Reading::dictionary_of, crate::specs::Reading::members_of))]
fn whole_dictionary(alloc: Global, text: &[u8]) -> Result<Dictionary, FieldFault>
    ensures { Gives (λ x. x) result (dictionary_of text.now) }
{
    let bytes = without_spaces(text);
    if bytes.is_empty() {
        return Ok(Dictionary::new(alloc));
    }
    entries_in(alloc, bytes)
}

/// Reads an item (RFC 9651, section 4.2.3). NotInGrammar comes exactly where the text has no value.
pub fn read_item(alloc: Global, text: &[u8]) -> Result<Item, FieldFault>
    // What is read is a value of the text.
    ensures found { IfOk result (λ v. IsItemText text.now v) }
    // A value of the text is what is read, unless memory runs out: so there is one at most, and none where it is refused.
    ensures only { (v : ItemValue) → IsItemText text.now v → Gives (λ x. x) result (Some v) }

    ensures range { IfOk result IsItemInRange }
    ensures exact { Gives (λ x. x) result (item_of text.now) }
{
    whole_item(alloc, text)
}

/// Reads a list (RFC 9651, section 4.2.1). NotInGrammar comes exactly where the text has no value.
pub fn read_list(alloc: Global, text: &[u8]) -> Result<item::List, FieldFault>
    // What is read is a value of the text.
    ensures found { IfOk result (λ v. IsListText text.now v) }
    // A value of the text is what is read, unless memory runs out: so there is one at most, and none where it is refused.
    ensures only { (v : List MemberValue) → IsListText text.now v → Gives (λ x. x) result (Some v) }

    ensures range { IfOk result IsListInRange }
    ensures exact { Gives (λ x. x) result (list_of text.now) }
{
    whole_list(alloc, text)
}

/// Reads a dictionary (RFC 9651, section 4.2.2). NotInGrammar comes exactly where the text has no value.
pub fn read_dictionary(alloc: Global, text: &[u8]) -> Result<Dictionary, FieldFault>
    // What is read is a value of the text.
    ensures found { IfOk result (λ v. IsDictionaryText text.now v) }
    // A value of the text is what is read, unless memory runs out: so there is one at most, and none where it is refused.
    ensures only { (v : List (List ℕ × MemberValue)) → IsDictionaryText text.now v → Gives (λ x. x) result (Some v) }

    ensures range { IfOk result IsDictionaryInRange }
    ensures exact { Gives (λ x. x) result (dictionary_of text.now) }
{
    whole_dictionary(alloc, text)
}
