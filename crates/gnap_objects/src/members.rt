//! Members of objects, up to the first fault.
ghost use Rattle.std.specs.Prelude.{◌≡◌, ◌||◌, ℕ, List, IfOk, IsUtf8, map, not, Ok};
ghost use Rattle.std.specs.List.{AllByRecursion};
ghost use Rattle.std.specs.Str.{bytes_eq};
ghost use Rattle.serde_json.specs.View.{view, items_view};
ghost use Rattle.json_objects.specs.Bodies.{IsBody, AreBodies};
ghost use Rattle.json_objects.specs.Reading.{Gives};
ghost use Rattle.json_objects.specs.TextSets.{has_text};
ghost use Rattle.access_rights.specs.Fits.{Fits};
ghost use Rattle.access_rights.specs.Reading.{rights_of};
ghost use Rattle.gnap_objects.specs.declared.fault.ObjectFault.TheVariants.{OutOfMemory};
ghost use Rattle.gnap_objects.specs.Reading.{required, text_of, required_text, required_items, checked, checked_object, has_string, id_of, sized_text, key_name_of, required_key_name, without_others, under, rights_under, counted_rights, is_too_long};

use crate::fault::ObjectFault;
use crate::forms::is_id;
use access_rights::sizes::listed_size;
use access_rights::{RightsFault, read_rights};
use bytes_and_lists::bytes::Bytes;
use gnap_model::rights::Rights;
use json_objects::sizes::enclosed_size;
use json_objects::{TextSet, member, other_member};
use serde_json::Value;
use std::alloc::Global;

/// The member of that name; `Missing` where there is none.
pub fn required<'v>(alloc: Global, value: &'v Value, name: &str) -> Result<&'v Value, ObjectFault>
    ensures value { Gives OutOfMemory (λ v. view v.now) result (required name.now (view value.now)) }
    ensures body { IsBody (view value.now) → IfOk result (λ v. IsBody (view v.now)) }
{
    match member(value, name) {
        Some(member) => Ok(member),
        None => Err(ObjectFault::missing(alloc, name)),
    }
}

pub(crate) fn copied(alloc: Global, text: &str) -> Result<Bytes, ObjectFault>
    ensures value { Gives OutOfMemory (λ b. b) result (Ok text.now) }
    ensures utf8 { IfOk result IsUtf8 }
{
    Ok(Bytes::from_slice(alloc, text.as_bytes())?)
}

// A copy of the text, once it is in the set; `Wrong`, with that name, where it was there before.
pub(crate) fn added_text(
    alloc: Global,
    set: &mut TextSet,
    text: &str,
    name: &str,
) -> Result<Bytes, ObjectFault>
    ensures value { Gives OutOfMemory (λ b. b) result (checked (λ t. not (has_text set.old t)) name.now text.now) }
    ensures added { IfOk result (λ b. (other : List ℕ) → has_text set.new other ≡ (bytes_eq b other || has_text set.old other)) }
    ensures utf8 { IfOk result IsUtf8 }
{
    if set.insert(alloc, text)? {
        copied(alloc, text)
    } else {
        Err(ObjectFault::wrong(alloc, name))
    }
}

// The text where it stands in the value; `Wrong`, with that name, where the value is no string.
#[tactic(auto, unfolding(crate::specs::Reading::text_of))]
fn str_of<'v>(alloc: Global, value: &'v Value, name: &str) -> Result<&'v str, ObjectFault>
    ensures { Gives OutOfMemory (λ s. s.now) result (text_of name.now (view value.now)) }
{
    match value.as_str() {
        Some(text) => Ok(text),
        None => Err(ObjectFault::wrong(alloc, name)),
    }
}

/// The string that the value is; `Wrong`, with that name, where it is none.
pub fn text_of(alloc: Global, value: &Value, name: &str) -> Result<Bytes, ObjectFault>
    ensures value { Gives OutOfMemory (λ b. b) result (text_of name.now (view value.now)) }
    ensures utf8 { IfOk result IsUtf8 }
{
    let text = str_of(alloc, value, name)?;
    copied(alloc, text)
}

// The id where it stands in the value.
#[tactic(auto, unfolding(crate::specs::Reading::id_of, crate::specs::Reading::text_of))]
pub(crate) fn id_str<'v>(
    alloc: Global,
    value: &'v Value,
    name: &str,
) -> Result<&'v str, ObjectFault>
    ensures { Gives OutOfMemory (λ s. s.now) result (id_of name.now (view value.now)) }
{
    match value.as_str() {
        Some(text) if is_id(text.as_bytes()) => Ok(text),
        _ => Err(ObjectFault::wrong(alloc, name)),
    }
}

/// The id that the value is (`forms::is_id`); `Wrong`, with that name, where it is none.
pub fn id_of(alloc: Global, value: &Value, name: &str) -> Result<Bytes, ObjectFault>
    ensures value { Gives OutOfMemory (λ b. b) result (id_of name.now (view value.now)) }
    ensures utf8 { IfOk result IsUtf8 }
{
    let id = id_str(alloc, value, name)?;
    copied(alloc, id)
}

/// The string under the member of that name; `Missing` or `Wrong` where there is none.
#[tactic(auto, unfolding(crate::specs::Reading::required_text))]
pub fn required_text(alloc: Global, value: &Value, name: &str) -> Result<Bytes, ObjectFault>
    ensures value { Gives OutOfMemory (λ b. b) result (required_text name.now (view value.now)) }
    ensures utf8 { IfOk result IsUtf8 }
{
    let member = required(alloc, value, name)?;
    text_of(alloc, member, name)
}

// The text where it stands under the member of that name.
#[tactic(auto, unfolding(crate::specs::Reading::required_text))]
pub(crate) fn required_str<'v>(
    alloc: Global,
    value: &'v Value,
    name: &str,
) -> Result<&'v str, ObjectFault>
    ensures { Gives OutOfMemory (λ s. s.now) result (required_text name.now (view value.now)) }
{
    let member = required(alloc, value, name)?;
    str_of(alloc, member, name)
}

/// The array under the member of that name; `Missing` or `Wrong` where there is none.
pub fn required_items<'v>(
    alloc: Global,
    value: &'v Value,
    name: &str,
) -> Result<&'v Vec<Value>, ObjectFault>
    ensures value { Gives OutOfMemory (λ items. items_view items.now.items) result (required_items name.now (view value.now)) }
    ensures bodies { IsBody (view value.now) → IfOk result (λ items. AreBodies (items_view items.now.items)) }
{
    let member = required(alloc, value, name)?;
    match member.as_array() {
        Some(items) => Ok(items),
        None => Err(ObjectFault::wrong(alloc, name)),
    }
}

pub(crate) fn checked_object<'v>(
    alloc: Global,
    value: &'v Value,
    name: &str,
) -> Result<&'v Value, ObjectFault>
    ensures { Gives OutOfMemory (λ v. view v.now) result (checked_object name.now (view value.now)) }
{
    if value.is_object() {
        Ok(value)
    } else {
        Err(ObjectFault::wrong(alloc, name))
    }
}

// Whether one of the items is this string. All of them have to be strings.
#[tactic(auto, unfolding(crate::specs::Reading::text_of))]
pub(crate) fn has_string(
    alloc: Global,
    items: &Vec<Value>,
    wanted: &str,
    name: &str,
) -> Result<bool, ObjectFault>
    ensures { Gives OutOfMemory (λ b. b) result (has_string name.now wanted.now (items_view items.now.items)) }
{
    let mut found = false;
    for item in items {
        let Some(text) = item.as_str() else {
            return Err(ObjectFault::wrong(alloc, name));
        };
        found |= text == wanted;
    }
    Ok(found)
}

// A text of at least one byte, and at most so many, where it stands in the value.
#[tactic(auto, unfolding(crate::specs::Reading::text_of))]
pub(crate) fn sized_str<'v>(
    alloc: Global,
    value: &'v Value,
    most: usize,
    name: &str,
) -> Result<&'v str, ObjectFault>
    ensures { Gives OutOfMemory (λ s. s.now) result (sized_text most name.now (view value.now)) }
{
    match value.as_str() {
        Some(text) if 0 < text.len() => if most < text.len() {
            Err(ObjectFault::too_many(alloc, name))
        } else {
            Ok(text)
        },
        _ => Err(ObjectFault::wrong(alloc, name)),
    }
}

// A text of at least one byte, and at most so many.
pub(crate) fn sized_text(
    alloc: Global,
    value: &Value,
    most: usize,
    name: &str,
) -> Result<Bytes, ObjectFault>
    ensures value { Gives OutOfMemory (λ s. s) result (sized_text most name.now (view value.now)) }
    ensures utf8 { IfOk result IsUtf8 }
{
    let text = sized_str(alloc, value, most, name)?;
    copied(alloc, text)
}

/// How a request names the key that makes it.
#[derive(Drop)]
pub(crate) struct KeyName {
    pub(crate) id: Bytes,
    /// By an object with the id, and not by the id itself.
    pub(crate) by_object: bool,
}

#[tactic(auto, unfolding(crate::specs::Reading::key_name_of))]
fn key_name_of(alloc: Global, value: &Value, name: &str) -> Result<KeyName, ObjectFault>
    ensures value { Gives OutOfMemory (λ k. k) result (key_name_of name.now (view value.now)) }
    ensures utf8 { IfOk result (λ k. IsUtf8 k.id) }
{
    if value.is_string() {
        return Ok(KeyName {
            id: id_of(alloc, value, name)?,
            by_object: false,
        });
    }
    if !value.is_object() {
        return Err(ObjectFault::wrong(alloc, name));
    }
    let key = required(alloc, value, "key")?;
    Ok(KeyName {
        id: id_of(alloc, key, "key")?,
        by_object: true,
    })
}

// How the member of that name names a key.
pub(crate) fn required_key_name(
    alloc: Global,
    value: &Value,
    name: &str,
) -> Result<KeyName, ObjectFault>
    ensures value { Gives OutOfMemory (λ k. k) result (required_key_name name.now (view value.now)) }
    ensures utf8 { IfOk result (λ k. IsUtf8 k.id) }
{
    let key = required(alloc, value, name)?;
    key_name_of(alloc, key, name)
}

/// What was read, where the object has no members but those of these names; else `Unknown`, with the name of the first other one.
pub fn without_others<T: Drop>(
    alloc: Global,
    value: &Value,
    names: &[&str],
    read: T,
) -> Result<T, ObjectFault>
    ensures value { Gives OutOfMemory (λ x. x) result (without_others (map (λ n. n.now) names.now) (view value.now) read) }
    ensures same { IfOk result (λ x. x ≡ read) }
{
    match other_member(value, names) {
        Some(name) => Err(ObjectFault::unknown(alloc, name)),
        None => Ok(read),
    }
}

/// The rights under the member of that name; `Missing`, `Wrong` or `TooMany`, with that name, where there are none.
#[tactic(auto, unfolding(crate::specs::Reading::rights_under))]
pub fn rights_under(alloc: Global, value: &Value, name: &str) -> Result<Rights, ObjectFault>
    requires { IsBody (view value.now) }
    ensures value { Gives OutOfMemory (λ r. r) result (rights_under name.now (view value.now)) }
    ensures fits { IfOk result (AllByRecursion Fits) }
{
    let rights = required(alloc, value, name)?;
    rights_in(alloc, rights, name)
}

// The rights that the member of that name is.
pub(crate) fn rights_in(alloc: Global, value: &Value, name: &str) -> Result<Rights, ObjectFault>
    requires { IsBody (view value.now) }
    ensures value { Gives OutOfMemory (λ r. r) result (under name.now (rights_of (view value.now))) }
    ensures fits { IfOk result (AllByRecursion Fits) }
{
    match read_rights(alloc, value) {
        Ok(rights) => Ok(rights),
        Err(RightsFault::Wrong) => Err(ObjectFault::wrong(alloc, name)),
        Err(RightsFault::TooMany) => Err(ObjectFault::too_many(alloc, name)),
        Err(RightsFault::OutOfMemory) => Err(ObjectFault::OutOfMemory),
    }
}

// 1 to 16 rights.
pub(crate) fn counted_rights(
    alloc: Global,
    rights: Rights,
    name: &str,
) -> Result<Rights, ObjectFault>
    ensures value { Gives OutOfMemory (λ r. r) result (counted_rights name.now rights) }
    ensures same { IfOk result (λ r. r ≡ rights) }
{
    if rights.len() == 0 {
        return Err(ObjectFault::wrong(alloc, name));
    }
    if 16 < rights.len() {
        return Err(ObjectFault::too_many(alloc, name));
    }
    Ok(rights)
}

// The compact text of the array of the rights has more than 4,096 bytes.
pub(crate) fn is_too_long(rights: &Rights) -> bool
    requires { AllByRecursion Fits rights.now }
    ensures { result ≡ is_too_long rights.now }
{
    4096 < enclosed_size(listed_size(rights))
}
