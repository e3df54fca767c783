//! Members of a reply's objects.
ghost use Rattle.std.specs.Prelude.{◌≡◌, ◌==◌, if◌then◌else◌, length, Some, None, IfOk, option_map};
ghost use Rattle.serde_json.specs.Find.{as_str};
ghost use Rattle.serde_json.specs.View.{view, items_view};
ghost use Rattle.json_objects.specs.Bodies.{IsBody};
ghost use Rattle.json_objects.specs.Reading.{Gives};
ghost use Rattle.reply_readers.specs.declared.members.FormFault.TheVariants.{OutOfMemory};
ghost use Rattle.reply_readers.specs.Members.{Tells, tested, needed_text, needed_number, optional_text, is_value, is_drawn, needed_drawn, needed_rights, bearer_of, is_bearer_text, is_bearer_only, is_bearer_list};

use crate::values::{all_value_bytes, is_value};
use access_rights::{RightsFault, read_rights};
use bytes_and_lists::bytes::Bytes;
use bytes_and_lists::memory::Mem;
use gnap_model::rights::Rights;
use json_objects::member;
use serde_json::Value;
use std::alloc::Global;

/// Why a value isn't read.
#[derive(Clone, Copy)]
pub(crate) enum FormFault {
    NotOfForm,
    OutOfMemory,
}

impl From<Mem> for FormFault {
    ghost from_gives = { λ _ e. e ≡ OutOfMemory };

    fn from(_e: Mem) -> FormFault {
        FormFault::OutOfMemory
    }
}

// The text, where it isn't kept.
pub(crate) fn needed_str<'v>(value: &'v Value, name: &str) -> Option<&'v str>
    ensures { Tells (λ s. s.now) result (needed_text name.now (view value.now)) }
{
    member(value, name)?.as_str()
}

pub(crate) fn optional_str<'v>(value: &'v Value, name: &str) -> Option<Option<&'v str>>
    ensures { Tells (option_map (λ s. s.now)) result (optional_text name.now (view value.now)) }
{
    match member(value, name) {
        None => Some(None),
        Some(member) => Some(Some(member.as_str()?)),
    }
}

pub(crate) fn needed_number(value: &Value, name: &str) -> Option<u64>
    ensures { Tells (λ n. n) result (needed_number name.now (view value.now)) }
{
    member(value, name)?.as_u64()
}

pub(crate) fn copied(alloc: Global, text: &str) -> Result<Bytes, Mem>
    ensures { IfOk result (λ b. b ≡ text.now) }
{
    Bytes::from_slice(alloc, text.as_bytes())
}

pub(crate) fn optional_copied(alloc: Global, text: Option<&str>) -> Result<Option<Bytes>, Mem>
    ensures { IfOk result (λ b. b ≡ option_map (λ s. s.now) text.entry) }
{
    match text {
        None => Ok(None),
        Some(text) => Ok(Some(copied(alloc, text)?)),
    }
}

pub(crate) fn checked_value(text: &str) -> Option<&str>
    ensures { Tells (λ s. s.now) result (tested is_value text.now) }
{
    if is_value(text.as_bytes()) {
        Some(text)
    } else {
        None
    }
}

fn array_of(text: &[u8]) -> Option<[u8; 32]>
    ensures { result ≡ (if length text.now == 32 then Some text.now else None) }
{
    match <[u8; 32]>::try_from(text) {
        Ok(array) => Some(array),
        Err(_) => None,
    }
}

fn checked_drawn(text: &str) -> Option<[u8; 32]>
    ensures { Tells (λ b. b) result (tested is_drawn text.now) }
{
    if all_value_bytes(text.as_bytes()) {
        array_of(text.as_bytes())
    } else {
        None
    }
}

// An access token's value or management value.
pub(crate) fn needed_drawn(value: &Value, name: &str) -> Option<[u8; 32]>
    ensures { Tells (λ b. b) result (needed_drawn name.now (view value.now)) }
{
    checked_drawn(needed_str(value, name)?)
}

pub(crate) fn needed_rights(alloc: Global, value: &Value, name: &str) -> Result<Rights, FormFault>
    requires { IsBody (view value.now) }
    ensures { Gives OutOfMemory (λ r. r) result (needed_rights name.now (view value.now)) }
{
    let Some(member) = member(value, name) else {
        return Err(FormFault::NotOfForm);
    };
    match read_rights(alloc, member) {
        Ok(rights) => Ok(rights),
        Err(RightsFault::Wrong) => Err(FormFault::NotOfForm),
        Err(RightsFault::TooMany) => Err(FormFault::NotOfForm),
        Err(RightsFault::OutOfMemory) => Err(FormFault::OutOfMemory),
    }
}

fn is_bearer_text(value: &Value) -> bool
    ensures { result ≡ is_bearer_text (as_str (view value.now)) }
{
    match value.as_str() {
        Some(text) => text == "bearer",
        None => false,
    }
}

#[tactic(auto, using(crate::proofs::Arrays::not_bearer))]
fn is_bearer_only(items: &Vec<Value>) -> bool
    ensures { result ≡ is_bearer_only (Some (items_view items.now.items)) }
{
    match items.as_slice() {
        [] => false,
        [item] => is_bearer_text(item),
        [_, _, ..] => false,
    }
}

fn is_bearer_list(value: &Value) -> bool
    ensures { result ≡ is_bearer_list (view value.now) }
{
    match value.as_array() {
        Some(items) => is_bearer_only(items),
        None => false,
    }
}

pub(crate) fn bearer_of(value: &Value) -> Option<bool>
    ensures { Tells (λ b. b) result (bearer_of (view value.now)) }
{
    match member(value, "flags") {
        None => Some(false),
        Some(flags) => if is_bearer_list(flags) {
            Some(true)
        } else {
            None
        },
    }
}
