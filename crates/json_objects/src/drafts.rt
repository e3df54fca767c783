//! Objects that are made member by member, and what stands in them.
ghost use Rattle.std.specs.Prelude.{◌≡◌, IfOk, Some, Option, option_map};
ghost use Rattle.serde_json.specs.Data.{Data, Members, no_members, no_items, item, string, array, object};
ghost use Rattle.serde_json.specs.View.{view, members_view};
ghost use Rattle.json_objects.specs.Objects.{with_member};
ghost use Rattle.json_objects.specs.Drafts.{HasMembers};

use crate::values::put;
use bytes_and_lists::memory::Mem;
use serde_json::{Map, Value};
use std::alloc::Global;

/// The members of an object so far, or that memory ran out. Members come in any order; the last one of a name counts.
#[derive(Drop)]
pub struct Draft {
    alloc: Global,
    members: Result<Map<String, Value>, Mem>,
}

fn with_member(
    alloc: Global,
    members: Result<Map<String, Value>, Mem>,
    name: &str,
    value: Result<Option<Value>, Mem>,
) -> Result<Map<String, Value>, Mem>
    ensures { (ms : Members) (d : Option Data) → IfOk value (λ v. option_map view v ≡ d) → IfOk members (λ m. members_view m.entries ≡ ms)
        → IfOk result (λ m. members_view m.entries ≡ with_member name.now d ms) }
{
    let mut members = members?;
    put(&mut members, alloc, name, value?)?;
    Ok(members)
}

fn present(value: Result<Value, Mem>) -> Result<Option<Value>, Mem>
    ensures { (d : Data) → IfOk value (λ v. view v ≡ d) → IfOk result (λ v. option_map view v ≡ Some d) }
{
    Ok(Some(value?))
}

impl Draft {
    /// Without members.
    pub fn new(alloc: Global) -> Draft
        ensures { HasMembers result no_members }
    {
        Draft {
            alloc,
            members: Ok(Map::new(alloc)),
        }
    }

    /// With these members to begin with, if there was memory for them.
    pub fn over(alloc: Global, members: Result<Map<String, Value>, Mem>) -> Draft
        ensures { (ms : Members) → IfOk members (λ m. members_view m.entries ≡ ms) → HasMembers result ms }
    {
        Draft { alloc, members }
    }

    /// With one more member, where there is a value for it.
    pub fn with_optional(self, name: &str, value: Result<Option<Value>, Mem>) -> Draft
        ensures { (ms : Members) (d : Option Data) → IfOk value (λ v. option_map view v ≡ d) → HasMembers self ms
            → HasMembers result (with_member name.now d ms) }
    {
        Draft {
            alloc: self.alloc,
            members: with_member(self.alloc, self.members, name, value),
        }
    }

    /// With one more member.
    pub fn with(self, name: &str, value: Result<Value, Mem>) -> Draft
        ensures { (ms : Members) (d : Data) → IfOk value (λ v. view v ≡ d) → HasMembers self ms
            → HasMembers result (with_member name.now (Some d) ms) }
    {
        self.with_optional(name, present(value))
    }

    /// The object, with its members in the ascending byte order of their names.
    pub fn value(self) -> Result<Value, Mem>
        ensures { (ms : Members) → HasMembers self ms → IfOk result (λ v. view v ≡ object ms) }
    {
        Ok(Value::Object(self.members?))
    }
}

/// A JSON string of the word.
pub fn word_value(alloc: Global, word: &str) -> Result<Value, Mem>
    ensures { IfOk result (λ v. view v ≡ string word.now) }
{
    Ok(Value::try_from_str(alloc, word)?)
}

/// The JSON array of this item alone.
pub fn lone_value(alloc: Global, value: Value) -> Result<Value, Mem>
    ensures { IfOk result (λ v. view v ≡ array (item (view value) no_items)) }
{
    let mut items = Vec::new(alloc);
    items.push(value)?;
    Ok(Value::Array(items))
}
