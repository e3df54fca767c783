//! The further members of a right, written as they stand, without a copy of them.
ghost use Rattle.std.specs.Prelude.{◌≡◌, ℕ, List, [], ◌∷◌, ◌++◌, Some, IfOk, OnOk};
ghost use Rattle.json.specs.Token.{number as number_token};
ghost use Rattle.serde_json.specs.Data.{object};
ghost use Rattle.serde_json.specs.Read.{number_of};
ghost use Rattle.serde_json.specs.View.{view, number_view, items_view, members_view};
ghost use Rattle.serde_json.specs.Written.{number_text, unless_float, WritesValue, WritesItems, WritesMembers};
ghost use Rattle.json_objects.specs.Bodies.{IsBody};
ghost use Rattle.access_rights.specs.Fits.{is_own, IsFurther};
ghost use Rattle.access_rights.specs.Reading.{others, further_of};

use bytes_and_lists::bytes::Bytes;
use bytes_and_lists::memory::Mem;
use json::Writer;
use serde_json::{Map, Number, Value};
use std::alloc::{AllocError, Global};

fn write_number(number: &Number, out: &mut Writer) -> Result<(), AllocError>
    ensures ok { OnOk result ((s : List ℕ)
        × (out.new.tokens ≡ out.old.tokens ++ number_token s ∷ [])
        × (number_of s ≡ Some (number_view number.now))
        × (unless_float s ≡ number_text (number_view number.now))) }
    ensures before { out.new.before ≡ out.old.before }
{
    if let Some(n) = number.as_u64() {
        return out.u64(n);
    }
    if let Some(n) = number.as_i64() {
        return out.i64(n);
    }
    match number.as_f64() {
        Some(x) => out.float_with_plus(x),
        None => unreachable!(),
    }
}

#[cycle(writing)]
fn write_value(value: &Value, out: &mut Writer) -> Result<(), AllocError>
    ensures ok { OnOk result (WritesValue (view value.now) out.old.tokens out.new.tokens) }
    ensures before { out.new.before ≡ out.old.before }
{
    match value {
        Value::Null => out.null(),
        Value::Bool(b) => out.boolean(*b),
        Value::Number(n) => write_number(n, out),
        Value::String(text) => out.string(text.as_str()),
        Value::Array(items) => {
            out.begin_array()?;
            write_items(items, out)
        }
        Value::Object(members) => {
            out.begin_object()?;
            write_members(members, out)
        }
    }
}

// The items, and the bracket behind them.
#[cycle(writing)]
fn write_items(items: &Vec<Value>, out: &mut Writer) -> Result<(), AllocError>
    ensures ok { OnOk result (WritesItems (items_view items.now.items) out.old.tokens out.new.tokens) }
    ensures before { out.new.before ≡ out.old.before }
{
    for item in items {
        write_value(item, out)?;
    }
    out.end_array()
}

// The members, and the brace behind them.
#[cycle(writing)]
fn write_members(members: &Map<String, Value>, out: &mut Writer) -> Result<(), AllocError>
    ensures ok { OnOk result (WritesMembers (members_view members.now.entries) out.old.tokens out.new.tokens) }
    ensures before { out.new.before ≡ out.old.before }
{
    for (key, member) in members.iter() {
        out.key(key.as_str())?;
        write_value(member, out)?;
    }
    out.end_object()
}

#[tactic(auto, unfolding(crate::specs::Fits::is_own))]
fn is_own(name: &str) -> bool
    ensures { result ≡ is_own name.now }
{
    matches!(
        name,
        "type" | "actions" | "locations" | "datatypes" | "privileges" | "identifier"
    )
}

// The members that no field is for, and the brace behind them.
fn write_others(members: &Map<String, Value>, out: &mut Writer) -> Result<(), AllocError>
    ensures ok { OnOk result (WritesMembers (others (members_view members.now.entries)) out.old.tokens out.new.tokens) }
    ensures before { out.new.before ≡ out.old.before }
{
    for (key, member) in members.iter() {
        if !is_own(key.as_str()) {
            out.key(key.as_str())?;
            write_value(member, out)?;
        }
    }
    out.end_object()
}

/// The compact text of the object of the members that a right has no field for.
pub(crate) fn further_of(alloc: Global, members: &Map<String, Value>) -> Result<Bytes, Mem>
    requires { IsBody (object (members_view members.now.entries)) }
    ensures value { IfOk result (λ b. b ≡ further_of (members_view members.now.entries)) }
    ensures fits { IfOk result IsFurther }
{
    let mut out = Writer::new(Vec::new(alloc));
    out.begin_object()?;
    write_others(members, &mut out)?;
    Ok(Bytes::from_vec(out.into_inner()))
}
