//! JSON values, made of texts and members, and their compact text.
ghost use Rattle.std.specs.Prelude.{◌≡◌, IfOk, OnOk, OnErr, IsUtf8, option_map, false};
ghost use Rattle.std.specs.List.{AllByRecursion};
ghost use Rattle.serde_json.specs.Data.{string};
ghost use Rattle.serde_json.specs.View.{view, members_view};
ghost use Rattle.serde_json.specs.Written.{compact_text, has_float};
ghost use Rattle.json_objects.specs.Objects.{with_member, texts_data};
ghost use Rattle.json_objects.specs.Texts.{IsUtf8Or};

use bytes_and_lists::bytes::Bytes;
use bytes_and_lists::memory::Mem;
use bytes_and_lists::seq::Seq;
use serde_json::{Map, Value};
use std::alloc::Global;

/// A JSON string of the text.
pub fn text_value(alloc: Global, text: &[u8]) -> Result<Value, Mem>
    requires { IsUtf8 text.now }
    ensures { IfOk result (λ v. view v ≡ string text.now) }
{
    let text = unsafe { str::from_utf8_unchecked(text) };
    Ok(Value::try_from_str(alloc, text)?)
}

/// A JSON string of the text, where there is one.
pub fn optional_value(alloc: Global, text: &Option<Bytes>) -> Result<Option<Value>, Mem>
    requires { IsUtf8Or text.now }
    ensures { IfOk result (λ v. option_map view v ≡ option_map string text.now) }
{
    match text {
        None => Ok(None),
        Some(text) => Ok(Some(text_value(alloc, text.as_slice())?)),
    }
}

/// The JSON array of the texts.
pub fn texts_value(alloc: Global, texts: &Seq<Bytes>) -> Result<Value, Mem>
    requires { AllByRecursion IsUtf8 texts.now }
    ensures { IfOk result (λ v. view v ≡ texts_data texts.now) }
{
    let mut items = Vec::new(alloc);
    for text in texts.as_slice() {
        items.push(text_value(alloc, text.as_slice())?)?;
    }
    Ok(Value::Array(items))
}

/// Places the member in its order, where there is a value. An `Err` changes nothing.
pub fn put(
    map: &mut Map<String, Value>,
    alloc: Global,
    name: &str,
    value: Option<Value>,
) -> Result<(), Mem>
    ensures ok { OnOk result (members_view map.new.entries
        ≡ with_member name.now (option_map view value) (members_view map.old.entries)) }
    ensures err { OnErr result (map.new.entries ≡ map.old.entries) }
{
    if let Some(value) = value {
        serde_json::put(map, alloc, name, value)?;
    }
    Ok(())
}

/// The value's JSON text without white space, with the members of each object in the ascending byte order of their names. No number in it may be a
/// fraction.
pub fn compact_text(alloc: Global, value: &Value) -> Result<Bytes, Mem>
    requires { has_float (view value.now) ≡ false }
    ensures { IfOk result (λ text. text ≡ compact_text (view value.now)) }
{
    Ok(Bytes::from_vec(value.to_vec(alloc)?))
}
