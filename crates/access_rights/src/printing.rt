//! Rights as JSON (RFC 9635, section 8).
ghost use Rattle.std.specs.Prelude.{◌≡◌, ◌++◌, IfOk, OnOk, OnErr, length, option_map, map, take};
ghost use Rattle.std.specs.List.{AllByRecursion};
ghost use Rattle.serde_json.specs.Data.{object};
ghost use Rattle.serde_json.specs.Read.{read};
ghost use Rattle.serde_json.specs.View.{view, members_view};
ghost use Rattle.json_objects.specs.Objects.{texts_data};
ghost use Rattle.json_objects.specs.Texts.{AreUtf8};
ghost use Rattle.access_rights.specs.Fits.{IsFurther, FitsObject, Fits};
ghost use Rattle.access_rights.specs.Printing.{members_read, right_members, right_data, rights_data};

use bytes_and_lists::bytes::Bytes;
use bytes_and_lists::memory::Mem;
use gnap_model::rights::{Right, RightObject, Rights, Texts};
use json_objects::{Draft, optional_value, text_value, texts_value};
use serde_json::{Map, Value};
use std::alloc::Global;

fn dimension_value(alloc: Global, dimension: &Option<Texts>) -> Result<Option<Value>, Mem>
    requires { AreUtf8 dimension.now }
    ensures { IfOk result (λ v. option_map view v ≡ option_map texts_data dimension.now) }
{
    match dimension {
        None => Ok(None),
        Some(texts) => Ok(Some(texts_value(alloc, texts)?)),
    }
}

fn further_members(alloc: Global, text: &Bytes) -> Result<Map<String, Value>, Mem>
    requires { IsFurther text.now }
    ensures { IfOk result (λ m. members_view m.entries ≡ members_read (read text.now)) }
{
    // Most rights have none, and reading a text takes room first.
    if text.as_slice() == b"{}".as_slice() {
        return Ok(Map::new(alloc));
    }
    let value = match Value::from_slice(alloc, text.as_slice()) {
        Ok(value) => value,
        Err(e) => if e.is_memory() {
            return Err(Mem);
        } else {
            unreachable!()
        },
    };
    match value {
        Value::Object(members) => Ok(members),
        _ => unreachable!(),
    }
}

#[tactic(auto, unfolding(crate::specs::Printing::right_members))]
fn object_value(alloc: Global, right: &RightObject) -> Result<Value, Mem>
    requires { FitsObject right.now }
    ensures { IfOk result (λ v. view v ≡ object (right_members right.now)) }
{
    Draft::over(alloc, further_members(alloc, &right.further))
        .with_optional("identifier", optional_value(alloc, &right.identifier))
        .with_optional("privileges", dimension_value(alloc, &right.privileges))
        .with_optional("datatypes", dimension_value(alloc, &right.datatypes))
        .with_optional("locations", dimension_value(alloc, &right.locations))
        .with_optional("actions", dimension_value(alloc, &right.actions))
        .with("type", text_value(alloc, right.kind.as_slice()))
        .value()
}

fn right_value(alloc: Global, right: &Right) -> Result<Value, Mem>
    requires { Fits right.now }
    ensures { IfOk result (λ v. view v ≡ right_data right.now) }
{
    match right {
        Right::Reference(text) => text_value(alloc, text.as_slice()),
        Right::Object(right) => object_value(alloc, right.get()),
    }
}

/// Appends the JSON values of the rights. At an `Err` some of them may stand behind those that were there.
#[tactic(auto, using(crate::proofs::Kept::all_kept, crate::proofs::Kept::kept_behind))]
pub fn push_rights(alloc: Global, items: &mut Vec<Value>, rights: &Rights) -> Result<(), Mem>
    requires { AllByRecursion Fits rights.now }
    ensures ok { OnOk result (map view items.new.items
        ≡ map view items.old.items ++ map right_data rights.now) }
    ensures err { OnErr result (take (length items.old.items) items.new.items ≡ items.old.items) }
{
    for right in rights.as_slice() {
        items.push(right_value(alloc, right)?)?;
    }
    Ok(())
}

/// The JSON array of the rights.
pub fn rights_value(alloc: Global, rights: &Rights) -> Result<Value, Mem>
    requires { AllByRecursion Fits rights.now }
    ensures { IfOk result (λ v. view v ≡ rights_data rights.now) }
{
    let mut items = Vec::new(alloc);
    push_rights(alloc, &mut items, rights)?;
    Ok(Value::Array(items))
}
