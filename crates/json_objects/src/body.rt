//! The body of a request.
ghost use Rattle.std.specs.Prelude.{◌≡◌, IfOk};
ghost use Rattle.serde_json.specs.View.{view, items_view, members_view};
ghost use Rattle.serde_json.specs.Written.{has_float, items_have_float, members_have_float};
ghost use Rattle.json_objects.specs.declared.body.BodyFault.TheVariants.{OutOfMemory};
ghost use Rattle.json_objects.specs.Bodies.{IsBody, body_of};
ghost use Rattle.json_objects.specs.Reading.{Gives};

use serde_json::{Map, Value};
use std::alloc::Global;
use thiserror::Error;

/// Why bytes are no body.
#[derive(Clone, Copy, Debug, PartialEq, Eq, Error)]
pub enum BodyFault {
    /// Not one JSON object (RFC 8259) of at most 127 levels, in UTF-8.
    #[error("it isn't one JSON object")]
    NotAnObject,
    /// A number isn't a whole one from -2^63 to 2^64 - 1.
    #[error("a number in it isn't a whole one from -2^63 to 2^64 - 1")]
    Number,
    #[error("memory ran out")]
    OutOfMemory,
}

/// The one JSON object that the bytes are, in which each number is whole. Where a member stands twice, the last one counts, and a number under an
/// earlier one is not looked at.
pub fn read_body(alloc: Global, text: &[u8]) -> Result<Value, BodyFault>
    ensures value { Gives OutOfMemory view result (body_of text.now) }
    ensures body { IfOk result (λ v. IsBody (view v)) }
{
    match Value::from_slice(alloc, text) {
        Ok(value) => {
            if !value.is_object() {
                return Err(BodyFault::NotAnObject);
            }
            if has_fraction(&value) {
                return Err(BodyFault::Number);
            }
            Ok(value)
        }
        Err(e) => if e.is_memory() {
            Err(BodyFault::OutOfMemory)
        } else {
            Err(BodyFault::NotAnObject)
        },
    }
}

/// A number that isn't a whole one from -2^63 to 2^64 - 1 stands anywhere in the value.
#[cycle(fractions)]
pub fn has_fraction(value: &Value) -> bool
    ensures { result ≡ has_float (view value.now) }
{
    match value {
        Value::Null | Value::Bool(_) | Value::String(_) => false,
        Value::Number(n) => n.is_f64(),
        Value::Array(items) => items_have_fraction(items),
        Value::Object(members) => members_have_fraction(members),
    }
}

#[cycle(fractions)]
fn items_have_fraction(items: &Vec<Value>) -> bool
    ensures { result ≡ items_have_float (items_view items.now.items) }
{
    for item in items {
        if has_fraction(item) {
            return true;
        }
    }
    false
}

#[cycle(fractions)]
fn members_have_fraction(members: &Map<String, Value>) -> bool
    ensures { result ≡ members_have_float (members_view members.now.entries) }
{
    for (_, member) in members.iter() {
        if has_fraction(member) {
            return true;
        }
    }
    false
}
