//! Where in a text a person finds its fault: the line and the column of what is no JSON, or the id of a key.
//!
//! This is for what is said on standard error alone. The contract of `fault_place` says that a place that is told is one: no JSON, no object, a number that
//! isn't whole, or the id of the key. That none is known is told only where the text has none of these, and that memory ran out is told by itself. Which line
//! it is that can't be read on is the word of the JSON reader, whose contract says nothing of it.
#![tactic(auto)]

ghost use Rattle.std.specs.Prelude.{◌≡◌, option_map};
ghost use Rattle.serde_json.specs.View.{view};
ghost use Rattle.fault_places.specs.Places.{id_at, IsInText, IsInKey, IsPlaceOf};

use bytes_and_lists::bytes::Bytes;
use gnap_objects::SetupFault;
use json_objects::has_fraction;
use serde_json::Value;
use std::alloc::Global;
use std::fmt;

/// Where a text that should be a setup or a configuration is at fault.
#[derive(Drop)]
pub enum FaultPlace {
    /// It is no JSON: it can't be read on from this line and this column, both counted from 1; both are 0 where the reader knows no line.
    Syntax { line: usize, column: usize },
    /// It is JSON, but no object.
    NoObject,
    /// It is an object, but a number in it isn't a whole one from -2^63 to 2^64 - 1.
    Number,
    /// In the key with this id.
    Key(Bytes),
    /// No nearer place is known.
    Unknown,
    /// Memory ran out before a place was found.
    OutOfMemory,
}

impl fmt::Display for FaultPlace {
    fn fmt<W: fmt::Write>(&self, f: &mut fmt::Formatter<W>) -> fmt::Result {
        match self {
            FaultPlace::Syntax { line: 0, .. } => f.write_str("it is no JSON"),
            FaultPlace::Syntax { line, column } => {
                write!(f, "it is no JSON at line {line}, column {column}")
            }
            FaultPlace::NoObject => f.write_str("it is JSON, but no object"),
            FaultPlace::Number => {
                f.write_str("a number in it isn't a whole one from -2^63 to 2^64 - 1")
            }
            FaultPlace::Key(id) => match str::from_utf8(id.as_slice()) {
                Ok(id) => write!(f, "in the key `{id}`"),
                Err(_) => f.write_str("in a key"),
            },
            FaultPlace::Unknown => f.write_str("no place is known"),
            FaultPlace::OutOfMemory => f.write_str("memory ran out"),
        }
    }
}

fn json_place(alloc: Global, text: &[u8]) -> FaultPlace
    ensures { IsInText text.now result }
{
    match Value::from_slice(alloc, text) {
        Ok(value) => {
            if !value.is_object() {
                return FaultPlace::NoObject;
            }
            if has_fraction(&value) {
                return FaultPlace::Number;
            }
            FaultPlace::Unknown
        }
        Err(error) => {
            if error.is_memory() {
                return FaultPlace::OutOfMemory;
            }
            FaultPlace::Syntax {
                line: error.line(),
                column: error.column(),
            }
        }
    }
}

// The id of the key at this place of `keys`, where it has one.
fn id_at(value: &Value, place: usize) -> Option<&str>
    ensures { option_map (λ id. id.now) result ≡ id_at place (view value.now) }
{
    value.get("keys")?.get(place)?.get("id")?.as_str()
}

fn key_place(alloc: Global, text: &[u8], place: usize) -> FaultPlace
    ensures { IsInKey place text.now result }
{
    let value = match Value::from_slice(alloc, text) {
        Ok(value) => value,
        Err(error) => {
            return if error.is_memory() {
                FaultPlace::OutOfMemory
            } else {
                FaultPlace::Unknown
            };
        }
    };
    let Some(id) = id_at(&value, place) else {
        return FaultPlace::Unknown;
    };
    match Bytes::from_slice(alloc, id.as_bytes()) {
        Ok(id) => FaultPlace::Key(id),
        Err(_) => FaultPlace::OutOfMemory,
    }
}

/// Where the text has the fault that its reader told.
pub fn fault_place(alloc: Global, text: &[u8], fault: &SetupFault) -> FaultPlace
    ensures { IsPlaceOf fault.now text.now result }
{
    match fault {
        SetupFault::NotJson => json_place(alloc, text),
        SetupFault::InKey(place, _) => key_place(alloc, text, *place),
        SetupFault::InSetup(_) => FaultPlace::Unknown,
        SetupFault::OutOfMemory => FaultPlace::OutOfMemory,
    }
}
