//! From a text to its value, in one pass over its tokens.
ghost use Rattle.std.specs.Prelude.{◌≡◌, ◌<◌, ◌≤◌, length, Some, None, Err, IfOk, OnOk};
ghost use Rattle.json.specs.Json.{value, items, members};
ghost use Rattle.serde_json.specs.Data.{no_members, depth as nesting};
ghost use Rattle.serde_json.specs.Read.{of_json, of_items, of_members, converted, max_depth, read};
ghost use Rattle.serde_json.specs.View.{view, items_view, members_view};
ghost use Rattle.body_reading.specs.declared.read_fault.ReadFault.TheVariants.{Refused};

use crate::number_reading::read_number;
use crate::read_fault::ReadFault;
use json::{Reader, Scratch, Token};
use serde_json::{Map, Value};
use std::alloc::Global;

/// How deep arrays and objects may nest, as in `serde_json`.
pub(crate) const MAX_DEPTH: usize = 127;

/// The value that the text is. Strings with escapes are unescaped in `scratch`, which grows to the length
/// of the text.
pub(crate) fn read_text(
    alloc: Global,
    text: &str,
    scratch: &mut Scratch,
) -> Result<Value, ReadFault>
    ensures ok { IfOk result (λ v. read text.now ≡ Some (view v)) }
    ensures nests { IfOk result (λ v. nesting (view v) ≤ max_depth) }
    ensures err { result ≡ Err Refused → read text.now ≡ None }
{
    let mut reader = Reader::new(text, scratch)?;
    let value = read_value(alloc, &mut reader, MAX_DEPTH)?;
    if reader.next().is_some() {
        return Err(ReadFault::Refused);
    }
    Ok(value)
}

/// The next value. At most `depth` arrays and objects may open in it, one within another.
#[cycle(read)]
#[inline(always)]
fn read_value(alloc: Global, reader: &mut Reader<'_>, depth: usize) -> Result<Value, ReadFault>
    ensures ok { IfOk result
        (λ v. converted of_json (value depth reader.old) ≡ Some (view v, reader.new)) }
    ensures shorter { OnOk result (length reader.new < length reader.old) }
    ensures err { result ≡ Err Refused → converted of_json (value depth reader.old) ≡ None }
{
    let token = reader.next().ok_or(ReadFault::Refused)?;
    match token {
        Token::String(text) => Ok(Value::String(String::from_str(alloc, text)?)),
        Token::Number(text) => match read_number(text) {
            Some(number) => Ok(Value::Number(number)),
            None => Err(ReadFault::Refused),
        },
        Token::Bool(b) => Ok(Value::Bool(b)),
        Token::Null => Ok(Value::Null),
        Token::EndObject | Token::EndArray | Token::Key(_) | Token::Bad => Err(ReadFault::Refused),
        Token::BeginArray => {
            if depth == 0 {
                return Err(ReadFault::Refused);
            }
            Ok(Value::Array(read_items(alloc, reader, depth - 1)?))
        }
        Token::BeginObject => {
            if depth == 0 {
                return Err(ReadFault::Refused);
            }
            Ok(Value::Object(read_members(alloc, reader, depth - 1)?))
        }
    }
}

/// The items of an array whose bracket was read, to its end.
#[cycle(read)]
#[inline(never)]
fn read_items(alloc: Global, reader: &mut Reader<'_>, depth: usize) -> Result<Vec<Value>, ReadFault>
    ensures ok { IfOk result
        (λ v. converted of_items (items (value depth) (length reader.old) reader.old)
        ≡ Some (items_view v.items, reader.new)) }
    ensures shorter { OnOk result (length reader.new < length reader.old) }
    ensures err { result ≡ Err Refused
        → converted of_items (items (value depth) (length reader.old) reader.old) ≡ None }
{
    let mut found = Vec::new(alloc);
    'items: while !reader.take_end_array() {
        let item = read_value(alloc, reader, depth)?;
        found.push(item)?;
    }
    Ok(found)
}

/// The members of an object whose brace was read, to its end. The last value of a name stays.
#[cycle(read)]
#[inline(never)]
fn read_members(
    alloc: Global,
    reader: &mut Reader<'_>,
    depth: usize,
) -> Result<Map<String, Value>, ReadFault>
    ensures ok { IfOk result
        (λ m. converted (λ ms. of_members ms no_members)
        (members (value depth) (length reader.old) reader.old)
        ≡ Some (members_view m.entries, reader.new)) }
    ensures shorter { OnOk result (length reader.new < length reader.old) }
    ensures err { result ≡ Err Refused
        → converted (λ ms. of_members ms no_members)
        (members (value depth) (length reader.old) reader.old) ≡ None }
{
    let mut found = Map::new(alloc);
    'members: while let Some(name) = reader.next_key()? {
        let key = String::from_str(alloc, name)?;
        let member = read_value(alloc, reader, depth)?;
        drop(found.insert(key, member)?);
    }
    Ok(found)
}
