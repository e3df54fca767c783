//! A reader of plain bodies, the usual ones: objects (RFC 8259) whose values are strings, arrays and objects, in ASCII, with no escape, and with no blank
//! but a space behind a comma or a colon. It is short code, since a request runs it once; each other body is left to the reader of tokens.
ghost use Rattle.std.specs.Prelude.{◌≡◌, ℕ, List, [], ◌∷◌, ◌++◌, true, false, IsTrue, IfSome, Ok};
ghost use Rattle.json.specs.Print.{quoted};
ghost use Rattle.serde_json.specs.View.{view, items_view, members_view};
ghost use Rattle.json_objects.specs.Bodies.{IsBody, body_of};
ghost use Rattle.plain_text.specs.PlainText.{IsPlain};
ghost use Rattle.body_reading.specs.PlainBodies.{SpacePassed, BeginsWith, HasItems, HasMembers};

use crate::value_reading::MAX_DEPTH;
use plain_text::plain_len;
use serde_json::{Map, Value};
use std::alloc::Global;
use std::marker::Model;

/// The object that the bytes are, if they are plain. `None` says nothing of them: they aren't plain, or memory ran out.
#[inline(never)]
pub(crate) fn read_plain(alloc: Global, text: &[u8]) -> Option<Value>
    ensures value { IfSome result (λ v. body_of text.now ≡ Ok (view v)) }
    ensures body { IfSome result (λ v. IsBody (view v)) }
{
    let mut rest = Rest { bytes: text };
    if !rest.take(b'{') {
        return None;
    }
    let members = read_members(alloc, &mut rest, MAX_DEPTH - 1)?;
    if !rest.is_empty() {
        return None;
    }
    Some(Value::Object(members))
}

/// The next value. At most `depth` arrays and objects may open in it, one within another.
#[cycle(plain)]
#[inline(always)]
fn read_value(alloc: Global, rest: &mut Rest<'_>, depth: usize) -> Option<Value>
    ensures { IfSome result (λ v. BeginsWith depth (view v) rest.old rest.new) }
{
    if rest.take(b'{') {
        if depth == 0 {
            return None;
        }
        return Some(Value::Object(read_members(alloc, rest, depth - 1)?));
    }
    if rest.take(b'[') {
        if depth == 0 {
            return None;
        }
        return Some(Value::Array(read_items(alloc, rest, depth - 1)?));
    }
    let text = rest.string()?;
    Some(Value::String(String::from_str(alloc, text).ok()?))
}

/// The items of an array whose bracket was read, to its end.
#[cycle(plain)]
#[inline(never)]
fn read_items(alloc: Global, rest: &mut Rest<'_>, depth: usize) -> Option<Vec<Value>>
    ensures { IfSome result (λ v. HasItems depth (items_view v.items) rest.old rest.new) }
{
    let mut found = Vec::new(alloc);
    if rest.take(b']') {
        return Some(found);
    }
    'items: loop {
        let item = read_value(alloc, rest, depth)?;
        found.push(item).ok()?;
        if rest.take(b']') {
            return Some(found);
        }
        if !rest.take_mark(b',') {
            return None;
        }
    }
}

/// The members of an object whose brace was read, to its end. The last value of a name stays.
#[cycle(plain)]
#[inline(never)]
fn read_members(alloc: Global, rest: &mut Rest<'_>, depth: usize) -> Option<Map<String, Value>>
    ensures { IfSome result (λ m. HasMembers depth (members_view m.entries) rest.old rest.new) }
{
    let mut found = Map::new(alloc);
    if rest.take(b'}') {
        return Some(found);
    }
    'members: loop {
        let name = rest.string()?;
        if !rest.take_mark(b':') {
            return None;
        }
        let key = String::from_str(alloc, name).ok()?;
        let member = read_value(alloc, rest, depth)?;
        drop(found.insert(key, member).ok()?);
        if rest.take(b'}') {
            return Some(found);
        }
        if !rest.take_mark(b',') {
            return None;
        }
    }
}

/// The bytes that are still to be read.
#[derive(Drop)]
struct Rest<'a> {
    bytes: &'a [u8],
}

impl<'a> Model for Rest<'a> {
    ghost use Rattle.std.specs.Prelude.{ℕ, List};

    ghost Value = { List ℕ };

    ghost view = { λ a. a.bytes.now };
}

impl<'a> Rest<'a> {
    #[inline(always)]
    fn is_empty(&self) -> bool
        ensures { IsTrue result → self.now ≡ [] }
    {
        self.bytes.is_empty()
    }

    /// Passes the byte, where it comes next.
    #[inline(always)]
    fn take(&mut self, byte: u8) -> bool
        ensures taken { IsTrue result → self.old ≡ byte ∷ self.new }
        ensures kept { result ≡ false → self.new ≡ self.old }
    {
        if self.bytes.is_empty() || self.bytes[0] != byte {
            return false;
        }
        self.bytes = &self.bytes[1..];
        true
    }

    /// Passes the mark, where it comes next, and a space behind it, which many writers put there.
    #[inline(always)]
    fn take_mark(&mut self, mark: u8) -> bool
        ensures { IsTrue result → (behind : List ℕ) × (self.old ≡ mark ∷ behind) × SpacePassed behind self.new }
    {
        if !self.take(mark) {
            return false;
        }
        self.take(b' ');
        true
    }

    /// Passes the string that comes next, where it is plain. Its code is to stand once, since names and values share its lines.
    #[inline(never)]
    fn string(&mut self) -> Option<&'a str>
        ensures value { IfSome result (λ s. self.old ≡ quoted s.now ++ self.new) }
        ensures plain { IfSome result (λ s. IsPlain s.now) }
    {
        if !self.take(b'"') {
            return None;
        }
        let bytes = self.bytes;
        let len = plain_len(bytes);
        self.bytes = &bytes[len..];
        if !self.take(b'"') {
            return None;
        }
        Some(unsafe { str::from_utf8_unchecked(&bytes[..len]) })
    }
}
