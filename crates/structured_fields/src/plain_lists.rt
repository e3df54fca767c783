//! A dictionary that is one inner list of Strings, read directly: nearly every `Signature-Input` is.
ghost use Rattle.std.specs.Prelude.{◌≡◌, ◌<◌, true, [], ◌∷◌, ◌++◌, nat_abs, IfSome};
ghost use Rattle.std.specs.List.{list_all, AllByRecursion};
ghost use Rattle.structured_fields.specs.declared.bare.Bare.TheVariants.{Str};
ghost use Rattle.structured_fields.specs.Letters.{number_limit, is_key, is_string_byte};
ghost use Rattle.structured_fields.specs.Named.{IsDistinct};
ghost use Rattle.structured_fields.specs.Canonical.{integer_text, bare_text, value_text, params_text, item_text, separated_text, IsInRange, AreInRange};
ghost use Rattle.structured_fields.specs.PlainLists.{front_text, IsPlainItem};

use crate::bare::Bare;
use crate::bare_reading::{INTEGER_DIGITS, number_of, with_sign};
use crate::item::{Item, Items, Params};
use crate::letters::{digits_in, is_key_start, key_run, plain_run};
use bytes_and_lists::bytes::Bytes;
use std::alloc::Global;

// Lists of more items are left to the reader of any form.
const MOST_ITEMS: usize = 16;

// So are more parameters. Of so few the names are compared one by one.
const MOST_PARAMS: usize = 8;

/// The front of a dictionary of one inner list: the key, the items, and what stands behind the `)`.
#[derive(Drop)]
pub struct PlainFront<'a> {
    pub key: &'a [u8],
    pub items: Items,
    pub rest: &'a [u8],
}

// The key at the front, and what stands behind its `=`.
fn key_and_rest(text: &[u8]) -> Option<(&[u8], &[u8])>
    ensures { IfSome result (λ x. (text.now ≡ x.0.now ++ 61 ∷ x.1.now) × (is_key x.0.now ≡ true)) }
{
    let [first, ..] = text else {
        return None;
    };
    if !is_key_start(*first) {
        return None;
    }
    let (key, rest) = text.split_at(key_run(text));
    match rest {
        [b'=', after @ ..] => Some((key, after)),
        _ => None,
    }
}

// What the String at the front holds, where no backslash is in it, and what stands behind it.
fn unescaped_string(text: &[u8]) -> Option<(&[u8], &[u8])>
    ensures { IfSome result (λ x. (text.now ≡ bare_text (Str x.0.now) ++ x.1.now) × (list_all is_string_byte x.0.now ≡ true)) }
{
    let [b'"', inside @ ..] = text else {
        return None;
    };
    let (held, rest) = inside.split_at(plain_run(inside));
    match rest {
        [b'"', after @ ..] => Some((held, after)),
        _ => None,
    }
}

// The Integer at the front, where it is in canonical text and has no minus, and what stands behind it.
fn unsigned_integer(text: &[u8]) -> Option<(i64, &[u8])>
    ensures { IfSome result (λ x. (text.now ≡ integer_text x.0 ++ x.1.now) × (nat_abs x.0 < number_limit)) }
{
    let (digits, rest) = digits_in(text);
    if digits.is_empty() || digits.len() > INTEGER_DIGITS {
        return None;
    }
    if digits[0] == b'0' && digits.len() != 1 {
        return None;
    }
    Some((with_sign(false, number_of(digits)), rest))
}

// The value behind the `=`, and what stands behind it.
fn plain_bare(alloc: Global, text: &[u8]) -> Option<(Bare, &[u8])>
    ensures { IfSome result (λ x. (61 ∷ text.now ≡ value_text x.0 ++ x.1.now) × IsInRange x.0) }
{
    if let Some((held, rest)) = unescaped_string(text) {
        return Some((Bare::Str(Bytes::from_slice(alloc, held).ok()?), rest));
    }
    let (n, rest) = unsigned_integer(text)?;
    Some((Bare::Integer(n), rest))
}

// Puts the parameter at the front last, where its key is new: what is left behind it.
fn put_first<'a>(alloc: Global, params: &mut Params, text: &'a [u8]) -> Option<&'a [u8]>
    ensures { IfSome result (λ rest. (params_text params.old ++ text.now ≡ params_text params.new ++ rest.now)
        × (AreInRange params.old → AreInRange params.new) × IsDistinct params.new) }
{
    let [b';', after @ ..] = text else {
        return None;
    };
    let (name, after) = key_and_rest(after)?;
    let (value, rest) = plain_bare(alloc, after)?;
    let before = params.len();
    params
        .set(Bytes::from_slice(alloc, name).ok()?, value)
        .ok()?;
    if params.len() == before {
        return None;
    }
    Some(rest)
}

/// The parameters (RFC 9651, section 3.1.2) of which the text is the canonical one (section 4.1.1.2), where there are at most eight, and each value is a String
/// without quotes and backslashes in it or an Integer that isn't negative. None says nothing of the text: it may have another form, or memory ran out.
pub fn plain_params(alloc: Global, text: &[u8]) -> Option<Params>
    ensures { IfSome result (λ ps. (text.now ≡ params_text ps) × AreInRange ps × IsDistinct ps) }
{
    let mut params = Params::new(alloc);
    let mut left = text;
    for _ in 0..MOST_PARAMS {
        if left.is_empty() {
            return Some(params);
        }
        left = put_first(alloc, &mut params, left)?;
    }
    if left.is_empty() { Some(params) } else { None }
}

// The items up to the `)`, each a String in canonical text, and what stands behind it.
fn plain_items(alloc: Global, text: &[u8]) -> Option<(Items, &[u8])>
    ensures { IfSome result (λ x. (text.now ≡ separated_text (32 ∷ []) item_text x.0 ++ 41 ∷ x.1.now) × AllByRecursion IsPlainItem x.0) }
{
    let mut items = Items::new(alloc);
    let mut left = text;
    for _ in 0..MOST_ITEMS {
        let (held, rest) = unescaped_string(left)?;
        let bare = Bare::Str(Bytes::from_slice(alloc, held).ok()?);
        let params = Params::new(alloc);
        items.push(Item { bare, params }).ok()?;
        match rest {
            [b')', after @ ..] => return Some((items, after)),
            [b' ', after @ ..] => left = after,
            _ => return None,
        }
    }
    None
}

/// The front of the text of a dictionary (RFC 9651, section 3.2) that is one inner list, where it is the canonical text `key=("a" "b")` of a key and of Strings
/// without parameters, quotes and backslashes: the key, the items, and what stands behind the `)`. None says nothing of the text: it may have another form, no
/// items, more than 16, or memory ran out.
pub fn plain_front(alloc: Global, text: &[u8]) -> Option<PlainFront<'_>>
    ensures { IfSome result (λ f. (text.now ≡ front_text f.key.now f.items ++ f.rest.now) × (is_key f.key.now ≡ true) × AllByRecursion IsPlainItem f.items) }
{
    let (key, after) = key_and_rest(text)?;
    let [b'(', inside @ ..] = after else {
        return None;
    };
    let (items, rest) = plain_items(alloc, inside)?;
    Some(PlainFront { key, items, rest })
}
