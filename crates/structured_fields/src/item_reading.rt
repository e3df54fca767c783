//! Reading parameters, items, inner lists, members and entries from the front of a text.
ghost use Rattle.std.specs.Prelude.{◌≡◌};
ghost use Rattle.structured_fields.specs.Reading.{Gives, value_of, parameter_at, params_at, item_at, is_item_end, items_at, inner_at, member_at, entry_value_at, entry_at};

use crate::bare::Bare;
use crate::bare_reading::{bare_of, key_of};
use crate::fault::FieldFault;
use crate::item::{InnerList, Item, Items, Member, Params};
use crate::letters::{begins, strip, without_spaces};
use bytes_and_lists::bytes::Bytes;
use std::alloc::Global;

#[tactic(auto, unfolding(crate::specs::Reading::value_of))]
pub fn value_in(alloc: Global, bytes: &[u8]) -> Result<(Bare, &[u8]), FieldFault>
    ensures { Gives (λ x. (x.0, x.1.now)) result (value_of bytes.now) }
{
    match bytes {
        [b'=', after @ ..] => bare_of(alloc, after),
        _ => Ok((Bare::Boolean(true), bytes)),
    }
}

#[tactic(auto, unfolding(crate::specs::Reading::parameter_at))]
fn parameter_of(alloc: Global, bytes: &[u8]) -> Result<(Bytes, Bare, &[u8]), FieldFault>
    ensures { Gives (λ x. ((x.0, x.1), x.2.now)) result (parameter_at bytes.now) }
{
    let (name, rest) = key_of(alloc, without_spaces(bytes))?;
    let (value, rest) = value_in(alloc, rest)?;
    Ok((name, value, rest))
}

pub fn params_of(alloc: Global, bytes: &[u8]) -> Result<(Params, &[u8]), FieldFault>
    ensures { Gives (λ x. (x.0, x.1.now)) result (params_at bytes.now) }
{
    let mut params = Params::new(alloc);
    let mut left = bytes;
    for _ in 0..bytes.len() {
        let Some(after) = strip(b';', left) else {
            return Ok((params, left));
        };
        let (name, value, rest) = parameter_of(alloc, after)?;
        params.set(name, value)?;
        left = rest;
    }
    Ok((params, left))
}

#[tactic(auto, unfolding(crate::specs::Reading::item_at))]
pub fn item_in(alloc: Global, bytes: &[u8]) -> Result<(Item, &[u8]), FieldFault>
    ensures { Gives (λ x. (x.0, x.1.now)) result (item_at bytes.now) }
{
    let (bare, rest) = bare_of(alloc, bytes)?;
    let (params, rest) = params_of(alloc, rest)?;
    Ok((Item { bare, params }, rest))
}

pub fn is_item_end(bytes: &[u8]) -> bool
    ensures { result ≡ is_item_end bytes.now }
{
    begins(b' ', bytes) || begins(b')', bytes)
}

fn items_of(alloc: Global, bytes: &[u8]) -> Result<(Items, &[u8]), FieldFault>
    ensures { Gives (λ x. (x.0, x.1.now)) result (items_at bytes.now) }
{
    let mut items = Items::new(alloc);
    let mut left = bytes;
    for _ in 0..bytes.len() {
        let next = without_spaces(left);
        if let Some(after) = strip(b')', next) {
            return Ok((items, after));
        }
        let (item, rest) = item_in(alloc, next)?;
        if !is_item_end(rest) {
            return Err(FieldFault::NotInGrammar);
        }
        items.push(item)?;
        left = rest;
    }
    Err(FieldFault::NotInGrammar)
}

#[tactic(auto, unfolding(crate::specs::Reading::inner_at))]
fn inner_of(alloc: Global, bytes: &[u8]) -> Result<(InnerList, &[u8]), FieldFault>
    ensures { Gives (λ x. (x.0, x.1.now)) result (inner_at bytes.now) }
{
    let (items, rest) = items_of(alloc, bytes)?;
    let (params, rest) = params_of(alloc, rest)?;
    Ok((InnerList { items, params }, rest))
}

#[tactic(auto, unfolding(crate::specs::Reading::member_at))]
pub(crate) fn member_in(alloc: Global, bytes: &[u8]) -> Result<(Member, &[u8]), FieldFault>
    ensures { Gives (λ x. (x.0, x.1.now)) result (member_at bytes.now) }
{
    match bytes {
        [b'(', after @ ..] => {
            let (list, rest) = inner_of(alloc, after)?;
            Ok((Member::Inner(list), rest))
        }
        _ => {
            let (item, rest) = item_in(alloc, bytes)?;
            Ok((Member::Item(item), rest))
        }
    }
}

#[tactic(auto, unfolding(crate::specs::Reading::entry_value_at))]
pub(crate) fn entry_value_in(alloc: Global, bytes: &[u8]) -> Result<(Member, &[u8]), FieldFault>
    ensures { Gives (λ x. (x.0, x.1.now)) result (entry_value_at bytes.now) }
{
    match bytes {
        [b'=', after @ ..] => member_in(alloc, after),
        _ => {
            let (params, rest) = params_of(alloc, bytes)?;
            let bare = Bare::Boolean(true);
            Ok((Member::Item(Item { bare, params }), rest))
        }
    }
}

#[tactic(auto, unfolding(crate::specs::Reading::entry_at))]
pub(crate) fn entry_in(alloc: Global, bytes: &[u8]) -> Result<(Bytes, Member, &[u8]), FieldFault>
    ensures { Gives (λ x. ((x.0, x.1), x.2.now)) result (entry_at bytes.now) }
{
    let (name, rest) = key_of(alloc, bytes)?;
    let (member, rest) = entry_value_in(alloc, rest)?;
    Ok((name, member, rest))
}
