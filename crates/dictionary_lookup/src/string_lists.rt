//! Reading an inner list: whether it has a parameter, and its items up to the first one that has parameters, where all are Strings.
ghost use Rattle.std.specs.Prelude.{◌≡◌, ◌||◌, if◌then◌else◌, [], ◌∷◌, ◌++◌, Some, None, Err, IfOk, IfErr, OnOk};
ghost use Rattle.std.specs.Option.{option_copied, option_map};
ghost use Rattle.structured_fields.specs.declared.fault.FieldFault.TheVariants.{NotInGrammar as Refused};
ghost use Rattle.structured_fields.specs.declared.item.Item.{Item as ItemValue};
ghost use Rattle.structured_fields.specs.Reading.{Fails, Gives, item_at, items_at, inner_at};
ghost use Rattle.structured_fields.specs.Strings.{holds_string};
ghost use Rattle.dictionary_lookup.specs.Skipping.{strings_read, list_read, has_parameters, IsNext};

use crate::skipping::behind_item;
use std::alloc::Global;
use structured_fields::front::{is_item_end, item_in, params_of, strip, without_spaces};
use structured_fields::{
    Bare, FieldFault, InnerList, Item, Items, Params, is_any_string, is_string,
};

// Keeps one more item, unless one that has parameters was kept before; and whether one is kept now.
fn keep(items: &mut Items, cut: bool, item: Item) -> Result<bool, FieldFault>
    ensures items { OnOk result (items.new ≡ (if cut then items.old else items.old ++ item ∷ [])) }
    ensures cut { IfOk result (λ now. now ≡ (cut || has_parameters item)) }
    ensures err { result ≡ Err Refused → ⊥ }
{
    if cut {
        return Ok(true);
    }
    let last = item.params.len() > 0;
    items.push(item)?;
    Ok(last)
}

// What is so of the items so far: all are Strings, and one of them has parameters.
#[derive(Clone, Copy)]
struct ItemsSoFar {
    strings: bool,
    cut: bool,
}

// Goes past one item, which is kept while all are Strings. Once one is not, none is kept and none is read: a stranger's list may have thousands.
fn next_item<'a>(
    alloc: Global,
    items: &mut Items,
    so_far: ItemsSoFar,
    bytes: &'a [u8],
) -> Result<(ItemsSoFar, &'a [u8]), FieldFault>
    ensures ok { IfOk result (λ x. (item : ItemValue) × (item_at bytes.now ≡ Some (item, x.1.now)) × IsNext so_far items.old item x.0 items.new) }
    ensures err { IfErr result (λ e. Fails e (item_at bytes.now)) }
{
    if !so_far.strings {
        return Ok((so_far, behind_item(alloc, bytes)?));
    }
    let (item, rest) = item_in(alloc, bytes)?;
    let strings = is_any_string(&item.bare);
    let cut = keep(items, so_far.cut, item)?;
    Ok((ItemsSoFar { strings, cut }, rest))
}

// The items up to the first one that has parameters, where all are Strings; and what stands behind the `)`. None where one is no String.
fn strings_of(alloc: Global, bytes: &[u8]) -> Result<(Option<Items>, &[u8]), FieldFault>
    ensures { Gives (λ x. (x.0, x.1.now)) result (option_map strings_read (items_at bytes.now)) }
{
    let mut items = Items::new(alloc);
    let mut so_far = ItemsSoFar {
        strings: true,
        cut: false,
    };
    let mut left = bytes;
    for _ in 0..bytes.len() {
        let next = without_spaces(left);
        if let Some(after) = strip(b')', next) {
            return Ok((so_far.strings.then_some(items), after));
        }
        let (now, rest) = next_item(alloc, &mut items, so_far, next)?;
        if !is_item_end(rest) {
            return Err(FieldFault::NotInGrammar);
        }
        so_far = now;
        left = rest;
    }
    Err(FieldFault::NotInGrammar)
}

/// Whether a parameter is there and is this String.
pub fn holds_string(s: &[u8], v: Option<&Bare>) -> bool
    ensures { result ≡ holds_string s.now (option_copied v.entry) }
{
    match v {
        Some(v) => is_string(s, v),
        None => false,
    }
}

// The list of items that are Strings.
fn list_of(items: Option<Items>, params: Params) -> Option<InnerList>
    ensures { result ≡ option_map (λ i. record { items = i; params = params }) items }
{
    let items = items?;
    Some(InnerList { items, params })
}

/// The inner list behind a `(`, with its items up to the first one that has parameters, or None where an item is no String; whether it has the parameter of
/// this name, and that is this String; and what stands behind it.
pub(crate) fn list_read<'a>(
    alloc: Global,
    bytes: &'a [u8],
    name: &[u8],
    s: &[u8],
) -> Result<(Option<InnerList>, bool, &'a [u8]), FieldFault>
    ensures { Gives (λ x. ((x.0, x.1), x.2.now)) result (option_map (list_read name.now s.now) (inner_at bytes.now)) }
{
    let (items, rest) = strings_of(alloc, bytes)?;
    let (params, rest) = params_of(alloc, rest)?;
    let matched = holds_string(s, params.get(name));
    Ok((list_of(items, params), matched, rest))
}
