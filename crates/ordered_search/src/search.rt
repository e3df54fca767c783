//! The place of a key in a list in the order of its keys.
ghost use Rattle.std.specs.Prelude.{◌≡◌, ℕ, ◌+◌, ◌-◌, ◌*◌, ◌^◌, ◌<◌, ◌≤◌, length, map, nat_lt};
ghost use Rattle.ordered_search.specs.Order.{IsAscending, IsPlaceOf};

use crate::keyed::Keyed;
use crate::steps::Steps;
use std::marker::Brand;
use std::sync::ledger::{Blank, Ledger};

/// How many items have a key below this one.
pub fn place<T: Keyed, L: Ledger>(items: &[T], key: u64, steps: &mut Steps<L>) -> usize
    requires { IsAscending (map T.key_of items.now) }
    ensures place { IsPlaceOf key (map T.key_of items.now) result }
    ensures grows { steps.old ≤ steps.new }
    ensures cost { 2 ^ (steps.new - steps.old) ≤ 2 * length items.now + 1 }
{
    let mut low = 0;
    let mut high = items.len();
    while low < high {
        let middle = low + (high - low) / 2;
        if is_below(&items[middle], key, steps) {
            low = middle + 1;
        } else {
            high = middle;
        }
    }
    low
}

// Whether the item's key is below this one, which is one step.
fn is_below<T: Keyed, L: Ledger>(item: &T, key: u64, steps: &mut Steps<L>) -> bool
    ensures value { result ≡ nat_lt (T.key_of item.now) key }
    ensures step { steps.new ≡ steps.old + 1 }
{
    steps.tick();
    item.key() < key
}

// The same with a ledger of its own.
fn place_from<T: Keyed, L: Ledger>(items: &[T], key: u64, blank: Blank) -> usize
    requires ascending { IsAscending (map T.key_of items.now) }
    requires name { blank.name ≡ L.name }
    requires parts { blank.parts ≡ L.parts }
    requires some { 0 < blank.parts }
    ensures { IsPlaceOf key (map T.key_of items.now) result }
{
    let mut steps = Steps::<L>::new(blank);
    place(items, key, &mut steps)
}

/// How many items have a key below this one, uncounted.
pub fn place_of<T: Keyed>(items: &[T], key: u64) -> usize
    requires { IsAscending (map T.key_of items.now) }
    ensures { IsPlaceOf key (map T.key_of items.now) result }
{
    place_from::<T, Brand>(items, key, Blank::new(1))
}
