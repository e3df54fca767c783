//! User codes in their order, each with its grant.
ghost use Rattle.std.specs.Prelude.{◌≡◌, ◌<◌, ◌≤◌, ◌+◌, ◌^◌, ◌⊎◌, ◌==◌, ◌&&◌, ℕ, [], true, Some, slice_get, length};
ghost use Rattle.std.specs.Fn.{CalledAt};
ghost use Rattle.std.specs.List.Retain.{IsFiltered};
ghost use Rattle.gnap_tables.proofs.Lists.{HasItem};
ghost use Rattle.grant_states.specs.Listed.{under, where_some, Ascend};
ghost use Rattle.grant_states.specs.declared.numbers_by_key.Listed.{Listed};

use crate::numbers_by_key::{Listed, number_at};
use bytes_and_lists::memory::Mem;
use ordered_search::place_of;
use std::alloc::Global;
use std::marker::Model;

/// The numbers of user codes in their order, each with the number of a grant. Contracts see the list.
#[derive(Drop)]
pub(crate) struct CodeList {
    listed: Vec<Listed>,
}

impl Model for CodeList {
    ghost use Rattle.std.specs.Prelude.{List};
    ghost use Rattle.grant_states.specs.Listed.{Ascend};
    ghost use Rattle.grant_states.specs.declared.numbers_by_key.Listed.{Listed};

    ghost Value = { List Listed };

    ghost view = { λ s. s.listed.items };

    ghost invariant = { λ s. Ascend s.listed.items };
}

// The code stands at a place with this grant.
fn has_grant(listed: &[Listed], at: usize, code: u64, number: u64) -> bool
    ensures { result ≡ where_some (λ (one : Listed). (one.key == code) && (one.number == number)) (slice_get listed.now at) }
{
    match listed.get(at) {
        Some(one) => one.key == code && one.number == number,
        None => false,
    }
}

// How many keys from this one on stand one after another at the head of the items.
fn run_length(items: &[Listed], key: u64) -> usize
    requires ascend { Ascend items.now }
    requires from { (one : Listed) → HasItem items.now one → key ≤ one.key }
    requires small { key < 20 ^ 8 }
    ensures within { result ≤ length items.now }
    ensures run { (k : ℕ) → key ≤ k → k < key + result → (number : ℕ) × HasItem items.now (under k number) }
{
    let mut run = 0;
    let mut end = items.len();
    while run < end {
        let middle = run + (end - run) / 2;
        if number_at(items, middle, key + middle as u64).is_some() {
            run = middle + 1;
        } else {
            end = middle;
        }
    }
    run
}

impl CodeList {
    /// None. Takes no memory.
    pub(crate) fn new(alloc: Global) -> CodeList
        ensures { result ≡ [] }
    {
        CodeList {
            listed: Vec::new(alloc),
        }
    }

    /// Takes memory for so many more. An `Err` takes none out.
    pub(crate) fn reserve(&mut self, more: usize) -> Result<(), Mem>
        ensures { self.new ≡ self.old }
    {
        if self.listed.reserve(more).is_err() {
            return Err(Mem);
        }
        Ok(())
    }

    /// Lists a grant under a code, unless one is listed there or no room was taken. Takes no memory.
    pub(crate) fn put(&mut self, code: u64, number: u64) -> bool
        ensures listed { result ≡ true → HasItem self.new (under code number) }
        ensures kept { (one : Listed) → HasItem self.old one → HasItem self.new one }
        ensures only { (one : Listed) → HasItem self.new one → HasItem self.old one ⊎ (one ≡ under code number) }
    {
        let at = place_of(self.listed.as_slice(), code);
        if number_at(self.listed.as_slice(), at, code).is_some() {
            return false;
        }
        if self.listed.len() == self.listed.capacity() {
            return false;
        }
        let Ok(()) = self.listed.insert(at, Listed { key: code, number }) else {
            return false;
        };
        true
    }

    /// Takes a grant out from under a code. Takes no memory.
    pub(crate) fn take(&mut self, code: u64, number: u64)
        ensures gone { HasItem self.new (under code number) → ⊥ }
        ensures kept { (one : Listed) → HasItem self.old one → (one ≡ under code number → ⊥) → HasItem self.new one }
        ensures only { (one : Listed) → HasItem self.new one → HasItem self.old one }
    {
        let at = place_of(self.listed.as_slice(), code);
        if has_grant(self.listed.as_slice(), at, code, number) {
            let _gone = self.listed.remove(at);
        }
    }

    /// The grant that is listed under a code.
    pub(crate) fn number(&self, code: u64) -> Option<u64>
        ensures { (number : ℕ) → HasItem self.now (under code number) → result ≡ Some number }
    {
        let listed = self.listed.as_slice();
        let at = place_of(listed, code);
        number_at(listed, at, code)
    }

    /// The first code from this one on under which no grant is listed.
    pub(crate) fn run_end(&self, code: u64) -> u64
        requires { code < 20 ^ 8 }
        ensures low { code ≤ result }
        ensures run { (k : ℕ) → code ≤ k → k < result → (number : ℕ) × HasItem self.now (under k number) }
    {
        let listed = self.listed.as_slice();
        let at = place_of(listed, code);
        code + run_length(&listed[at..], code) as u64
    }

    /// Leaves out what doesn't pass the test.
    pub(crate) fn keep<F: FnMut(&Listed) -> bool>(&mut self, test: F)
        requires { F.IsAlwaysCallable test }
        ensures { IsFiltered (CalledAt F.FnMut) test self.old self.new }
    {
        self.listed.retain(test);
    }
}
