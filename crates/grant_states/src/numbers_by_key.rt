//! Numbers that are found by keys.
ghost use Rattle.std.specs.Prelude.{◌≡◌, ◌+◌, ◌<◌, ◌≤◌, [], None, length, slice_get, get_or, vec_len, vec_capacity, IfSome, OnOk};
ghost use Rattle.std.specs.List.Sorted.{IsNonDecreasingBy};
ghost use Rattle.std.specs.Fn.{CalledAt};
ghost use Rattle.std.specs.List.Retain.{IsFiltered};
ghost use Rattle.gnap_tables.proofs.Lists.{HasItem};
ghost use Rattle.grant_states.specs.Listed.{under, key_of, number_where, IsStartOf, IsEndOf};
ghost use Rattle.grant_states.specs.declared.numbers_by_key.Listed.{Listed};

use bytes_and_lists::memory::Mem;
use ordered_search::Keyed;
use std::alloc::Global;
use std::marker::Model;

/// A number that is listed under a key.
#[derive(Clone, Copy)]
pub struct Listed {
    /// The key.
    pub key: u64,
    /// The number.
    pub number: u64,
}

impl Keyed for Listed {
    ghost key_of = { λ one. one.key };

    fn key(&self) -> u64 {
        self.key
    }
}

/// Numbers that are listed under keys, in order of the keys. A key may have several numbers.
#[derive(Drop)]
pub struct NumbersByKey {
    listed: Vec<Listed>,
}

impl Model for NumbersByKey {
    ghost use Rattle.std.specs.Prelude.{◌-◌, vec_len, vec_capacity};
    ghost use Rattle.std.specs.List.Sorted.{IsNonDecreasingBy};
    ghost use Rattle.grant_states.specs.Listed.{ListedNumbers, key_of};

    ghost Value = { ListedNumbers };

    ghost view = { λ s. record { listed = s.listed.items; spare = vec_capacity s.listed - vec_len s.listed } };

    ghost invariant = { λ s. IsNonDecreasingBy key_of s.listed.items };
}

/// The number at a place, where it has this key.
pub(crate) fn number_at(listed: &[Listed], at: usize, key: u64) -> Option<u64>
    ensures { result ≡ number_where key (slice_get listed.now at) }
{
    match listed.get(at) {
        Some(one) => {
            if one.key == key {
                Some(one.number)
            } else {
                None
            }
        }
        None => None,
    }
}

// How many numbers are listed under lower keys.
fn start_of(listed: &[Listed], key: u64) -> usize
    requires { IsNonDecreasingBy key_of listed.now }
    ensures within { result ≤ length listed.now }
    ensures start { IsStartOf key listed.now result }
{
    listed.partition_point(|one| one.key < key)
}

// How many are listed under lower keys or this one.
fn end_of(listed: &[Listed], key: u64) -> usize
    requires { IsNonDecreasingBy key_of listed.now }
    ensures within { result ≤ length listed.now }
    ensures end { IsEndOf key listed.now result }
{
    listed.partition_point(|one| one.key <= key)
}

// Where a number stands under a key.
fn place_under(listed: &[Listed], key: u64, number: u64) -> Option<usize>
    requires { IsNonDecreasingBy key_of listed.now }
    ensures found { IfSome result (λ at. (at < length listed.now) × ((d : Listed) → get_or listed.now at d ≡ under key number)) }
    ensures missing { result ≡ None → HasItem listed.now (under key number) → ⊥ }
{
    let mut at = start_of(listed, key);
    while at < listed.len() && listed[at].key == key {
        if listed[at].number == number {
            return Some(at);
        }
        at += 1;
    }
    None
}

// Takes out what is listed under a key.
fn take_run(listed: &mut Vec<Listed>, key: u64)
    requires { IsNonDecreasingBy key_of listed.old.items }
    ensures order { IsNonDecreasingBy key_of listed.new.items }
    ensures gone { (one : Listed) → HasItem listed.new.items one → one.key ≡ key → ⊥ }
    ensures kept { (one : Listed) → HasItem listed.old.items one → (one.key ≡ key → ⊥) → HasItem listed.new.items one }
    ensures only { (one : Listed) → HasItem listed.new.items one → HasItem listed.old.items one }
    ensures fewer { vec_len listed.new ≤ vec_len listed.old }
    ensures capacity { vec_capacity listed.new ≡ vec_capacity listed.old }
{
    let first = start_of(listed.as_slice(), key);
    while first < listed.len() && listed[first].key == key {
        let _gone = listed.remove(first);
    }
}

impl NumbersByKey {
    /// None. Takes no memory.
    pub fn new(alloc: Global) -> NumbersByKey
        ensures { result.listed ≡ [] }
    {
        NumbersByKey {
            listed: Vec::new(alloc),
        }
    }

    /// How many numbers are listed.
    pub fn len(&self) -> usize
        ensures { result ≡ length self.now.listed }
    {
        self.listed.len()
    }

    /// Leaves out what doesn't pass the test.
    pub fn keep<F: FnMut(&Listed) -> bool>(&mut self, test: F)
        requires { F.IsAlwaysCallable test }
        ensures { IsFiltered (CalledAt F.FnMut) test self.old.listed self.new.listed }
    {
        self.listed.retain(test);
    }

    /// Takes memory for so many more. An `Err` takes none out.
    pub fn reserve(&mut self, more: usize) -> Result<(), Mem>
        ensures listed { self.new.listed ≡ self.old.listed }
        ensures ok { OnOk result (more ≤ self.new.spare) }
    {
        if self.listed.reserve(more).is_err() {
            return Err(Mem);
        }
        Ok(())
    }

    /// Lists a number under a key. Takes no memory.
    pub fn list(&mut self, key: u64, number: u64)
        requires room { 0 < self.old.spare }
        ensures listed { HasItem self.new.listed (under key number) }
        ensures kept { (one : Listed) → HasItem self.old.listed one → HasItem self.new.listed one }
        ensures spare { self.old.spare ≡ self.new.spare + 1 }
    {
        let at = end_of(self.listed.as_slice(), key);
        let Ok(()) = self.listed.insert(at, Listed { key, number }) else {
            unreachable!()
        };
    }

    /// Takes a number out from under a key, once, where it is listed there. Takes no memory. It reads what is listed under the key, as far as the number.
    pub fn unlist(&mut self, key: u64, number: u64)
        ensures taken { HasItem self.old.listed (under key number) → length self.new.listed + 1 ≡ length self.old.listed }
        ensures kept { (one : Listed) → HasItem self.old.listed one → (one ≡ under key number → ⊥) → HasItem self.new.listed one }
        ensures only { (one : Listed) → HasItem self.new.listed one → HasItem self.old.listed one }
        ensures spare { self.old.spare ≤ self.new.spare }
    {
        if let Some(at) = place_under(self.listed.as_slice(), key, number) {
            let _gone = self.listed.remove(at);
        }
    }

    /// Takes all numbers out from under a key. Takes no memory.
    pub fn unlist_all(&mut self, key: u64)
        ensures gone { (one : Listed) → HasItem self.new.listed one → one.key ≡ key → ⊥ }
        ensures kept { (one : Listed) → HasItem self.old.listed one → (one.key ≡ key → ⊥) → HasItem self.new.listed one }
        ensures only { (one : Listed) → HasItem self.new.listed one → HasItem self.old.listed one }
        ensures spare { self.old.spare ≤ self.new.spare }
    {
        take_run(&mut self.listed, key);
    }

    /// What is listed under a key.
    pub fn of(&self, key: u64) -> &[Listed]
        ensures { (one : Listed) → HasItem self.now.listed one → one.key ≡ key → HasItem result.now one }
    {
        let listed = self.listed.as_slice();
        let low = start_of(listed, key);
        let from = &listed[low..];
        let high = end_of(from, key);
        &from[..high]
    }
}
