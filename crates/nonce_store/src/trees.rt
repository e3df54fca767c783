//! The nonces of each key, in two levels of trees: clients choose nonces, and could choose such as collide under a hash. The texts lie in the nodes
//! themselves: behind pointers each comparison on the way down is a cache miss, and the other workers wait meanwhile. For the same reason each text has its
//! first bytes before it as a number: most comparisons are of two numbers then, and few go through the bytes.
ghost use Rattle.std.specs.Prelude.{◌≡◌, ℕ, ◌+◌, ◌&&◌, List, if◌then◌else◌, OnOk, OnErr, IfSome, ◌≤◌, nat_le, is_some, not, true, false, Some, None};
ghost use Rattle.std.specs.Map.{remove_entry};
ghost use Rattle.std.specs.BTreeMap.{IsOrdered, UpdatesBy, is_at};
ghost use Rattle.gnap_model.specs.Common.{same_text};
ghost use Rattle.signed_calls.specs.Remembering.{is_live_at};
ghost use Rattle.nonce_store.specs.Kept.{under, until_in, is_over_at, many_of, many_in, text_order, are_short, AreOrdered, AreShort, AreShort-prop};

use crate::texts::{Text, text_of};
use bytes_and_lists::memory::Mem;
use std::alloc::Global;
use std::collections::BTreeMap;

/// Of one key, up to which moment each nonce is remembered.
pub type Untils = BTreeMap<Text, u64>;

/// The nonces of each key.
pub type Keys = BTreeMap<Text, Untils>;

// A key and a nonce, where both are short enough.
fn texts_of(key: &[u8], nonce: &[u8]) -> Option<(Text, Text)>
    ensures short { is_some result ≡ are_short key.now nonce.now }
    ensures same { IfSome result (λ texts. (texts.0.bytes.items ≡ key.now) × (texts.1.bytes.items ≡ nonce.now)) }
{
    Some((text_of(key)?, text_of(nonce)?))
}

// Puts in a nonce that isn't there. An `Err` changes nothing.
fn put_under(untils: &mut Untils, nonce: Text, end: u64) -> Result<(), Mem>
    requires { under untils.old nonce.bytes.items ≡ None }
    ensures rows { OnOk result ((n : List ℕ) → under untils.new n ≡ (if same_text nonce.bytes.items n then Some end else under untils.old n)) }
    ensures counts { OnOk result ((m : ℕ) → many_of m untils.new ≡ many_of m untils.old + (if nat_le m end then 1 else 0)) }
    ensures err { OnErr result (untils.new.entries ≡ untils.old.entries) }
    ensures ordered { IsOrdered text_order untils.new }
{
    untils.insert(nonce, end)?;
    Ok(())
}

// Puts in a key with one nonce. An `Err` changes nothing.
fn put_first(alloc: Global, keys: &mut Keys, key: Text, nonce: Text, end: u64) -> Result<(), Mem>
    requires { under keys.old key.bytes.items ≡ None }
    ensures rows { OnOk result ((k n : List ℕ) → until_in keys.new k n
        ≡ (if same_text key.bytes.items k && same_text nonce.bytes.items n then Some end else until_in keys.old k n)) }
    ensures counts { OnOk result ((m : ℕ) → many_in keys.new m ≡ many_in keys.old m + (if nat_le m end then 1 else 0)) }
    ensures err { OnErr result (keys.new.entries ≡ keys.old.entries) }
    ensures ordered { AreOrdered keys.old → AreOrdered keys.new }
{
    let mut untils = BTreeMap::new(alloc);
    put_under(&mut untils, nonce, end)?;
    keys.insert(key, untils)?;
    Ok(())
}

// Puts in a nonce that isn't there. An `Err` changes nothing.
fn put_in(alloc: Global, keys: &mut Keys, key: Text, nonce: Text, end: u64) -> Result<(), Mem>
    requires { until_in keys.old key.bytes.items nonce.bytes.items ≡ None }
    ensures rows { OnOk result ((k n : List ℕ) → until_in keys.new k n
        ≡ (if same_text key.bytes.items k && same_text nonce.bytes.items n then Some end else until_in keys.old k n)) }
    ensures counts { OnOk result ((m : ℕ) → many_in keys.new m ≡ many_in keys.old m + (if nat_le m end then 1 else 0)) }
    ensures err { OnErr result (((k n : List ℕ) → until_in keys.new k n ≡ until_in keys.old k n) × ((m : ℕ) → many_in keys.new m ≡ many_in keys.old m)) }
    ensures ordered { AreOrdered keys.old → AreOrdered keys.new }
{
    match keys.get_mut(&key) {
        Some(untils) => put_under(untils, nonce, end),
        None => put_first(alloc, keys, key, nonce, end),
    }
}

// Takes the nonce out, and says whether it was there.
fn take_out(keys: &mut Keys, key: &Text, nonce: &Text) -> bool
    ensures there { result ≡ is_some (until_in keys.old key.now.bytes.items nonce.now.bytes.items) }
    ensures rows { (k n : List ℕ) → until_in keys.new k n
        ≡ (if same_text key.now.bytes.items k && same_text nonce.now.bytes.items n then None else until_in keys.old k n) }
    ensures counts { (m : ℕ) → many_in keys.new m + (if is_live_at m (until_in keys.old key.now.bytes.items nonce.now.bytes.items) then 1 else 0)
        ≡ many_in keys.old m }
    ensures ordered { AreOrdered keys.old → AreOrdered keys.new }
{
    match keys.get_mut(key) {
        Some(untils) => untils.remove(nonce).is_some(),
        None => false,
    }
}

// Takes the nonce out if it isn't remembered any more, and says whether it did.
fn take_over_under(untils: &mut Untils, nonce: &Text, latest: u64) -> bool
    ensures over { result ≡ is_over_at latest (under untils.old nonce.now.bytes.items) }
    ensures updates { result ≡ true → UpdatesBy text_order (text_order nonce.now) untils.old untils.new None }
    ensures entries { result ≡ true → untils.new.entries ≡ remove_entry (is_at (text_order nonce.now)) untils.old.entries }
    ensures stays { result ≡ false → untils.new.entries ≡ untils.old.entries }
    ensures ordered { IsOrdered text_order untils.old → IsOrdered text_order untils.new }
{
    match untils.get(nonce) {
        Some(end) if *end < latest => untils.remove(nonce).is_some(),
        _ => false,
    }
}

// The same of a key's nonce.
fn take_out_over(keys: &mut Keys, key: &Text, nonce: &Text, latest: u64) -> bool
    ensures over { result ≡ is_over_at latest (until_in keys.old key.now.bytes.items nonce.now.bytes.items) }
    ensures rows { (k n : List ℕ) → until_in keys.new k n
        ≡ (if result && (same_text key.now.bytes.items k && same_text nonce.now.bytes.items n) then None else until_in keys.old k n) }
    ensures counts { (m : ℕ) → many_in keys.new m
        + (if result && is_live_at m (until_in keys.old key.now.bytes.items nonce.now.bytes.items) then 1 else 0) ≡ many_in keys.old m }
    ensures ordered { AreOrdered keys.old → AreOrdered keys.new }
{
    match keys.get_mut(key) {
        Some(untils) => take_over_under(untils, nonce, latest),
        None => false,
    }
}

/// The nonces of each key, and how many there are. A key whose nonces are all taken out keeps its place.
#[derive(Drop)]
pub struct KeyedNonces {
    keys: Keys,
    count: usize,
    ghost counted: { count ≡ many_in keys 0 },
    ghost ordered: { ∥ AreOrdered keys ∥₁ },
    ghost short: { AreShort keys } by { AreShort-prop keys },
}

impl KeyedNonces {
    /// No nonces. Takes no memory.
    pub fn new(alloc: Global) -> KeyedNonces
        ensures none { (k n : List ℕ) → until_in result.keys k n ≡ None }
        ensures many { (m : ℕ) → many_in result.keys m ≡ 0 }
    {
        KeyedNonces {
            keys: BTreeMap::new(alloc),
            count: 0,
        }
    }

    /// Up to which moment the key's nonce is remembered.
    pub fn until(&self, key: &[u8], nonce: &[u8]) -> Option<u64>
        ensures { result ≡ until_in self.now.keys key.now nonce.now }
    {
        let (key, nonce) = texts_of(key, nonce)?;
        let untils = self.keys.get(&key)?;
        untils.get(&nonce).copied()
    }

    /// How many there are, which is how many are remembered at a moment at which all are.
    pub fn count(&self) -> usize
        ensures { (m : ℕ) → ((k n : List ℕ) → is_some (until_in self.now.keys k n) ≡ is_live_at m (until_in self.now.keys k n))
            → result ≡ many_in self.now.keys m }
    {
        self.count
    }

    /// Puts in a nonce that isn't there. An `Err` changes nothing.
    pub fn put(&mut self, alloc: Global, key: &[u8], nonce: &[u8], end: u64) -> Result<(), Mem>
        requires { until_in self.old.keys key.now nonce.now ≡ None }
        ensures rows { OnOk result ((k n : List ℕ) → until_in self.new.keys k n
            ≡ (if same_text key.now k && same_text nonce.now n then Some end else until_in self.old.keys k n)) }
        ensures counts { OnOk result ((m : ℕ) → many_in self.new.keys m ≡ many_in self.old.keys m + (if nat_le m end then 1 else 0)) }
        ensures err { OnErr result (((k n : List ℕ) → until_in self.new.keys k n ≡ until_in self.old.keys k n)
            × ((m : ℕ) → many_in self.new.keys m ≡ many_in self.old.keys m)) }
    {
        if self.count == usize::MAX {
            return Err(Mem);
        }
        let Some((key, nonce)) = texts_of(key, nonce) else {
            return Err(Mem);
        };
        put_in(alloc, &mut self.keys, key, nonce, end)?;
        self.count += 1;
        Ok(())
    }

    /// Takes the nonce out, where it is there.
    pub fn take(&mut self, key: &[u8], nonce: &[u8])
        ensures rows { (k n : List ℕ) → until_in self.new.keys k n
            ≡ (if same_text key.now k && same_text nonce.now n then None else until_in self.old.keys k n) }
        ensures counts { (m : ℕ) → many_in self.new.keys m + (if is_live_at m (until_in self.old.keys key.now nonce.now) then 1 else 0)
            ≡ many_in self.old.keys m }
    {
        let Some((key, nonce)) = texts_of(key, nonce) else {
            return;
        };
        if take_out(&mut self.keys, &key, &nonce) {
            self.count -= 1;
        }
    }

    /// Takes the nonce out if it isn't remembered any more.
    pub fn take_if_over(&mut self, key: &[u8], nonce: &[u8], latest: u64)
        ensures rows { (k n : List ℕ) → until_in self.new.keys k n
            ≡ (if (same_text key.now k && same_text nonce.now n) && not (is_live_at latest (until_in self.old.keys k n))
            then None else until_in self.old.keys k n) }
        ensures counts { (m : ℕ) → latest ≤ m → many_in self.new.keys m ≡ many_in self.old.keys m }
    {
        let Some((key, nonce)) = texts_of(key, nonce) else {
            return;
        };
        if take_out_over(&mut self.keys, &key, &nonce, latest) {
            self.count -= 1;
        }
    }

    /// Takes all nonces out, and their keys.
    pub fn forget_all(&mut self)
        ensures rows { (k n : List ℕ) → until_in self.new.keys k n ≡ None }
        ensures counts { (m : ℕ) → many_in self.new.keys m ≡ 0 }
    {
        self.keys.clear();
        self.count = 0;
    }
}
