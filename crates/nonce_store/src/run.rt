//! The nonces of one second, packed: at full load there are a thousand, and each stands in the trees besides.
ghost use Rattle.std.specs.Prelude.{◌≡◌, ◌++◌, ◌||◌, ◌&&◌, ◌+◌, ◌≤◌, ℕ, List, OnOk, OnErr, IfOk, true, false, length, take, vec_len, vec_capacity};
ghost use Rattle.std.specs.List.{list_all, slice_range};
ghost use Rattle.gnap_model.specs.Common.{same_text};
ghost use Rattle.nonce_store.specs.Places.{is_within, IsNext};

use bytes_and_lists::memory::Mem;
use std::alloc::Global;

/// Where a key and its nonce stand among the texts: the key from `start` to `middle`, the nonce from there to `end`.
#[derive(Clone, Copy)]
pub struct Place {
    start: u32,
    middle: u32,
    end: u32,
}

/// The nonces of one second, each with its key. Their texts lie one behind the other, so none takes memory of its own.
#[derive(Drop)]
pub struct Run {
    texts: Vec<u8>,
    places: Vec<Place>,
    ghost within: { list_all (is_within (length texts.items)) places.items ≡ true },
}

// Room for so many more, and for an eighth of what there is at least: a `Vec` that grows by itself takes twice as much.
fn make_room<T: Drop>(items: &mut Vec<T>, more: usize) -> Result<(), Mem>
    ensures items { items.new.items ≡ items.old.items }
    ensures room { OnOk result (vec_len items.new + more ≤ vec_capacity items.new) }
{
    if items.capacity() - items.len() < more {
        items.reserve_exact(more.max(items.len() / 8))?;
    }
    Ok(())
}

// The place behind so many bytes, of a key and a nonce that have so many. A second holds less than 4 GiB.
fn next_place(start: usize, key: usize, nonce: usize) -> Result<Place, Mem>
    ensures { IfOk result (λ place. IsNext start key nonce place) }
{
    let middle = start.saturating_add(key);
    let end = middle.saturating_add(nonce);
    if end > u32::MAX as usize {
        return Err(Mem);
    }
    Ok(Place {
        start: start as u32,
        middle: middle as u32,
        end: end as u32,
    })
}

// Puts a key and a nonce behind the texts. An `Err` may leave a part of them there.
fn append(texts: &mut Vec<u8>, key: &[u8], nonce: &[u8]) -> Result<(), Mem>
    ensures stays { take (length texts.old.items) texts.new.items ≡ texts.old.items }
    ensures longer { length texts.old.items ≤ length texts.new.items }
    ensures ok { OnOk result (texts.new.items ≡ texts.old.items ++ (key.now ++ nonce.now)) }
{
    make_room(texts, key.len().saturating_add(nonce.len()))?;
    texts.extend_from_slice(key)?;
    texts.extend_from_slice(nonce)?;
    Ok(())
}

impl Run {
    ghost use Rattle.nonce_store.specs.Kept.{has};

    /// No nonces. Takes no memory.
    pub fn new(alloc: Global) -> Run
        ensures { (k n : List ℕ) → has result k n ≡ false }
    {
        Run {
            texts: Vec::new(alloc),
            places: Vec::new(alloc),
        }
    }

    /// Adds a nonce of a key. An `Err` adds none.
    pub fn push(&mut self, key: &[u8], nonce: &[u8]) -> Result<(), Mem>
        ensures ok { OnOk result ((k n : List ℕ) → has self.new k n ≡ (has self.old k n || (same_text key.now k && same_text nonce.now n))) }
        ensures err { OnErr result ((k n : List ℕ) → has self.new k n ≡ has self.old k n) }
    {
        let place = next_place(self.texts.as_slice().len(), key.len(), nonce.len())?;
        make_room(&mut self.places, 1)?;
        append(&mut self.texts, key, nonce)?;
        self.places.push_reserved(place);
        Ok(())
    }

    /// Where each nonce stands.
    pub fn places(&self) -> &[Place]
        ensures { result.now ≡ self.now.places.items }
    {
        self.places.as_slice()
    }

    /// The key at a place.
    pub fn key(&self, place: &Place) -> &[u8]
        requires { is_within (length self.now.texts.items) place.now ≡ true }
        ensures { result.now ≡ slice_range self.now.texts.items place.now.start place.now.middle }
    {
        &self.texts[place.start as usize..place.middle as usize]
    }

    /// The nonce at a place.
    pub fn nonce(&self, place: &Place) -> &[u8]
        requires { is_within (length self.now.texts.items) place.now ≡ true }
        ensures { result.now ≡ slice_range self.now.texts.items place.now.middle place.now.end }
    {
        &self.texts[place.middle as usize..place.end as usize]
    }
}
