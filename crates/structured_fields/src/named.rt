//! Values under names, in order.
ghost use Rattle.std.specs.Prelude.{◌≡◌, ◌<◌, ◌≤◌, ℕ, List, [], Some, None, length, slice_get, IfSome, IsSome, OnOk, OnErr, true};
ghost use Rattle.std.specs.Option.{option_copied};
ghost use Rattle.structured_fields.specs.Named.{value_at, with_value, place_of, IsDistinct, few};
ghost use Rattle.structured_fields.specs.NameNotes.{noted, Extends};

use crate::name_notes::{Notes, note, noted};
use bytes_and_lists::bytes::Bytes;
use bytes_and_lists::memory::Mem;
use std::alloc::Global;
use std::marker::Model;

// So many entries are looked through one by one. Of more, notes tell where a name stands, since names come from others, who could send thousands, or choose
// such as collide under a hash.
const FEW: usize = 8;

/// Values under distinct names, in the order in which the names came. Contracts see the list of names and values.
#[derive(Drop)]
pub struct Named<V: Drop> {
    entries: Vec<(Bytes, V)>,
    // Where there are more than a few: which names there are, and where.
    notes: Notes,
}

impl<V: Drop> Model for Named<V> {
    ghost use Rattle.std.specs.Prelude.{ℕ, List};
    ghost use Rattle.std.specs.Coded.{coded×, coded_ℕ, coded_list};

    ghost Value = { List (List ℕ × V) };

    ghost coded = { coded_list (coded× (coded_list coded_ℕ) V.code) };

    ghost use Rattle.structured_fields.specs.Named.{Covers, IsDistinct};

    ghost view = { λ p. p.entries.items };

    ghost invariant = { λ p. Covers p.notes.items p.entries.items × IsDistinct p.entries.items };
}

// The place of a name in a list of entries.
fn place_among<V>(entries: &[(Bytes, V)], name: &[u8]) -> Option<usize>
    ensures { result ≡ place_of entries.now name.now }
{
    for (i, entry) in entries.iter().enumerate() {
        if name == entry.0.as_slice() {
            return Some(i);
        }
    }
    None
}

// Notes the names of all entries.
fn note_all<V>(notes: &mut Notes, entries: &[(Bytes, V)]) -> Result<(), Mem>
    ensures ok { OnOk result ((name : List ℕ) → noted notes.new.items name ≡ None → place_of entries.now name ≡ None) }
    ensures extends { Extends notes.old.items notes.new.items }
{
    for (i, entry) in entries.iter().enumerate() {
        note(notes, entry.0.as_slice(), i)?;
    }
    Ok(())
}

// Notes all names and a new one, where there are a few before it.
fn note_first<V>(notes: &mut Notes, entries: &[(Bytes, V)], name: &[u8]) -> Result<(), Mem>
    ensures all { few ≤ length entries.now → OnOk result ((other : List ℕ) → noted notes.new.items other ≡ None → place_of entries.now other ≡ None) }
    ensures ok { few ≤ length entries.now → OnOk result (IsSome (noted notes.new.items name.now)) }
{
    if entries.len() < FEW {
        return Ok(());
    }
    note_all(notes, entries)?;
    note(notes, name, entries.len())?;
    Ok(())
}

impl<V: Drop> Named<V> {
    /// No values. Takes no memory.
    pub fn new(alloc: Global) -> Self
        ensures { result ≡ [] }
    {
        Named {
            entries: Vec::new(alloc),
            notes: Vec::new(alloc),
        }
    }

    pub fn len(&self) -> usize
        ensures len { result ≡ length self.now }
        ensures distinct { IsDistinct self.now }
    {
        self.entries.len()
    }

    pub fn at(&self, i: usize) -> (&Bytes, &V)
        requires { i < length self.now }
        ensures { slice_get self.now i ≡ Some (result.0.now, result.1.now) }
    {
        let pair = &self.entries[i];
        (&pair.0, &pair.1)
    }

    fn has_at(&self, place: usize, name: &[u8]) -> bool
        ensures { result ≡ true → place_of self.now name.now ≡ Some place }
    {
        if place >= self.len() {
            return false;
        }
        let (other, _) = self.at(place);
        other.as_slice() == name
    }

    // The place of a name of which this was noted before.
    fn place_told(&self, told: Option<u32>, name: &[u8]) -> Option<usize>
        requires { told ≡ None → place_of self.now name.now ≡ None }
        ensures { result ≡ place_of self.now name.now }
    {
        let place = (told? as usize).saturating_sub(1);
        if self.has_at(place, name) {
            return Some(place);
        }
        place_among(self.entries.as_slice(), name)
    }

    // The place of a name.
    fn place(&self, name: &[u8]) -> Option<usize>
        ensures place { result ≡ place_of self.now name.now }
        ensures within { IfSome result (λ i. i < length self.now) }
    {
        if self.len() <= FEW {
            return place_among(self.entries.as_slice(), name);
        }
        self.place_told(noted(self.notes.as_slice(), name), name)
    }

    /// The value under the name. None exactly where the name isn't there.
    pub fn get(&self, name: &[u8]) -> Option<&V>
        ensures { option_copied result ≡ value_at self.now name.now }
    {
        let (_, value) = self.at(self.place(name)?);
        Some(value)
    }

    // Puts a new name and its value last, behind a few at most. An `Err` changes nothing.
    fn add(&mut self, name: Bytes, value: V) -> Result<(), Mem>
        requires few { length self.old ≤ few }
        requires new { place_of self.old name ≡ None }
        ensures ok { OnOk result (self.new ≡ with_value self.old name value) }
        ensures err { OnErr result (self.new ≡ self.old) }
    {
        // With room for the entry nothing fails once its name is noted.
        self.entries.reserve(1)?;
        note_first(&mut self.notes, self.entries.as_slice(), name.as_slice())?;
        match self.entries.push((name, value)) {
            Ok(()) => Ok(()),
            Err(_) => unreachable!(),
        }
    }

    // Puts the value under the name, among more than a few. An `Err` changes nothing.
    fn set_among(&mut self, name: Bytes, value: V) -> Result<(), Mem>
        requires { few < length self.old }
        ensures ok { OnOk result (self.new ≡ with_value self.old name value) }
        ensures err { OnErr result (self.new ≡ self.old) }
    {
        let last = self.len();
        self.entries.reserve(1)?;
        let told = note(&mut self.notes, name.as_slice(), last)?;
        match self.place_told(told, name.as_slice()) {
            Some(place) => {
                drop(name);
                self.entries[place].1 = value;
                Ok(())
            }
            None => match self.entries.push((name, value)) {
                Ok(()) => Ok(()),
                Err(_) => unreachable!(),
            },
        }
    }

    /// Puts the value under the name: in its place where the name is there, last where it isn't. An `Err` changes nothing.
    pub fn set(&mut self, name: Bytes, value: V) -> Result<(), Mem>
        ensures ok { OnOk result (self.new ≡ with_value self.old name value) }
        ensures err { OnErr result (self.new ≡ self.old) }
    {
        if self.len() > FEW {
            return self.set_among(name, value);
        }
        match self.place(name.as_slice()) {
            Some(place) => {
                drop(name);
                self.entries[place].1 = value;
                Ok(())
            }
            None => self.add(name, value),
        }
    }
}
