//! The keys that a server knows.
ghost use Rattle.std.specs.Prelude.{◌≡◌, List, ℕ, Some, IfOk, OnOk, option_map, if◌then◌else◌};
ghost use Rattle.std.specs.Option.{unwrap_or};
ghost use Rattle.gnap_model.specs.Common.{first_of, some_if, same_text};
ghost use Rattle.gnap_model.specs.KeyPlaces.{place_in, Finds};

use crate::objects::KeyRow;
use bytes_and_lists::memory::{Duplicate, Mem};
use bytes_and_lists::seq::Seq;
use std::alloc::Global;
use std::collections::BTreeMap;
use std::marker::Model;

/// Keys in order, found by their ids. Contracts see the list of them.
#[derive(Drop)]
pub struct KeyRows {
    alloc: Global,
    rows: Seq<KeyRow>,
    // The place of the first key with an id.
    places: BTreeMap<Vec<u8>, usize>,
}

impl Model for KeyRows {
    ghost use Rattle.std.specs.Prelude.{List};
    ghost use Rattle.gnap_model.specs.KeyPlaces.{Finds};
    ghost use Rattle.gnap_model.specs.declared.objects.KeyRow.{KeyRow};

    ghost Value = { List KeyRow };

    ghost view = { λ k. k.rows };

    ghost invariant = { λ k. Finds k.places k.rows };
}

// Notes the place of an id, where it has none.
fn note_place(
    alloc: Global,
    places: &mut BTreeMap<Vec<u8>, usize>,
    id: &[u8],
    place: usize,
) -> Result<(), Mem>
    ensures { OnOk result ((q : List ℕ) → place_in places.new q
        ≡ (if same_text id.now q then Some (unwrap_or (place_in places.old id.now) place) else place_in places.old q)) }
{
    if places.get(id).is_none() {
        places.insert(Vec::from_slice(alloc, id)?, place)?;
    }
    Ok(())
}

// The place of the first key with each id.
fn places_of(alloc: Global, rows: &[KeyRow]) -> Result<BTreeMap<Vec<u8>, usize>, Mem>
    ensures { IfOk result (λ places. Finds places rows.now) }
{
    let mut places = BTreeMap::new(alloc);
    for i in 0..rows.len() {
        note_place(alloc, &mut places, rows[i].id.as_slice(), i)?;
    }
    Ok(places)
}

impl KeyRows {
    /// The keys in this order. Takes time that grows with their number, times its logarithm.
    pub fn new(alloc: Global, rows: Seq<KeyRow>) -> Result<KeyRows, Mem>
        ensures { IfOk result (λ keys. keys ≡ rows) }
    {
        let places = places_of(alloc, rows.as_slice())?;
        Ok(KeyRows {
            alloc,
            rows,
            places,
        })
    }

    /// The first key with this id. Takes time that grows with the logarithm of the number of keys.
    pub fn get(&self, id: &[u8]) -> Option<&KeyRow>
        ensures { option_map (λ k. k.now) result ≡ first_of (λ row. some_if (same_text row.id id.now) row) self.now }
    {
        let place = self.places.get(id)?;
        Some(self.rows.at(*place))
    }

    /// All of the keys.
    pub fn as_slice(&self) -> &[KeyRow]
        ensures { result.now ≡ self.now }
    {
        self.rows.as_slice()
    }
}

impl Duplicate for KeyRows {
    fn copy(&self) -> Result<KeyRows, Mem> {
        KeyRows::new(self.alloc, self.rows.copy()?)
    }
}
