//! The sets that were registered, as they are stored and searched.
ghost use Rattle.std.specs.Prelude.{◌≡◌, [], ◌∷◌, ◌++◌, length, option_map, IfOk, OnOk, OnErr};
ghost use Rattle.std.specs.Bool.{Decides};
ghost use Rattle.std.specs.Option.{MatchOption};
ghost use Rattle.resource_sets.specs.Sets.{set_of, set_named};
ghost use Rattle.resource_sets.specs.Fingerprints.{fingerprint};
ghost use Rattle.resource_sets.specs.declared.sets.SetReply.TheVariants.{Resolved};
ghost use Rattle.resource_sets.specs.KeptNotes.{AreKept};
ghost use Rattle.resource_sets.specs.Listing.{IsPlaceIn, IsSetAt, set_at};
ghost use Rattle.resource_sets.specs.declared.sets.SetNote.{SetNote};

use crate::sameness::Same;
use crate::sets::SetReply;
use bytes_and_lists::bytes::Bytes;
use bytes_and_lists::memory::{Duplicate, Mem};
use gnap_model::rights::Rights;
use grant_states::{NumbersByKey, serial_in_value};
use kept_rights::KeptRights;
use std::alloc::Global;
use std::marker::Model;

/// A set that was registered. Contracts see its note.
#[derive(Drop)]
pub(crate) struct RegisteredSet {
    serial: u64,
    server: Bytes,
    rights: KeptRights,
    reference: [u8; 32],
}

impl Model for RegisteredSet {
    ghost use Rattle.resource_sets.specs.declared.sets.SetNote.{SetNote};

    ghost Value = { SetNote };

    ghost view = { λ set. record { serial = set.serial; server = set.server; rights = set.rights; reference = set.reference } };
}

impl RegisteredSet {
    /// A set with its serial and its reference. The error is want of memory.
    pub(crate) fn new(
        alloc: Global,
        serial: u64,
        server: &Bytes,
        rights: &Rights,
        reference: [u8; 32],
    ) -> Result<RegisteredSet, Mem>
        ensures { IfOk result (λ set. set ≡ record { serial = serial; server = server.now; rights = rights.now; reference = reference }) }
    {
        Ok(RegisteredSet {
            serial,
            server: server.copy()?,
            rights: KeptRights::keep(alloc, rights)?,
            reference,
        })
    }

    /// Its reference.
    pub(crate) fn reference(&self) -> [u8; 32]
        ensures { result ≡ self.now.reference }
    {
        self.reference
    }

    /// What its reference means. The error is want of memory.
    pub(crate) fn meaning(&self, alloc: Global) -> Result<SetReply, Mem>
        ensures { IfOk result (λ reply. reply ≡ Resolved self.now.server self.now.rights) }
    {
        Ok(SetReply::Resolved {
            server: self.server.copy()?,
            rights: self.rights.rights(alloc)?,
        })
    }

    // It is the server's, and has these rights in this order. The error is want of memory.
    fn is_of(&self, alloc: Global, server: &Bytes, rights: &Rights) -> Result<bool, Mem>
        ensures { IfOk result (λ same. Decides same ((self.now.server ≡ server.now) × (self.now.rights ≡ rights.now))) }
    {
        if !self.server.is_same(server) {
            return Ok(false);
        }
        Ok(self.rights.rights(alloc)?.is_same(rights))
    }
}

// The place of the set whose reference this is, if it is one's.
fn place_in(reference: &[u8]) -> Option<u64>
    ensures { IsPlaceIn result reference.now }
{
    let serial = serial_in_value(reference)?;
    serial.checked_sub(1)
}

/// The sets in the order of their registration, with an index of their places by their fingerprints. Contracts see the notes.
#[derive(Drop)]
pub(crate) struct Registry {
    sets: Vec<RegisteredSet>,
    places: NumbersByKey,
}

impl Model for Registry {
    ghost use Rattle.std.specs.Prelude.{List};
    ghost use Rattle.resource_sets.specs.declared.sets.SetNote.{SetNote};
    ghost use Rattle.resource_sets.specs.Listing.{AreListed};

    ghost Value = { List SetNote };

    ghost view = { λ s. s.sets.items };

    ghost invariant = { λ s. AreListed s.places.listed s.sets.items };
}

impl Registry {
    /// No sets. Takes no memory.
    pub(crate) fn new(alloc: Global) -> Registry
        ensures { result ≡ [] }
    {
        Registry {
            sets: Vec::new(alloc),
            places: NumbersByKey::new(alloc),
        }
    }

    /// How many sets there are.
    pub(crate) fn len(&self) -> usize
        ensures { result ≡ length self.now }
    {
        self.sets.len()
    }

    // The set at a place, where it has this reference.
    fn set_at(&self, place: u64, reference: &[u8]) -> Option<&RegisteredSet>
        ensures { option_map (λ set. set.now) result ≡ set_at place reference.now self.now }
    {
        let set = self.sets.get(place as usize);
        set.filter(|set| set.reference.as_slice() == reference)
    }

    /// The set with this reference, found by the serial in it.
    pub(crate) fn named(&self, reference: &[u8]) -> Option<&RegisteredSet>
        requires { AreKept self.now }
        ensures { option_map (λ set. set.now) result ≡ set_named reference.now self.now }
    {
        let place = place_in(reference)?;
        self.set_at(place, reference)
    }

    // The set at a place, where it is the server's and has these rights. The error is want of memory.
    fn same_at(
        &self,
        alloc: Global,
        place: u64,
        server: &Bytes,
        rights: &Rights,
    ) -> Result<Option<&RegisteredSet>, Mem>
        ensures { IfOk result (λ found. MatchOption found ((set : SetNote) → IsSetAt server.now rights.now self.now place set → ⊥)
            (λ set. IsSetAt server.now rights.now self.now place set.now)) }
    {
        match self.sets.get(place as usize) {
            Some(set) if set.is_of(alloc, server, rights)? => Ok(Some(set)),
            _ => Ok(None),
        }
    }

    /// The server's set with these rights, found by the set's fingerprint. The error is want of memory.
    pub(crate) fn known(
        &self,
        alloc: Global,
        print: u64,
        server: &Bytes,
        rights: &Rights,
    ) -> Result<Option<&RegisteredSet>, Mem>
        requires kept { AreKept self.now }
        requires print { print ≡ fingerprint server.now rights.now }
        ensures { IfOk result (λ found. option_map (λ set. set.now) found ≡ set_of server.now rights.now self.now) }
    {
        for one in self.places.of(print) {
            match self.same_at(alloc, one.number, server, rights)? {
                Some(set) => return Ok(Some(set)),
                None => continue,
            }
        }
        Ok(None)
    }

    /// Adds a set with this fingerprint. An `Err` changes nothing.
    pub(crate) fn add(&mut self, print: u64, set: RegisteredSet) -> Result<(), Mem>
        requires { print ≡ fingerprint set.server set.rights }
        ensures ok { OnOk result (self.new ≡ self.old ++ set ∷ []) }
        ensures err { OnErr result (self.new ≡ self.old) }
    {
        self.places.reserve(1)?;
        let place = self.sets.len() as u64;
        if self.sets.push(set).is_err() {
            return Err(Mem);
        }
        self.places.list(print, place);
        Ok(())
    }
}
