//! Pairs of client keys and resource servers, read from bytes.
ghost use Rattle.std.specs.Prelude.{◌≡◌, ◌⊎◌, [], IfOk, IsUtf8, None, option_map};
ghost use Rattle.std.specs.List.{AllByRecursion};
ghost use Rattle.serde_json.specs.View.{view, items_view};
ghost use Rattle.structured_fields.specs.Named.{value_at};
ghost use Rattle.json_objects.specs.Reading.{Gives};
ghost use Rattle.gnap_model.specs.Keys.{key_of};
ghost use Rattle.gnap_objects.specs.declared.fault.ObjectFault.TheVariants as faults;
ghost use Rattle.gnap_objects.specs.declared.setups.SetupFault.TheVariants.{OutOfMemory};
ghost use Rattle.derivation_requests.specs.Pairs.{PairFits, ArePairs, has_role, key_id_of, pair_of, pairs_from, counted_pairs, pairs_in, pairs_of};

use crate::pairs::Pairs;
use bytes_and_lists::bytes::Bytes;
use bytes_and_lists::memory::Mem;
use gnap_model::objects::{KeyRow, Role, Setup};
use gnap_objects::members::{required_items, required_text, without_others};
use gnap_objects::setup_members::object_of;
use gnap_objects::{ObjectFault, SetupFault};
use serde_json::Value;
use std::alloc::Global;

fn wrong(alloc: Global, name: &str) -> ObjectFault
    ensures { (result ≡ faults.OutOfMemory) ⊎ (result ≡ faults.Wrong name.now) }
{
    match Bytes::from_slice(alloc, name.as_bytes()) {
        Ok(name) => ObjectFault::Wrong(name),
        Err(Mem) => ObjectFault::OutOfMemory,
    }
}

fn has_role(role: Role, key: Option<&KeyRow>) -> bool
    ensures { result ≡ has_role role (option_map (λ k. k.now) key.entry) }
{
    match key {
        Some(key) => matches!(
            (role, key.role),
            (Role::Client, Role::Client) | (Role::Server, Role::Server) | (Role::Front, Role::Front)
        ),
        None => false,
    }
}

// Whether the setup has a key with this id in this role.
fn has_key(setup: &Setup, role: Role, id: &[u8]) -> bool
    ensures { result ≡ has_role role (key_of setup.now id.now) }
{
    has_role(role, setup.keys.get(id))
}

// The id of a key of the setup that has this role.
#[tactic(auto, unfolding(crate::specs::Pairs::key_id_of))]
fn key_id_of(
    alloc: Global,
    setup: &Setup,
    role: Role,
    name: &str,
    value: &Value,
) -> Result<Bytes, ObjectFault>
    ensures value { Gives faults.OutOfMemory (λ s. s) result (key_id_of setup.now role name.now (view value.now)) }
    ensures utf8 { IfOk result IsUtf8 }
{
    let id = required_text(alloc, value, name)?;
    if !has_key(setup, role, id.as_slice()) {
        return Err(wrong(alloc, name));
    }
    Ok(id)
}

// The pair that the value is, after those before.
#[tactic(auto, unfolding(crate::specs::Pairs::pair_of))]
fn pair_of(
    alloc: Global,
    setup: &Setup,
    before: &Pairs,
    value: &Value,
) -> Result<(Bytes, Bytes), ObjectFault>
    ensures value { Gives faults.OutOfMemory (λ p. p) result (pair_of setup.now before.now (view value.now)) }
    ensures new { IfOk result (λ p. value_at before.now p.0 ≡ None) }
    ensures fits { IfOk result PairFits }
{
    let client = key_id_of(alloc, setup, Role::Client, "client", value)?;
    if before.server_of(client.as_slice()).is_some() {
        return Err(wrong(alloc, "client"));
    }
    let server = key_id_of(alloc, setup, Role::Server, "server", value)?;
    without_others(alloc, value, &["client", "server"], (client, server))
}

fn pairs_from(alloc: Global, setup: &Setup, items: &Vec<Value>) -> Result<Pairs, ObjectFault>
    ensures value { Gives faults.OutOfMemory (λ p. p) result (pairs_from setup.now [] (items_view items.now.items)) }
    ensures fits { IfOk result (AllByRecursion PairFits) }
{
    let mut pairs = Pairs::new(alloc);
    for item in items {
        let (client, server) = pair_of(alloc, setup, &pairs, item)?;
        pairs.add(client, server)?;
    }
    Ok(pairs)
}

// 1 to 256 pairs.
fn counted_pairs(alloc: Global, pairs: &Pairs) -> Result<(), ObjectFault>
    ensures { Gives faults.OutOfMemory (λ _. pairs.now) result (counted_pairs pairs.now) }
{
    if pairs.len() == 0 {
        return Err(wrong(alloc, "pairs"));
    }
    if 256 < pairs.len() {
        return Err(ObjectFault::TooMany(Bytes::from_slice(alloc, b"pairs")?));
    }
    Ok(())
}

#[tactic(auto, unfolding(crate::specs::Pairs::pairs_in))]
fn pairs_in(alloc: Global, setup: &Setup, value: &Value) -> Result<Pairs, ObjectFault>
    ensures value { Gives faults.OutOfMemory (λ p. p) result (pairs_in setup.now (view value.now)) }
    ensures fits { IfOk result (AllByRecursion PairFits) }
{
    let items = required_items(alloc, value, "pairs")?;
    let pairs = pairs_from(alloc, setup, items)?;
    counted_pairs(alloc, &pairs)?;
    without_others(alloc, value, &["pairs"], pairs)
}

#[tactic(auto, unfolding(crate::specs::Pairs::pairs_of))]
fn pairs_of(alloc: Global, text: &[u8], setup: &Setup) -> Result<Pairs, SetupFault>
    ensures value { Gives OutOfMemory (λ p. p) result (pairs_of setup.now text.now) }
    ensures fits { IfOk result (AllByRecursion PairFits) }
{
    let value = object_of(alloc, text)?;
    Ok(pairs_in(alloc, setup, &value)?)
}

/// The pairs of client keys and resource servers that the bytes are, for the keys of this setup.
///
/// They are a JSON object with exactly the member `pairs`, an array of 1 to 256 objects with exactly the members `client`, the id of a client's key, which no
/// other pair has, and `server`, the id of a server's. The members are read in this order, and the first fault is named, as one of the setup itself
/// (`SetupFault::InSetup`): an id that the setup doesn't have or that has another role is `Wrong`, and so is a client that an earlier pair has; a member with
/// another
/// name comes after all others of its object, and how many pairs there are after them. Takes time that grows with the length of the bytes, times the logarithm
/// of
/// the number of keys.
pub fn read_pairs(alloc: Global, text: &[u8], setup: &Setup) -> Result<Pairs, SetupFault>
    ensures value { Gives OutOfMemory (λ p. p) result (pairs_of setup.now text.now) }
    ensures pairs { IfOk result (ArePairs setup.now) }
{
    pairs_of(alloc, text, setup)
}
