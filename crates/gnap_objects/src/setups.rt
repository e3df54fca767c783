//! The setup of the authorization server.
ghost use Rattle.std.specs.Prelude.{◌≡◌, ◌||◌, ℕ, [], List, IfOk, IsUtf8};
ghost use Rattle.std.specs.List.{AllByRecursion, list_any};
ghost use Rattle.std.specs.Str.{bytes_eq};
ghost use Rattle.serde_json.specs.View.{view, items_view};
ghost use Rattle.json_objects.specs.Bodies.{IsBody, AreBodies};
ghost use Rattle.json_objects.specs.Reading.{Gives, each};
ghost use Rattle.json_objects.specs.TextSets.{has_text};
ghost use Rattle.access_rights.specs.Fits.{Fits};
ghost use Rattle.gnap_objects.specs.declared.fault.ObjectFault.TheVariants as faults;
ghost use Rattle.gnap_objects.specs.declared.setups.SetupFault.TheVariants.{OutOfMemory};
ghost use Rattle.gnap_objects.specs.Fits.{KeyFits, SetupFits};
ghost use Rattle.gnap_objects.specs.Reading.{text_of, without_others};
ghost use Rattle.gnap_objects.specs.Setups.{has_id, key_id_of, role_of, client_rights, names_of, server_names, key_members, key_row_of, setup_fault, keys_from, keys_of, setup_in, setup_of, IsSetup};

use crate::fault::ObjectFault;
use crate::members::{
    added_text, id_str, required, required_items, required_str, rights_under, text_of,
    without_others,
};
use crate::setup_members::{base_of, object_of, secret_of};
use bytes_and_lists::bytes::Bytes;
use bytes_and_lists::memory::Mem;
use bytes_and_lists::seq::Seq;
use gnap_model::key_rows::KeyRows;
use gnap_model::objects::{KeyRow, Role, Setup};
use gnap_model::rights::{Names, Rights};
use json_objects::TextSet;
use serde_json::Value;
use std::alloc::Global;
use std::fmt;

/// Why bytes are no setup.
#[derive(Drop)]
pub enum SetupFault {
    /// Not one JSON object (RFC 8259) of at most 127 levels, in UTF-8, in which each number is a whole one from -2^63 to 2^64 - 1.
    NotJson,
    /// A member of the setup itself is at fault.
    InSetup(ObjectFault),
    /// A member of a key is at fault: of the one with this place in `keys`, counted from 0.
    InKey(usize, ObjectFault),
    OutOfMemory,
}

impl From<ObjectFault> for SetupFault {
    ghost from_gives = { λ fault e. e ≡ setup_fault fault };

    fn from(fault: ObjectFault) -> SetupFault {
        match fault {
            ObjectFault::OutOfMemory => SetupFault::OutOfMemory,
            fault => SetupFault::InSetup(fault),
        }
    }
}

impl From<Mem> for SetupFault {
    ghost from_gives = { λ _ e. e ≡ OutOfMemory };

    fn from(_e: Mem) -> SetupFault {
        SetupFault::OutOfMemory
    }
}

impl fmt::Display for SetupFault {
    fn fmt<W: fmt::Write>(&self, f: &mut fmt::Formatter<W>) -> fmt::Result {
        match self {
            SetupFault::NotJson => f.write_str("it isn't one JSON object with whole numbers"),
            SetupFault::InSetup(fault) => write!(f, "{fault}"),
            SetupFault::InKey(place, fault) => {
                write!(
                    f,
                    "{fault}, in the key at place {place} of `keys`, counted from 0"
                )
            }
            SetupFault::OutOfMemory => f.write_str("memory ran out"),
        }
    }
}

// The ids are those of the keys before.
#[tactic(auto, unfolding(crate::specs::Setups::key_id_of))]
fn key_id_of(
    alloc: Global,
    value: &Value,
    ids: &mut TextSet,
    before: &Seq<KeyRow>,
) -> Result<Bytes, ObjectFault>
    requires ids { (id : List ℕ) → has_text ids.old id ≡ list_any (has_id id) before.now }
    ensures value { Gives faults.OutOfMemory (λ s. s) result (key_id_of before.now (view value.now)) }
    ensures ids { IfOk result (λ s. (id : List ℕ) → has_text ids.new id ≡ (bytes_eq s id || has_text ids.old id)) }
    ensures utf8 { IfOk result IsUtf8 }
{
    let member = required(alloc, value, "id")?;
    let id = id_str(alloc, member, "id")?;
    added_text(alloc, ids, id, "id")
}

#[tactic(auto, unfolding(crate::specs::Setups::role_of, crate::specs::Reading::required_text))]
fn role_of(alloc: Global, value: &Value) -> Result<Role, ObjectFault>
    ensures { Gives faults.OutOfMemory (λ r. r) result (role_of (view value.now)) }
{
    match required_str(alloc, value, "role")? {
        "client" => Ok(Role::Client),
        "server" => Ok(Role::Server),
        "front" => Ok(Role::Front),
        _ => Err(ObjectFault::wrong(alloc, "role")),
    }
}

fn client_rights(
    alloc: Global,
    value: &Value,
    role: Role,
    name: &str,
) -> Result<Rights, ObjectFault>
    requires { IsBody (view value.now) }
    ensures value { Gives faults.OutOfMemory (λ r. r) result (client_rights role name.now (view value.now)) }
    ensures fits { IfOk result (AllByRecursion Fits) }
{
    match role {
        Role::Client => rights_under(alloc, value, name),
        Role::Server | Role::Front => Ok(Seq::new(alloc)),
    }
}

fn strings_of(alloc: Global, items: &Vec<Value>, name: &str) -> Result<Names, ObjectFault>
    ensures value { Gives faults.OutOfMemory (λ n. n) result (each (text_of name.now) (items_view items.now.items)) }
    ensures utf8 { IfOk result (AllByRecursion IsUtf8) }
{
    let mut texts = Seq::new(alloc);
    for item in items {
        texts.push(text_of(alloc, item, name)?)?;
    }
    Ok(texts)
}

#[tactic(auto, unfolding(crate::specs::Setups::names_of))]
fn names_of(alloc: Global, value: &Value) -> Result<Names, ObjectFault>
    ensures value { Gives faults.OutOfMemory (λ n. n) result (names_of (view value.now)) }
    ensures utf8 { IfOk result (AllByRecursion IsUtf8) }
{
    let items = required_items(alloc, value, "serves")?;
    let names = strings_of(alloc, items, "serves")?;
    if 256 < names.len() {
        return Err(ObjectFault::too_many(alloc, "serves"));
    }
    Ok(names)
}

fn server_names(alloc: Global, value: &Value, role: Role) -> Result<Names, ObjectFault>
    ensures value { Gives faults.OutOfMemory (λ n. n) result (server_names role (view value.now)) }
    ensures utf8 { IfOk result (AllByRecursion IsUtf8) }
{
    match role {
        Role::Server => names_of(alloc, value),
        Role::Client | Role::Front => Ok(Seq::new(alloc)),
    }
}

fn only_key_members(
    alloc: Global,
    value: &Value,
    role: Role,
    row: KeyRow,
) -> Result<KeyRow, ObjectFault>
    ensures value { Gives faults.OutOfMemory (λ k. k) result (without_others (key_members role) (view value.now) row) }
    ensures same { IfOk result (λ k. k ≡ row) }
{
    match role {
        Role::Client => without_others(alloc, value, &["id", "role", "secret", "auto", "ask"], row),
        Role::Server => without_others(alloc, value, &["id", "role", "secret", "serves"], row),
        Role::Front => without_others(alloc, value, &["id", "role", "secret"], row),
    }
}

// The ids are those of the keys before, and on Ok the new key's id beside them.
#[tactic(auto, unfolding(crate::specs::Setups::key_row_of))]
fn key_row_of(
    alloc: Global,
    value: &Value,
    ids: &mut TextSet,
    before: &Seq<KeyRow>,
) -> Result<KeyRow, ObjectFault>
    requires body { IsBody (view value.now) }
    requires ids { (id : List ℕ) → has_text ids.old id ≡ list_any (has_id id) before.now }
    ensures value { Gives faults.OutOfMemory (λ k. k) result (key_row_of before.now (view value.now)) }
    ensures ids { IfOk result (λ k. (id : List ℕ) → has_text ids.new id ≡ (bytes_eq k.id id || has_text ids.old id)) }
    ensures fits { IfOk result KeyFits }
{
    let id = key_id_of(alloc, value, ids, before)?;
    let role = role_of(alloc, value)?;
    let secret = secret_of(alloc, value)?;
    let auto_rights = client_rights(alloc, value, role, "auto")?;
    let ask_rights = client_rights(alloc, value, role, "ask")?;
    let serves = server_names(alloc, value, role)?;
    let row = KeyRow {
        id,
        role,
        secret,
        auto_rights,
        ask_rights,
        serves,
    };
    only_key_members(alloc, value, role, row)
}

fn keys_from(alloc: Global, items: &Vec<Value>) -> Result<Seq<KeyRow>, SetupFault>
    requires { AreBodies (items_view items.now.items) }
    ensures value { Gives OutOfMemory (λ k. k) result (keys_from [] (items_view items.now.items)) }
    ensures fits { IfOk result (AllByRecursion KeyFits) }
{
    let mut keys = Seq::new(alloc);
    let mut ids = TextSet::new(alloc);
    for item in items {
        let key = match key_row_of(alloc, item, &mut ids, &keys) {
            Ok(key) => key,
            Err(ObjectFault::OutOfMemory) => return Err(SetupFault::OutOfMemory),
            Err(fault) => return Err(SetupFault::InKey(keys.len(), fault)),
        };
        keys.push(key)?;
    }
    Ok(keys)
}

#[tactic(auto, unfolding(crate::specs::Setups::keys_of))]
fn keys_of(alloc: Global, value: &Value) -> Result<KeyRows, SetupFault>
    requires { IsBody (view value.now) }
    ensures value { Gives OutOfMemory (λ k. k) result (keys_of (view value.now)) }
    ensures fits { IfOk result (AllByRecursion KeyFits) }
{
    let items = required_items(alloc, value, "keys")?;
    let keys = keys_from(alloc, items)?;
    if 4096 < keys.len() {
        return Err(ObjectFault::too_many(alloc, "keys").into());
    }
    Ok(KeyRows::new(alloc, keys)?)
}

fn setup_in(alloc: Global, value: &Value) -> Result<Setup, SetupFault>
    requires { IsBody (view value.now) }
    ensures value { Gives OutOfMemory (λ s. s) result (setup_in (view value.now)) }
    ensures fits { IfOk result SetupFits }
{
    let base = base_of(alloc, value, "base")?;
    let front = base_of(alloc, value, "front")?;
    let keys = keys_of(alloc, value)?;
    let setup = Setup { base, front, keys };
    Ok(without_others(alloc, value, &["base", "front", "keys"], setup)?)
}

#[tactic(auto, unfolding(crate::specs::Setups::setup_of))]
fn setup_of(alloc: Global, text: &[u8]) -> Result<Setup, SetupFault>
    ensures value { Gives OutOfMemory (λ s. s) result (setup_of text.now) }
    ensures fits { IfOk result SetupFits }
{
    let value = object_of(alloc, text)?;
    setup_in(alloc, &value)
}

/// The setup of the authorization server that the bytes are.
///
/// It is a JSON object with exactly the members `base` and `front`, addresses of servers (`forms::is_base`), and `keys`, an array of at most 4,096 keys.
/// A key is an object with exactly these members: `id` (`forms::is_id`), which no other key has; `role`, which is `client`, `server` or `front`; `secret`,
/// 16 to 64 bytes in base64 with padding (RFC 4648, section 4); for a client `auto` and `ask`, arrays of rights; for a server `serves`, an array of at
/// most 256 strings. The members are read in this order, and the first fault is named; an id that an earlier key has is `Wrong` at the later key, and a
/// member with another name comes after all others of its object. Takes time that grows with the length of the bytes, times the logarithm of the
/// number of keys.
pub fn read_setup(alloc: Global, text: &[u8]) -> Result<Setup, SetupFault>
    ensures value { Gives OutOfMemory (λ s. s) result (setup_of text.now) }
    ensures setup { IfOk result IsSetup }
{
    setup_of(alloc, text)
}
