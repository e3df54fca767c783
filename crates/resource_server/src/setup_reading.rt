//! Setups of resource servers, read from bytes.
ghost use Rattle.std.specs.Prelude.{◌≡◌, ◌⊎◌, [], true, IfOk, OnErr, IsUtf8};
ghost use Rattle.std.specs.List.{AllByRecursion, list_all, list_any};
ghost use Rattle.serde_json.specs.Data.{array, item, no_items};
ghost use Rattle.serde_json.specs.View.{view, items_view};
ghost use Rattle.json_objects.specs.Bodies.{IsBody, AreBodies};
ghost use Rattle.json_objects.specs.Reading.{Gives};
ghost use Rattle.structured_fields.specs.Letters.{is_string_byte};
ghost use Rattle.access_rights.specs.declared.reading.RightsFault.TheVariants as rights_faults;
ghost use Rattle.access_rights.specs.Fits.{Fits};
ghost use Rattle.access_rights.specs.Reading.{rights_of};
ghost use Rattle.gnap_objects.specs.declared.fault.ObjectFault.TheVariants as faults;
ghost use Rattle.gnap_objects.specs.declared.setups.SetupFault.TheVariants.{OutOfMemory};
ghost use Rattle.gnap_objects.specs.Reading.{without_others};
ghost use Rattle.gnap_objects.specs.Setups.{in_setup};
ghost use Rattle.signed_requests.specs.Forms.{begins_with_slash, is_method};
ghost use Rattle.resource_server.specs.Fits.{RouteFits, RsSetupFits};
ghost use Rattle.resource_server.specs.Routing.{is_route};
ghost use Rattle.resource_server.specs.RsSetups.{named_id_of, with_key, ring_from, ring_of, method_of, route_path_of, first_of, one_right_of, route_from, routes_from, counted_items, routes_of, rs_setup_members, addresses_of, own_key_of, ring_and_routes_of, setup_in, rs_setup_of};

use crate::routing::is_route;
use crate::setup::{Route, Routes, RsSetup};
use access_rights::{RightsFault, read_rights};
use bytes_and_lists::bytes::Bytes;
use bytes_and_lists::memory::Mem;
use bytes_and_lists::seq::Seq;
use gnap_model::rights::{Right, Rights};
use gnap_objects::members::{id_of, required, required_items, required_text, without_others};
use gnap_objects::setup_members::{base_of, object_of, secret_of};
use gnap_objects::{ObjectFault, SetupFault};
use hmac_key::Keyring;
use serde_json::Value;
use signed_requests::is_method;
use std::alloc::Global;

fn wrong(alloc: Global, name: &str) -> ObjectFault
    ensures { (result ≡ faults.OutOfMemory) ⊎ (result ≡ faults.Wrong name.now) }
{
    match Bytes::from_slice(alloc, name.as_bytes()) {
        Ok(name) => ObjectFault::Wrong(name),
        Err(Mem) => ObjectFault::OutOfMemory,
    }
}

fn too_many(alloc: Global, name: &str) -> ObjectFault
    ensures { (result ≡ faults.OutOfMemory) ⊎ (result ≡ faults.TooMany name.now) }
{
    match Bytes::from_slice(alloc, name.as_bytes()) {
        Ok(name) => ObjectFault::TooMany(name),
        Err(Mem) => ObjectFault::OutOfMemory,
    }
}

// An id, which can stand in a signature.
#[tactic(auto, using(crate::proofs::Ids::read_string), unfolding(crate::specs::RsSetups::named_id_of))]
fn named_id_of(alloc: Global, value: &Value) -> Result<Bytes, ObjectFault>
    ensures value { Gives faults.OutOfMemory (λ s. s) result (named_id_of (view value.now)) }
    ensures utf8 { IfOk result IsUtf8 }
    ensures string { IfOk result (λ id. list_all is_string_byte id ≡ true) }
{
    let member = required(alloc, value, "id")?;
    let id = id_of(alloc, member, "id")?;
    Ok(id)
}

// ---- keys of clients

// Adds the key to the ring.
#[tactic(auto, unfolding(crate::specs::RsSetups::client_key_of))]
fn add_key(alloc: Global, value: &Value, ring: &mut Keyring) -> Result<(), ObjectFault>
    ensures value { Gives faults.OutOfMemory (λ _. ring.new) result (with_key ring.old (view value.now)) }
    ensures err { OnErr result (ring.new ≡ ring.old) }
{
    let id = named_id_of(alloc, value)?;
    if ring.find(id.as_slice()).is_some() {
        return Err(wrong(alloc, "id"));
    }
    let secret = secret_of(alloc, value)?;
    without_others(alloc, value, &["id", "secret"], ())?;
    ring.add(&id, &secret)?;
    Ok(())
}

fn ring_from(alloc: Global, items: &Vec<Value>) -> Result<Keyring, SetupFault>
    ensures { Gives OutOfMemory (λ k. k) result (ring_from [] (items_view items.now.items)) }
{
    let mut ring = Keyring::new(alloc);
    for item in items {
        match add_key(alloc, item, &mut ring) {
            Ok(()) => {}
            Err(ObjectFault::OutOfMemory) => return Err(SetupFault::OutOfMemory),
            Err(fault) => return Err(SetupFault::InKey(ring.len(), fault)),
        }
    }
    Ok(ring)
}

#[tactic(auto, unfolding(crate::specs::RsSetups::ring_of))]
fn ring_of(alloc: Global, value: &Value) -> Result<Keyring, SetupFault>
    requires { IsBody (view value.now) }
    ensures { Gives OutOfMemory (λ k. k) result (ring_of (view value.now)) }
{
    let items = required_items(alloc, value, "keys")?;
    let ring = ring_from(alloc, items)?;
    if 4096 < ring.len() {
        return Err(too_many(alloc, "keys").into());
    }
    Ok(ring)
}

// ---- routes

#[tactic(auto, unfolding(crate::specs::RsSetups::method_of))]
fn method_of(alloc: Global, value: &Value) -> Result<Bytes, ObjectFault>
    ensures value { Gives faults.OutOfMemory (λ s. s) result (method_of (view value.now)) }
    ensures method { IfOk result (λ s. is_method s ≡ true) }
{
    let method = required_text(alloc, value, "method")?;
    if !is_method(method.as_slice()) {
        return Err(wrong(alloc, "method"));
    }
    Ok(method)
}

fn begins_with_slash(text: &[u8]) -> bool
    ensures { result ≡ begins_with_slash text.now }
{
    match text {
        [] => false,
        [b, ..] => *b == b'/',
    }
}

fn has_route(routes: &Routes, method: &[u8], path: &[u8]) -> bool
    ensures { result ≡ list_any (is_route method.now path.now) routes.now }
{
    routes
        .as_slice()
        .iter()
        .any(|route| is_route(method, path, route))
}

// The path of a route with this method, after those before.
#[tactic(auto, unfolding(crate::specs::RsSetups::route_path_of))]
fn route_path_of(
    alloc: Global,
    value: &Value,
    method: &[u8],
    before: &Routes,
) -> Result<Bytes, ObjectFault>
    ensures { Gives faults.OutOfMemory (λ s. s) result (route_path_of before.now method.now (view value.now)) }
{
    let path = required_text(alloc, value, "path")?;
    if !begins_with_slash(path.as_slice()) {
        return Err(wrong(alloc, "path"));
    }
    if has_route(before, method, path.as_slice()) {
        return Err(wrong(alloc, "path"));
    }
    Ok(path)
}

// The array of the value alone.
fn alone(alloc: Global, value: &Value) -> Result<Value, Mem>
    ensures { IfOk result (λ v. view v ≡ array (item (view value.now) no_items)) }
{
    let mut items = Vec::new(alloc);
    items.push(value.clone()?)?;
    Ok(Value::Array(items))
}

fn first_of(alloc: Global, rights: Rights) -> Result<Right, ObjectFault>
    requires { AllByRecursion Fits rights }
    ensures value { Gives faults.OutOfMemory (λ r. r) result (first_of rights) }
    ensures fits { IfOk result Fits }
{
    match rights.into_vec().into_iter().next() {
        Some(right) => Ok(right),
        None => Err(wrong(alloc, "right")),
    }
}

// The rights that the array of the value alone is.
fn rights_alone(alloc: Global, value: &Value) -> Result<Rights, RightsFault>
    requires { IsBody (array (item (view value.now) no_items)) }
    ensures value { Gives rights_faults.OutOfMemory (λ r. r) result (rights_of (array (item (view value.now) no_items))) }
    ensures fits { IfOk result (AllByRecursion Fits) }
{
    let alone = alone(alloc, value)?;
    read_rights(alloc, &alone)
}

// One right.
#[tactic(auto, unfolding(crate::specs::RsSetups::one_right_of))]
fn one_right_of(alloc: Global, value: &Value) -> Result<Right, ObjectFault>
    requires { IsBody (view value.now) }
    ensures value { Gives faults.OutOfMemory (λ r. r) result (one_right_of (view value.now)) }
    ensures fits { IfOk result Fits }
{
    let member = required(alloc, value, "right")?;
    match rights_alone(alloc, member) {
        Ok(rights) => first_of(alloc, rights),
        Err(RightsFault::Wrong) => Err(wrong(alloc, "right")),
        Err(RightsFault::TooMany) => Err(too_many(alloc, "right")),
        Err(RightsFault::OutOfMemory) => Err(ObjectFault::OutOfMemory),
    }
}

// The route that the value is, after those before.
#[tactic(auto, unfolding(crate::specs::RsSetups::route_from))]
fn route_from(alloc: Global, value: &Value, before: &Routes) -> Result<Route, ObjectFault>
    requires { IsBody (view value.now) }
    ensures value { Gives faults.OutOfMemory (λ r. r) result (route_from before.now (view value.now)) }
    ensures fits { IfOk result RouteFits }
{
    let method = method_of(alloc, value)?;
    let path = route_path_of(alloc, value, method.as_slice(), before)?;
    let right = one_right_of(alloc, value)?;
    let text = required_text(alloc, value, "text")?;
    let route = Route {
        method,
        path,
        right,
        text,
    };
    without_others(alloc, value, &["method", "path", "right", "text"], route)
}

fn routes_from(alloc: Global, items: &Vec<Value>) -> Result<Routes, ObjectFault>
    requires { AreBodies (items_view items.now.items) }
    ensures value { Gives faults.OutOfMemory (λ r. r) result (routes_from [] (items_view items.now.items)) }
    ensures fits { IfOk result (AllByRecursion RouteFits) }
{
    let mut routes = Seq::new(alloc);
    for item in items {
        routes.push(route_from(alloc, item, &routes)?)?;
    }
    Ok(routes)
}

// 1 to 1,024 items.
#[tactic(auto, using(crate::proofs::Counts::count_of_items, crate::proofs::Counts::counted_none, crate::proofs::Counts::counted_many, crate::proofs::Counts::counted_few))]
fn counted_items(alloc: Global, items: &Vec<Value>) -> Result<&Vec<Value>, ObjectFault>
    ensures { Gives faults.OutOfMemory (λ items. items_view items.now.items) result (counted_items (items_view items.now.items)) }
{
    if items.len() == 0 {
        return Err(wrong(alloc, "routes"));
    }
    if 1024 < items.len() {
        return Err(too_many(alloc, "routes"));
    }
    Ok(items)
}

#[tactic(auto, unfolding(crate::specs::RsSetups::routes_of))]
fn routes_of(alloc: Global, value: &Value) -> Result<Routes, ObjectFault>
    requires { IsBody (view value.now) }
    ensures value { Gives faults.OutOfMemory (λ r. r) result (routes_of (view value.now)) }
    ensures fits { IfOk result (AllByRecursion RouteFits) }
{
    let items = required_items(alloc, value, "routes")?;
    let items = counted_items(alloc, items)?;
    routes_from(alloc, items)
}

fn only_setup_members(alloc: Global, value: &Value, setup: RsSetup) -> Result<RsSetup, SetupFault>
    ensures value { Gives OutOfMemory (λ s. s) result (in_setup (without_others rs_setup_members (view value.now) setup)) }
    ensures same { IfOk result (λ s. s ≡ setup) }
{
    let names = ["base", "server", "id", "secret", "keys", "routes"];
    Ok(without_others(alloc, value, &names, setup)?)
}

// The server's own address and that of the authorization server.
#[tactic(auto, unfolding(crate::specs::RsSetups::addresses_of))]
fn addresses_of(alloc: Global, value: &Value) -> Result<(Bytes, Bytes), ObjectFault>
    ensures { Gives faults.OutOfMemory (λ s. s) result (addresses_of (view value.now)) }
{
    let base = base_of(alloc, value, "base")?;
    let server = base_of(alloc, value, "server")?;
    Ok((base, server))
}

// The server's own key: its id and its secret.
#[tactic(auto, unfolding(crate::specs::RsSetups::own_key_of))]
fn own_key_of(alloc: Global, value: &Value) -> Result<(Bytes, Bytes), ObjectFault>
    ensures value { Gives faults.OutOfMemory (λ s. s) result (own_key_of (view value.now)) }
    ensures utf8 { IfOk result (λ key. IsUtf8 key.0) }
    ensures string { IfOk result (λ key. list_all is_string_byte key.0 ≡ true) }
{
    let id = named_id_of(alloc, value)?;
    let secret = secret_of(alloc, value)?;
    Ok((id, secret))
}

// The keys of clients, and the routes.
#[tactic(auto, unfolding(crate::specs::RsSetups::ring_and_routes_of))]
fn ring_and_routes_of(alloc: Global, value: &Value) -> Result<(Keyring, Routes), SetupFault>
    requires { IsBody (view value.now) }
    ensures value { Gives OutOfMemory (λ s. s) result (ring_and_routes_of (view value.now)) }
    ensures fits { IfOk result (λ read. AllByRecursion RouteFits read.1) }
{
    let ring = ring_of(alloc, value)?;
    let routes = routes_of(alloc, value)?;
    Ok((ring, routes))
}

#[tactic(auto, unfolding(crate::specs::RsSetups::setup_in))]
fn setup_in(alloc: Global, value: &Value) -> Result<RsSetup, SetupFault>
    requires { IsBody (view value.now) }
    ensures value { Gives OutOfMemory (λ s. s) result (setup_in (view value.now)) }
    ensures fits { IfOk result RsSetupFits }
{
    let (base, server) = addresses_of(alloc, value)?;
    let (id, secret) = own_key_of(alloc, value)?;
    let (ring, routes) = ring_and_routes_of(alloc, value)?;
    let setup = RsSetup {
        base,
        server,
        id,
        secret,
        ring,
        routes,
    };
    only_setup_members(alloc, value, setup)
}

/// The setup of a resource server that the bytes are.
///
/// It is a JSON object with exactly the members `base` and `server`, addresses of servers (`gnap_objects::forms::is_base`); `id`
/// (`gnap_objects::forms::is_id`) and `secret`, 16 to 64 bytes in base64 with padding (RFC 4648, section 4), its key at the authorization server; `keys`,
/// an array of at most 4,096 objects with exactly `id`, which no other key has, and `secret`; and `routes`, an array of 1 to 1,024 objects with exactly
/// `method`, 1 to 15
/// upper-case letters, `path`, which begins with `/`, `right`, a right, and `text`, a string. No two routes have one method and one path. The members are
/// read in this order, and the first fault is named; a member with another name comes after all others of its object.
#[tactic(auto, unfolding(crate::specs::RsSetups::rs_setup_of))]
pub fn read_rs_setup(alloc: Global, text: &[u8]) -> Result<RsSetup, SetupFault>
    ensures value { Gives OutOfMemory (λ s. s) result (rs_setup_of text.now) }
    ensures fits { IfOk result RsSetupFits }
{
    let value = object_of(alloc, text)?;
    setup_in(alloc, &value)
}
