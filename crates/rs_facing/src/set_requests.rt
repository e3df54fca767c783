//! What a request asks of the server of resource sets.
ghost use Rattle.std.specs.Prelude.{◌≡◌, IfOk, IsUtf8, Ok, option_map, false};
ghost use Rattle.std.specs.List.{AllByRecursion};
ghost use Rattle.serde_json.specs.View.{view};
ghost use Rattle.json_objects.specs.Bodies.{IsBody, body_of};
ghost use Rattle.access_rights.specs.Fits.{Fits};
ghost use Rattle.gnap_objects.specs.Registrations.{registration_of, resolution_of};
ghost use Rattle.as_requests.specs.Signers.{signer};
ghost use Rattle.rs_facing.specs.SetRequests.{set_route_at, may_ask, refused, registered_by, resolved_by, body_step, key_step, signed_step, method_step, set_call, IsAskableSet};

use as_requests::{Edge, RequestReader, Signer, find_signer};
use body_reading::BodyReader;
use bytes_and_lists::bytes::Bytes;
use bytes_and_lists::memory::Mem;
use bytes_and_lists::message::Message;
use gnap_model::objects::{ErrorCode, KeyRow, Role};
use gnap_objects::{ObjectFault, Registration, read_registration, read_resolution};
use json_objects::BodyFault;
use message_signature::target_path;
use resource_sets::sets::SetCall;
use serde_json::Value;
use std::alloc::Global;

/// What is served, each at a path of its own. `POST` is its one method.
#[derive(Clone, Copy, Debug, PartialEq, Eq)]
pub enum SetRoute {
    /// `/resource`, where resource servers register sets of rights (RFC 9767, section 3.4).
    Registration,
    /// `/resolve`, where resource servers and the consent front ask what a reference means.
    Resolution,
}

/// An answer that needs no state.
#[derive(Clone, Copy, Debug, PartialEq, Eq)]
pub enum SetAnswer {
    /// Nothing has the path: 404.
    NotFound,
    /// The method isn't `POST`: 405.
    NotAllowed,
    /// An error (RFC 9767, section 3.5).
    Error(ErrorCode),
}

/// What is done with a request.
#[derive(Drop)]
pub enum SetStep {
    /// The machine isn't asked.
    Direct(SetAnswer),
    /// The machine is asked this call.
    Ask(SetCall),
}

impl SetRoute {
    /// The route with this path. None exactly where neither has it.
    pub fn at(path: &[u8]) -> Option<SetRoute>
        ensures { result ≡ set_route_at path.now }
    {
        if path == b"/resource".as_slice() {
            Some(SetRoute::Registration)
        } else if path == b"/resolve".as_slice() {
            Some(SetRoute::Resolution)
        } else {
            None
        }
    }
}

// The key may ask this: a resource server anything, the consent front what a reference means.
fn may_ask(route: SetRoute, key: Option<&KeyRow>) -> bool
    ensures { result ≡ may_ask route (option_map (λ k. k.now) key.entry) }
{
    let Some(key) = key else {
        return false;
    };
    match route {
        SetRoute::Registration => matches!(key.role, Role::Server),
        SetRoute::Resolution => matches!(key.role, Role::Server | Role::Front),
    }
}

fn refused(code: ErrorCode) -> SetStep
    ensures step { result ≡ refused code }
    ensures askable { IsAskableSet result }
{
    SetStep::Direct(SetAnswer::Error(code))
}

// A set is registered by the server whose it is said to be.
fn registered_by(key: Bytes, registration: Registration) -> SetStep
    requires key { IsUtf8 key }
    requires fits { AllByRecursion Fits registration.rights }
    ensures step { result ≡ registered_by key (Ok registration) }
    ensures askable { IsAskableSet result }
{
    if registration.server.as_slice() != key.as_slice() {
        return refused(ErrorCode::InvalidResourceServer);
    }
    SetStep::Ask(SetCall::Register {
        server: key,
        rights: registration.rights,
    })
}

fn registration_step(alloc: Global, key: Bytes, body: &Value) -> Result<SetStep, Mem>
    requires key { IsUtf8 key }
    requires body { IsBody (view body.now) }
    ensures step { IfOk result (λ s. s ≡ registered_by key (registration_of (view body.now))) }
    ensures askable { IfOk result IsAskableSet }
{
    match read_registration(alloc, body) {
        Ok(registration) => Ok(registered_by(key, registration)),
        Err(ObjectFault::OutOfMemory) => Err(Mem),
        Err(_) => Ok(refused(ErrorCode::InvalidRequest)),
    }
}

fn resolution_step(alloc: Global, key: Bytes, body: &Value) -> Result<SetStep, Mem>
    requires { IsUtf8 key }
    ensures step { IfOk result (λ s. s ≡ resolved_by key (resolution_of (view body.now))) }
    ensures askable { IfOk result IsAskableSet }
{
    match read_resolution(alloc, body) {
        Ok(reference) => Ok(SetStep::Ask(SetCall::Resolve {
            asker: key,
            reference,
        })),
        Err(ObjectFault::OutOfMemory) => Err(Mem),
        Err(_) => Ok(refused(ErrorCode::InvalidRequest)),
    }
}

// What the body asks of the route, by one who may.
fn body_step(
    alloc: Global,
    bodies: &mut BodyReader,
    route: SetRoute,
    key: Bytes,
    body: &[u8],
) -> Result<SetStep, Mem>
    requires { IsUtf8 key }
    ensures step { IfOk result (λ s. s ≡ body_step route key (body_of body.now)) }
    ensures askable { IfOk result IsAskableSet }
{
    match bodies.read(alloc, body) {
        Ok(object) => match route {
            SetRoute::Registration => registration_step(alloc, key, &object),
            SetRoute::Resolution => resolution_step(alloc, key, &object),
        },
        Err(BodyFault::OutOfMemory) => Err(Mem),
        Err(BodyFault::NotAnObject | BodyFault::Number) => Ok(refused(ErrorCode::InvalidRequest)),
    }
}

// What the body asks of the route, by the key that signed it.
fn key_step(
    alloc: Global,
    bodies: &mut BodyReader,
    edge: &Edge,
    route: SetRoute,
    key: Bytes,
    body: &[u8],
) -> Result<SetStep, Mem>
    requires { IsUtf8 key }
    ensures step { IfOk result (λ s. s ≡ key_step edge.now route key (body_of body.now)) }
    ensures askable { IfOk result IsAskableSet }
{
    if !may_ask(route, edge.setup().key(key.as_slice())) {
        return Ok(refused(ErrorCode::InvalidResourceServer));
    }
    body_step(alloc, bodies, route, key, body)
}

// What the signer of the message asks of the route.
fn signed_step(
    alloc: Global,
    reader: &mut RequestReader,
    edge: &Edge,
    route: SetRoute,
    message: &Message,
    moment: u64,
) -> Result<SetStep, Mem>
    ensures step { IfOk result (λ s. s ≡ signed_step edge.now route message.now (signer edge.now false message.now moment)) }
    ensures askable { IfOk result IsAskableSet }
{
    match find_signer(alloc, &mut reader.verifier, edge, false, message, moment)? {
        Some(Signer { key, mark: _ }) => {
            key_step(
                alloc,
                &mut reader.bodies,
                edge,
                route,
                key,
                message.body.as_slice(),
            )
        }
        None => Ok(refused(ErrorCode::InvalidResourceServer)),
    }
}

// What the message asks of the route.
fn method_step(
    alloc: Global,
    reader: &mut RequestReader,
    edge: &Edge,
    route: SetRoute,
    message: &Message,
    moment: u64,
) -> Result<SetStep, Mem>
    ensures step { IfOk result (λ s. s ≡ method_step edge.now route message.now moment) }
    ensures askable { IfOk result IsAskableSet }
{
    if message.method.as_slice() != b"POST".as_slice() {
        return Ok(SetStep::Direct(SetAnswer::NotAllowed));
    }
    signed_step(alloc, reader, edge, route, message, moment)
}

/// What the message asks of the server of resource sets at this moment, in seconds since 1970: the first of these that applies. `NotFound` where no route
/// has its path; `NotAllowed` where its method isn't `POST`; `Error` with `InvalidResourceServer` where `message_signature::verify` passes no signature with
/// the setup's base, its keys and the tag `gnap`, or where the signer's role may not ask this; with `InvalidRequest` where the body isn't of its form
/// (`gnap_objects::read_registration`, `read_resolution`); with `InvalidResourceServer` where a registration names another server than its signer; else
/// the call.
///
/// A body goes through unread until the signature passed, and is read by `reader`. No nonce is asked for: a registration that is sent again changes nothing.
/// Err only where memory ran out, and nothing is changed then.
#[tactic(auto, unfolding(crate::specs::SetRequests::set_call))]
pub fn set_call(
    alloc: Global,
    reader: &mut RequestReader,
    message: &Message,
    edge: &Edge,
    moment: u64,
) -> Result<SetStep, Mem>
    ensures step { IfOk result (λ s. s ≡ set_call edge.now message.now moment) }
    ensures askable { IfOk result IsAskableSet }
{
    match SetRoute::at(target_path(message.target.as_slice())) {
        None => Ok(SetStep::Direct(SetAnswer::NotFound)),
        Some(route) => method_step(alloc, reader, edge, route, message, moment),
    }
}
