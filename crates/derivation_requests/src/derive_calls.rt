//! What a request asks where pairs of client keys and resource servers are known.
ghost use Rattle.std.specs.Prelude.{◌≡◌, IfOk, IfSome, IsSome, IsUtf8, option_map, option_and_then};
ghost use Rattle.std.specs.List.{AllByRecursion};
ghost use Rattle.serde_json.specs.View.{view};
ghost use Rattle.grant_machine.specs.Gnap.{SignedFits};
ghost use Rattle.as_requests.specs.DeskCalls.{IsAskable};
ghost use Rattle.as_requests.specs.declared.desk_calls.RequestStep.TheVariants.{Ask};
ghost use Rattle.derivation_requests.specs.Pairs.{PairFits, ArePairs};
ghost use Rattle.derivation_requests.specs.Deriving.{parent_in, parent_of, server_of, beginner, by_parent, derive_call, IsBegin, IsDerivable};

use crate::pairs::Pairs;
use as_requests::{DirectAnswer, Edge, RequestReader, RequestStep, desk_call};
use body_reading::BodyReader;
use bytes_and_lists::bytes::Bytes;
use bytes_and_lists::memory::{Duplicate, Mem};
use bytes_and_lists::message::Message;
use gnap_model::calls::Call;
use gnap_model::objects::ErrorCode;
use json_objects::{BodyFault, member};
use serde_json::Value;
use signed_calls::signed::Signed;
use std::alloc::Global;

/// How many bytes a parent has at most. The tokens of the authorization server have 32.
const PARENT_LIMIT: usize = 64;

/// What is done with a request.
#[derive(Drop)]
pub enum DeriveStep {
    /// No token is derived.
    Plain(RequestStep),
    /// A token is to be derived (RFC 9767, section 4).
    Derive {
        /// The token that is presented, from which the other one is to be derived: 64 bytes or fewer.
        parent: Bytes,
        /// The id of the resource server that uses the client's key.
        server: Bytes,
        /// The grant request, with the mark of its signature.
        begin: Signed,
    },
}

// The parent that the body names.
fn parent_in(alloc: Global, body: &Value) -> Result<Option<Bytes>, Mem>
    ensures { IfOk result (λ parent. parent ≡ parent_in (view body.now)) }
{
    let Some(member) = member(body, "existing_access_token") else {
        return Ok(None);
    };
    let Some(parent) = member.as_str() else {
        return Ok(None);
    };
    if PARENT_LIMIT < parent.len() {
        return Ok(None);
    }
    Ok(Some(Bytes::from_slice(alloc, parent.as_bytes())?))
}

fn parent_of(alloc: Global, bodies: &mut BodyReader, body: &[u8]) -> Result<Option<Bytes>, Mem>
    ensures { IfOk result (λ parent. parent ≡ parent_of body.now) }
{
    match bodies.read(alloc, body) {
        Ok(object) => parent_in(alloc, &object),
        Err(BodyFault::OutOfMemory) => Err(Mem),
        Err(BodyFault::NotAnObject | BodyFault::Number) => Ok(None),
    }
}

// The client that asks for a grant.
fn beginner(call: &Call) -> Option<&Bytes>
    ensures { option_map (λ key. key.now) result ≡ beginner call.now }
{
    match call {
        Call::Begin { key, .. } => Some(key),
        _ => None,
    }
}

// The parent that the body names, and the server's id.
fn parent_and_server(
    alloc: Global,
    bodies: &mut BodyReader,
    body: &[u8],
    server: &Bytes,
) -> Result<Option<(Bytes, Bytes)>, Mem>
    ensures { IfOk result (λ found. found ≡ option_map (λ parent. (parent, server.now)) (parent_of body.now)) }
{
    match parent_of(alloc, bodies, body)? {
        Some(parent) => Ok(Some((parent, server.copy()?))),
        None => Ok(None),
    }
}

// A grant request of the client that this server uses.
fn by_parent(
    alloc: Global,
    bodies: &mut BodyReader,
    body: &[u8],
    server: &Bytes,
    begin: Signed,
) -> Result<DeriveStep, Mem>
    requires server { IsUtf8 server.now }
    requires fits { SignedFits begin }
    requires begins { IsBegin begin.call }
    ensures step { IfOk result (λ s. s ≡ by_parent begin server.now (parent_of body.now)) }
    ensures derivable { IfOk result IsDerivable }
{
    // An exit that lets a call go writes its drop out, for each kind of call: `drop` is one call.
    match parent_and_server(alloc, bodies, body, server) {
        Ok(Some((parent, server))) => Ok(DeriveStep::Derive {
            parent,
            server,
            begin,
        }),
        Ok(None) => {
            drop(begin);
            let refusal = DirectAnswer::Error(ErrorCode::InvalidRequest);
            Ok(DeriveStep::Plain(RequestStep::Direct(refusal)))
        }
        Err(Mem) => {
            drop(begin);
            Err(Mem)
        }
    }
}

// The server that uses the key of the one who asks for a grant.
#[tactic(auto, using(crate::proofs::Derivations::begins))]
fn server_of<'p>(pairs: &'p Pairs, call: &Call) -> Option<&'p Bytes>
    requires { AllByRecursion PairFits pairs.now }
    ensures server { option_map (λ server. server.now) result ≡ option_and_then (server_of pairs.now) (beginner call.now) }
    ensures utf8 { IfSome result (λ server. IsUtf8 server.now) }
    ensures begins { IsSome result → IsBegin call.now }
{
    pairs.server_of(beginner(call)?.as_slice())
}

/// What the message asks at this moment, in seconds since 1970, where these pairs are known: what `as_requests::desk_call` answers, but for a grant request
/// of a pair's client. Where its member `existing_access_token` is a string of at most 64 bytes, it is `Derive` with that string, the pair's server and the
/// request; else the answer is `invalid_request`. `reader` reads the body a second time then. Err only where memory ran out, and nothing is changed then.
#[tactic(auto, unfolding(crate::specs::Deriving::derive_call))]
pub fn derive_call(
    alloc: Global,
    reader: &mut RequestReader,
    message: &Message,
    edge: &Edge,
    pairs: &Pairs,
    moment: u64,
) -> Result<DeriveStep, Mem>
    requires { ArePairs edge.now pairs.now }
    ensures step { IfOk result (λ s. s ≡ derive_call pairs.now edge.now message.now moment) }
    ensures derivable { IfOk result IsDerivable }
{
    match desk_call(alloc, reader, message, edge, moment)? {
        RequestStep::Direct(answer) => Ok(DeriveStep::Plain(RequestStep::Direct(answer))),
        RequestStep::Ask(call) => match server_of(pairs, &call.call) {
            None => Ok(DeriveStep::Plain(RequestStep::Ask(call))),
            Some(server) => by_parent(
                alloc,
                &mut reader.bodies,
                message.body.as_slice(),
                server,
                call,
            ),
        },
    }
}
