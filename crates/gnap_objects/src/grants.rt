//! Grant requests and modifications (RFC 9635, sections 2 and 5.3).
ghost use Rattle.std.specs.Prelude.{◌≡◌, ◌≤◌, IfOk, length};
ghost use Rattle.std.specs.List.{AllByRecursion};
ghost use Rattle.serde_json.specs.View.{view};
ghost use Rattle.serde_json.specs.Written.{compact_text};
ghost use Rattle.gnap_model.specs.Asked.{asked_rights};
ghost use Rattle.access_rights.specs.Fits.{IsUtf8Or};
ghost use Rattle.json_objects.specs.Bodies.{IsBody};
ghost use Rattle.json_objects.specs.Reading.{Gives};
ghost use Rattle.json_objects.specs.Sizes.{capped};
ghost use Rattle.access_rights.specs.Printing.{rights_data};
ghost use Rattle.gnap_objects.specs.Fits.{AskFits, RequestFits};
ghost use Rattle.gnap_objects.specs.CallsFit.{ModesFitOr};
ghost use Rattle.gnap_objects.specs.declared.fault.ObjectFault.TheVariants.{OutOfMemory};
ghost use Rattle.gnap_objects.specs.Grants.{client_of, named_user_of, asks_too_much, grant_body_of, request_of};

use crate::fault::ObjectFault;
use crate::interactions::interact_of;
use crate::members::required_key_name;
use crate::token_requests::token_requests_of;
use crate::users::{subject_request_of, user_of};
use access_rights::sizes::listed_size;
use bytes_and_lists::bytes::Bytes;
use gnap_model::objects::{Asks, GrantRequest};
use json_objects::sizes::enclosed_size;
use serde_json::Value;
use std::alloc::Global;

/// Which client asks for a grant.
#[derive(Drop)]
struct ClientName {
    id: Option<Bytes>,
    by_object: bool,
}

/// What the body of a grant request or of a modification says.
#[derive(Drop)]
pub(crate) struct GrantBody {
    pub(crate) request: GrantRequest,
    /// A flag stands twice in one of its token requests.
    pub(crate) repeats_flag: bool,
}

#[tactic(auto, unfolding(crate::specs::Grants::client_of))]
fn client_of(alloc: Global, value: &Value, modify: bool) -> Result<ClientName, ObjectFault>
    ensures value { Gives OutOfMemory (λ c. c) result (client_of modify (view value.now)) }
    ensures utf8 { IfOk result (λ c. IsUtf8Or c.id) }
{
    if modify {
        return Ok(ClientName {
            id: None,
            by_object: false,
        });
    }
    let key = required_key_name(alloc, value, "client")?;
    Ok(ClientName {
        id: Some(key.id),
        by_object: key.by_object,
    })
}

fn named_user_of(alloc: Global, value: &Value, modify: bool) -> Result<Option<Bytes>, ObjectFault>
    ensures value { Gives OutOfMemory (λ u. u) result (named_user_of modify (view value.now)) }
    ensures utf8 { IfOk result IsUtf8Or }
{
    if modify {
        Ok(None)
    } else {
        user_of(alloc, value)
    }
}

// The size of the compact text of the array of all asked rights.
fn asked_size(asks: &Asks) -> usize
    requires { AllByRecursion AskFits asks.now }
    ensures { result ≡ capped (length (compact_text (rights_data (asked_rights asks.now)))) }
{
    let mut size = 0usize;
    for ask in asks.as_slice() {
        size = size.saturating_add(listed_size(&ask.rights));
    }
    enclosed_size(size)
}

fn asks_too_much(asks: &Asks) -> bool
    requires { AllByRecursion AskFits asks.now }
    ensures { result ≡ asks_too_much asks.now }
{
    4096 < asked_size(asks)
}

/// The body of a grant request, or of a modification, before the test that no flag stands twice.
#[tactic(auto, unfolding(crate::specs::Grants::grant_body_of))]
pub(crate) fn grant_body_of(
    alloc: Global,
    value: &Value,
    modify: bool,
) -> Result<GrantBody, ObjectFault>
    requires { IsBody (view value.now) }
    ensures value { Gives OutOfMemory (λ b. b) result (grant_body_of modify (view value.now)) }
    ensures fits { IfOk result (λ b. RequestFits b.request) }
    ensures few { IfOk result (λ b. length b.request.asks ≤ 8) }
    ensures modes { IfOk result (λ b. ModesFitOr b.request.modes) }
{
    let tokens = token_requests_of(alloc, value)?;
    let subject = subject_request_of(alloc, value)?;
    if tokens.asks.len() == 0 && !subject {
        return Err(ObjectFault::missing(alloc, "access_token"));
    }
    let client = client_of(alloc, value, modify)?;
    let user = named_user_of(alloc, value, modify)?;
    let modes = interact_of(alloc, value)?;
    let body = GrantBody {
        request: GrantRequest {
            asks: tokens.asks,
            single: tokens.single,
            subject,
            client: client.id,
            by_object: client.by_object,
            user,
            modes,
        },
        repeats_flag: tokens.repeats_flag,
    };
    if asks_too_much(&body.request.asks) {
        drop(body);
        return Err(ObjectFault::too_many(alloc, "access_token"));
    }
    Ok(body)
}

/// The grant request that a body is, or the modification, for which `client` and `user` are not looked at (RFC 9635, sections 2 and 5.3).
///
/// The members are read in the order `access_token` (a token request or an array of 1 to 8 of them; in each `access`, 1 to 16 rights, `label`, of 1 to
/// 64 bytes, and `flags`), `subject` (an object with `sub_id_formats`, strings), `client` (an id, or an object with `key`, an id), `user` (1 to 256
/// bytes, or an object with `sub_ids`, the first of which with the `format` `opaque` has these under `id`), `interact` (an object with `start`, strings,
/// and perhaps `finish`: `method`, `redirect` or `push`; `uri`, of http or https without a fragment, of 1 to 2,048 bytes; `nonce`, of 1 to 256 bytes;
/// `hash_method`, `sha-256` or `sha-512`), and the first fault is named. In an array each request has a label of its own. The compact JSON text of all
/// asked rights has at most 4,096 bytes; after all else no flag may stand twice in a request. Other members are not looked at. Where neither a token
/// nor an `opaque` identifier of the user is asked for, `access_token` is missing, which is told before `client` is read.
#[tactic(auto, unfolding(crate::specs::Grants::request_of))]
pub fn read_grant(alloc: Global, value: &Value, modify: bool) -> Result<GrantRequest, ObjectFault>
    requires { IsBody (view value.now) }
    ensures value { Gives OutOfMemory (λ r. r) result (request_of modify (view value.now)) }
    ensures fits { IfOk result RequestFits }
    ensures few { IfOk result (λ r. length r.asks ≤ 8) }
    ensures modes { IfOk result (λ r. ModesFitOr r.modes) }
{
    let body = grant_body_of(alloc, value, modify)?;
    if body.repeats_flag {
        drop(body);
        return Err(ObjectFault::flag(alloc, "flags"));
    }
    Ok(body.request)
}
