//! Grant requests and modifications as JSON (RFC 9635, sections 2 and 5.3).
ghost use Rattle.std.specs.Prelude.{◌≡◌, ◌≤◌, Ok, IfOk, IsUtf8, option_map, codes, [], ◌∷◌};
ghost use Rattle.std.specs.Option.{option_copied};
ghost use Rattle.serde_json.specs.Data.{depth, string};
ghost use Rattle.serde_json.specs.Read.{max_depth};
ghost use Rattle.serde_json.specs.View.{view};
ghost use Rattle.json_objects.specs.Bodies.{body_of};
ghost use Rattle.json_objects.specs.Objects.{object_of, texts_data};
ghost use Rattle.json_objects.specs.Texts.{IsUtf8Or};
ghost use Rattle.gnap_objects.specs.Fits.{RequestFits};
ghost use Rattle.gnap_objects.specs.CallsFit.{ModesFitOr};
ghost use Rattle.grant_values.specs.Grants.{subject_request_fields, subject_request_data, key_object_fields, client_data, request_data, request_text, grant_data, grant_text};

use crate::interactions::optional_modes;
use crate::token_requests::token_requests_value;
use bytes_and_lists::bytes::Bytes;
use bytes_and_lists::memory::Mem;
use gnap_model::objects::GrantRequest;
use json_objects::{Draft, lone_value, optional_value, text_value, word_value};
use serde_json::Value;
use std::alloc::Global;

fn formats_value(alloc: Global) -> Result<Value, Mem>
    ensures { IfOk result (λ v. view v ≡ texts_data (codes "opaque" ∷ [])) }
{
    lone_value(alloc, word_value(alloc, "opaque")?)
}

fn subject_object(alloc: Global) -> Result<Value, Mem>
    ensures { IfOk result (λ v. view v ≡ object_of subject_request_fields) }
{
    Draft::new(alloc)
        .with("sub_id_formats", formats_value(alloc))
        .value()
}

fn subject_request_value(alloc: Global, subject: bool) -> Result<Option<Value>, Mem>
    ensures { IfOk result (λ v. option_map view v ≡ subject_request_data subject) }
{
    if !subject {
        return Ok(None);
    }
    Ok(Some(subject_object(alloc)?))
}

fn key_object(alloc: Global, id: &[u8]) -> Result<Value, Mem>
    requires { IsUtf8 id.now }
    ensures { IfOk result (λ v. view v ≡ object_of (key_object_fields id.now)) }
{
    Draft::new(alloc).with("key", text_value(alloc, id)).value()
}

fn client_value(alloc: Global, by_object: bool, id: &[u8]) -> Result<Value, Mem>
    requires { IsUtf8 id.now }
    ensures { IfOk result (λ v. view v ≡ client_data by_object id.now) }
{
    if by_object {
        key_object(alloc, id)
    } else {
        text_value(alloc, id)
    }
}

fn optional_client(
    alloc: Global,
    by_object: bool,
    client: &Option<Bytes>,
) -> Result<Option<Value>, Mem>
    requires { IsUtf8Or client.now }
    ensures { IfOk result (λ v. option_map view v ≡ option_map (client_data by_object) client.now) }
{
    match client {
        None => Ok(None),
        Some(id) => Ok(Some(client_value(alloc, by_object, id.as_slice())?)),
    }
}

fn existing_value(alloc: Global, existing: Option<&Bytes>) -> Result<Option<Value>, Mem>
    requires { IsUtf8Or (option_copied existing) }
    ensures { IfOk result (λ v. option_map view v ≡ option_map string (option_copied existing.entry)) }
{
    match existing {
        None => Ok(None),
        Some(token) => Ok(Some(text_value(alloc, token.as_slice())?)),
    }
}

/// The object that a grant request is which presents an existing token, where there is one.
///
/// Its members are those of `grant_value`, and where there is an existing token `existing_access_token`, from which another one is to be derived (RFC 9767,
/// section 4).
#[tactic(auto, unfolding(crate::specs::Grants::request_data))]
fn request_value(
    alloc: Global,
    existing: Option<&Bytes>,
    request: &GrantRequest,
) -> Result<Value, Mem>
    requires existing { IsUtf8Or (option_copied existing) }
    requires fits { RequestFits request.now }
    requires modes { ModesFitOr request.now.modes }
    ensures { IfOk result (λ v. view v ≡ request_data (option_copied existing.entry) request.now) }
{
    Draft::new(alloc)
        .with_optional("user", optional_value(alloc, &request.user))
        .with_optional("subject", subject_request_value(alloc, request.subject))
        .with_optional("interact", optional_modes(alloc, &request.modes))
        .with_optional("existing_access_token", existing_value(alloc, existing))
        .with_optional(
            "client",
            optional_client(alloc, request.by_object, &request.client),
        )
        .with_optional(
            "access_token",
            token_requests_value(alloc, request.single, request.asks.as_slice()),
        )
        .value()
}

/// The object that a grant request or a modification is (RFC 9635, sections 2 and 5.3).
///
/// Its members are `access_token`, where tokens are asked for: a token request, or an array of them, each with `access`, for a bearer token `flags`,
/// and where it has one `label`; `client`, the id of the client's key or an object with it under `key`; `interact`, with `start` and where it is asked
/// for `finish`; `subject`, where an opaque identifier of the user is asked for; and where the user is named `user`, the identifier. `hash_method` is
/// there for SHA-512 alone.
pub fn grant_value(alloc: Global, request: &GrantRequest) -> Result<Value, Mem>
    requires fits { RequestFits request.now }
    requires modes { ModesFitOr request.now.modes }
    ensures { IfOk result (λ v. view v ≡ grant_data request.now) }
{
    request_value(alloc, None, request)
}

/// The compact text of the object that a grant request is which presents an existing token, where there is one: `existing_access_token` beside the members
/// of `grant_value` (RFC 9767, section 4). The members of each object stand in the ascending byte order of their names. Where the object has at most 127
/// levels, it is what `read_body` reads of the text.
pub fn request_text(
    alloc: Global,
    existing: Option<&Bytes>,
    request: &GrantRequest,
) -> Result<Bytes, Mem>
    requires existing { IsUtf8Or (option_copied existing) }
    requires fits { RequestFits request.now }
    requires modes { ModesFitOr request.now.modes }
    ensures value { IfOk result (λ text. text ≡ request_text (option_copied existing.entry) request.now) }
    ensures read { IfOk result (λ text. depth (request_data (option_copied existing.entry) request.now) ≤ max_depth
        → body_of text ≡ Ok (request_data (option_copied existing.entry) request.now)) }
{
    let value = request_value(alloc, existing, request)?;
    Ok(Bytes::from_vec(value.to_vec(alloc)?))
}

/// The compact text of the object that a grant request or a modification is, with the members of each object in the ascending byte order of their names.
/// Where the object has at most 127 levels, it is what `read_body` reads of the text.
pub fn grant_text(alloc: Global, request: &GrantRequest) -> Result<Bytes, Mem>
    requires fits { RequestFits request.now }
    requires modes { ModesFitOr request.now.modes }
    ensures value { IfOk result (λ text. text ≡ grant_text request.now) }
    ensures read { IfOk result (λ text. depth (grant_data request.now) ≤ max_depth → body_of text ≡ Ok (grant_data request.now)) }
{
    request_text(alloc, None, request)
}
