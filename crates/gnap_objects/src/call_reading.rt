//! The calls that keys make, read from JSON.
ghost use Rattle.std.specs.Prelude.{◌≡◌, IfOk, IsUtf8, option_map, true, false};
ghost use Rattle.serde_json.specs.View.{view};
ghost use Rattle.json_objects.specs.Bodies.{IsBody};
ghost use Rattle.gnap_model.specs.Keys.{key_of};
ghost use Rattle.gnap_objects.specs.Grants.{grant_body_of};
ghost use Rattle.gnap_objects.specs.Continuations.{continuation_of, rotation_of};
ghost use Rattle.gnap_objects.specs.Introspections.{introspection_of};
ghost use Rattle.gnap_objects.specs.UserCodes.{user_code_of};
ghost use Rattle.gnap_objects.specs.Decisions.{handle_of, decide_request_of};
ghost use Rattle.gnap_objects.specs.CallReading.{is_caller, stranger, IsReadable, body_in, begin_refusal, begin_by, modify_by, continue_by, rotate_by, introspect_by, look_by, find_code_by, decide_by, caller_call, call_of, MachineTakes, IsTaken, IsCallOf, no_call};
ghost use Rattle.gnap_model.specs.declared.calls.Call.TheVariants as calls;
ghost use Rattle.gnap_objects.specs.declared.call_reading.CallOrRefusal.TheVariants.{Accepted};
ghost use Rattle.gnap_objects.specs.declared.call_reading.NoCall.TheVariants.{OutOfMemory};

use crate::continuations::{read_continue, read_rotate};
use crate::decisions::{read_decide, read_handle};
use crate::fault::ObjectFault;
use crate::grants::{GrantBody, grant_body_of};
use crate::introspections::read_introspect;
use crate::user_codes::read_code;
use bytes_and_lists::bytes::Bytes;
use bytes_and_lists::memory::Mem;
use gnap_model::boxed::Boxed;
use gnap_model::calls::Call;
use gnap_model::objects::{ErrorCode, KeyRow, Role, Setup};
use serde_json::Value;
use std::alloc::Global;

/// The calls that keys make.
#[derive(Clone, Copy)]
pub enum CallKind {
    /// A grant request of a client (RFC 9635, section 2).
    Begin,
    /// A poll, or the end of an interaction (RFC 9635, sections 5.1 and 5.2).
    Continue,
    /// A modification of a grant (RFC 9635, section 5.3).
    Modify,
    /// The cancellation of a grant (RFC 9635, section 5.4).
    Cancel,
    /// The rotation of a token (RFC 9635, section 6.1).
    Rotate,
    /// The revocation of a token (RFC 9635, section 6.2).
    Revoke,
    /// An introspection of a resource server (RFC 9767, section 3.3).
    Introspect,
    /// A look of the consent front at an interaction (RFC 9635, section 4.1).
    Look,
    /// The consent front's search for an interaction by its user code (RFC 9635, section 4.1.2).
    FindCode,
    /// The user's decision, handed in by the consent front (RFC 9635, section 4).
    Decide,
}

/// The body that a call comes with.
#[derive(Clone, Copy)]
pub enum BodyForm<'v> {
    /// None, or an empty one.
    Absent,
    /// A JSON object.
    Object(&'v Value),
    /// Something else.
    NotOfForm,
}

/// What a key asks for, as far as it can be read.
#[derive(Drop)]
pub enum CallOrRefusal {
    /// A call for the machine.
    Accepted(Call),
    /// The machine isn't asked; this error is the answer.
    Refused(ErrorCode),
}

// Why a body gives no call.
#[derive(Drop)]
enum NoCall {
    Refused(ErrorCode),
    OutOfMemory,
}

impl From<ObjectFault> for NoCall {
    ghost from_gives = { λ fault e. e ≡ no_call fault };

    fn from(fault: ObjectFault) -> NoCall {
        match fault {
            ObjectFault::OutOfMemory => NoCall::OutOfMemory,
            _ => NoCall::Refused(ErrorCode::InvalidRequest),
        }
    }
}

impl From<Mem> for NoCall {
    ghost from_gives = { λ _ e. e ≡ OutOfMemory };

    fn from(_e: Mem) -> NoCall {
        NoCall::OutOfMemory
    }
}

fn is_caller(kind: CallKind, key: Option<&KeyRow>) -> bool
    ensures { result ≡ is_caller kind (option_map (λ k. k.now) key.entry) }
{
    let Some(key) = key else {
        return false;
    };
    match kind {
        CallKind::Begin
        | CallKind::Continue
        | CallKind::Modify
        | CallKind::Cancel
        | CallKind::Rotate
        | CallKind::Revoke => matches!(key.role, Role::Client),
        CallKind::Introspect => matches!(key.role, Role::Server),
        CallKind::Look | CallKind::FindCode | CallKind::Decide => matches!(key.role, Role::Front),
    }
}

/// The refusal of one who isn't who a call of this kind has to come from: `InvalidClient` (RFC 9635, section 3.6), for an introspection
/// `InvalidResourceServer` (RFC 9767, section 3.5).
pub fn stranger(kind: CallKind) -> CallOrRefusal
    ensures stranger { result ≡ stranger kind }
    ensures taken { IsTaken result }
{
    match kind {
        CallKind::Begin
        | CallKind::Continue
        | CallKind::Modify
        | CallKind::Cancel
        | CallKind::Rotate
        | CallKind::Revoke
        | CallKind::Look
        | CallKind::FindCode
        | CallKind::Decide => CallOrRefusal::Refused(ErrorCode::InvalidClient),
        CallKind::Introspect => CallOrRefusal::Refused(ErrorCode::InvalidResourceServer),
    }
}

// Why a grant request that could be read isn't this key's to make.
fn begin_refusal(key: &[u8], body: &GrantBody) -> Option<ErrorCode>
    ensures { result ≡ begin_refusal key.now body.now }
{
    let names_key = match &body.request.client {
        Some(client) => client.as_slice() == key,
        None => false,
    };
    if !names_key {
        Some(ErrorCode::InvalidClient)
    } else if body.repeats_flag {
        Some(ErrorCode::InvalidFlag)
    } else {
        None
    }
}

fn begin_by(alloc: Global, key: &[u8], body: &Value) -> Result<Call, NoCall>
    requires key { IsUtf8 key.now }
    requires body { IsBody (view body.now) }
    ensures call { IsCallOf result (begin_by key.now (grant_body_of false (view body.now))) }
    ensures taken { IfOk result MachineTakes }
{
    let body = grant_body_of(alloc, body, false)?;
    if let Some(code) = begin_refusal(key, &body) {
        drop(body);
        return Err(NoCall::Refused(code));
    }
    let Ok(key) = Bytes::from_slice(alloc, key) else {
        drop(body);
        return Err(NoCall::OutOfMemory);
    };
    Ok(Call::Begin {
        key,
        request: Boxed::new(alloc, body.request)?,
        not_after: None,
    })
}

// Copies of the id of the key that calls, and of the value that it presents.
fn key_and_value(alloc: Global, key: &[u8], value: &[u8]) -> Result<(Bytes, Bytes), Mem>
    ensures { IfOk result (λ both. both ≡ (key.now, value.now)) }
{
    let key = Bytes::from_slice(alloc, key)?;
    let value = Bytes::from_slice(alloc, value)?;
    Ok((key, value))
}

fn modify_by(alloc: Global, key: &[u8], value: &[u8], body: &Value) -> Result<Call, NoCall>
    requires key { IsUtf8 key.now }
    requires body { IsBody (view body.now) }
    ensures call { IsCallOf result (modify_by key.now value.now (grant_body_of true (view body.now))) }
    ensures taken { IfOk result MachineTakes }
{
    let wanted = grant_body_of(alloc, body, true)?;
    if wanted.repeats_flag {
        drop(wanted);
        return Err(NoCall::Refused(ErrorCode::InvalidFlag));
    }
    let Ok((key, value)) = key_and_value(alloc, key, value) else {
        drop(wanted);
        return Err(NoCall::OutOfMemory);
    };
    Ok(Call::Modify {
        key,
        value,
        request: Boxed::new(alloc, wanted.request)?,
    })
}

fn continue_by(
    alloc: Global,
    key: &[u8],
    value: &[u8],
    body: Option<&Value>,
) -> Result<Call, NoCall>
    requires { IsUtf8 key.now }
    ensures call { IsCallOf result (continue_by key.now value.now (continuation_of (option_map (λ v. view v.now) body.entry))) }
    ensures taken { IfOk result MachineTakes }
{
    let request = read_continue(alloc, body)?;
    let (key, value) = key_and_value(alloc, key, value)?;
    Ok(Call::Continue {
        key,
        value,
        reference: request.reference,
    })
}

fn cancel_by(alloc: Global, key: &[u8], value: &[u8]) -> Result<Call, NoCall>
    requires { IsUtf8 key.now }
    ensures call { IsCallOf result (Accepted (calls.Cancel key.now value.now)) }
    ensures taken { IfOk result MachineTakes }
{
    let (key, value) = key_and_value(alloc, key, value)?;
    Ok(Call::Cancel { key, value })
}

fn rotate_by(alloc: Global, key: &[u8], value: &[u8], body: Option<&Value>) -> Result<Call, NoCall>
    requires { IsUtf8 key.now }
    ensures call { IsCallOf result (rotate_by key.now value.now (rotation_of (option_map (λ v. view v.now) body.entry))) }
    ensures taken { IfOk result MachineTakes }
{
    let new_key = read_rotate(alloc, body)?;
    let (key, value) = key_and_value(alloc, key, value)?;
    Ok(Call::Rotate {
        key,
        value,
        new_key,
    })
}

fn revoke_by(alloc: Global, key: &[u8], value: &[u8]) -> Result<Call, NoCall>
    requires { IsUtf8 key.now }
    ensures call { IsCallOf result (Accepted (calls.Revoke key.now value.now)) }
    ensures taken { IfOk result MachineTakes }
{
    let (key, value) = key_and_value(alloc, key, value)?;
    Ok(Call::Revoke { key, value })
}

fn introspect_by(alloc: Global, key: &[u8], body: &Value) -> Result<Call, NoCall>
    requires key { IsUtf8 key.now }
    requires body { IsBody (view body.now) }
    ensures call { IsCallOf result (introspect_by key.now (introspection_of (view body.now))) }
    ensures taken { IfOk result MachineTakes }
{
    let request = read_introspect(alloc, body)?;
    if request.server.as_slice() != key {
        return Err(NoCall::Refused(ErrorCode::InvalidResourceServer));
    }
    Ok(Call::Introspect {
        server: request.server,
        value: request.value,
        binding: request.binding,
        wanted: request.wanted,
    })
}

fn look_by(alloc: Global, key: &[u8], body: &Value) -> Result<Call, NoCall>
    requires { IsUtf8 key.now }
    ensures call { IsCallOf result (look_by key.now (handle_of (view body.now))) }
    ensures taken { IfOk result MachineTakes }
{
    let handle = read_handle(alloc, body)?;
    let front = Bytes::from_slice(alloc, key)?;
    Ok(Call::Look { front, handle })
}

fn find_code_by(alloc: Global, key: &[u8], body: &Value) -> Result<Call, NoCall>
    requires { IsUtf8 key.now }
    ensures call { IsCallOf result (find_code_by key.now (user_code_of (view body.now))) }
    ensures taken { IfOk result MachineTakes }
{
    let code = read_code(alloc, body)?;
    let front = Bytes::from_slice(alloc, key)?;
    Ok(Call::FindCode { front, code })
}

fn decide_by(alloc: Global, key: &[u8], body: &Value) -> Result<Call, NoCall>
    requires key { IsUtf8 key.now }
    requires body { IsBody (view body.now) }
    ensures call { IsCallOf result (decide_by key.now (decide_request_of (view body.now))) }
    ensures taken { IfOk result MachineTakes }
{
    let request = read_decide(alloc, body)?;
    let front = Bytes::from_slice(alloc, key)?;
    let request = Boxed::new(alloc, request)?;
    Ok(Call::Decide { front, request })
}

// The call of one who may make it.
fn caller_call(
    alloc: Global,
    kind: CallKind,
    key: &[u8],
    value: &[u8],
    body: BodyForm<'_>,
) -> Result<Call, NoCall>
    requires key { IsUtf8 key.now }
    requires body { IsReadable body }
    ensures call { IsCallOf result (caller_call kind key.now value.now (body_in body.entry)) }
    ensures taken { IfOk result MachineTakes }
{
    match (kind, body) {
        (CallKind::Begin, BodyForm::Object(body)) => begin_by(alloc, key, body),
        (CallKind::Continue, BodyForm::Absent) => continue_by(alloc, key, value, None),
        (CallKind::Continue, BodyForm::Object(body)) => continue_by(alloc, key, value, Some(body)),
        (CallKind::Modify, BodyForm::Object(body)) => modify_by(alloc, key, value, body),
        (CallKind::Cancel, _) => cancel_by(alloc, key, value),
        (CallKind::Rotate, BodyForm::Absent) => rotate_by(alloc, key, value, None),
        (CallKind::Rotate, BodyForm::Object(body)) => rotate_by(alloc, key, value, Some(body)),
        (CallKind::Revoke, _) => revoke_by(alloc, key, value),
        (CallKind::Introspect, BodyForm::Object(body)) => introspect_by(alloc, key, body),
        (CallKind::Look, BodyForm::Object(body)) => look_by(alloc, key, body),
        (CallKind::FindCode, BodyForm::Object(body)) => find_code_by(alloc, key, body),
        (CallKind::Decide, BodyForm::Object(body)) => decide_by(alloc, key, body),
        (_, BodyForm::Absent | BodyForm::NotOfForm) => {
            Err(NoCall::Refused(ErrorCode::InvalidRequest))
        }
    }
}

/// The call of this kind by the key with this id, with the value that it presents and its body; or the error that is the answer, the first that applies:
/// `InvalidClient`, for an introspection `InvalidResourceServer`, where the setup has no such key, or one of another role than the call's;
/// `InvalidRequest` where the body isn't of the call's form; `InvalidClient` or `InvalidResourceServer` where the body of a grant request or of an
/// introspection names another than the key as the one who calls; `InvalidFlag` where a flag stands twice in a token request; else the call.
///
/// Clients make the calls on grants and tokens, resource servers introspections, and the consent front looks, searches and decisions. A continuation
/// and a rotation may come without a body. The body of a cancellation and of a revocation isn't looked at. The value goes into a continuation, a
/// modification, a cancellation, a rotation and a revocation as it is; the other calls don't look at it.
#[tactic(auto, unfolding(crate::specs::CallReading::call_of))]
pub fn read_call(
    alloc: Global,
    setup: &Setup,
    kind: CallKind,
    key: &[u8],
    value: &[u8],
    body: BodyForm<'_>,
) -> Result<CallOrRefusal, Mem>
    requires key { IsUtf8 key.now }
    requires body { IsReadable body }
    ensures call { IfOk result (λ c. c ≡ call_of setup.now kind key.now value.now (body_in body.entry)) }
    ensures taken { IfOk result IsTaken }
{
    if !is_caller(kind, setup.key(key)) {
        return Ok(stranger(kind));
    }
    match caller_call(alloc, kind, key, value, body) {
        Ok(call) => Ok(CallOrRefusal::Accepted(call)),
        Err(NoCall::Refused(code)) => Ok(CallOrRefusal::Refused(code)),
        Err(NoCall::OutOfMemory) => Err(Mem),
    }
}
