//! What a request asks of the authorization server.
ghost use Rattle.std.specs.Prelude.{◌≡◌, Ok, None, IfOk, IsUtf8};
ghost use Rattle.std.specs.Result.{result_map_both};
ghost use Rattle.gnap_objects.specs.CallReading.{IsTaken, call_of, stranger};
ghost use Rattle.as_requests.specs.Presented.{presented_value};
ghost use Rattle.as_requests.specs.declared.desk_calls.RequestStep.TheVariants.{Direct};
ghost use Rattle.as_requests.specs.declared.desk_calls.DirectAnswer.TheVariants as direct;
ghost use Rattle.as_requests.specs.DeskCalls.{message_body, step_of, desk_call, IsAskable};

use crate::authorization::presented_value;
use crate::edge::Edge;
use crate::key_rotations::is_signed_by_named;
use crate::request_reader::RequestReader;
use crate::routes::{Purpose, Route};
use crate::signers::{Signer, find_signer, needs_mark};
use body_reading::BodyReader;
use bytes_and_lists::memory::Mem;
use bytes_and_lists::message::Message;
use gnap_model::calls::Call;
use gnap_objects::{BodyForm, CallKind, CallOrRefusal, ErrorCode, read_call, stranger};
use json_objects::BodyFault;
use message_signature::target_path;
use signed_calls::signed::Signed;
use std::alloc::Global;

/// An answer that needs no state.
#[derive(Clone, Copy)]
pub enum DirectAnswer {
    /// Nothing has the path: 404.
    NotFound,
    /// The route hasn't the method: 405, with those that it has.
    NotAllowed(Route),
    /// What the server says of itself to clients (RFC 9635, section 9).
    Discovery,
    /// What the server says of itself to resource servers (RFC 9767, section 3.1).
    RsDiscovery,
    /// An error (RFC 9635, section 3.6; RFC 9767, section 3.5).
    Error(ErrorCode),
}

/// What is done with a request.
#[derive(Drop)]
pub enum RequestStep {
    /// The machine isn't asked.
    Direct(DirectAnswer),
    /// The machine is asked this call. It has the mark of its signature, and an introspection has none.
    Ask(Signed),
}

// A step that asks no call, or that memory ran out. All exits make it here: a function zeroes room for each step that it makes itself, whichever it answers.
fn direct_step(answer: Result<DirectAnswer, Mem>) -> Result<RequestStep, Mem>
    ensures { result ≡ result_map_both Direct (λ e. e) answer }
{
    match answer {
        Ok(answer) => Ok(RequestStep::Direct(answer)),
        Err(Mem) => Err(Mem),
    }
}

// An error that is answered at once.
fn error_step(code: ErrorCode) -> Result<RequestStep, Mem>
    ensures { result ≡ Ok (Direct (direct.Error code)) }
{
    direct_step(Ok(DirectAnswer::Error(code)))
}

// The refusal of one who isn't who such a call has to come from.
fn stranger_step(kind: CallKind) -> Result<RequestStep, Mem>
    ensures step { IfOk result (λ s. s ≡ step_of None (stranger kind)) }
    ensures askable { IfOk result IsAskable }
{
    match stranger(kind) {
        CallOrRefusal::Accepted(call) => Ok(RequestStep::Ask(Signed { mark: None, call })),
        CallOrRefusal::Refused(code) => error_step(code),
    }
}

// The step in place of a call that isn't asked. An exit that lets a call go writes its drop out, for each kind of call: `drop` is one call.
fn step_without(call: Call, answer: Result<DirectAnswer, Mem>) -> Result<RequestStep, Mem>
    ensures { result ≡ result_map_both Direct (λ e. e) answer }
{
    drop(call);
    direct_step(answer)
}

// The call that the message makes under this key.
fn call_by(
    alloc: Global,
    bodies: &mut BodyReader,
    edge: &Edge,
    kind: CallKind,
    key: &[u8],
    message: &Message,
) -> Result<CallOrRefusal, Mem>
    requires { IsUtf8 key.now }
    ensures call { IfOk result (λ c. c ≡ call_of edge.now kind key.now (presented_value message.now) (message_body message.now.body)) }
    ensures taken { IfOk result IsTaken }
{
    let read = if message.body.len() == 0 {
        None
    } else {
        Some(bodies.read(alloc, message.body.as_slice()))
    };
    let body = match &read {
        None => BodyForm::Absent,
        Some(Ok(object)) => BodyForm::Object(object),
        Some(Err(BodyFault::OutOfMemory)) => Err(Mem)?,
        Some(Err(BodyFault::NotAnObject | BodyFault::Number)) => BodyForm::NotOfForm,
    };
    read_call(
        alloc,
        edge.setup(),
        kind,
        key,
        presented_value(message),
        body,
    )
}

/// What the message asks of the authorization server at this moment, in seconds since 1970: the first of these that applies. `NotFound` where no route has
/// its path; `NotAllowed` where the route hasn't its method; a discovery, for which nobody has to sign; `Error` with `InvalidClient`, for an introspection
/// with `InvalidResourceServer`, where `message_signature::verify` passes no signature with the setup's base, its keys and the tag `gnap`, or where the
/// signature has no mark (`message_signature::mark_of`) and the call isn't an introspection, or where the signer's role isn't that of the call; the error that
/// `gnap_objects::read_call` answers of the signer, the presented value and the body; `InvalidClient` where the call is a rotation that names a key, and
/// `rotation_checks::verify_rotation` doesn't answer that key as the one that made the second signature (RFC 9635, section 6.1.1); and else the call that was
/// read. A call other than an introspection has the signature's mark.
///
/// A body goes through unread until the signature passed, and is read by `reader`. Err only where memory ran out, and nothing is changed then.
#[tactic(auto, unfolding(crate::specs::DeskCalls::desk_call))]
pub fn desk_call(
    alloc: Global,
    reader: &mut RequestReader,
    message: &Message,
    edge: &Edge,
    moment: u64,
) -> Result<RequestStep, Mem>
    ensures step { IfOk result (λ s. s ≡ desk_call edge.now message.now moment) }
    ensures askable { IfOk result IsAskable }
{
    let Some(route) = Route::at(target_path(message.target.as_slice())) else {
        return direct_step(Ok(DirectAnswer::NotFound));
    };
    let kind = match route.purpose(message.method.as_slice()) {
        Some(Purpose::Calls(kind)) => kind,
        Some(Purpose::Discovery) => return direct_step(Ok(DirectAnswer::Discovery)),
        Some(Purpose::RsDiscovery) => return direct_step(Ok(DirectAnswer::RsDiscovery)),
        None => return direct_step(Ok(DirectAnswer::NotAllowed(route))),
    };
    let Some(Signer { key, mark }) = find_signer(
        alloc,
        &mut reader.verifier,
        edge,
        needs_mark(kind),
        message,
        moment,
    )?
    else {
        return stranger_step(kind);
    };
    let call = match call_by(
        alloc,
        &mut reader.bodies,
        edge,
        kind,
        key.as_slice(),
        message,
    ) {
        Ok(CallOrRefusal::Accepted(call)) => call,
        Ok(CallOrRefusal::Refused(code)) => return error_step(code),
        Err(Mem) => return direct_step(Err(Mem)),
    };
    match is_signed_by_named(alloc, edge, message, moment, &call) {
        Ok(true) => {}
        Ok(false) => return step_without(call, Ok(DirectAnswer::Error(ErrorCode::InvalidClient))),
        Err(Mem) => return step_without(call, Err(Mem)),
    }
    Ok(RequestStep::Ask(Signed { mark, call }))
}
