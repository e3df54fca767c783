//! Replies of the server of resource sets over HTTP, ready to be written.
ghost use Rattle.std.specs.Prelude.{◌≡◌, IfOk, IsUtf8, Some, false};
ghost use Rattle.std.specs.List.{AllByRecursion};
ghost use Rattle.serde_json.specs.View.{view};
ghost use Rattle.serde_json.specs.Written.{compact_text, has_float};
ghost use Rattle.http_edge.specs.Replies.{plain_reply};
ghost use Rattle.json_objects.specs.Objects.{object_of};
ghost use Rattle.access_rights.specs.Fits.{Fits};
ghost use Rattle.as_edge.specs.DirectReplies.{http_reply};
ghost use Rattle.resource_sets.specs.SetsFit.{SetReplyFits};
ghost use Rattle.rs_facing.specs.SetReplies.{registered_fields, resolved_fields, set_response, answer_reply};

use crate::set_requests::SetAnswer;
use access_rights::printing::rights_value;
use as_edge::print_direct;
use as_requests::DirectAnswer;
use bytes_and_lists::bytes::Bytes;
use bytes_and_lists::memory::Mem;
use gnap_model::objects::Setup;
use gnap_model::rights::Rights;
use http_serving::ReadyReply;
use json_objects::{compact_text, put, text_value};
use resource_sets::sets::SetReply;
use serde_json::{Map, Value};
use std::alloc::Global;

fn registered_value(alloc: Global, reference: &[u8]) -> Result<Value, Mem>
    requires { IsUtf8 reference.now }
    ensures { IfOk result (λ v. view v ≡ object_of (registered_fields reference.now)) }
{
    let mut map = Map::new(alloc);
    let reference = text_value(alloc, reference)?;
    put(&mut map, alloc, "resource_reference", Some(reference))?;
    Ok(Value::Object(map))
}

fn resolved_value(alloc: Global, server: &[u8], rights: &Rights) -> Result<Value, Mem>
    requires server { IsUtf8 server.now }
    requires rights { AllByRecursion Fits rights.now }
    ensures { IfOk result (λ v. view v ≡ object_of (resolved_fields server.now rights.now)) }
{
    let mut map = Map::new(alloc);
    let server = text_value(alloc, server)?;
    put(&mut map, alloc, "resource_server", Some(server))?;
    let access = rights_value(alloc, rights)?;
    put(&mut map, alloc, "access", Some(access))?;
    Ok(Value::Object(map))
}

// 200 with this object.
fn object_reply(alloc: Global, object: &Value, last: bool) -> Result<ReadyReply, Mem>
    requires { has_float (view object.now) ≡ false }
    ensures { IfOk result (λ ready. ready ≡ plain_reply 200 (Some (compact_text (view object.now))) last) }
{
    let text = compact_text(alloc, object)?;
    Ok(ReadyReply::new(200, Some(text), last))
}

/// The HTTP reply for an answer that needs no state: 404; 405 with the one method; an error with its status and code. `last` says that the connection closes
/// behind it.
pub fn print_answer(
    alloc: Global,
    setup: &Setup,
    answer: SetAnswer,
    last: bool,
) -> Result<ReadyReply, Mem>
    requires { IsUtf8 setup.now.base }
    ensures { IfOk result (λ ready. ready ≡ answer_reply last answer) }
{
    match answer {
        SetAnswer::NotFound => print_direct(alloc, setup, DirectAnswer::NotFound, last),
        SetAnswer::NotAllowed => {
            let methods = Bytes::from_slice(alloc, b"POST")?;
            Ok(ReadyReply::not_allowed(methods, last))
        }
        SetAnswer::Error(code) => print_direct(alloc, setup, DirectAnswer::Error(code), last),
    }
}

/// The HTTP reply for a reply of the machine of sets: 200 with the reference, or with what it means; an error with its status and code; 503 for a lapse. `last`
/// says that the connection closes behind it.
#[tactic(auto, using(crate::proofs::WholeSets::registered_whole))]
pub fn set_reply(
    alloc: Global,
    setup: &Setup,
    reply: &SetReply,
    last: bool,
) -> Result<ReadyReply, Mem>
    requires base { IsUtf8 setup.now.base }
    requires reply { SetReplyFits reply.now }
    ensures { IfOk result (λ ready. ready ≡ http_reply last (set_response reply.now)) }
{
    match reply {
        SetReply::Registered { reference } => {
            let object = registered_value(alloc, reference.as_slice())?;
            object_reply(alloc, &object, last)
        }
        SetReply::Resolved { server, rights } => {
            let object = resolved_value(alloc, server.as_slice(), rights)?;
            object_reply(alloc, &object, last)
        }
        SetReply::Error { code } => print_direct(alloc, setup, DirectAnswer::Error(*code), last),
        SetReply::Lapsed => Ok(ReadyReply::new(503, None, last)),
    }
}
