//! Continuations (RFC 9635, section 5) and rotations of tokens (section 6.1).
ghost use Rattle.std.specs.Prelude.{◌≡◌, IfOk, option_map};
ghost use Rattle.serde_json.specs.View.{view};
ghost use Rattle.json_objects.specs.Reading.{Gives};
ghost use Rattle.json_objects.specs.Texts.{IsUtf8Or};
ghost use Rattle.gnap_objects.specs.declared.fault.ObjectFault.TheVariants.{OutOfMemory};
ghost use Rattle.gnap_objects.specs.Continuations.{body_member, continuation_of, rotation_of};

use crate::fault::ObjectFault;
use crate::members::{id_of, text_of};
use bytes_and_lists::bytes::Bytes;
use gnap_model::objects::ContinueRequest;
use json_objects::member;
use serde_json::Value;
use std::alloc::Global;

fn body_member<'v>(body: Option<&'v Value>, name: &str) -> Option<&'v Value>
    ensures { option_map (λ v. view v.now) result ≡ body_member name.now (option_map (λ v. view v.now) body.entry) }
{
    member(body?, name)
}

/// The continuation that a body is (RFC 9635, sections 5.1 and 5.2): a poll, where there is none or an empty one, or an object that may have
/// `interact_ref`, any string, the interaction reference. Other members are not looked at, and a value that is no object has no members.
#[tactic(auto, unfolding(crate::specs::Continuations::continuation_of))]
pub fn read_continue(alloc: Global, body: Option<&Value>) -> Result<ContinueRequest, ObjectFault>
    ensures value { Gives OutOfMemory (λ r. r) result (continuation_of (option_map (λ v. view v.now) body.entry)) }
    ensures utf8 { IfOk result (λ r. IsUtf8Or r.reference) }
{
    let Some(reference) = body_member(body, "interact_ref") else {
        return Ok(ContinueRequest { reference: None });
    };
    Ok(ContinueRequest {
        reference: Some(text_of(alloc, reference, "interact_ref")?),
    })
}

/// What the body of a rotation says (RFC 9635, section 6.1): nothing, where there is none or an empty one, or an object that may have `key`, the id of
/// the key to which the token is to be bound, of 1 to 64 bytes. Other members are not looked at, and a value that is no object has no members.
#[tactic(auto, unfolding(crate::specs::Continuations::rotation_of))]
pub fn read_rotate(alloc: Global, body: Option<&Value>) -> Result<Option<Bytes>, ObjectFault>
    ensures value { Gives OutOfMemory (λ k. k) result (rotation_of (option_map (λ v. view v.now) body.entry)) }
    ensures utf8 { IfOk result IsUtf8Or }
{
    let Some(key) = body_member(body, "key") else {
        return Ok(None);
    };
    Ok(Some(id_of(alloc, key, "key")?))
}
