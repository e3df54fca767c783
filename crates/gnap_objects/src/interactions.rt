//! The ways to interact with the user that a grant request offers (RFC 9635, section 2.5).
ghost use Rattle.std.specs.Prelude.{IfOk, IsUtf8};
ghost use Rattle.serde_json.specs.View.{view};
ghost use Rattle.json_objects.specs.Reading.{Gives};
ghost use Rattle.gnap_objects.specs.declared.fault.ObjectFault.TheVariants.{OutOfMemory};
ghost use Rattle.gnap_objects.specs.CallsFit.{AddressFits, FinishFits, FinishFitsOr, ModesFit, ModesFitOr};
ghost use Rattle.gnap_objects.specs.Interactions.{push_of, finish_uri_of, nonce_of, long_of, asked_finish_of, optional_finish_of, offered_modes_of, interact_of};

use crate::fault::ObjectFault;
use crate::members::{
    checked_object, copied, has_string, required, required_items, required_str, sized_str,
    sized_text,
};
use bytes_and_lists::bytes::Bytes;
use gnap_model::objects::{Finish, Modes};
use interaction::uri_fits;
use json_objects::member;
use serde_json::Value;
use std::alloc::Global;

// Whether `method` is `push`, and not `redirect`.
#[tactic(auto, unfolding(crate::specs::Interactions::push_of, crate::specs::Reading::required_text))]
fn push_of(alloc: Global, finish: &Value) -> Result<bool, ObjectFault>
    ensures { Gives OutOfMemory (λ b. b) result (push_of (view finish.now)) }
{
    match required_str(alloc, finish, "method")? {
        "redirect" => Ok(false),
        "push" => Ok(true),
        _ => Err(ObjectFault::wrong(alloc, "method")),
    }
}

#[tactic(auto, unfolding(crate::specs::Interactions::finish_uri_of, crate::specs::Reading::required_text))]
fn finish_uri_of(alloc: Global, finish: &Value) -> Result<Bytes, ObjectFault>
    ensures value { Gives OutOfMemory (λ u. u) result (finish_uri_of (view finish.now)) }
    ensures fits { IfOk result AddressFits }
{
    let member = required(alloc, finish, "uri")?;
    let uri = sized_str(alloc, member, 2048, "uri")?;
    if uri_fits(alloc, uri.as_bytes())? {
        copied(alloc, uri)
    } else {
        Err(ObjectFault::wrong(alloc, "uri"))
    }
}

#[tactic(auto, unfolding(crate::specs::Interactions::nonce_of, crate::specs::Reading::required_text))]
fn nonce_of(alloc: Global, finish: &Value) -> Result<Bytes, ObjectFault>
    ensures value { Gives OutOfMemory (λ n. n) result (nonce_of (view finish.now)) }
    ensures utf8 { IfOk result IsUtf8 }
{
    let nonce = required(alloc, finish, "nonce")?;
    sized_text(alloc, nonce, 256, "nonce")
}

// Whether `hash_method` is `sha-512`, and not `sha-256`.
#[tactic(auto, unfolding(crate::specs::Interactions::long_of, crate::specs::Reading::text_of))]
fn long_of(alloc: Global, finish: &Value) -> Result<bool, ObjectFault>
    ensures { Gives OutOfMemory (λ b. b) result (long_of (view finish.now)) }
{
    let Some(method) = member(finish, "hash_method") else {
        return Ok(false);
    };
    match method.as_str() {
        Some("sha-256") => Ok(false),
        Some("sha-512") => Ok(true),
        _ => Err(ObjectFault::wrong(alloc, "hash_method")),
    }
}

#[tactic(auto, unfolding(crate::specs::Interactions::asked_finish_of))]
fn asked_finish_of(alloc: Global, finish: &Value) -> Result<Finish, ObjectFault>
    ensures value { Gives OutOfMemory (λ f. f) result (asked_finish_of (view finish.now)) }
    ensures fits { IfOk result FinishFits }
{
    let finish = checked_object(alloc, finish, "finish")?;
    let push = push_of(alloc, finish)?;
    let uri = finish_uri_of(alloc, finish)?;
    let nonce = nonce_of(alloc, finish)?;
    let long = long_of(alloc, finish)?;
    Ok(Finish {
        push,
        uri,
        nonce,
        long,
    })
}

#[tactic(auto, unfolding(crate::specs::Interactions::optional_finish_of))]
fn optional_finish_of(alloc: Global, interact: &Value) -> Result<Option<Finish>, ObjectFault>
    ensures value { Gives OutOfMemory (λ f. f) result (optional_finish_of (view interact.now)) }
    ensures fits { IfOk result FinishFitsOr }
{
    let Some(finish) = member(interact, "finish") else {
        return Ok(None);
    };
    Ok(Some(asked_finish_of(alloc, finish)?))
}

#[tactic(auto, unfolding(crate::specs::Interactions::offered_modes_of))]
fn offered_modes_of(alloc: Global, interact: &Value) -> Result<Modes, ObjectFault>
    ensures value { Gives OutOfMemory (λ m. m) result (offered_modes_of (view interact.now)) }
    ensures fits { IfOk result ModesFit }
{
    let interact = checked_object(alloc, interact, "interact")?;
    let starts = required_items(alloc, interact, "start")?;
    let redirect = has_string(alloc, starts, "redirect", "start")?;
    let user_code = has_string(alloc, starts, "user_code", "start")?;
    let user_code_uri = has_string(alloc, starts, "user_code_uri", "start")?;
    let finish = optional_finish_of(alloc, interact)?;
    Ok(Modes {
        redirect,
        user_code,
        user_code_uri,
        finish,
    })
}

/// The ways to interact under `interact`, where it is there.
#[tactic(auto, unfolding(crate::specs::Interactions::interact_of))]
pub(crate) fn interact_of(alloc: Global, value: &Value) -> Result<Option<Modes>, ObjectFault>
    ensures value { Gives OutOfMemory (λ m. m) result (interact_of (view value.now)) }
    ensures fits { IfOk result ModesFitOr }
{
    let Some(interact) = member(value, "interact") else {
        return Ok(None);
    };
    Ok(Some(offered_modes_of(alloc, interact)?))
}
