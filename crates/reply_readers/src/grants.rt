//! The other members of replies, and the replies at status 200 (RFC 9635, sections 3, 5 and 6).
ghost use Rattle.std.specs.Prelude.{◌≡◌, codes, option_map, IfOk};
ghost use Rattle.std.specs.Str.{bytes_eq};
ghost use Rattle.serde_json.specs.Find.{get};
ghost use Rattle.serde_json.specs.View.{view, items_view};
ghost use Rattle.json_objects.specs.Bodies.{IsBody};
ghost use Rattle.json_objects.specs.Reading.{Gives};
ghost use Rattle.reply_readers.specs.declared.members.FormFault.TheVariants.{OutOfMemory};
ghost use Rattle.reply_readers.specs.Members.{Tells, where_there, tested};
ghost use Rattle.reply_readers.specs.Grants.{continue_of, only_item, subject_in, subject_of, code_uri_in, code_of, uri_of, interaction_of, granted_of, pending_of, continuing_of, rotated_of, has, given_of};

use crate::grant_reply::{GrantReply, Interaction, ReplyKind};
use crate::members::{
    FormFault, checked_value, copied, needed_number, needed_str, optional_copied, optional_str,
};
use crate::tokens::{token_of, tokens_of};
use bytes_and_lists::bytes::Bytes;
use bytes_and_lists::memory::Mem;
use json_objects::member;
use serde_json::Value;
use std::alloc::Global;

#[tactic(auto, unfolding(crate::specs::Grants::continue_of))]
fn continue_of(value: &Value) -> Option<&str>
    ensures { Tells (λ v. v.now) result (continue_of (view value.now)) }
{
    if let Some(continuation) = member(value, "continue")
        && let Some(token) = member(continuation, "access_token")
        && let Some(_) = needed_str(continuation, "uri")
        && let Some(_) = needed_number(continuation, "wait")
        && let Some(text) = needed_str(token, "value")
    {
        checked_value(text)
    } else {
        None
    }
}

#[tactic(auto, using(crate::proofs::Arrays::not_alone))]
fn only_item(items: &Vec<Value>) -> Option<&Value>
    ensures { Tells (λ v. view v.now) result (only_item (items_view items.now.items)) }
{
    match items.as_slice() {
        [] => None,
        [item] => Some(item),
        [_, _, ..] => None,
    }
}

fn opaque(text: &str) -> Option<&str>
    ensures { Tells (λ s. s.now) result (tested (bytes_eq (codes "opaque")) text.now) }
{
    if "opaque" == text { Some(text) } else { None }
}

#[tactic(auto, unfolding(crate::specs::Grants::subject_in))]
fn subject_in(value: &Value) -> Option<&str>
    ensures { Tells (λ v. v.now) result (subject_in (view value.now)) }
{
    let sub_ids = member(value, "sub_ids")?;
    let sub_id = only_item(sub_ids.as_array()?)?;
    let _format = opaque(needed_str(sub_id, "format")?)?;
    needed_str(sub_id, "id")
}

#[tactic(auto, unfolding(crate::specs::Grants::subject_of))]
fn subject_of(value: &Value) -> Option<Option<&str>>
    ensures { Tells (option_map (λ v. v.now)) result (subject_of (view value.now)) }
{
    match member(value, "subject") {
        None => Some(None),
        Some(member) => Some(Some(subject_in(member)?)),
    }
}

#[tactic(auto, unfolding(crate::specs::Grants::code_uri_in))]
fn code_uri_in(value: &Value) -> Option<(&str, &str)>
    ensures { Tells (λ v. (v.0.now, v.1.now)) result (code_uri_in (view value.now)) }
{
    let code = needed_str(value, "code")?;
    let uri = needed_str(value, "uri")?;
    Some((code, uri))
}

fn code_uri_of(value: &Value) -> Option<Option<(&str, &str)>>
    ensures { Tells (option_map (λ v. (v.0.now, v.1.now))) result (where_there code_uri_in (get (codes "user_code_uri") (view value.now))) }
{
    match member(value, "user_code_uri") {
        None => Some(None),
        Some(member) => Some(Some(code_uri_in(member)?)),
    }
}

// The code, alone or with the URI, and the URI.
fn code_parts<'v>(
    alone: Option<&'v str>,
    both: Option<(&'v str, &'v str)>,
) -> (Option<&'v str>, Option<&'v str>)
    ensures code { option_map (λ s. s.now) result.0 ≡ code_of (option_map (λ s. s.now) alone.entry) (option_map (λ v. (v.0.now, v.1.now)) both.entry) }
    ensures uri { option_map (λ s. s.now) result.1 ≡ uri_of (option_map (λ v. (v.0.now, v.1.now)) both.entry) }
{
    match both {
        None => (alone, None),
        Some((code, uri)) => (Some(code), Some(uri)),
    }
}

fn both_copied(
    alloc: Global,
    first: Option<&str>,
    second: Option<&str>,
) -> Result<(Option<Bytes>, Option<Bytes>), Mem>
    ensures first { IfOk result (λ r. r.0 ≡ option_map (λ s. s.now) first.entry) }
    ensures second { IfOk result (λ r. r.1 ≡ option_map (λ s. s.now) second.entry) }
{
    let first = optional_copied(alloc, first)?;
    let second = optional_copied(alloc, second)?;
    Ok((first, second))
}

#[tactic(auto, unfolding(crate::specs::Grants::interaction_of))]
fn interaction_of(alloc: Global, value: &Value) -> Result<Interaction, FormFault>
    ensures { Gives OutOfMemory (λ v. v) result (interaction_of (view value.now)) }
{
    let Some(expires_in) = needed_number(value, "expires_in") else {
        return Err(FormFault::NotOfForm);
    };
    let Some(nonce) = optional_str(value, "finish") else {
        return Err(FormFault::NotOfForm);
    };
    let Some(redirect) = optional_str(value, "redirect") else {
        return Err(FormFault::NotOfForm);
    };
    let Some(alone) = optional_str(value, "user_code") else {
        return Err(FormFault::NotOfForm);
    };
    let Some(both) = code_uri_of(value) else {
        return Err(FormFault::NotOfForm);
    };
    let (code, uri) = code_parts(alone, both);
    let (user_code, user_code_uri) = both_copied(alloc, code, uri)?;
    let (redirect, nonce) = both_copied(alloc, redirect, nonce)?;
    Ok(Interaction {
        redirect,
        user_code,
        user_code_uri,
        nonce,
        expires_in,
    })
}

#[tactic(auto, unfolding(crate::specs::Grants::granted_of))]
fn granted_of(alloc: Global, value: &Value) -> Result<GrantReply, FormFault>
    requires { IsBody (view value.now) }
    ensures { Gives OutOfMemory (λ v. v) result (granted_of (view value.now)) }
{
    let Some(door) = continue_of(value) else {
        return Err(FormFault::NotOfForm);
    };
    let Some(_) = optional_str(value, "instance_id") else {
        return Err(FormFault::NotOfForm);
    };
    let Some(subject) = subject_of(value) else {
        return Err(FormFault::NotOfForm);
    };
    let door = copied(alloc, door)?;
    let subject = optional_copied(alloc, subject)?;
    let tokens = tokens_of(alloc, value)?;
    Ok(GrantReply::Granted {
        door,
        tokens,
        subject,
    })
}

#[tactic(auto, unfolding(crate::specs::Grants::pending_of))]
fn pending_of(alloc: Global, value: &Value) -> Result<GrantReply, FormFault>
    ensures { Gives OutOfMemory (λ v. v) result (pending_of (view value.now)) }
{
    let Some(door) = continue_of(value) else {
        return Err(FormFault::NotOfForm);
    };
    let Some(_) = optional_str(value, "instance_id") else {
        return Err(FormFault::NotOfForm);
    };
    let Some(interact) = member(value, "interact") else {
        return Err(FormFault::NotOfForm);
    };
    let door = copied(alloc, door)?;
    let interaction = interaction_of(alloc, interact)?;
    Ok(GrantReply::Pending { door, interaction })
}

#[tactic(auto, unfolding(crate::specs::Grants::continuing_of))]
fn continuing_of(alloc: Global, value: &Value) -> Result<GrantReply, FormFault>
    ensures { Gives OutOfMemory (λ v. v) result (continuing_of (view value.now)) }
{
    let Some(door) = continue_of(value) else {
        return Err(FormFault::NotOfForm);
    };
    Ok(GrantReply::Continuing {
        door: copied(alloc, door)?,
    })
}

#[tactic(auto, unfolding(crate::specs::Grants::rotated_of))]
fn rotated_of(alloc: Global, value: &Value) -> Result<GrantReply, FormFault>
    requires { IsBody (view value.now) }
    ensures { Gives OutOfMemory (λ v. v) result (rotated_of (view value.now)) }
{
    let Some(member) = member(value, "access_token") else {
        return Err(FormFault::NotOfForm);
    };
    let token = token_of(alloc, member)?;
    Ok(GrantReply::Rotated { token })
}

fn has(value: &Value, name: &str) -> bool
    ensures { result ≡ has name.now (view value.now) }
{
    value.get(name).is_some()
}

pub(crate) fn given_of(
    alloc: Global,
    kind: ReplyKind,
    value: &Value,
) -> Result<GrantReply, FormFault>
    requires { IsBody (view value.now) }
    ensures { Gives OutOfMemory (λ v. v) result (given_of kind (view value.now)) }
{
    match kind {
        ReplyKind::Asking => if has(value, "interact") {
            pending_of(alloc, value)
        } else if has(value, "access_token") {
            granted_of(alloc, value)
        } else {
            Err(FormFault::NotOfForm)
        },
        ReplyKind::Continuing => if has(value, "access_token") || has(value, "subject") {
            granted_of(alloc, value)
        } else {
            continuing_of(alloc, value)
        },
        ReplyKind::Rotating => rotated_of(alloc, value),
        ReplyKind::Ending => Err(FormFault::NotOfForm),
    }
}
