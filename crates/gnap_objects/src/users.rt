//! Identifiers of the user in a grant request (RFC 9635, sections 2.2 and 2.4).
ghost use Rattle.std.specs.Prelude.{◌≡◌, IfOk, IsUtf8, option_map};
ghost use Rattle.serde_json.specs.View.{view, items_view};
ghost use Rattle.json_objects.specs.Reading.{Gives};
ghost use Rattle.json_objects.specs.Texts.{IsUtf8Or};
ghost use Rattle.gnap_objects.specs.declared.fault.ObjectFault.TheVariants.{OutOfMemory};
ghost use Rattle.gnap_objects.specs.Users.{subject_request_of, is_opaque, first_opaque, identified_user, user_in, user_of};

use crate::fault::ObjectFault;
use crate::members::{checked_object, has_string, required, required_items, sized_text};
use bytes_and_lists::bytes::Bytes;
use json_objects::member;
use serde_json::Value;
use std::alloc::Global;

/// Whether `subject` asks for an opaque identifier of the user.
#[tactic(auto, unfolding(crate::specs::Users::subject_request_of))]
pub(crate) fn subject_request_of(alloc: Global, value: &Value) -> Result<bool, ObjectFault>
    ensures { Gives OutOfMemory (λ b. b) result (subject_request_of (view value.now)) }
{
    let Some(subject) = member(value, "subject") else {
        return Ok(false);
    };
    let subject = checked_object(alloc, subject, "subject")?;
    let formats = required_items(alloc, subject, "sub_id_formats")?;
    has_string(alloc, formats, "opaque", "sub_id_formats")
}

fn is_opaque(identifier: &Value) -> bool
    ensures { result ≡ is_opaque (view identifier.now) }
{
    let Some(format) = identifier.get("format") else {
        return false;
    };
    let Some(format) = format.as_str() else {
        return false;
    };
    format == "opaque"
}

fn first_opaque(identifiers: &Vec<Value>) -> Option<&Value>
    ensures { option_map (λ v. view v.now) result ≡ first_opaque (items_view identifiers.now.items) }
{
    for identifier in identifiers {
        if is_opaque(identifier) {
            return Some(identifier);
        }
    }
    None
}

#[tactic(auto, unfolding(crate::specs::Users::identified_user, crate::specs::Reading::required_text))]
fn identified_user(alloc: Global, user: &Value) -> Result<Bytes, ObjectFault>
    ensures value { Gives OutOfMemory (λ b. b) result (identified_user (view user.now)) }
    ensures utf8 { IfOk result IsUtf8 }
{
    let user = checked_object(alloc, user, "user")?;
    let identifiers = required_items(alloc, user, "sub_ids")?;
    let Some(identifier) = first_opaque(identifiers) else {
        return Err(ObjectFault::wrong(alloc, "sub_ids"));
    };
    let id = required(alloc, identifier, "id")?;
    sized_text(alloc, id, 256, "id")
}

/// The opaque identifier of the user that the client believes to be there, under `user`.
#[tactic(auto, unfolding(crate::specs::Users::user_of, crate::specs::Reading::text_of))]
pub(crate) fn user_of(alloc: Global, value: &Value) -> Result<Option<Bytes>, ObjectFault>
    ensures value { Gives OutOfMemory (λ u. u) result (user_of (view value.now)) }
    ensures utf8 { IfOk result IsUtf8Or }
{
    let Some(user) = member(value, "user") else {
        return Ok(None);
    };
    let id = if user.is_string() {
        sized_text(alloc, user, 256, "user")
    } else {
        identified_user(alloc, user)
    };
    Ok(Some(id?))
}
