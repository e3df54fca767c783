//! What the consent front hands in: the handle of an interaction, and what the user decided (RFC 9635, section 4).
ghost use Rattle.std.specs.Prelude.{IfOk, IsUtf8};
ghost use Rattle.serde_json.specs.View.{view};
ghost use Rattle.json_objects.specs.Bodies.{IsBody};
ghost use Rattle.json_objects.specs.Reading.{Gives};
ghost use Rattle.json_objects.specs.Texts.{IsUtf8Or};
ghost use Rattle.gnap_objects.specs.declared.fault.ObjectFault.TheVariants.{OutOfMemory};
ghost use Rattle.gnap_objects.specs.CallsFit.{RightsFitOr, DecisionFits};
ghost use Rattle.gnap_objects.specs.Decisions.{handle_of, verdict_in, verdict_of, decided_rights_of, decided_subject_of, bounded_rights, decide_request_of};

use crate::fault::ObjectFault;
use crate::members::{is_too_long, required_str, required_text, rights_in, sized_text};
use bytes_and_lists::bytes::Bytes;
use gnap_model::objects::{DecideRequest, Verdict};
use gnap_model::rights::Rights;
use json_objects::member;
use serde_json::Value;
use std::alloc::Global;

/// The handle of an interaction, under `handle`: any string. Other members are not looked at.
#[tactic(auto, unfolding(crate::specs::Decisions::handle_of))]
pub fn read_handle(alloc: Global, value: &Value) -> Result<Bytes, ObjectFault>
    ensures value { Gives OutOfMemory (λ h. h) result (handle_of (view value.now)) }
    ensures utf8 { IfOk result IsUtf8 }
{
    required_text(alloc, value, "handle")
}

#[tactic(auto, unfolding(crate::specs::Decisions::verdict_of, crate::specs::Reading::required_text))]
fn verdict_of(alloc: Global, value: &Value) -> Result<Verdict, ObjectFault>
    ensures { Gives OutOfMemory (λ v. v) result (verdict_of (view value.now)) }
{
    match required_str(alloc, value, "verdict")? {
        "grant" => Ok(Verdict::Grant),
        "deny" => Ok(Verdict::Deny),
        "unknown" => Ok(Verdict::Unknown),
        _ => Err(ObjectFault::wrong(alloc, "verdict")),
    }
}

#[tactic(auto, unfolding(crate::specs::Decisions::decided_rights_of))]
fn decided_rights_of(alloc: Global, value: &Value) -> Result<Option<Rights>, ObjectFault>
    requires { IsBody (view value.now) }
    ensures value { Gives OutOfMemory (λ r. r) result (decided_rights_of (view value.now)) }
    ensures fits { IfOk result RightsFitOr }
{
    let Some(access) = member(value, "access") else {
        return Ok(None);
    };
    Ok(Some(rights_in(alloc, access, "access")?))
}

#[tactic(auto, unfolding(crate::specs::Decisions::decided_subject_of))]
fn decided_subject_of(alloc: Global, value: &Value) -> Result<Option<Bytes>, ObjectFault>
    ensures value { Gives OutOfMemory (λ s. s) result (decided_subject_of (view value.now)) }
    ensures utf8 { IfOk result IsUtf8Or }
{
    let Some(subject) = member(value, "subject") else {
        return Ok(None);
    };
    Ok(Some(sized_text(alloc, subject, 256, "subject")?))
}

fn bounded_rights(alloc: Global, rights: Option<Rights>) -> Result<Option<Rights>, ObjectFault>
    requires { RightsFitOr rights }
    ensures value { Gives OutOfMemory (λ r. r) result (bounded_rights rights) }
    ensures fits { IfOk result RightsFitOr }
{
    match rights {
        Some(rights) => if is_too_long(&rights) {
            Err(ObjectFault::too_many(alloc, "access"))
        } else {
            Ok(Some(rights))
        },
        None => Ok(None),
    }
}

/// The user's decision that a body is. The members are read in the order `handle` (any string), `verdict` (`grant`, `deny` or `unknown`), `access`
/// (any number of rights, where it is there), `subject` (1 to 256 bytes, where it is there), and the first fault is named. After these the compact JSON
/// text of the rights has to have at most 4,096 bytes. Other members are not looked at.
#[tactic(auto, unfolding(crate::specs::Decisions::decide_request_of))]
pub fn read_decide(alloc: Global, value: &Value) -> Result<DecideRequest, ObjectFault>
    requires { IsBody (view value.now) }
    ensures value { Gives OutOfMemory (λ r. r) result (decide_request_of (view value.now)) }
    ensures fits { IfOk result DecisionFits }
{
    let handle = read_handle(alloc, value)?;
    let verdict = verdict_of(alloc, value)?;
    let access = decided_rights_of(alloc, value)?;
    let subject = decided_subject_of(alloc, value)?;
    let rights = bounded_rights(alloc, access)?;
    Ok(DecideRequest {
        handle,
        verdict,
        rights,
        subject,
    })
}
