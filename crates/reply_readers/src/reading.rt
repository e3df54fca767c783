//! Whole replies, by the request that they answer.
ghost use Rattle.std.specs.Prelude.{◌≡◌, IfOk};
ghost use Rattle.serde_json.specs.View.{view};
ghost use Rattle.json_objects.specs.Bodies.{IsBody, body_of};
ghost use Rattle.json_objects.specs.Reading.{Gives};
ghost use Rattle.reply_readers.specs.declared.members.FormFault.TheVariants.{OutOfMemory};
ghost use Rattle.reply_readers.specs.Grants.{object_in, done_of, grant_reading, grant_reply};

use crate::grant_reply::{GrantReply, ReplyKind};
use crate::grants::given_of;
use crate::members::FormFault;
use crate::refusals::refused_of;
use bytes_and_lists::memory::Mem;
use json_objects::{BodyFault, read_body};
use serde_json::Value;
use std::alloc::Global;

pub(crate) fn object_of(alloc: Global, body: &[u8]) -> Result<Value, FormFault>
    ensures value { Gives OutOfMemory view result (object_in (body_of body.now)) }
    ensures body { IfOk result (λ v. IsBody (view v)) }
{
    match read_body(alloc, body) {
        Ok(value) => Ok(value),
        Err(BodyFault::NotAnObject) => Err(FormFault::NotOfForm),
        Err(BodyFault::Number) => Err(FormFault::NotOfForm),
        Err(BodyFault::OutOfMemory) => Err(FormFault::OutOfMemory),
    }
}

fn done_of(kind: ReplyKind) -> Result<GrantReply, FormFault>
    ensures { Gives OutOfMemory (λ r. r) result (done_of kind) }
{
    match kind {
        ReplyKind::Ending => Ok(GrantReply::Done),
        ReplyKind::Asking => Err(FormFault::NotOfForm),
        ReplyKind::Continuing => Err(FormFault::NotOfForm),
        ReplyKind::Rotating => Err(FormFault::NotOfForm),
    }
}

#[tactic(auto, unfolding(crate::specs::Grants::grant_reading))]
fn reply_of(
    alloc: Global,
    kind: ReplyKind,
    status: u16,
    body: &[u8],
) -> Result<GrantReply, FormFault>
    ensures { Gives OutOfMemory (λ r. r) result (grant_reading kind status body.now) }
{
    if status == 204 {
        return done_of(kind);
    }
    let value = object_of(alloc, body)?;
    if status == 200 {
        given_of(alloc, kind, &value)
    } else {
        refused_of(status, &value)
    }
}

/// What a reply of this status and this body says, to a request that may get these replies. `None` where it is none of them.
///
/// At status 204 the reply is Done, whatever the body is. At every other status the body is a JSON object (`json_objects::read_body`): at 200 the reply
/// that the request may get, at 400 or 401 an error whose code has that status. All members that such a reply always has must be there, and each of its
/// members that is there must be of its form (docs/FORMATS.md); other members aren't looked at.
pub fn read_grant_reply(
    alloc: Global,
    kind: ReplyKind,
    status: u16,
    body: &[u8],
) -> Result<Option<GrantReply>, Mem>
    ensures { IfOk result (λ r. r ≡ grant_reply kind status body.now) }
{
    match reply_of(alloc, kind, status, body) {
        Ok(reply) => Ok(Some(reply)),
        Err(FormFault::NotOfForm) => Ok(None),
        Err(FormFault::OutOfMemory) => Err(Mem),
    }
}
