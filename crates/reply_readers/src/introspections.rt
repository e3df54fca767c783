//! Replies to introspections (RFC 9767, section 3.3).
ghost use Rattle.std.specs.Prelude.{◌≡◌, IfOk, option_map};
ghost use Rattle.serde_json.specs.View.{view};
ghost use Rattle.json_objects.specs.Bodies.{IsBody};
ghost use Rattle.json_objects.specs.Reading.{Gives};
ghost use Rattle.reply_readers.specs.declared.members.FormFault.TheVariants.{OutOfMemory};
ghost use Rattle.reply_readers.specs.Members.{Tells};
ghost use Rattle.reply_readers.specs.Introspections.{key_of, key_in, exp_in, needed_flag, active_of, judgement_of, judgement_reading, judgement};

use crate::judgement::Judgement;
use crate::members::{
    FormFault, bearer_of, needed_number, needed_rights, needed_str, optional_copied, optional_str,
};
use crate::reading::object_of;
use bytes_and_lists::memory::Mem;
use json_objects::member;
use serde_json::Value;
use std::alloc::Global;

// The key of a bound token: a token has a key or the flag, and not both.
fn key_of<'v>(bearer: bool, instance: &str, key: Option<&'v str>) -> Option<Option<&'v str>>
    ensures { Tells (option_map (λ k. k.now)) result (key_of bearer instance.now (option_map (λ k. k.now) key.entry)) }
{
    let is_right = match key {
        None => bearer,
        Some(key) => !bearer && key == instance,
    };
    if is_right { Some(key) } else { None }
}

#[tactic(auto, unfolding(crate::specs::Introspections::key_in))]
fn key_in(value: &Value) -> Option<Option<&str>>
    ensures { Tells (option_map (λ k. k.now)) result (key_in (view value.now)) }
{
    let bearer = bearer_of(value)?;
    let instance = needed_str(value, "instance_id")?;
    key_of(bearer, instance, optional_str(value, "key")?)
}

// The second at which the token ends, where it is told too when and by whom it was given.
#[tactic(auto, unfolding(crate::specs::Introspections::exp_in))]
fn exp_in(value: &Value) -> Option<u64>
    ensures { Tells (λ n. n) result (exp_in (view value.now)) }
{
    let exp = needed_number(value, "exp")?;
    let _iat = needed_number(value, "iat")?;
    let _iss = needed_str(value, "iss")?;
    Some(exp)
}

#[tactic(auto, unfolding(crate::specs::Introspections::active_of))]
fn active_of(alloc: Global, value: &Value) -> Result<Judgement, FormFault>
    requires { IsBody (view value.now) }
    ensures { Gives OutOfMemory (λ j. j) result (active_of (view value.now)) }
{
    let Some(exp) = exp_in(value) else {
        return Err(FormFault::NotOfForm);
    };
    let Some(key) = key_in(value) else {
        return Err(FormFault::NotOfForm);
    };
    let key = optional_copied(alloc, key)?;
    let access = needed_rights(alloc, value, "access")?;
    Ok(Judgement::Active { access, key, exp })
}

fn needed_flag(value: &Value) -> Option<bool>
    ensures { Tells (λ b. b) result (needed_flag (view value.now)) }
{
    member(value, "active")?.as_bool()
}

#[tactic(auto, unfolding(crate::specs::Introspections::judgement_of))]
fn judgement_of(alloc: Global, value: &Value) -> Result<Judgement, FormFault>
    requires { IsBody (view value.now) }
    ensures { Gives OutOfMemory (λ j. j) result (judgement_of (view value.now)) }
{
    match needed_flag(value) {
        None => Err(FormFault::NotOfForm),
        Some(active) => if active {
            active_of(alloc, value)
        } else {
            Ok(Judgement::Inactive)
        },
    }
}

#[tactic(auto, unfolding(crate::specs::Introspections::judgement_reading))]
fn judged(alloc: Global, status: u16, body: &[u8]) -> Result<Judgement, FormFault>
    ensures { Gives OutOfMemory (λ j. j) result (judgement_reading status body.now) }
{
    if status != 200 {
        return Err(FormFault::NotOfForm);
    }
    let value = object_of(alloc, body)?;
    judgement_of(alloc, &value)
}

/// What a reply of this status and this body says of a token. `None` where it says nothing of the kind.
///
/// The status is 200, and the body is a JSON object (`json_objects::read_body`) with `active`. Where that is true, it has `access`, `exp`, `iat`,
/// `instance_id` and `iss`, and either `flags`, which is `["bearer"]`, or `key`, which is `instance_id`. Other members aren't looked at.
pub fn read_judgement(alloc: Global, status: u16, body: &[u8]) -> Result<Option<Judgement>, Mem>
    ensures { IfOk result (λ j. j ≡ judgement status body.now) }
{
    match judged(alloc, status, body) {
        Ok(judgement) => Ok(Some(judgement)),
        Err(FormFault::NotOfForm) => Ok(None),
        Err(FormFault::OutOfMemory) => Err(Mem),
    }
}
