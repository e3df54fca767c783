//! Members that the setups of all roles have.
ghost use Rattle.std.specs.Prelude.{IfOk, IsUtf8};
ghost use Rattle.serde_json.specs.View.{view};
ghost use Rattle.json_objects.specs.Bodies.{IsBody, body_of};
ghost use Rattle.json_objects.specs.Reading.{Gives};
ghost use Rattle.gnap_objects.specs.declared.fault.ObjectFault.TheVariants as faults;
ghost use Rattle.gnap_objects.specs.declared.setups.SetupFault.TheVariants.{OutOfMemory};
ghost use Rattle.gnap_objects.specs.Setups.{base_of, secret_of, object_in};

use crate::fault::ObjectFault;
use crate::forms::is_base;
use crate::members::{copied, required_str};
use crate::setups::SetupFault;
use base64::DecodeAllocError;
use base64::engine::general_purpose::STANDARD;
use bytes_and_lists::bytes::Bytes;
use json_objects::{BodyFault, read_body};
use serde_json::Value;
use std::alloc::Global;

/// The one JSON object that the bytes are (RFC 8259), in which each number is whole. `NotJson` comes exactly where they are none.
pub fn object_of(alloc: Global, text: &[u8]) -> Result<Value, SetupFault>
    ensures value { Gives OutOfMemory view result (object_in (body_of text.now)) }
    ensures body { IfOk result (λ v. IsBody (view v)) }
{
    match read_body(alloc, text) {
        Ok(value) => Ok(value),
        Err(BodyFault::OutOfMemory) => Err(SetupFault::OutOfMemory),
        Err(BodyFault::NotAnObject | BodyFault::Number) => Err(SetupFault::NotJson),
    }
}

/// The address of a server that is the member of that name: a scheme, a host, and a port where it isn't the scheme's own (`forms::is_base`).
/// The first fault: the member is `Missing`, or `Wrong`.
#[tactic(auto, unfolding(crate::specs::Setups::base_of, crate::specs::Reading::required_text))]
pub fn base_of(alloc: Global, value: &Value, name: &str) -> Result<Bytes, ObjectFault>
    ensures value { Gives faults.OutOfMemory (λ s. s) result (base_of name.now (view value.now)) }
    ensures utf8 { IfOk result IsUtf8 }
{
    let text = required_str(alloc, value, name)?;
    if is_base(text.as_bytes()) {
        copied(alloc, text)
    } else {
        Err(ObjectFault::wrong(alloc, name))
    }
}

/// The member `secret`: 16 to 64 bytes, written in base64 with padding and zero last bits (RFC 4648, section 4). The first fault: it is `Missing`, or `Wrong`.
#[tactic(auto, unfolding(crate::specs::Setups::secret_of, crate::specs::Reading::required_text))]
pub fn secret_of(alloc: Global, value: &Value) -> Result<Bytes, ObjectFault>
    ensures { Gives faults.OutOfMemory (λ s. s) result (secret_of (view value.now)) }
{
    let text = required_str(alloc, value, "secret")?;
    match STANDARD.decode(alloc, text.as_bytes()) {
        Ok(secret) if 16 <= secret.len() && secret.len() <= 64 => Ok(Bytes::from_vec(secret)),
        Err(DecodeAllocError::OutOfMemory) => Err(ObjectFault::OutOfMemory),
        _ => Err(ObjectFault::wrong(alloc, "secret")),
    }
}
