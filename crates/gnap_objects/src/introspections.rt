//! Introspections (RFC 9767, section 3.3).
ghost use Rattle.std.specs.Prelude.{IfOk};
ghost use Rattle.serde_json.specs.View.{view};
ghost use Rattle.json_objects.specs.Bodies.{IsBody};
ghost use Rattle.json_objects.specs.Reading.{Gives};
ghost use Rattle.gnap_objects.specs.declared.fault.ObjectFault.TheVariants.{OutOfMemory};
ghost use Rattle.gnap_objects.specs.Fits.{WantedFit, IntrospectionFits};
ghost use Rattle.gnap_objects.specs.Introspections.{proof_of, wanted_of, introspection_of};

use crate::fault::ObjectFault;
use crate::members::{counted_rights, required_key_name, required_text, rights_in};
use gnap_model::objects::{Binding, IntrospectRequest};
use gnap_model::rights::Rights;
use json_objects::member;
use serde_json::Value;
use std::alloc::Global;

#[tactic(auto, unfolding(crate::specs::Introspections::proof_of, crate::specs::Reading::text_of))]
fn proof_of(alloc: Global, value: &Value) -> Result<Option<Binding>, ObjectFault>
    ensures { Gives OutOfMemory (λ b. b) result (proof_of (view value.now)) }
{
    let Some(proof) = member(value, "proof") else {
        return Ok(None);
    };
    match proof.as_str() {
        Some("httpsig") => Ok(Some(Binding::Httpsig)),
        Some("bearer") => Ok(Some(Binding::Bearer)),
        _ => Err(ObjectFault::wrong(alloc, "proof")),
    }
}

#[tactic(auto, unfolding(crate::specs::Introspections::wanted_of))]
fn wanted_of(alloc: Global, value: &Value) -> Result<Option<Rights>, ObjectFault>
    requires { IsBody (view value.now) }
    ensures value { Gives OutOfMemory (λ r. r) result (wanted_of (view value.now)) }
    ensures fits { IfOk result WantedFit }
{
    let Some(access) = member(value, "access") else {
        return Ok(None);
    };
    let rights = rights_in(alloc, access, "access")?;
    Ok(Some(counted_rights(alloc, rights, "access")?))
}

/// The introspection that a body is. The members are read in the order `access_token` (any string, the token's value), `proof` (`httpsig` or `bearer`,
/// where it is there), `resource_server` (an id, or an object with `key`, an id), `access` (1 to 16 rights, where it is there), and the first fault is
/// named. Other members are not looked at.
#[tactic(auto, unfolding(crate::specs::Introspections::introspection_of, crate::specs::Reading::required_text))]
pub fn read_introspect(alloc: Global, value: &Value) -> Result<IntrospectRequest, ObjectFault>
    requires { IsBody (view value.now) }
    ensures value { Gives OutOfMemory (λ r. r) result (introspection_of (view value.now)) }
    ensures fits { IfOk result IntrospectionFits }
{
    let presented = required_text(alloc, value, "access_token")?;
    let binding = proof_of(alloc, value)?;
    let server = required_key_name(alloc, value, "resource_server")?;
    let wanted = wanted_of(alloc, value)?;
    Ok(IntrospectRequest {
        value: presented,
        binding,
        server: server.id,
        wanted,
    })
}
