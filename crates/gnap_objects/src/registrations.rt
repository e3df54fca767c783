//! Sets of rights that resource servers register, and references of them (RFC 9767, section 3.4).
ghost use Rattle.std.specs.Prelude.{IfOk, IsUtf8};
ghost use Rattle.std.specs.List.{AllByRecursion};
ghost use Rattle.serde_json.specs.View.{view};
ghost use Rattle.json_objects.specs.Bodies.{IsBody};
ghost use Rattle.json_objects.specs.Reading.{Gives};
ghost use Rattle.access_rights.specs.Fits.{Fits};
ghost use Rattle.gnap_objects.specs.declared.fault.ObjectFault.TheVariants.{OutOfMemory};
ghost use Rattle.gnap_objects.specs.Registrations.{registered_rights_of, registration_of, resolution_of};

use crate::fault::ObjectFault;
use crate::members::{counted_rights, is_too_long, required_key_name, required_text, rights_under};
use bytes_and_lists::bytes::Bytes;
use gnap_model::rights::Rights;
use serde_json::Value;
use std::alloc::Global;

/// A set of rights to be registered.
#[derive(Drop)]
pub struct Registration {
    /// The key id of the server whose set it is said to be.
    pub server: Bytes,
    /// The rights, in order.
    pub rights: Rights,
}

#[tactic(auto, unfolding(crate::specs::Registrations::registered_rights_of))]
fn registered_rights_of(alloc: Global, value: &Value) -> Result<Rights, ObjectFault>
    requires { IsBody (view value.now) }
    ensures value { Gives OutOfMemory (λ r. r) result (registered_rights_of (view value.now)) }
    ensures fits { IfOk result (AllByRecursion Fits) }
{
    let listed = rights_under(alloc, value, "access")?;
    let rights = counted_rights(alloc, listed, "access")?;
    if is_too_long(&rights) {
        return Err(ObjectFault::too_many(alloc, "access"));
    }
    Ok(rights)
}

/// The registration that a body is. The members are read in the order `access` (1 to 16 rights, whose compact text has at most 4,096 bytes),
/// `resource_server` (an id, or an object with `key`, an id), and the first fault is named. Other members are not looked at.
#[tactic(auto, unfolding(crate::specs::Registrations::registration_of))]
pub fn read_registration(alloc: Global, value: &Value) -> Result<Registration, ObjectFault>
    requires { IsBody (view value.now) }
    ensures value { Gives OutOfMemory (λ r. r) result (registration_of (view value.now)) }
    ensures fits { IfOk result (λ r. AllByRecursion Fits r.rights) }
{
    let rights = registered_rights_of(alloc, value)?;
    let server = required_key_name(alloc, value, "resource_server")?;
    Ok(Registration {
        server: server.id,
        rights,
    })
}

/// The reference whose meaning a body asks for: `resource_reference`, any string. Other members are not looked at.
#[tactic(auto, unfolding(crate::specs::Registrations::resolution_of))]
pub fn read_resolution(alloc: Global, value: &Value) -> Result<Bytes, ObjectFault>
    ensures value { Gives OutOfMemory (λ r. r) result (resolution_of (view value.now)) }
    ensures utf8 { IfOk result IsUtf8 }
{
    required_text(alloc, value, "resource_reference")
}
