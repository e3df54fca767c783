//! The configuration of a client, read from bytes.
ghost use Rattle.std.specs.Prelude.{◌≡◌, true, codes, IfOk};
ghost use Rattle.std.specs.List.{list_all};
ghost use Rattle.serde_json.specs.View.{view};
ghost use Rattle.json_objects.specs.Reading.{Gives};
ghost use Rattle.structured_fields.specs.Letters.{is_string_byte};
ghost use Rattle.gnap_objects.specs.declared.fault.ObjectFault.TheVariants as faults;
ghost use Rattle.gnap_objects.specs.declared.setups.SetupFault.TheVariants.{OutOfMemory};
ghost use Rattle.gnap_client.specs.Configs.{client_id_of, parts_of, config_in, client_config_of};

use crate::config::ClientConfig;
use bytes_and_lists::bytes::Bytes;
use gnap_objects::members::{id_of, required, without_others};
use gnap_objects::setup_members::{base_of, object_of, secret_of};
use gnap_objects::{ObjectFault, SetupFault};
use serde_json::Value;
use std::alloc::Global;

#[tactic(auto, using(crate::proofs::Ids::read_string), unfolding(crate::specs::Configs::client_id_of))]
fn client_id_of(alloc: Global, value: &Value) -> Result<Bytes, ObjectFault>
    ensures value { Gives faults.OutOfMemory (λ s. s) result (client_id_of (view value.now)) }
    ensures string { IfOk result (λ id. list_all is_string_byte id ≡ true) }
{
    let member = required(alloc, value, "id")?;
    let id = id_of(alloc, member, "id")?;
    Ok(id)
}

#[tactic(auto, unfolding(crate::specs::Configs::config_in))]
fn config_in(alloc: Global, value: &Value) -> Result<ClientConfig, SetupFault>
    ensures { Gives OutOfMemory parts_of result (config_in (view value.now)) }
{
    let server = base_of(alloc, value, "server")?;
    let resource = base_of(alloc, value, "resource")?;
    let id = client_id_of(alloc, value)?;
    let secret = secret_of(alloc, value)?;
    without_others(alloc, value, &["server", "resource", "id", "secret"], ())?;
    Ok(ClientConfig {
        server,
        resource,
        id,
        secret,
    })
}

/// The configuration that the bytes are: a JSON object with exactly the members `server` and `resource`, addresses of servers
/// (`gnap_objects::forms::is_base`), `id`, an id (`gnap_objects::forms::is_id`), and `secret`, 16 to 64 bytes in base64 with padding (RFC 4648,
/// section 4). The members are read in this order, and the first fault is named.
#[tactic(auto, unfolding(crate::specs::Configs::client_config_of))]
pub fn read_client_config(alloc: Global, text: &[u8]) -> Result<ClientConfig, SetupFault>
    ensures { Gives OutOfMemory parts_of result (client_config_of text.now) }
{
    let value = object_of(alloc, text)?;
    config_in(alloc, &value)
}
