//! The body of a finish that is pushed (RFC 9635, section 4.2.2).
ghost use Rattle.std.specs.Prelude.{◌≡◌, IfOk, IsUtf8};
ghost use Rattle.serde_json.specs.View.{view};
ghost use Rattle.interaction.specs.Pushes.{push_data, push_body};

use bytes_and_lists::bytes::Bytes;
use bytes_and_lists::memory::Mem;
use json_objects::{Draft, text_value};
use serde_json::Value;
use std::alloc::Global;

#[tactic(auto, unfolding(crate::specs::Pushes::push_data))]
fn push_value(alloc: Global, hash: &[u8], reference: &[u8]) -> Result<Value, Mem>
    requires hash { IsUtf8 hash.now }
    requires reference { IsUtf8 reference.now }
    ensures { IfOk result (λ v. view v ≡ push_data hash.now reference.now) }
{
    Draft::new(alloc)
        .with("interact_ref", text_value(alloc, reference))
        .with("hash", text_value(alloc, hash))
        .value()
}

/// The compact JSON object with the members `hash` and `interact_ref`.
#[tactic(auto, unfolding(crate::specs::Pushes::push_data))]
pub fn push_body(alloc: Global, hash: &[u8], reference: &[u8]) -> Result<Bytes, Mem>
    requires hash { IsUtf8 hash.now }
    requires reference { IsUtf8 reference.now }
    ensures body { IfOk result (λ b. b ≡ push_body hash.now reference.now) }
    ensures utf8 { IfOk result (λ b. IsUtf8 b) }
{
    let value = push_value(alloc, hash, reference)?;
    Ok(Bytes::from_vec(value.to_vec(alloc)?))
}
