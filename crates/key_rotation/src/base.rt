//! The base of a signature that covers another one (RFC 9421, section 2.5), by what the two fields of the message have.
ghost use Rattle.std.specs.Prelude.{◌≡◌, IfOk};
ghost use Rattle.message_signature.specs.Faults.{GivesBase};
ghost use Rattle.rotation_checks.specs.RotationBase.{members_of, signature_members, rotation_base};

use bytes_and_lists::bytes::Bytes;
use bytes_and_lists::memory::Mem;
use bytes_and_lists::message::Message;
use message_signature::{BaseFault, SignatureFields, field_value};
use rotation_checks::base_with;
use std::alloc::Global;
use structured_fields::{Dictionary, FieldFault, InnerList, read_dictionary};

fn members_of(alloc: Global, message: &Message, name: &[u8]) -> Result<Dictionary, Mem>
    ensures { IfOk result (λ members. members ≡ members_of message.now name.now) }
{
    let Some(value) = field_value(alloc, &message.fields, name)? else {
        return Ok(Dictionary::new(alloc));
    };
    match read_dictionary(alloc, value.as_slice()) {
        Ok(members) => Ok(members),
        Err(FieldFault::NotInGrammar) => Ok(Dictionary::new(alloc)),
        Err(FieldFault::OutOfMemory) => Err(Mem),
    }
}

fn signature_members(alloc: Global, message: &Message) -> Result<SignatureFields, Mem>
    ensures { IfOk result (λ fields. fields ≡ signature_members message.now) }
{
    Ok(SignatureFields {
        inputs: members_of(alloc, message, b"signature-input")?,
        signatures: members_of(alloc, message, b"signature")?,
    })
}

/// The signature base of a message to the server with this base, under a list of covered components (RFC 9421, section 2.5), where `signature` and
/// `signature-input` with the one parameter `key`, a String, are the member under that label (section 2.1.2): its value is its canonical text. The base is
/// scheme, `://` and authority, without a `/` at its end.
///
/// Errors: Unsupported exactly where a covered component is no String, isn't lower case or isn't there, has other parameters, or is named again with the same
/// ones. OutOfMemory may come in place of any answer.
pub fn rotation_base(
    alloc: Global,
    message: &Message,
    base: &Bytes,
    list: &InnerList,
) -> Result<Bytes, BaseFault>
    ensures { GivesBase (λ b. b) result (rotation_base message.now base.now list.now) }
{
    let fields = signature_members(alloc, message)?;
    base_with(alloc, message, base, &fields, list)
}
