//! Signing the message of a file.
ghost use Rattle.std.specs.Prelude.{◌≡◌, ◌≢◌, ◌↔◌, Some, true, Err, ◌<◌, ◌^◌, [], ◌++◌, IsOk, IfSome, OnOk};
ghost use Rattle.std.specs.List.{list_all};
ghost use Rattle.std.specs.Option.{option_copied};
ghost use Rattle.structured_fields.specs.Letters.{is_string_byte};
ghost use Rattle.message_signature.specs.declared.fault.SignFault.TheVariants.{HasSignature};
ghost use Rattle.message_signature.specs.Marks.{is_nonce};
ghost use Rattle.message_signature.specs.Signed.{has_signature, params_of, signed_under};
ghost use Rattle.outside.specs.Outside.{IsAtEnd, IsRest, Leaves};
ghost use Rattle.gnap_objects.specs.Setups.{IsSetup};
ghost use Rattle.signed_files.specs.MessageFiles.{Gives, CountsReadFault};
ghost use Rattle.signed_files.specs.SignedText.{SignsMessage, SignsFile};

use crate::fault::FileFault;
use crate::message_file::read_message;
use crate::message_text::message_text;
use bytes_and_lists::bytes::Bytes;
use bytes_and_lists::message::Message;
use gnap_model::objects::Setup;
use message_signature::{SignFault, sign, sign_marked};
use outside::device::Source;
use std::alloc::Global;

/// The tag of GNAP's signatures (RFC 9635, section 7.3.1).
pub(crate) const GNAP_TAG: &[u8] = b"gnap";

// Signs with a nonce, or without one.
fn sign_with(
    alloc: Global,
    message: &mut Message,
    base: &Bytes,
    id: &Bytes,
    secret: &Bytes,
    created: u64,
    nonce: Option<&Bytes>,
    tag: &Bytes,
) -> Result<(), SignFault>
    requires created { created < 10 ^ 15 }
    requires id { list_all is_string_byte id.now ≡ true }
    requires nonce { IfSome (option_copied nonce) (λ n. is_nonce n ≡ true) }
    requires tag { list_all is_string_byte tag.now ≡ true }
    ensures ok { OnOk result (signed_under message.old base.now (params_of id.now created (option_copied nonce.entry) tag.now) secret.now ≡ Some message.new) }
    ensures signed_before { (result ≡ Err HasSignature) ↔ (has_signature message.old ≡ true) }
{
    match nonce {
        Some(nonce) => sign_marked(alloc, message, base, id, secret, created, nonce, tag),
        None => sign(alloc, message, base, id, secret, created, tag),
    }
}

fn sign_message(
    alloc: Global,
    setup: &Setup,
    id: &Bytes,
    created: u64,
    nonce: Option<&Bytes>,
    message: &mut Message,
) -> Result<Bytes, FileFault>
    requires setup { IsSetup setup.now }
    requires created { created < 10 ^ 15 }
    requires nonce { IfSome (option_copied nonce) (λ n. is_nonce n ≡ true) }
    ensures answer { Gives (SignsMessage setup.now id.now created (option_copied nonce.entry) message.old) result }
    ensures unread { result ≢ Err FileFault.ReadFault }
{
    let Some(key) = setup.key(id.as_slice()) else {
        return Err(FileFault::Refused(b"UnknownKey"));
    };
    let tag = Bytes::from_slice(alloc, GNAP_TAG)?;
    match sign_with(
        alloc,
        message,
        &setup.base,
        id,
        &key.secret,
        created,
        nonce,
        &tag,
    ) {
        Ok(()) => Ok(message_text(alloc, message)?),
        Err(SignFault::HasSignature) => Err(FileFault::Refused(b"HasSignature")),
        Err(SignFault::OutOfMemory) => Err(FileFault::OutOfMemory),
    }
}

/// The bytes of the message that the file is, with the signature that the key of this id makes for it (RFC 9421; it covers what RFC 9635, section
/// 7.3.1, asks for): the request line with `HTTP/1.1`, the fields in their order with their names in lower case, and the body.
///
/// Nothing of the file was read yet. `created` is in seconds since 1970. A nonce has 1 to 64 letters, digits, `.`, `_` or `-`, and stands in the signature
/// where there is one. The name of the fault is that of the `EdgeFault` where the file is no whole
/// message, `Truncated` where it is empty and `BadHead` where bytes follow the message; then `UnknownKey` where the setup has no key of this id;
/// then `HasSignature`.
pub fn sign_file<S: Source>(
    alloc: Global,
    setup: &Setup,
    id: &Bytes,
    created: u64,
    nonce: Option<&Bytes>,
    source: &mut S,
) -> Result<Bytes, FileFault>
    requires setup { IsSetup setup.now }
    requires created { created < 10 ^ 15 }
    requires nonce { IfSome (option_copied nonce) (λ n. is_nonce n ≡ true) }
    requires fresh { (S.told source.old).taken ≡ [] }
    ensures answer { (rest : _) → IsRest (S.told source.new) rest
        → Gives (SignsFile setup.now id.now created (option_copied nonce.entry) ((S.told source.new).taken ++ rest)) result }
    ensures leaves { Leaves (S.told source.new).taken (S.told source.old).left (S.told source.new).left }
    ensures end { IsOk result → IsAtEnd (S.told source.new) }
    ensures counts { CountsReadFault result (S.faults source.old) (S.faults source.new) }
{
    let mut message = read_message(alloc, source)?;
    sign_message(alloc, setup, id, created, nonce, &mut message)
}
