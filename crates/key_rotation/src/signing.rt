//! Making the second signature of a message (RFC 9635, section 6.1.1).
ghost use Rattle.std.specs.Prelude.{◌≡◌, ◌<◌, ◌^◌, ◌++◌, ◌∷◌, [], ◌||◌, not, codes, true, false, length, Some, None, Ok, Err, IsSome, IfOk, OnOk, OnErr, option_map, is_some};
ghost use Rattle.std.specs.List.{list_all};
ghost use Rattle.std.specs.Option.{option_copied};
ghost use Rattle.structured_fields.specs.Letters.{is_string_byte};
ghost use Rattle.hmac_key.specs.Hmac.{hmac_sha256};
ghost use Rattle.message_signature.specs.Verified.{has_body, has_field, signature_fields};
ghost use Rattle.rotation_checks.specs.RotationBase.{rotation_base};
ghost use Rattle.key_rotation.specs.declared.fault.RotationSignFault.TheVariants.{NotSigned};
ghost use Rattle.key_rotation.specs.SignedRotation.{is_inner, has_only_first, is_signed, member_item, rotation_input, signed_rotation};

use crate::fault::RotationSignFault;
use bytes_and_lists::bytes::Bytes;
use bytes_and_lists::memory::Mem;
use bytes_and_lists::message::Message;
use hmac_key::hmac;
use message_signature::{
    BaseFault, SigFault, SignatureFields, covered_items, has_field, signature_fields,
    signature_lines, signature_params,
};
use rotation_checks::base_over;
use std::alloc::Global;
use structured_fields::{Bare, InnerList, Item, Items, Member, Params};

// The labels of the two signatures.
const FIRST: &[u8] = b"sig1";

const SECOND: &[u8] = b"sig2";

// ---- what can be signed again

fn is_inner(member: Option<&Member>) -> bool
    ensures { result ≡ is_inner (option_copied member.entry) }
{
    matches!(member, Some(Member::Inner(_)))
}

fn has_only_first(fields: &SignatureFields) -> bool
    ensures { result ≡ has_only_first fields.now }
{
    fields.inputs.len() == 1
        && is_inner(fields.inputs.get(FIRST))
        && fields.signatures.len() == 1
        && fields.signatures.get(FIRST).is_some()
}

fn has_digest(message: &Message) -> bool
    ensures { result ≡ not (has_body message.now) || has_field (codes "content-digest") message.now }
{
    message.body.len() == 0 || has_field(message, b"content-digest")
}

fn read_fields(alloc: Global, message: &Message) -> Result<SignatureFields, RotationSignFault>
    ensures ok { IfOk result (λ fields. signature_fields message.now ≡ Ok fields) }
    ensures unsigned { result ≡ Err NotSigned → is_signed message.now ≡ false }
{
    match signature_fields(alloc, message) {
        Ok(fields) => Ok(fields),
        Err(SigFault::OutOfMemory) => Err(RotationSignFault::OutOfMemory),
        Err(_) => Err(RotationSignFault::NotSigned),
    }
}

// The fields of a message that can be signed again.
#[tactic(auto, using(crate::proofs::SecondBase::alone_is_signed, crate::proofs::SecondBase::not_alone, crate::proofs::SecondBase::not_digested))]
fn fields_of(alloc: Global, message: &Message) -> Result<SignatureFields, RotationSignFault>
    ensures ok { IfOk result (λ fields. signature_fields message.now ≡ Ok fields) }
    ensures signed { OnOk result (is_signed message.now ≡ true) }
    ensures unsigned { result ≡ Err NotSigned → is_signed message.now ≡ false }
{
    let fields = read_fields(alloc, message)?;
    if !has_only_first(&fields) {
        return Err(RotationSignFault::NotSigned);
    }
    if !has_digest(message) {
        return Err(RotationSignFault::NotSigned);
    }
    Ok(fields)
}

// ---- the second signature

fn member_item(alloc: Global, name: &[u8]) -> Result<Item, Mem>
    ensures { IfOk result (λ item. item ≡ member_item name.now) }
{
    let mut params = Params::new(alloc);
    params.set(
        Bytes::from_slice(alloc, b"key")?,
        Bare::Str(Bytes::from_slice(alloc, FIRST)?),
    )?;
    Ok(Item {
        bare: Bare::Str(Bytes::from_slice(alloc, name)?),
        params,
    })
}

// Behind the others, the two members of the first signature.
fn push_members(alloc: Global, items: &mut Items) -> Result<(), Mem>
    ensures { OnOk result (items.new ≡ items.old ++ (member_item (codes "signature") ∷ member_item (codes "signature-input") ∷ [])) }
{
    items.push(member_item(alloc, b"signature")?)?;
    items.push(member_item(alloc, b"signature-input")?)?;
    Ok(())
}

fn rotation_input(
    alloc: Global,
    message: &Message,
    id: &Bytes,
    created: u64,
) -> Result<InnerList, Mem>
    requires { created < 10 ^ 15 }
    ensures { IfOk result (λ list. list ≡ rotation_input message.now id.now created) }
{
    let mut items = covered_items(alloc, message)?;
    push_members(alloc, &mut items)?;
    let tag = Bytes::from_slice(alloc, b"gnap-rotate")?;
    let params = signature_params(alloc, id, created, None, &tag)?;
    Ok(InnerList { items, params })
}

// The bytes of the second signature, where there is a base.
fn signature_of(
    alloc: Global,
    message: &Message,
    base: &Bytes,
    fields: &SignatureFields,
    list: &InnerList,
    secret: &Bytes,
) -> Result<Bytes, Mem>
    requires fields { signature_fields message.now ≡ Ok fields.now }
    requires based { IsSome (rotation_base message.now base.now list.now) }
    ensures { IfOk result (λ bytes. option_map (hmac_sha256 secret.now) (rotation_base message.now base.now list.now) ≡ Some bytes) }
{
    match base_over(alloc, message, base, fields, list) {
        Ok(text) => Bytes::from_slice(alloc, &hmac(secret.as_slice(), text.as_slice())),
        Err(BaseFault::Unsupported) => unreachable!(),
        Err(BaseFault::OutOfMemory) => Err(Mem),
    }
}

/// Signs a message to the server with this base again, under the secret of a new key and over its signature (RFC 9635, section 6.1.1), so that
/// `verify_rotation` answers both keys.
///
/// The base is scheme, `://` and authority, without a `/` at its end. `created` is in seconds since 1970. The id holds characters from SP to `~`.
/// One line of `signature-input` and one of `signature` are added behind the other fields, each with one member under the label `sig2`. It covers what
/// `message_signature::sign` covers, and then `signature` and `signature-input` with `sig1` as `key`. The parameters are `created`, `keyid` and `tag`, which is
/// `gnap-rotate`.
/// NotSigned comes exactly where `signature-input` isn't a dictionary of one inner list under the label `sig1`, or `signature` isn't one of one member under
/// it, or there is a body and no `content-digest` field; OutOfMemory may come in its place. An `Err` changes nothing.
pub fn sign_rotation(
    alloc: Global,
    message: &mut Message,
    base: &Bytes,
    id: &Bytes,
    secret: &Bytes,
    created: u64,
) -> Result<(), RotationSignFault>
    requires created { created < 10 ^ 15 }
    requires id { list_all is_string_byte id.now ≡ true }
    ensures ok { OnOk result (signed_rotation message.old base.now id.now secret.now created ≡ Some message.new) }
    ensures signed { OnOk result (is_signed message.old ≡ true) }
    ensures unsigned { result ≡ Err NotSigned → is_signed message.old ≡ false }
    ensures err { OnErr result (message.new ≡ message.old) }
{
    let fields = fields_of(alloc, message)?;
    let list = rotation_input(alloc, message, id, created)?;
    let bytes = signature_of(alloc, message, base, &fields, &list, secret)?;
    let lines = signature_lines(alloc, SECOND, list, bytes)?;
    message.fields.append(lines)?;
    Ok(())
}
