//! Making the signature of a message.
ghost use Rattle.std.specs.Prelude.{◌≡◌, ◌↔◌, ◌<◌, ◌^◌, true, if◌then◌else◌, [], ◌∷◌, ◌++◌, map, length, Some, option_map, None, Err, IsSome, IfOk, OnOk, OnErr};
ghost use Rattle.std.specs.List.{list_all};
ghost use Rattle.std.specs.Option.{option_copied};
ghost use Rattle.structured_fields.specs.declared.bare.Bare.TheVariants.{Binary, Str};
ghost use Rattle.structured_fields.specs.declared.item.Member.TheVariants.{Item as Single};
ghost use Rattle.structured_fields.specs.Letters.{is_key, is_string_byte};
ghost use Rattle.structured_fields.specs.Named.{IsDistinct, with_value};
ghost use Rattle.structured_fields.specs.Canonical.{dictionary_text, AreInRange, IsInRange, IsInnerInRange, IsMemberInRange};
ghost use Rattle.hmac_key.specs.Hmac.{hmac_sha256};
ghost use Rattle.message_signature.specs.declared.fault.SignFault.TheVariants.{HasSignature};
ghost use Rattle.message_signature.specs.Base.{signature_base};
ghost use Rattle.message_signature.specs.Signed.{field, has_signature, with_digest, covered, component_item, params_of, under_label, lines_under, signed_under, signed, signed_marked, cut};
ghost use Rattle.message_signature.specs.Marks.{is_nonce};

use crate::base::base_of;
use crate::components::{has_body, has_field};
use crate::fault::{BaseFault, SignFault};
use bytes_and_lists::bytes::Bytes;
use bytes_and_lists::memory::{Duplicate, Mem};
use bytes_and_lists::message::{Field, Fields, Message};
use content_digest::digest_line;
use hmac_key::hmac;
use std::alloc::Global;
use std::mem;
use structured_fields::{
    Bare, Dictionary, InnerList, Item, Items, Member, Params, write_dictionary,
};

// The label of the one signature.
const LABEL: &[u8] = b"sig1";

fn has_signature(message: &Message) -> bool
    ensures { result ≡ has_signature message.now }
{
    has_field(message, b"signature-input") || has_field(message, b"signature")
}

fn field(alloc: Global, name: &[u8], value: Bytes) -> Result<Field, Mem>
    ensures { IfOk result (λ f. f ≡ field name.now value) }
{
    Ok(Field {
        name: Bytes::from_slice(alloc, name)?,
        value,
    })
}

// Adds the digest of a body that has none. An `Err` changes nothing.
fn add_digest(alloc: Global, message: &mut Message) -> Result<(), Mem>
    ensures ok { OnOk result (message.new ≡ with_digest message.old) }
    ensures err { OnErr result (message.new ≡ message.old) }
{
    if !has_body(message) || has_field(message, b"content-digest") {
        return Ok(());
    }
    let value = digest_line(alloc, message.body.as_slice())?;
    message.fields.push(field(alloc, b"content-digest", value)?)
}

fn component_item(alloc: Global, name: &[u8]) -> Result<Item, Mem>
    ensures { IfOk result (λ item. item ≡ component_item name.now) }
{
    Ok(Item {
        bare: Bare::Str(Bytes::from_slice(alloc, name)?),
        params: Params::new(alloc),
    })
}

fn push_component(alloc: Global, items: &mut Items, name: &[u8]) -> Result<(), Mem>
    ensures { OnOk result (items.new ≡ items.old ++ component_item name.now ∷ []) }
{
    items.push(component_item(alloc, name)?)
}

fn push_if(alloc: Global, items: &mut Items, is_covered: bool, name: &[u8]) -> Result<(), Mem>
    ensures { OnOk result (items.new ≡ items.old ++ (if is_covered then component_item name.now ∷ [] else [])) }
{
    if is_covered {
        push_component(alloc, items, name)?;
    }
    Ok(())
}

/// What the signature of a message covers: `@method`, `@target-uri`, `content-digest` where there is a body, and `authorization` where that field is there.
pub fn covered_items(alloc: Global, message: &Message) -> Result<Items, Mem>
    ensures { IfOk result (λ items. items ≡ map component_item (covered message.now)) }
{
    let mut items = Items::new(alloc);
    push_component(alloc, &mut items, b"@method")?;
    push_component(alloc, &mut items, b"@target-uri")?;
    push_if(alloc, &mut items, has_body(message), b"content-digest")?;
    push_if(
        alloc,
        &mut items,
        has_field(message, b"authorization"),
        b"authorization",
    )?;
    Ok(items)
}

fn set_param(alloc: Global, params: &mut Params, name: &[u8], value: Bare) -> Result<(), Mem>
    ensures { OnOk result (params.new ≡ with_value params.old name.now value) }
{
    params.set(Bytes::from_slice(alloc, name)?, value)
}

// Sets a parameter to the String of this text.
fn set_text(alloc: Global, params: &mut Params, name: &[u8], text: &Bytes) -> Result<(), Mem>
    ensures { OnOk result (params.new ≡ with_value params.old name.now (Str text.now)) }
{
    set_param(alloc, params, name, Bare::Str(text.copy()?))
}

/// The parameters of a signature, in their order: `created` (in seconds since 1970), `keyid`, `nonce` where there is one, and `tag`.
pub fn signature_params(
    alloc: Global,
    id: &Bytes,
    created: u64,
    nonce: Option<&Bytes>,
    tag: &Bytes,
) -> Result<Params, Mem>
    requires { created < 10 ^ 15 }
    ensures { IfOk result (λ params. params ≡ params_of id.now created (option_copied nonce.entry) tag.now) }
{
    let mut params = Params::new(alloc);
    let created = Bare::Integer(created as i64);
    set_param(alloc, &mut params, b"created", created)?;
    set_text(alloc, &mut params, b"keyid", id)?;
    if let Some(nonce) = nonce {
        set_text(alloc, &mut params, b"nonce", nonce)?;
    }
    set_text(alloc, &mut params, b"tag", tag)?;
    Ok(params)
}

// The text of a dictionary of one member, under this label.
fn labelled(alloc: Global, label: &[u8], member: Member) -> Result<Bytes, Mem>
    requires label { is_key label.now ≡ true }
    requires member { IsMemberInRange member }
    ensures { IfOk result (λ text. text ≡ dictionary_text (under_label label.now member)) }
{
    let mut entries = Dictionary::new(alloc);
    entries.set(Bytes::from_slice(alloc, label)?, member)?;
    write_dictionary(alloc, &entries)
}

// Adds the line of a field that is a dictionary of one member, under this label.
fn push_labelled(
    alloc: Global,
    lines: &mut Fields,
    name: &[u8],
    label: &[u8],
    member: Member,
) -> Result<(), Mem>
    requires label { is_key label.now ≡ true }
    requires member { IsMemberInRange member }
    ensures { OnOk result (lines.new ≡ lines.old ++ field name.now (dictionary_text (under_label label.now member)) ∷ []) }
{
    let text = labelled(alloc, label, member)?;
    lines.push(field(alloc, name, text)?)
}

fn binary_member(alloc: Global, bytes: Bytes) -> Member
    ensures { result ≡ Single (record { bare = Binary bytes; params = [] }) }
{
    Member::Item(Item {
        bare: Bare::Binary(bytes),
        params: Params::new(alloc),
    })
}

/// The lines of the two fields of a signature, under this label.
pub fn signature_lines(
    alloc: Global,
    label: &[u8],
    list: InnerList,
    bytes: Bytes,
) -> Result<Fields, Mem>
    requires label { is_key label.now ≡ true }
    requires list { IsInnerInRange list }
    requires bytes { IsInRange (Binary bytes) }
    ensures { IfOk result (λ lines. lines ≡ lines_under label.now list bytes) }
{
    let mut lines = Fields::new(alloc);
    let input = Member::Inner(list);
    push_labelled(alloc, &mut lines, b"signature-input", label, input)?;
    let signature = binary_member(alloc, bytes);
    push_labelled(alloc, &mut lines, b"signature", label, signature)?;
    Ok(lines)
}

// The bytes of the signature, where there is a signature base.
fn signature_of(
    alloc: Global,
    message: &Message,
    base: &Bytes,
    list: &InnerList,
    secret: &Bytes,
) -> Result<Bytes, Mem>
    requires { IsSome (signature_base message.now base.now list.now) }
    ensures { IfOk result (λ bytes. option_map (hmac_sha256 secret.now) (signature_base message.now base.now list.now) ≡ Some bytes) }
{
    match base_of(alloc, message, base, list) {
        Ok(text) => Bytes::from_slice(alloc, &hmac(secret.as_slice(), text.as_slice())),
        Err(BaseFault::Unsupported) => unreachable!(),
        Err(BaseFault::OutOfMemory) => Err(Mem),
    }
}

// Adds the fields of a signature. At an `Err` the digest may stand behind the fields that were there.
#[tactic(auto, using(crate::proofs::SigningSteps::cut_digest))]
fn add_signature(
    alloc: Global,
    message: &mut Message,
    base: &Bytes,
    params: Params,
    secret: &Bytes,
) -> Result<(), Mem>
    requires params { AreInRange params }
    requires distinct { IsDistinct params }
    ensures ok { OnOk result (signed_under message.old base.now params secret.now ≡ Some message.new) }
    ensures err { OnErr result (cut (length message.old.fields) message.new ≡ message.old) }
{
    add_digest(alloc, message)?;
    let items = covered_items(alloc, message)?;
    let list = InnerList { items, params };
    let bytes = signature_of(alloc, message, base, &list, secret)?;
    let lines = signature_lines(alloc, LABEL, list, bytes)?;
    message.fields.append(lines)
}

// The message with its first fields alone. Takes no memory.
fn cut(alloc: Global, message: &mut Message, kept: usize)
    ensures { message.new ≡ cut kept message.old }
{
    let mut fields = mem::replace(&mut message.fields, Fields::new(alloc)).into_vec();
    fields.truncate(kept);
    message.fields = Fields::from_vec(fields);
}

// Signs under these parameters. An `Err` changes nothing.
fn sign_under(
    alloc: Global,
    message: &mut Message,
    base: &Bytes,
    params: Params,
    secret: &Bytes,
) -> Result<(), SignFault>
    requires params { AreInRange params }
    requires distinct { IsDistinct params }
    ensures ok { OnOk result (signed_under message.old base.now params secret.now ≡ Some message.new) }
    ensures memory { result ≡ Err HasSignature → ⊥ }
    ensures err { OnErr result (message.new ≡ message.old) }
{
    let kept = message.fields.len();
    if add_signature(alloc, message, base, params, secret).is_err() {
        cut(alloc, message, kept);
        return Err(SignFault::OutOfMemory);
    }
    Ok(())
}

/// Signs a message to the server with this base by HMAC-SHA-256 under the secret (RFC 9421, section 3.1), and covers what a GNAP request has to cover (RFC
/// 9635, section 7.3.1): `@method`, `@target-uri`, `content-digest` where there is a body, and `authorization` where that field is there.
///
/// The base is scheme, `://` and authority, without a `/` at its end. `created` is in seconds since 1970. The id and the tag hold characters from SP to `~`.
/// Fields are added behind the others: `content-digest` (RFC 9530) where there is a body and no such field, then `signature-input` and `signature`, each with
/// one member under the label `sig1`. The parameters are `created`, `keyid` and `tag`.
/// HasSignature comes exactly where a `signature-input` or a `signature` field is there already. An `Err` changes nothing.
pub fn sign(
    alloc: Global,
    message: &mut Message,
    base: &Bytes,
    id: &Bytes,
    secret: &Bytes,
    created: u64,
    tag: &Bytes,
) -> Result<(), SignFault>
    requires created { created < 10 ^ 15 }
    requires id { list_all is_string_byte id.now ≡ true }
    requires tag { list_all is_string_byte tag.now ≡ true }
    ensures ok { OnOk result (signed message.old base.now id.now secret.now created tag.now ≡ Some message.new) }
    ensures signed_before { (result ≡ Err HasSignature) ↔ (has_signature message.old ≡ true) }
    ensures err { OnErr result (message.new ≡ message.old) }
{
    if has_signature(message) {
        return Err(SignFault::HasSignature);
    }
    let params = signature_params(alloc, id, created, None, tag)?;
    sign_under(alloc, message, base, params, secret)
}

/// What `sign` does, with a nonce of 1 to 64 letters, digits, `.`, `_` and `-`: the parameters are `created`, `keyid`, `nonce` and `tag`.
///
/// HasSignature comes exactly where a `signature-input` or a `signature` field is there already. An `Err` changes nothing.
pub fn sign_marked(
    alloc: Global,
    message: &mut Message,
    base: &Bytes,
    id: &Bytes,
    secret: &Bytes,
    created: u64,
    nonce: &Bytes,
    tag: &Bytes,
) -> Result<(), SignFault>
    requires created { created < 10 ^ 15 }
    requires id { list_all is_string_byte id.now ≡ true }
    requires nonce { is_nonce nonce.now ≡ true }
    requires tag { list_all is_string_byte tag.now ≡ true }
    ensures ok { OnOk result (signed_marked message.old base.now id.now secret.now created nonce.now tag.now ≡ Some message.new) }
    ensures signed_before { (result ≡ Err HasSignature) ↔ (has_signature message.old ≡ true) }
    ensures err { OnErr result (message.new ≡ message.old) }
{
    if has_signature(message) {
        return Err(SignFault::HasSignature);
    }
    let params = signature_params(alloc, id, created, Some(nonce), tag)?;
    sign_under(alloc, message, base, params, secret)
}
