//! A request before it is signed, and its bytes once it is.
ghost use Rattle.std.specs.Prelude.{◌≡◌, ◌++◌, ◌≤◌, length, ◌<◌, ◌^◌, true, [], ◌∷◌, Some, IfOk, OnOk};
ghost use Rattle.std.specs.List.{list_all};
ghost use Rattle.structured_fields.specs.Letters.{is_string_byte};
ghost use Rattle.message_signature.specs.Signed.{field};
ghost use Rattle.message_signature.specs.Components.{until, authority_of};
ghost use Rattle.message_signature.specs.Marks.{is_nonce};
ghost use Rattle.signed_requests.specs.Requests.{scheme_text, authorization_fields, type_fields, unsigned_message, signed_request, marked_request};

use crate::request_bytes::request_bytes;
use bytes_and_lists::bytes::Bytes;
use bytes_and_lists::memory::Mem;
use bytes_and_lists::message::{Field, Fields, Message};
use message_signature::{SignFault, sign, sign_marked};
use std::alloc::Global;

/// How a token is presented (RFC 9635, section 7.2).
#[derive(Clone, Copy)]
pub enum Scheme {
    /// With a signature under the key that it is bound to.
    Gnap,
    /// Without a key.
    Bearer,
}

/// A request before it is signed.
#[derive(Drop)]
pub struct UnsignedRequest {
    pub method: Bytes,
    pub target: Bytes,
    /// The token that is presented, and how.
    pub presented: Option<(Scheme, Bytes)>,
    /// A JSON object, or no bytes.
    pub body: Bytes,
}

fn field(alloc: Global, name: &[u8], value: Bytes) -> Result<Field, Mem>
    ensures { IfOk result (λ f. f ≡ field name.now value) }
{
    Ok(Field {
        name: Bytes::from_slice(alloc, name)?,
        value,
    })
}

fn scheme_text(scheme: Scheme) -> &'static [u8]
    ensures { result.now ≡ scheme_text scheme }
{
    match scheme {
        Scheme::Gnap => b"GNAP ",
        Scheme::Bearer => b"Bearer ",
    }
}

fn until(byte: u8, text: &[u8]) -> usize
    ensures len { result ≡ until byte text.now }
    ensures within { result ≤ length text.now }
{
    text.iter().take_while(|b| **b != byte).count()
}

// The part of a base behind its `://`.
fn authority_of(base: &[u8]) -> &[u8]
    ensures { result.now ≡ authority_of base.now }
{
    match base.get(until(b':', base) + 3..) {
        Some(authority) => authority,
        None => b"",
    }
}

fn push_field(alloc: Global, fields: &mut Fields, name: &[u8], value: &[u8]) -> Result<(), Mem>
    ensures { OnOk result (fields.new ≡ fields.old ++ field name.now value.now ∷ []) }
{
    let value = Bytes::from_slice(alloc, value)?;
    fields.push(field(alloc, name, value)?)
}

fn push_authorization(
    alloc: Global,
    fields: &mut Fields,
    presented: &Option<(Scheme, Bytes)>,
) -> Result<(), Mem>
    ensures { OnOk result (fields.new ≡ fields.old ++ authorization_fields presented.now) }
{
    let Some((scheme, value)) = presented else {
        return Ok(());
    };
    let mut text = Bytes::from_slice(alloc, scheme_text(*scheme))?;
    text.extend(value.as_slice())?;
    fields.push(field(alloc, b"authorization", text)?)
}

fn push_type(alloc: Global, fields: &mut Fields, body: &Bytes) -> Result<(), Mem>
    ensures { OnOk result (fields.new ≡ fields.old ++ type_fields body.now) }
{
    if body.len() == 0 {
        return Ok(());
    }
    push_field(alloc, fields, b"content-type", b"application/json")
}

fn push_fields(
    alloc: Global,
    fields: &mut Fields,
    base: &Bytes,
    request: &UnsignedRequest,
) -> Result<(), Mem>
    ensures { OnOk result (fields.new ≡ fields.old ++ (unsigned_message base.now request.now).fields) }
{
    push_field(alloc, fields, b"host", authority_of(base.as_slice()))?;
    push_field(alloc, fields, b"connection", b"close")?;
    push_authorization(alloc, fields, &request.presented)?;
    push_type(alloc, fields, &request.body)
}

// The message before it is signed.
fn unsigned_message(alloc: Global, base: &Bytes, request: UnsignedRequest) -> Result<Message, Mem>
    ensures { IfOk result (λ m. m ≡ unsigned_message base.now request) }
{
    let mut fields = Fields::new(alloc);
    push_fields(alloc, &mut fields, base, &request)?;
    Ok(Message {
        method: request.method,
        target: request.target,
        fields,
        body: request.body,
        last: true,
    })
}

/// The bytes of the request to the server with this base (`http://` or `https://` and an authority), signed at this moment, in seconds since 1970,
/// under this id and secret and with the tag `gnap`. The signature covers the method, the target URI, the digest of a body, and a token that is
/// presented (RFC 9635, section 7.3.1).
#[tactic(auto, using(crate::proofs::NeverSigned::never_signed), unfolding(crate::specs::Requests::signed_request))]
pub fn signed_request(
    alloc: Global,
    base: &Bytes,
    id: &Bytes,
    secret: &Bytes,
    now: u64,
    request: UnsignedRequest,
) -> Result<Bytes, Mem>
    requires now { now < 10 ^ 15 }
    requires id { list_all is_string_byte id.now ≡ true }
    ensures { IfOk result (λ b. signed_request base.now id.now secret.now now request ≡ Some b) }
{
    let mut message = unsigned_message(alloc, base, request)?;
    let tag = Bytes::from_slice(alloc, b"gnap")?;
    match sign(alloc, &mut message, base, id, secret, now, &tag) {
        Ok(()) => request_bytes(alloc, &message),
        Err(SignFault::HasSignature) => unreachable!(),
        Err(SignFault::OutOfMemory) => Err(Mem),
    }
}

/// What `signed_request` gives, with a nonce in the signature, by which the server knows a second use of it (RFC 9421, section 2.3): 1 to 64 letters,
/// digits, `.`, `_` or `-`.
#[tactic(auto, using(crate::proofs::NeverSigned::never_signed), unfolding(crate::specs::Requests::marked_request))]
pub fn marked_request(
    alloc: Global,
    base: &Bytes,
    id: &Bytes,
    secret: &Bytes,
    now: u64,
    nonce: &Bytes,
    request: UnsignedRequest,
) -> Result<Bytes, Mem>
    requires now { now < 10 ^ 15 }
    requires id { list_all is_string_byte id.now ≡ true }
    requires nonce { is_nonce nonce.now ≡ true }
    ensures { IfOk result (λ b. marked_request base.now id.now secret.now now nonce.now request ≡ Some b) }
{
    let mut message = unsigned_message(alloc, base, request)?;
    let tag = Bytes::from_slice(alloc, b"gnap")?;
    match sign_marked(alloc, &mut message, base, id, secret, now, nonce, &tag) {
        Ok(()) => request_bytes(alloc, &message),
        Err(SignFault::HasSignature) => unreachable!(),
        Err(SignFault::OutOfMemory) => Err(Mem),
    }
}
