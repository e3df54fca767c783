//! The access token that a request presents.
ghost use Rattle.std.specs.Prelude.{◌≡◌};
ghost use Rattle.as_requests.specs.Presented.{authorizations, behind_scheme, presented_in, presented_value};

use bytes_and_lists::message::{Fields, Message};

// The value behind the scheme.
fn behind_scheme(value: &[u8]) -> &[u8]
    ensures { result.now ≡ behind_scheme value.now }
{
    let (scheme, token) = value.split_at(value.len().min(5));
    if scheme.eq_ignore_ascii_case(b"GNAP ") {
        token
    } else {
        b""
    }
}

// What the one field presents.
fn presented_in(fields: &Fields) -> &[u8]
    ensures { result.now ≡ presented_in (authorizations fields.now) }
{
    let mut found = None;
    for field in fields.as_slice() {
        if field.name.as_slice() == b"authorization".as_slice() {
            if found.is_some() {
                return b"";
            }
            found = Some(field.value.as_slice());
        }
    }
    match found {
        Some(value) => behind_scheme(value),
        None => b"",
    }
}

/// The access token that the message presents (RFC 9635, section 7.2): what stands behind the scheme `GNAP`, in any case, and one SP in its
/// `Authorization` field. Empty where there is no such field, where there are several, and where the scheme is another. Takes no memory.
pub fn presented_value(message: &Message) -> &[u8]
    ensures { result.now ≡ presented_value message.now }
{
    presented_in(&message.fields)
}
