//! The calls that put a grant through.
ghost use Rattle.std.specs.Prelude.{◌≡◌, option_map, codes, IfOk};
ghost use Rattle.desk_load.specs.LoadCalls.{photos_request, token_in, value_of, manage_of, door_in, opening_call, question_about, rotation_of, cancellation_of, mark_at, marked, unmarked, opening_place, rotation_place, cancellation_place};

use crate::setup::{reference_to, two_texts};
use bytes_and_lists::bytes::Bytes;
use bytes_and_lists::memory::Mem;
use bytes_and_lists::seq::Seq;
use gnap_model::boxed::Boxed;
use gnap_model::calls::{Call, Reply, TokenOut};
use gnap_model::objects::{Ask, GrantRequest};
use itoa::Buffer;
use signed_calls::signed::{Mark, Signed};
use std::alloc::Global;

/// The moment of all calls, and of the client's signatures.
pub const MOMENT: u64 = 1_000_000;

// The places of the client's calls among all calls of a grant.
const OPENING: u32 = 1;

const ROTATION: u32 = 3;

const CANCELLATION: u32 = 6;

fn token_in(reply: &Reply) -> Option<&TokenOut>
    ensures { option_map (λ t. t.now) result ≡ token_in reply.now }
{
    match reply {
        Reply::Granted { tokens, .. } => tokens.as_slice().first(),
        Reply::Rotated { token } => Some(token),
        _ => None,
    }
}

fn value_of(token: Option<&TokenOut>) -> &[u8]
    ensures { result.now ≡ value_of (option_map (λ t. t.now) token.entry) }
{
    match token {
        None => b"",
        Some(token) => token.value.as_slice(),
    }
}

fn manage_of(token: Option<&TokenOut>) -> &[u8]
    ensures { result.now ≡ manage_of (option_map (λ t. t.now) token.entry) }
{
    match token {
        None => b"",
        Some(token) => token.manage.as_slice(),
    }
}

fn door_in(reply: &Reply) -> &[u8]
    ensures { result.now ≡ door_in reply.now }
{
    match reply {
        Reply::Granted { door, .. } | Reply::Pending { door, .. } | Reply::Continuing { door } => {
            door.as_slice()
        }
        _ => b"",
    }
}

fn photos_request(alloc: Global) -> Result<GrantRequest, Mem>
    ensures { IfOk result (λ request. request ≡ photos_request) }
{
    let mut asks = Seq::new(alloc);
    asks.push(Ask {
        label: None,
        rights: reference_to(alloc, b"photos")?,
        bearer: false,
    })?;
    Ok(GrantRequest {
        asks,
        single: true,
        subject: false,
        client: Some(Bytes::from_slice(alloc, b"c1")?),
        by_object: false,
        user: None,
        modes: None,
    })
}

// The mark of the client's call with this place among those of a grant.
fn mark_at(alloc: Global, grant: u32, place: u32) -> Result<Mark, Mem>
    ensures { IfOk result (λ mark. mark ≡ mark_at grant place) }
{
    let mut nonce = Bytes::from_slice(alloc, Buffer::new().format(grant).as_bytes())?;
    nonce.push(b'-')?;
    nonce.extend(Buffer::new().format(place).as_bytes())?;
    Ok(Mark {
        nonce,
        created: MOMENT,
    })
}

/// The client asks for a token for photos, in the grant with this number.
pub fn opening_call(alloc: Global, grant: u32) -> Result<Signed, Mem>
    ensures call { IfOk result (λ signed. signed ≡ marked grant opening_place opening_call) }
{
    let mark = mark_at(alloc, grant, OPENING)?;
    let key = Bytes::from_slice(alloc, b"c1")?;
    let call = Call::Begin {
        key,
        request: Boxed::new(alloc, photos_request(alloc)?)?,
        not_after: None,
    };
    Ok(Signed {
        mark: Some(mark),
        call,
    })
}

/// The resource server asks about the token of a reply.
pub fn question_about(alloc: Global, reply: &Reply) -> Result<Signed, Mem>
    ensures call { IfOk result (λ signed. signed ≡ unmarked (question_about reply.now)) }
{
    let (server, value) = two_texts(alloc, b"r1", value_of(token_in(reply)))?;
    let call = Call::Introspect {
        server,
        value,
        binding: None,
        wanted: None,
    };
    Ok(Signed { mark: None, call })
}

/// The client exchanges the token of a reply.
pub fn rotation_of(alloc: Global, grant: u32, reply: &Reply) -> Result<Signed, Mem>
    ensures call { IfOk result (λ signed. signed ≡ marked grant rotation_place (rotation_of reply.now)) }
{
    let mark = mark_at(alloc, grant, ROTATION)?;
    let (key, value) = two_texts(alloc, b"c1", manage_of(token_in(reply)))?;
    let call = Call::Rotate {
        key,
        value,
        new_key: None,
    };
    Ok(Signed {
        mark: Some(mark),
        call,
    })
}

/// The client ends the grant of a reply.
pub fn cancellation_of(alloc: Global, grant: u32, reply: &Reply) -> Result<Signed, Mem>
    ensures call { IfOk result (λ signed. signed ≡ marked grant cancellation_place (cancellation_of reply.now)) }
{
    let mark = mark_at(alloc, grant, CANCELLATION)?;
    let (key, value) = two_texts(alloc, b"c1", door_in(reply))?;
    let call = Call::Cancel { key, value };
    Ok(Signed {
        mark: Some(mark),
        call,
    })
}
