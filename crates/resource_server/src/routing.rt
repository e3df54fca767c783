//! The route and the token of a request.
ghost use Rattle.std.specs.Prelude.{◌≡◌, ◌<◌, Ok, Err, IfOk, IfErr, IfSome, IsUtf8, length, filter, position, option_map};
ghost use Rattle.std.specs.List.{list_any};
ghost use Rattle.resource_server.specs.declared.setup.RsSetup.{RsSetup};
ghost use Rattle.resource_server.specs.Guarding.{IsAnswer};
ghost use Rattle.resource_server.specs.Routing.{has_path, is_route, route_of, is_authorization, only_value, with_scheme, behind_word, presented_by, presented_in, presented_at, question_of};

use crate::guarded::{Guarded, Why};
use crate::setup::{Route, Routes, RsSetup};
use bytes_and_lists::message::{Field, Fields, Message};
use message_signature::target_path;
use reply_readers::values::is_value;
use signed_requests::Scheme;

pub(crate) fn is_route(method: &[u8], path: &[u8], route: &Route) -> bool
    ensures { result ≡ is_route method.now path.now route.now }
{
    route.path.as_slice() == path && route.method.as_slice() == method
}

fn any_path(routes: &[Route], path: &[u8]) -> bool
    ensures { result ≡ list_any (has_path path.now) routes.now }
{
    routes.iter().any(|route| route.has_path(path))
}

fn place_of(routes: &[Route], method: &[u8], path: &[u8]) -> Option<usize>
    ensures place { result ≡ position (is_route method.now path.now) routes.now }
    ensures within { IfSome result (λ i. i < length routes.now) }
{
    routes
        .iter()
        .position(|route| is_route(method, path, route))
}

/// The place of the route with the message's method and path, or the refusal.
pub(crate) fn route_of(routes: &Routes, message: &Message) -> Result<usize, Guarded>
    ensures place { result ≡ route_of routes.now message.now }
    ensures within { IfOk result (λ i. i < length routes.now) }
    ensures answer { (setup : RsSetup) → IfErr result (IsAnswer setup) }
{
    let path = target_path(message.target.as_slice());
    match place_of(routes.as_slice(), message.method.as_slice(), path) {
        Some(i) => Ok(i),
        None => if any_path(routes.as_slice(), path) {
            Err(Guarded::Deny(405, Why::NoMethod))
        } else {
            Err(Guarded::Deny(404, Why::NoRoute))
        },
    }
}

fn is_authorization(field: &Field) -> bool
    ensures { result ≡ is_authorization field.now }
{
    field.name.as_slice() == b"authorization".as_slice()
}

// The value of the one `Authorization` field.
fn only_value(fields: &Fields) -> Option<&[u8]>
    ensures { option_map (λ v. v.now) result ≡ only_value (filter is_authorization fields.now) }
{
    let mut found = None;
    for field in fields.as_slice() {
        if is_authorization(field) {
            if found.is_some() {
                return None;
            }
            found = Some(field.value.as_slice());
        }
    }
    found
}

fn with_scheme(scheme: Scheme, value: &[u8]) -> Option<(Scheme, &[u8])>
    ensures { option_map (λ p. (p.0, p.1.now)) result ≡ with_scheme scheme value.now }
{
    if is_value(value) {
        Some((scheme, value))
    } else {
        None
    }
}

// What stands behind the word, in any case.
fn behind_word<'t>(word: &[u8], text: &'t [u8]) -> Option<&'t [u8]>
    ensures { option_map (λ v. v.now) result ≡ behind_word (length word.now) word.now text.now }
{
    let (front, rest) = text.split_at(word.len().min(text.len()));
    if front.eq_ignore_ascii_case(word) {
        Some(rest)
    } else {
        None
    }
}

fn presented_by<'t>(gnap: Option<&'t [u8]>, bearer: Option<&'t [u8]>) -> Option<(Scheme, &'t [u8])>
    ensures { option_map (λ p. (p.0, p.1.now)) result ≡ presented_by (option_map (λ v. v.now) gnap.entry) (option_map (λ v. v.now) bearer.entry) }
{
    match (gnap, bearer) {
        (Some(value), _) => with_scheme(Scheme::Gnap, value),
        (None, Some(value)) => with_scheme(Scheme::Bearer, value),
        (None, None) => None,
    }
}

fn presented_in(text: &[u8]) -> Option<(Scheme, &[u8])>
    ensures { option_map (λ p. (p.0, p.1.now)) result ≡ presented_in text.now }
{
    presented_by(behind_word(b"GNAP ", text), behind_word(b"Bearer ", text))
}

/// The token that is presented, and how.
pub(crate) fn token_of(message: &Message) -> Option<(Scheme, &[u8])>
    ensures { option_map (λ p. (p.0, p.1.now)) result ≡ presented_at (only_value (filter is_authorization message.now.fields)) }
{
    presented_in(only_value(&message.fields)?)
}

/// The place of the message's route, and its token, with the scheme that presents it; or the refusal: `NoRoute`, `NoMethod` or `NoToken`.
#[tactic(auto, using(crate::proofs::Places::value_is_text), unfolding(crate::specs::Routing::question_of))]
pub fn question<'m>(
    setup: &RsSetup,
    message: &'m Message,
) -> Result<(usize, Scheme, &'m [u8]), Guarded>
    ensures found { IfOk result (λ q. question_of setup.now.routes message.now ≡ Ok (q.0, (q.1, q.2.now))) }
    ensures within { IfOk result (λ q. q.0 < length setup.now.routes) }
    ensures text { IfOk result (λ q. IsUtf8 q.2.now) }
    ensures refused { IfErr result (λ refusal. question_of setup.now.routes message.now ≡ Err refusal) }
    ensures answer { IfErr result (IsAnswer setup.now) }
{
    let i = route_of(&setup.routes, message)?;
    match token_of(message) {
        Some((scheme, value)) => Ok((i, scheme, value)),
        None => Err(Guarded::Deny(401, Why::NoToken)),
    }
}
