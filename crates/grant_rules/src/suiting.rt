//! Whether a token suits the server that asks, and what it asks (RFC 9767, section 3.3).
ghost use Rattle.std.specs.Prelude.{◌≡◌};
ghost use Rattle.std.specs.List.{list_any, list_all};
ghost use Rattle.gnap_model.specs.Common.{where_given};
ghost use Rattle.gnap_model.specs.Rights.{covers as rights_cover, serves as names_serve};
ghost use Rattle.gnap_model.specs.Judging.{has_binding as binding_is, suits as token_suits, serves_all as all_served};

use access_rights::inclusion::covers;
use access_rights::served::serves;
use gnap_model::objects::Binding;
use gnap_model::rights::{Names, Right, Rights};

// The server serves one of the rights.
fn serves_any(names: &Names, rights: &[Right]) -> bool
    ensures { result ≡ list_any (names_serve names.now) rights.now }
{
    for right in rights {
        if serves(names, right) {
            return true;
        }
    }
    false
}

/// The server with these names serves each of the rights.
pub fn serves_each(names: &Names, rights: &[Right]) -> bool
    ensures { result ≡ list_all (names_serve names.now) rights.now }
{
    for right in rights {
        if !serves(names, right) {
            return false;
        }
    }
    true
}

/// The server serves each right that it asks about.
pub fn serves_all(names: &Names, wanted: &Option<Rights>) -> bool
    ensures { result ≡ all_served names.now wanted.now }
{
    match wanted {
        Some(rights) => serves_each(names, rights.as_slice()),
        None => true,
    }
}

// The token has the binding that is asked about.
fn has_binding(bearer: bool, binding: Option<Binding>) -> bool
    ensures { result ≡ where_given (binding_is bearer) binding }
{
    match binding {
        Some(Binding::Httpsig) => !bearer,
        Some(Binding::Bearer) => bearer,
        None => true,
    }
}

// The rights cover those that are asked about.
fn covers_wanted(rights: &Rights, wanted: &Option<Rights>) -> bool
    ensures { result ≡ where_given (rights_cover rights.now) wanted.now }
{
    match wanted {
        Some(wanted) => covers(rights, wanted),
        None => true,
    }
}

/// A token with these rights, presented with a key unless it is a bearer token, suits a server with these names and what it asks about.
pub fn suits(
    names: &Names,
    binding: Option<Binding>,
    wanted: &Option<Rights>,
    rights: &Rights,
    bearer: bool,
) -> bool
    ensures { result ≡ token_suits names.now binding wanted.now rights.now bearer }
{
    serves_any(names, rights.as_slice())
        && has_binding(bearer, binding)
        && covers_wanted(rights, wanted)
}
