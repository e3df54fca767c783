//! The answer to an introspection (RFC 9767, section 3.3).
ghost use Rattle.std.specs.Prelude.{◌≡◌, IfOk};
ghost use Rattle.gnap_model.specs.Actions.{outcome_of};
ghost use Rattle.gnap_model.specs.Begin.{show_token, introspect as introspected};
ghost use Rattle.gnap_history.specs.Drawings.{trail, supply, IsAnswer};

use crate::drawing::{Drawing, NotedReply, refuse, silent};
use crate::look_ups::live_token;
use access_rights::served::served_part;
use bytes_and_lists::bytes::Bytes;
use bytes_and_lists::memory::{Duplicate, Mem};
use bytes_and_lists::seq::Seq;
use gnap_model::calls::Reply;
use gnap_model::notes::TokenNote;
use gnap_model::objects::{Binding, ErrorCode, Setup};
use gnap_model::rights::{Names, Rights};
use grant_rules::keys::server_names;
use grant_rules::suiting::{serves_all, suits};
use std::alloc::Global;

/// A live token is shown with the rights that the server serves, if it suits the server and what it asks.
fn show(
    alloc: Global,
    names: &Names,
    binding: Option<Binding>,
    wanted: &Option<Rights>,
    token: &TokenNote,
) -> Result<NotedReply, Mem>
    ensures { IfOk result (λ answered. (supply : _) → IsAnswer (outcome_of supply (show_token names.now binding wanted.now (Some token.now))) answered) }
{
    if !suits(names, binding, wanted, &token.rights, token.bearer) {
        return Ok(silent(alloc, Reply::Inactive));
    }
    Ok(silent(
        alloc,
        Reply::Active {
            access: served_part(alloc, &token.rights, names)?,
            iat: token.issued,
            exp: token.until,
            instance: token.key.copy()?,
            bearer: token.bearer,
        },
    ))
}

/// Answers an introspection, which has no notes.
pub fn introspect(
    alloc: Global,
    setup: &Setup,
    drawing: &Drawing,
    server: &Bytes,
    value: &Bytes,
    binding: Option<Binding>,
    wanted: &Option<Rights>,
) -> Result<NotedReply, Mem>
    ensures { IfOk result (IsAnswer
        (outcome_of (supply drawing.now) (introspected setup.now (trail drawing.now) drawing.now.moment server.now value.now binding wanted.now))) }
{
    let none = Seq::new(alloc);
    let names = server_names(setup, server.as_slice(), &none);
    if !serves_all(names, wanted) {
        return Ok(refuse(alloc, ErrorCode::InvalidAccess));
    }
    match live_token(drawing.notes.as_slice(), drawing.moment, value.as_slice()) {
        Some(token) => show(alloc, names, binding, wanted, token),
        None => Ok(silent(alloc, Reply::Inactive)),
    }
}
