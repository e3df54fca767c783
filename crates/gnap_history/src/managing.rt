//! The rotation and the revocation of a token by its management value (RFC 9635, section 6).
ghost use Rattle.std.specs.Prelude.{◌≡◌, IfOk, if◌then◌else◌};
ghost use Rattle.gnap_model.specs.Actions.{outcome_of};
ghost use Rattle.gnap_model.specs.Actions.Action.{Refuse, RotateToken, RevokeToken};
ghost use Rattle.gnap_model.specs.Standing.{is_live as token_is_live, is_retirement};
ghost use Rattle.gnap_model.specs.Manage.{on_grant, rotate_key, rotate as rotated, revoke as revoked};
ghost use Rattle.gnap_model.specs.declared.objects.ErrorCode.TheVariants.{InvalidRequest, InvalidRotation};
ghost use Rattle.std.specs.List.{list_any};
ghost use Rattle.gnap_history.specs.Drawings.{trail, supply, IsAnswer};

use crate::drawing::{Drawing, NotedReply, noted, refuse, silent};
use crate::granting::token_with;
use crate::look_ups::{is_live, is_retired, opening_of};
use crate::presented_values::{managed_token, of_owner};
use bytes_and_lists::bytes::Bytes;
use bytes_and_lists::memory::{Duplicate, Mem};
use bytes_and_lists::seq::Seq;
use gnap_model::calls::Reply;
use gnap_model::notes::{Note, OpeningNote, TokenNote, Why};
use gnap_model::objects::{ErrorCode, Setup};
use grant_rules::keys::can_bind;
use grant_rules::tokens::token_out;
use std::alloc::Global;

/// The token gets a successor, which is bound to this key, with its label, its rights and its flag (RFC 9635, section 6.1).
fn replace(
    alloc: Global,
    drawing: &Drawing,
    opening: &OpeningNote,
    token: &TokenNote,
    key: &Bytes,
) -> Result<NotedReply, Mem>
    ensures { IfOk result (IsAnswer (outcome_of (supply drawing.now) (RotateToken opening.now token.now key.now))) }
{
    let label = token.label.copy()?;
    let rights = token.rights.copy()?;
    let successor = token_with(drawing, opening, key, label, rights, token.bearer, 0)?;
    let reply = Reply::Rotated {
        token: token_out(&successor, drawing.moment)?,
    };
    let mut notes = Seq::new(alloc);
    notes.push(Note::Retired {
        serial: token.serial,
        why: Why::ByRotation,
    })?;
    notes.push(Note::Issued(successor))?;
    Ok(NotedReply { reply, notes })
}

/// A live token gets a successor, by the key that is named (RFC 9635, section 6.1.1).
fn replace_by(
    alloc: Global,
    rules: &Setup,
    drawing: &Drawing,
    opening: &OpeningNote,
    token: &TokenNote,
    new_key: &Option<Bytes>,
) -> Result<NotedReply, Mem>
    ensures { IfOk result (IsAnswer (outcome_of (supply drawing.now) (rotate_key rules.now new_key.now token.now opening.now))) }
{
    match new_key {
        None => replace(alloc, drawing, opening, token, &token.key),
        Some(named) => {
            if can_bind(rules, token.bearer, named.as_slice()) {
                replace(alloc, drawing, opening, token, named)
            } else {
                Ok(refuse(alloc, ErrorCode::InvalidRotation))
            }
        }
    }
}

/// A live token of the key gets a successor.
fn rotate_token(
    alloc: Global,
    rules: &Setup,
    drawing: &Drawing,
    key: &Bytes,
    token: &TokenNote,
    new_key: &Option<Bytes>,
) -> Result<NotedReply, Mem>
    ensures { IfOk result (IsAnswer (outcome_of (supply drawing.now) (if token_is_live (trail drawing.now) drawing.now.moment token.now
        then on_grant InvalidRotation (trail drawing.now) key.now token.now (rotate_key rules.now new_key.now token.now) else Refuse InvalidRotation))) }
{
    let notes = drawing.notes.as_slice();
    if !is_live(notes, token, drawing.moment) {
        return Ok(refuse(alloc, ErrorCode::InvalidRotation));
    }
    let grant = opening_of(notes, token.grant);
    let owner = token.key.as_slice();
    match of_owner(grant, owner, key.as_slice(), ErrorCode::InvalidRotation) {
        Ok(opening) => replace_by(alloc, rules, drawing, opening, token, new_key),
        Err(code) => Ok(refuse(alloc, code)),
    }
}

/// Answers a rotation (RFC 9635, section 6.1).
pub fn rotate(
    alloc: Global,
    rules: &Setup,
    drawing: &Drawing,
    key: &Bytes,
    value: &Bytes,
    new_key: &Option<Bytes>,
) -> Result<NotedReply, Mem>
    ensures { IfOk result (IsAnswer (outcome_of (supply drawing.now)
        (rotated rules.now (trail drawing.now) drawing.now.moment key.now value.now new_key.now))) }
{
    let notes = drawing.notes.as_slice();
    match managed_token(notes, drawing.moment, value.as_slice()) {
        Some(token) => rotate_token(alloc, rules, drawing, key, token, new_key),
        None => Ok(refuse(alloc, ErrorCode::InvalidRotation)),
    }
}

/// The token is retired, if it wasn't (RFC 9635, section 6.2).
fn retire(alloc: Global, drawing: &Drawing, token: &TokenNote) -> Result<NotedReply, Mem>
    ensures { IfOk result (λ answered. (supply : _)
        → IsAnswer (outcome_of supply (RevokeToken token.now (list_any (is_retirement token.now.serial) (trail drawing.now)))) answered) }
{
    if is_retired(drawing.notes.as_slice(), token.serial) {
        return Ok(silent(alloc, Reply::Done));
    }
    noted(
        alloc,
        Reply::Done,
        Note::Retired {
            serial: token.serial,
            why: Why::ByRevocation,
        },
    )
}

/// A token of the key is revoked.
fn revoke_token(
    alloc: Global,
    drawing: &Drawing,
    key: &Bytes,
    token: &TokenNote,
) -> Result<NotedReply, Mem>
    ensures { IfOk result (IsAnswer (outcome_of (supply drawing.now) (on_grant InvalidRequest (trail drawing.now) key.now token.now
        (λ _. RevokeToken token.now (list_any (is_retirement token.now.serial) (trail drawing.now)))))) }
{
    let grant = opening_of(drawing.notes.as_slice(), token.grant);
    let owner = token.key.as_slice();
    match of_owner(grant, owner, key.as_slice(), ErrorCode::InvalidRequest) {
        Ok(_) => retire(alloc, drawing, token),
        Err(code) => Ok(refuse(alloc, code)),
    }
}

/// Answers a revocation (RFC 9635, section 6.2).
pub fn revoke(
    alloc: Global,
    drawing: &Drawing,
    key: &Bytes,
    value: &Bytes,
) -> Result<NotedReply, Mem>
    ensures { IfOk result (IsAnswer (outcome_of (supply drawing.now) (revoked (trail drawing.now) drawing.now.moment key.now value.now))) }
{
    let notes = drawing.notes.as_slice();
    match managed_token(notes, drawing.moment, value.as_slice()) {
        Some(token) => revoke_token(alloc, drawing, key, token),
        None => Ok(refuse(alloc, ErrorCode::InvalidRequest)),
    }
}
