//! The modification of a grant, and its cancellation (RFC 9635, sections 5.3 and 5.4).
ghost use Rattle.std.specs.Prelude.{◌≡◌, ◌≤◌, length, reverse, IfOk};
ghost use Rattle.gnap_model.specs.Actions.{outcome_of, retire};
ghost use Rattle.gnap_model.specs.Actions.Action.{ModifyAsking};
ghost use Rattle.gnap_model.specs.Judging.{settle as settle_for};
ghost use Rattle.gnap_model.specs.Judging.Settled.{AtOnce as SettledAtOnce, ByAsking as SettledByAsking};
ghost use Rattle.gnap_model.specs.Standing.{consent_of as consent_to};
ghost use Rattle.gnap_model.specs.Change.{tokens_of, modify_by as modified_by, modify as modified, cancel as cancelled};
ghost use Rattle.gnap_history.specs.Drawings.{trail, supply, IsAnswer};

use crate::asking::pending;
use crate::drawing::{Drawing, NotedReply, noted, refuse};
use crate::granting::grant;
use crate::limits::others_pass_limit;
use crate::presented_values::{is_managed, named_grant, of_key};
use crate::rounds::consent_of;
use bytes_and_lists::bytes::Bytes;
use bytes_and_lists::memory::{Duplicate, Mem};
use bytes_and_lists::seq::Seq;
use gnap_model::calls::Reply;
use gnap_model::notes::{Note, OpeningNote, Why};
use gnap_model::objects::{ErrorCode, GrantRequest, Modes, Setup};
use gnap_model::rights::Rights;
use grant_rules::opening::terms;
use grant_rules::settling::{Course, settle};
use std::alloc::Global;

/// The notes that retire the grant's tokens, where they can still be managed.
fn retirements(
    alloc: Global,
    notes: &[Note],
    opening: &OpeningNote,
    now: u64,
) -> Result<Seq<Note>, Mem>
    ensures { IfOk result (λ retired. retired ≡ retire (tokens_of (reverse notes.now) now opening.now)) }
{
    let mut retired = Seq::new(alloc);
    for note in notes {
        if let Note::Issued(token) = note {
            if token.grant == opening.grant && is_managed(notes, token, now) {
                retired.push(Note::Retired {
                    serial: token.serial,
                    why: Why::ByModification,
                })?;
            }
        }
    }
    Ok(retired)
}

/// The tokens of the new terms are issued at once in place of those before, if that doesn't pass the limit.
fn modify_at_once(
    alloc: Global,
    drawing: &Drawing,
    opening: &OpeningNote,
    consent: &Rights,
    request: &GrantRequest,
) -> Result<NotedReply, Mem>
    requires few { length request.now.asks ≤ 8 }
    requires consent { consent.now ≡ consent_to (trail drawing.now) opening.now.grant }
    ensures { IfOk result (IsAnswer
        (outcome_of (supply drawing.now) (modified_by SettledAtOnce (trail drawing.now) drawing.now.moment opening.now request.now))) }
{
    let notes = drawing.notes.as_slice();
    if others_pass_limit(notes, opening, drawing.moment, request.asks.len()) {
        return Ok(refuse(alloc, ErrorCode::RequestDenied));
    }
    let mut before = retirements(alloc, notes, opening, drawing.moment)?;
    before.push(Note::Terms(terms(opening.grant, request)?))?;
    before.push(Note::Approved {
        grant: opening.grant,
        consent: consent.copy()?,
    })?;
    grant(
        alloc,
        drawing,
        opening,
        before,
        request.asks.as_slice(),
        request.single,
        None,
        None,
    )
}

/// The user is asked about the new terms; the tokens of those before are retired.
fn modify_asking(
    alloc: Global,
    drawing: &Drawing,
    opening: &OpeningNote,
    request: &GrantRequest,
    modes: &Modes,
) -> Result<NotedReply, Mem>
    ensures { IfOk result (IsAnswer
        (outcome_of (supply drawing.now) (ModifyAsking opening.now (tokens_of (trail drawing.now) drawing.now.moment opening.now) request.now modes.now))) }
{
    let mut before = retirements(alloc, drawing.notes.as_slice(), opening, drawing.moment)?;
    before.push(Note::Terms(terms(opening.grant, request)?))?;
    pending(alloc, drawing, opening, before, modes, None)
}

/// The user is asked, if the client can start an interaction.
fn modify_by_asking(
    alloc: Global,
    drawing: &Drawing,
    opening: &OpeningNote,
    request: &GrantRequest,
) -> Result<NotedReply, Mem>
    ensures { IfOk result (IsAnswer
        (outcome_of (supply drawing.now) (modified_by SettledByAsking (trail drawing.now) drawing.now.moment opening.now request.now))) }
{
    match &request.modes {
        Some(modes) => modify_asking(alloc, drawing, opening, request, modes),
        None => Ok(refuse(alloc, ErrorCode::RequestDenied)),
    }
}

/// The request is settled, with the consent of the grant.
fn modify_grant(
    alloc: Global,
    setup: &Setup,
    drawing: &Drawing,
    opening: &OpeningNote,
    request: &GrantRequest,
) -> Result<NotedReply, Mem>
    requires { length request.now.asks ≤ 8 }
    ensures { IfOk result (IsAnswer
        (outcome_of (supply drawing.now) (modified_by (settle_for setup.now opening.now.key (consent_to (trail drawing.now) opening.now.grant) request.now)
        (trail drawing.now) drawing.now.moment opening.now request.now))) }
{
    let none = Seq::new(alloc);
    let consent = consent_of(drawing.notes.as_slice(), opening.grant, &none);
    match settle(alloc, setup, opening.key.as_slice(), consent, request)? {
        Course::AtOnce => modify_at_once(alloc, drawing, opening, consent, request),
        Course::ByAsking => modify_by_asking(alloc, drawing, opening, request),
        Course::Never => Ok(refuse(alloc, ErrorCode::RequestDenied)),
    }
}

/// Answers a modification (RFC 9635, section 5.3).
pub fn modify(
    alloc: Global,
    setup: &Setup,
    drawing: &Drawing,
    key: &Bytes,
    value: &Bytes,
    request: &GrantRequest,
) -> Result<NotedReply, Mem>
    requires { length request.now.asks ≤ 8 }
    ensures { IfOk result (IsAnswer (outcome_of (supply drawing.now) (modified setup.now (trail drawing.now) drawing.now.moment key.now value.now request.now))) }
{
    let grant = named_grant(drawing.notes.as_slice(), drawing.moment, value.as_slice());
    match of_key(grant, key.as_slice(), ErrorCode::InvalidContinuation) {
        Ok(opening) => modify_grant(alloc, setup, drawing, opening, request),
        Err(code) => Ok(refuse(alloc, code)),
    }
}

/// Answers a cancellation (RFC 9635, section 5.4).
pub fn cancel(
    alloc: Global,
    drawing: &Drawing,
    key: &Bytes,
    value: &Bytes,
) -> Result<NotedReply, Mem>
    ensures { IfOk result (IsAnswer (outcome_of (supply drawing.now) (cancelled (trail drawing.now) drawing.now.moment key.now value.now))) }
{
    let grant = named_grant(drawing.notes.as_slice(), drawing.moment, value.as_slice());
    match of_key(grant, key.as_slice(), ErrorCode::InvalidContinuation) {
        Ok(opening) => noted(
            alloc,
            Reply::Done,
            Note::Finalized {
                grant: opening.grant,
            },
        ),
        Err(code) => Ok(refuse(alloc, code)),
    }
}
