//! The answer to a grant request (RFC 9635, section 2).
ghost use Rattle.std.specs.Prelude.{◌≡◌, ◌≤◌, length, IfOk};
ghost use Rattle.gnap_model.specs.Actions.{outcome_of};
ghost use Rattle.gnap_model.specs.Actions.Action.{OpenAtOnce, OpenAsking};
ghost use Rattle.gnap_model.specs.Begin.{opening as opening_for, begin_by as begun_by, begin as begun};
ghost use Rattle.gnap_model.specs.Judging.Settled.{AtOnce as SettledAtOnce, ByAsking as SettledByAsking};
ghost use Rattle.gnap_history.specs.Drawings.{trail, supply, IsAnswer};

use crate::asking::pending;
use crate::drawing::{Drawing, NotedReply, refuse};
use crate::granting::grant;
use crate::limits::{has_many_grants, passes_limit};
use bytes_and_lists::bytes::Bytes;
use bytes_and_lists::memory::{Duplicate, Mem};
use bytes_and_lists::seq::Seq;
use gnap_model::notes::{Note, OpeningNote};
use gnap_model::objects::{ErrorCode, GrantRequest, Modes, Setup};
use grant_rules::opening::{instance_of, is_past, opening, terms};
use grant_rules::settling::{Course, settle};
use std::alloc::Global;

/// The grant that the request opens.
fn opened(
    drawing: &Drawing,
    key: &Bytes,
    request: &GrantRequest,
    not_after: Option<u64>,
) -> Result<OpeningNote, Mem>
    ensures { IfOk result (λ opening. opening ≡ opening_for (trail drawing.now) drawing.now.moment key.now request.now not_after) }
{
    opening(
        drawing.notes.next_grant(),
        drawing.moment,
        key,
        request,
        not_after,
    )
}

/// A new grant, whose tokens are issued at once (RFC 9635, section 3.2).
fn open_at_once(
    alloc: Global,
    drawing: &Drawing,
    opening: &OpeningNote,
    request: &GrantRequest,
) -> Result<NotedReply, Mem>
    requires { length request.now.asks ≤ 8 }
    ensures { IfOk result (IsAnswer (outcome_of (supply drawing.now) (OpenAtOnce opening.now request.now))) }
{
    let mut before = Seq::new(alloc);
    before.push(Note::Opened(opening.copy()?))?;
    before.push(Note::Terms(terms(opening.grant, request)?))?;
    before.push(Note::Approved {
        grant: opening.grant,
        consent: Seq::new(alloc),
    })?;
    grant(
        alloc,
        drawing,
        opening,
        before,
        request.asks.as_slice(),
        request.single,
        None,
        instance_of(opening)?,
    )
}

/// The tokens are issued at once, if that doesn't pass the limit.
fn begin_at_once(
    alloc: Global,
    drawing: &Drawing,
    opening: &OpeningNote,
    request: &GrantRequest,
) -> Result<NotedReply, Mem>
    requires { length request.now.asks ≤ 8 }
    ensures { IfOk result (IsAnswer (outcome_of (supply drawing.now) (begun_by SettledAtOnce (trail drawing.now) drawing.now.moment opening.now request.now))) }
{
    if passes_limit(drawing.notes, drawing.moment, request.asks.len()) {
        return Ok(refuse(alloc, ErrorCode::RequestDenied));
    }
    open_at_once(alloc, drawing, opening, request)
}

/// A new grant, and the user is asked (RFC 9635, section 3.3).
fn open_asking(
    alloc: Global,
    drawing: &Drawing,
    opening: &OpeningNote,
    request: &GrantRequest,
    modes: &Modes,
) -> Result<NotedReply, Mem>
    ensures { IfOk result (IsAnswer (outcome_of (supply drawing.now) (OpenAsking opening.now request.now modes.now))) }
{
    let mut before = Seq::new(alloc);
    before.push(Note::Opened(opening.copy()?))?;
    before.push(Note::Terms(terms(opening.grant, request)?))?;
    pending(
        alloc,
        drawing,
        opening,
        before,
        modes,
        instance_of(opening)?,
    )
}

/// The user is asked, if the client can start an interaction.
fn begin_by_asking(
    alloc: Global,
    drawing: &Drawing,
    opening: &OpeningNote,
    request: &GrantRequest,
) -> Result<NotedReply, Mem>
    ensures { IfOk result (IsAnswer (outcome_of (supply drawing.now) (begun_by SettledByAsking (trail drawing.now) drawing.now.moment opening.now request.now))) }
{
    match &request.modes {
        Some(modes) => open_asking(alloc, drawing, opening, request, modes),
        None => Ok(refuse(alloc, ErrorCode::RequestDenied)),
    }
}

/// Answers a grant request.
pub fn begin(
    alloc: Global,
    setup: &Setup,
    drawing: &Drawing,
    key: &Bytes,
    request: &GrantRequest,
    not_after: Option<u64>,
) -> Result<NotedReply, Mem>
    requires { length request.now.asks ≤ 8 }
    ensures { IfOk result (IsAnswer (outcome_of (supply drawing.now) (begun setup.now (trail drawing.now) drawing.now.moment key.now request.now not_after))) }
{
    if is_past(drawing.moment, not_after) || has_many_grants(drawing.notes, drawing.moment) {
        return Ok(refuse(alloc, ErrorCode::RequestDenied));
    }
    match settle(alloc, setup, key.as_slice(), &Seq::new(alloc), request)? {
        Course::Never => Ok(refuse(alloc, ErrorCode::RequestDenied)),
        Course::AtOnce => {
            let opening = opened(drawing, key, request, not_after)?;
            begin_at_once(alloc, drawing, &opening, request)
        }
        Course::ByAsking => {
            let opening = opened(drawing, key, request, not_after)?;
            begin_by_asking(alloc, drawing, &opening, request)
        }
    }
}
