//! The consent front looks at an interaction, finds it by its code, and hands in the user's decision (RFC 9635, section 4).
ghost use Rattle.std.specs.Prelude.{◌≡◌, option_map, IfOk};
ghost use Rattle.gnap_model.specs.Asked.{asked_rights as all_asked_rights};
ghost use Rattle.gnap_model.specs.Actions.{on_found, finish_of, outcome_of};
ghost use Rattle.gnap_model.specs.Actions.Action.{ShowRound, TakeDecision};
ghost use Rattle.gnap_model.specs.Standing.{opening_in, terms_of};
ghost use Rattle.gnap_model.specs.Common.{first_of};
ghost use Rattle.gnap_model.specs.Front.{look as looked_at, find_code as found_by_code, decide_on as decided_on, decide as decided};
ghost use Rattle.gnap_model.specs.declared.objects.ErrorCode.TheVariants.{UnknownInteraction};
ghost use Rattle.gnap_history.specs.Drawings.{trail, supply, IsAnswer};

use crate::drawing::{Drawing, NotedReply, noted, refuse, silent};
use crate::live_rounds::{round_by_code, round_by_handle};
use crate::look_ups::opening_of;
use bytes_and_lists::bytes::Bytes;
use bytes_and_lists::memory::{Duplicate, Mem};
use gnap_model::calls::{FinishOut, Reply};
use gnap_model::notes::{DecisionNote, Note, OpeningNote, RoundNote, TermsNote};
use gnap_model::objects::{Ask, DecideRequest, ErrorCode, Verdict};
use gnap_model::rights::Rights;
use grant_rules::deciding::{may_decide, rights_of_decision};
use std::alloc::Global;

/// What the user is asked in the round, and how long the answer is waited for.
fn show(
    alloc: Global,
    drawing: &Drawing,
    round: &RoundNote,
    terms: &TermsNote,
    opening: &OpeningNote,
) -> Result<NotedReply, Mem>
    ensures { IfOk result (IsAnswer (outcome_of (supply drawing.now) (ShowRound round.now terms.now opening.now))) }
{
    Ok(silent(
        alloc,
        Reply::Shown {
            asks: terms.asks.copy()?,
            client: opening.key.copy()?,
            expires_in: round.until.saturating_sub(drawing.moment),
            subject: terms.subject,
            user: opening.user.copy()?,
        },
    ))
}

/// The round is shown with the terms and the opening of its grant.
fn look_at(alloc: Global, drawing: &Drawing, round: &RoundNote) -> Result<NotedReply, Mem>
    ensures { IfOk result (IsAnswer (outcome_of (supply drawing.now) (on_found UnknownInteraction
        (λ terms. on_found UnknownInteraction (λ opening. ShowRound round.now terms opening) (first_of (opening_in round.now.grant) (trail drawing.now)))
        (terms_of (trail drawing.now) round.now.grant)))) }
{
    let terms = drawing.notes.terms_of(round.grant);
    let opening = opening_of(drawing.notes.as_slice(), round.grant);
    match (terms, opening) {
        (Some(terms), Some(opening)) => show(alloc, drawing, round, terms, opening),
        _ => Ok(refuse(alloc, ErrorCode::UnknownInteraction)),
    }
}

/// Answers a look at the interaction with this handle.
pub fn look(alloc: Global, drawing: &Drawing, handle: &Bytes) -> Result<NotedReply, Mem>
    ensures { IfOk result (IsAnswer (outcome_of (supply drawing.now) (looked_at (trail drawing.now) drawing.now.moment handle.now))) }
{
    match round_by_handle(drawing.notes.as_slice(), drawing.moment, handle.as_slice()) {
        Some(round) => look_at(alloc, drawing, round),
        None => Ok(refuse(alloc, ErrorCode::UnknownInteraction)),
    }
}

/// Answers with the handle of the interaction with this user code (RFC 9635, section 3.3.3).
pub fn find_code(alloc: Global, drawing: &Drawing, code: &[u8; 8]) -> NotedReply
    ensures { IsAnswer (outcome_of (supply drawing.now) (found_by_code (trail drawing.now) drawing.now.moment code.now)) result }
{
    match round_by_code(drawing.notes.as_slice(), drawing.moment, code) {
        Some(round) => silent(
            alloc,
            Reply::Handle {
                handle: round.handle,
            },
        ),
        None => refuse(alloc, ErrorCode::UnknownInteraction),
    }
}

/// What the front needs to tell the client that the interaction is over, where the client asked for that (RFC 9635, section 4.2).
fn ending(drawing: &Drawing, round: &RoundNote) -> Result<Option<FinishOut>, Mem>
    ensures { IfOk result (λ ending. ending ≡ finish_of (supply drawing.now) round.now round.now.modes.finish) }
{
    drawing.supply().ending(&round.modes.finish, round.nonce)
}

/// The interaction reference that the front is told, and that the decision has.
fn reference_in(finish: &Option<FinishOut>) -> Option<[u8; 32]>
    ensures { result ≡ option_map (λ ending. ending.reference) finish.now }
{
    match finish {
        Some(ending) => Some(ending.reference),
        None => None,
    }
}

/// The round is decided. Where it has a finish, an interaction reference is drawn (RFC 9635, section 4.2).
fn take_decision(
    alloc: Global,
    drawing: &Drawing,
    round: &RoundNote,
    rights: Rights,
    request: &DecideRequest,
) -> Result<NotedReply, Mem>
    ensures { IfOk result (IsAnswer (outcome_of (supply drawing.now) (TakeDecision round.now rights request.now))) }
{
    let finish = ending(drawing, round)?;
    let decision = DecisionNote {
        grant: round.grant,
        verdict: request.verdict,
        reference: reference_in(&finish),
        rights,
        subject: request.subject.copy()?,
    };
    noted(alloc, Reply::Decided { finish }, Note::DecidedAs(decision))
}

/// The round is decided, if the user grants no more than was asked for.
fn decide_on(
    alloc: Global,
    drawing: &Drawing,
    request: &DecideRequest,
    round: &RoundNote,
    asks: &[Ask],
) -> Result<NotedReply, Mem>
    ensures { IfOk result (IsAnswer (outcome_of (supply drawing.now) (decided_on request.now round.now (all_asked_rights asks.now)))) }
{
    if !may_decide(alloc, request, asks)? {
        return Ok(refuse(alloc, ErrorCode::InvalidRequest));
    }
    let rights = rights_of_decision(alloc, request, asks)?;
    take_decision(alloc, drawing, round, rights, request)
}

/// The round is decided by the terms of its grant.
fn decide_round(
    alloc: Global,
    drawing: &Drawing,
    request: &DecideRequest,
    round: &RoundNote,
) -> Result<NotedReply, Mem>
    ensures { IfOk result (IsAnswer
        (outcome_of (supply drawing.now) (on_found UnknownInteraction (λ terms. decided_on request.now round.now (all_asked_rights terms.asks))
        (terms_of (trail drawing.now) round.now.grant)))) }
{
    match drawing.notes.terms_of(round.grant) {
        Some(terms) => decide_on(alloc, drawing, request, round, terms.asks.as_slice()),
        None => Ok(refuse(alloc, ErrorCode::UnknownInteraction)),
    }
}

/// Answers the user's decision.
pub fn decide(alloc: Global, drawing: &Drawing, request: &DecideRequest) -> Result<NotedReply, Mem>
    ensures { IfOk result (IsAnswer (outcome_of (supply drawing.now) (decided (trail drawing.now) drawing.now.moment request.now))) }
{
    let notes = drawing.notes.as_slice();
    match round_by_handle(notes, drawing.moment, request.handle.as_slice()) {
        Some(round) => decide_round(alloc, drawing, request, round),
        None => Ok(refuse(alloc, ErrorCode::UnknownInteraction)),
    }
}
