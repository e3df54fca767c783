//! The continuation of a grant, by a poll or with an interaction reference (RFC 9635, sections 5.1 and 5.2).
ghost use Rattle.std.specs.Prelude.{◌≡◌, ◌≤◌, ◌∷◌, [], length, option_map, IfOk};
ghost use Rattle.gnap_model.specs.Rights.{covers as rights_cover};
ghost use Rattle.gnap_model.specs.Actions.{outcome_of};
ghost use Rattle.gnap_model.specs.Actions.Action.{RenewDoor};
ghost use Rattle.gnap_model.specs.declared.calls.Reply.TheVariants.{Error};
ghost use Rattle.gnap_model.specs.declared.notes.Note.TheVariants.{Finalized};
ghost use Rattle.gnap_model.specs.Standing.{grant_state, decision_of as decision_on};
ghost use Rattle.gnap_model.specs.Standing.GrantState.{IsPending, IsApproved};
ghost use Rattle.gnap_model.specs.Continue.{is_wrong as is_wrong_for, wrong_reference as answer_to_wrong, collect_by, collect_or_renew as collected_or_renewed, continue_round as round_continued, continue_at, continue as continued};
ghost use Rattle.gnap_model.specs.declared.objects.Verdict.TheVariants.{Grant};
ghost use Rattle.gnap_history.specs.Drawings.{trail, supply, IsAnswer};

use crate::drawing::{Drawing, NotedReply, noted, refuse};
use crate::granting::grant;
use crate::limits::passes_limit;
use crate::presented_values::{named_grant, of_key};
use crate::rounds::{StateNow, decision_of, is_early, state_now, wrongs_of};
use bytes_and_lists::bytes::Bytes;
use bytes_and_lists::memory::{Duplicate, Mem};
use bytes_and_lists::seq::Seq;
use gnap_model::calls::Reply;
use gnap_model::notes::{DecisionNote, Note, OpeningNote, RoundNote, TermsNote};
use gnap_model::objects::{ErrorCode, Verdict};
use grant_rules::decided_asks::decided_asks;
use grant_rules::limits::WRONG_LIMIT;
use std::alloc::Global;

/// An error reply that ends the grant.
fn refuse_and_finalize(
    alloc: Global,
    opening: &OpeningNote,
    code: ErrorCode,
) -> Result<NotedReply, Mem>
    ensures { IfOk result (λ answered. (answered.reply ≡ Error code) × (answered.notes ≡ Finalized opening.now.grant ∷ [])) }
{
    noted(
        alloc,
        Reply::Error { code },
        Note::Finalized {
            grant: opening.grant,
        },
    )
}

/// A new continuation value, and nothing else (RFC 9635, section 5.2).
fn renew(alloc: Global, drawing: &Drawing, opening: &OpeningNote) -> Result<NotedReply, Mem>
    ensures { IfOk result (IsAnswer (outcome_of (supply drawing.now) (RenewDoor opening.now))) }
{
    let door = drawing.value(0);
    noted(
        alloc,
        Reply::Continuing { door },
        drawing.door(opening, door),
    )
}

/// The tokens for what the user granted are issued, if that doesn't pass the limit (RFC 9635, section 5.1).
fn collect_grant(
    alloc: Global,
    drawing: &Drawing,
    opening: &OpeningNote,
    decision: &DecisionNote,
    terms: &TermsNote,
) -> Result<NotedReply, Mem>
    requires { length terms.now.asks ≤ 8 }
    ensures { IfOk result (IsAnswer
        (outcome_of (supply drawing.now) (collect_by Grant (trail drawing.now) drawing.now.moment opening.now decision.now terms.now))) }
{
    let asks = decided_asks(alloc, &decision.rights, &terms.asks)?;
    if passes_limit(drawing.notes, drawing.moment, asks.len()) {
        return Ok(refuse(alloc, ErrorCode::RequestDenied));
    }
    let mut before = Seq::new(alloc);
    before.push(Note::Approved {
        grant: opening.grant,
        consent: decision.rights.copy()?,
    })?;
    let subject = if terms.subject {
        decision.subject.copy()?
    } else {
        None
    };
    grant(
        alloc,
        drawing,
        opening,
        before,
        asks.as_slice(),
        terms.single,
        subject,
        None,
    )
}

/// The decision is collected: a refusal by the user ends the grant.
fn collect(
    alloc: Global,
    drawing: &Drawing,
    opening: &OpeningNote,
    decision: &DecisionNote,
    terms: &TermsNote,
) -> Result<NotedReply, Mem>
    requires { length terms.now.asks ≤ 8 }
    ensures { IfOk result (IsAnswer
        (outcome_of (supply drawing.now) (collect_by decision.now.verdict (trail drawing.now) drawing.now.moment opening.now decision.now terms.now))) }
{
    match decision.verdict {
        Verdict::Grant => collect_grant(alloc, drawing, opening, decision, terms),
        Verdict::Deny => refuse_and_finalize(alloc, opening, ErrorCode::UserDenied),
        Verdict::Unknown => refuse_and_finalize(alloc, opening, ErrorCode::UnknownUser),
    }
}

/// A round without a decision goes on; else the decision is collected.
fn collect_or_renew(
    alloc: Global,
    drawing: &Drawing,
    opening: &OpeningNote,
    decision: Option<&DecisionNote>,
) -> Result<NotedReply, Mem>
    ensures { IfOk result (IsAnswer
        (outcome_of (supply drawing.now) (collected_or_renewed (trail drawing.now) drawing.now.moment opening.now (option_map (λ d. d.now) decision.entry)))) }
{
    match decision {
        Some(decision) => match drawing.notes.terms_of(opening.grant) {
            Some(terms) => collect(alloc, drawing, opening, decision, terms),
            None => Ok(refuse(alloc, ErrorCode::InvalidRequest)),
        },
        None => renew(alloc, drawing, opening),
    }
}

/// A reference is given, and it isn't that of the decision.
fn is_wrong(reference: &Option<Bytes>, decision: Option<&DecisionNote>) -> bool
    ensures { result ≡ is_wrong_for reference.now (option_map (λ d. d.now) decision.entry) }
{
    match (reference, decision) {
        (Some(reference), Some(decision)) => match &decision.reference {
            Some(drawn) => drawn.as_slice() != reference.as_slice(),
            None => true,
        },
        (Some(_), None) => true,
        (None, _) => false,
    }
}

/// A wrong reference is counted; the fifth of a round ends the grant.
fn count_wrong_reference(
    alloc: Global,
    drawing: &Drawing,
    opening: &OpeningNote,
) -> Result<NotedReply, Mem>
    ensures { IfOk result (IsAnswer (outcome_of (supply drawing.now) (answer_to_wrong (trail drawing.now) opening.now))) }
{
    let wrong = Note::Wrong {
        grant: opening.grant,
    };
    if wrongs_of(drawing.notes.as_slice(), opening.grant) < WRONG_LIMIT - 1 {
        let code = ErrorCode::InvalidInteraction;
        return noted(alloc, Reply::Error { code }, wrong);
    }
    let mut notes = Seq::new(alloc);
    notes.push(wrong)?;
    notes.push(Note::Finalized {
        grant: opening.grant,
    })?;
    let code = ErrorCode::TooManyAttempts;
    Ok(NotedReply {
        reply: Reply::Error { code },
        notes,
    })
}

/// In a round, after the test of a poll's time.
fn continue_round(
    alloc: Global,
    drawing: &Drawing,
    opening: &OpeningNote,
    reference: &Option<Bytes>,
    round: &RoundNote,
) -> Result<NotedReply, Mem>
    ensures { IfOk result (IsAnswer (outcome_of (supply drawing.now) (round_continued (trail drawing.now) drawing.now.moment opening.now reference.now
        (decision_on (trail drawing.now) opening.now.grant) round.now))) }
{
    let decision = decision_of(drawing.notes.as_slice(), opening.grant);
    if decision.is_none() && round.until <= drawing.moment {
        return refuse_and_finalize(alloc, opening, ErrorCode::InvalidInteraction);
    }
    if reference.is_none() && round.modes.finish.is_some() {
        return Ok(refuse(alloc, ErrorCode::InvalidRequest));
    }
    if is_wrong(reference, decision) {
        return count_wrong_reference(alloc, drawing, opening);
    }
    collect_or_renew(alloc, drawing, opening, decision)
}

/// A pending grant is continued. A poll mustn't come too early.
fn continue_pending(
    alloc: Global,
    drawing: &Drawing,
    opening: &OpeningNote,
    reference: &Option<Bytes>,
    round: &RoundNote,
) -> Result<NotedReply, Mem>
    ensures { IfOk result (IsAnswer
        (outcome_of (supply drawing.now) (continue_at (IsPending round.now) (trail drawing.now) drawing.now.moment opening.now reference.now))) }
{
    let notes = drawing.notes.as_slice();
    if reference.is_none() && is_early(notes, opening, drawing.moment) {
        return Ok(refuse(alloc, ErrorCode::TooFast));
    }
    continue_round(alloc, drawing, opening, reference, round)
}

/// An approved grant is continued. It waits for no reference, so a reference ends it.
fn continue_approved(
    alloc: Global,
    drawing: &Drawing,
    opening: &OpeningNote,
    reference: &Option<Bytes>,
) -> Result<NotedReply, Mem>
    ensures { IfOk result (IsAnswer (outcome_of (supply drawing.now) (continue_at IsApproved (trail drawing.now) drawing.now.moment opening.now reference.now))) }
{
    if reference.is_some() {
        return refuse_and_finalize(alloc, opening, ErrorCode::TooManyAttempts);
    }
    if is_early(drawing.notes.as_slice(), opening, drawing.moment) {
        return Ok(refuse(alloc, ErrorCode::TooFast));
    }
    renew(alloc, drawing, opening)
}

/// The grant is continued by what its state is.
fn continue_by_state(
    alloc: Global,
    drawing: &Drawing,
    opening: &OpeningNote,
    reference: &Option<Bytes>,
) -> Result<NotedReply, Mem>
    ensures { IfOk result (IsAnswer (outcome_of (supply drawing.now) (continue_at (grant_state (trail drawing.now) opening.now.grant drawing.now.moment)
        (trail drawing.now) drawing.now.moment opening.now reference.now))) }
{
    match state_now(drawing.notes.as_slice(), opening.grant, drawing.moment) {
        StateNow::Pending(round) => continue_pending(alloc, drawing, opening, reference, round),
        StateNow::Approved => continue_approved(alloc, drawing, opening, reference),
        StateNow::Finalized => Ok(refuse(alloc, ErrorCode::InvalidContinuation)),
    }
}

/// Answers a continuation.
pub fn continue_grant(
    alloc: Global,
    drawing: &Drawing,
    key: &Bytes,
    value: &Bytes,
    reference: &Option<Bytes>,
) -> Result<NotedReply, Mem>
    ensures { IfOk result (IsAnswer (outcome_of (supply drawing.now) (continued (trail drawing.now) drawing.now.moment key.now value.now reference.now))) }
{
    let grant = named_grant(drawing.notes.as_slice(), drawing.moment, value.as_slice());
    match of_key(grant, key.as_slice(), ErrorCode::InvalidContinuation) {
        Ok(opening) => continue_by_state(alloc, drawing, opening, reference),
        Err(code) => Ok(refuse(alloc, code)),
    }
}
