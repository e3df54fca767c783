//! The consent front hands in the user's decision (RFC 9635, section 4).
ghost use Rattle.std.specs.Prelude.{◌≡◌, option_map, is_some, if◌then◌else◌, IfOk};
ghost use Rattle.gnap_model.specs.Asked.{asked_rights};
ghost use Rattle.gnap_model.specs.Actions.Action.{TakeDecision};
ghost use Rattle.gnap_model.specs.Front.{decide_on as decided_on};
ghost use Rattle.gnap_tables.specs.RowSearches.{interaction_by_handle, round_of};
ghost use Rattle.table_core.specs.Entries.{tables};
ghost use Rattle.table_core.specs.Plans.{Plans};
ghost use Rattle.table_core.specs.Fronts.{interaction_of, take_decision};

use crate::entering::{Entering, Plan, TableChange};
use crate::refusing::refused;
use bytes_and_lists::memory::{Duplicate, Mem};
use gnap_model::calls::{FinishOut, Reply};
use gnap_model::objects::{DecideRequest, ErrorCode};
use gnap_model::rights::Rights;
use gnap_tables::rows::{Decision, GrantRow, Round};
use grant_rules::deciding::{may_decide, rights_of_decision};
use grant_states::{Change, InteractionName};
use std::alloc::Global;

// The interaction reference that the front is told, and that the decision has.
fn reference_in(finish: &Option<FinishOut>) -> Option<[u8; 32]>
    ensures { result ≡ option_map (λ (ending : FinishOut). ending.reference) finish.now }
{
    match finish {
        Some(ending) => Some(ending.reference),
        None => None,
    }
}

// How many values are drawn: the reference, where the front is told of one.
fn reference_count(finish: &Option<FinishOut>) -> u64
    ensures { result ≡ (if is_some finish.now then 1 else 0) }
{
    if finish.is_some() { 1 } else { 0 }
}

// The round is decided. Where it has a finish, an interaction reference is drawn (RFC 9635, section 4.2).
fn hand_in(
    entering: &Entering,
    row: &GrantRow,
    round: &Round,
    rights: Rights,
    request: &DecideRequest,
) -> Result<Plan, Mem>
    ensures { IfOk result (Plans entering.now (TakeDecision (round_of row.now.number round.now) rights request.now)) }
{
    let subject = request.subject.copy()?;
    let finish = entering.supply.ending(&round.modes.finish, round.nonce)?;
    let drawn = reference_count(&finish);
    let decision = Decision {
        verdict: request.verdict,
        reference: reference_in(&finish),
        rights,
        subject,
    };
    Ok(Plan {
        reply: Reply::Decided { finish },
        drawn,
        change: TableChange::Alter {
            number: row.number,
            change: Change::Decide(decision),
        },
    })
}

// The round is decided, if the user grants no more than was asked for.
fn decide_round(
    alloc: Global,
    entering: &Entering,
    request: &DecideRequest,
    row: &GrantRow,
    round: &Round,
) -> Result<Plan, Mem>
    ensures { IfOk result (Plans entering.now (decided_on request.now (round_of row.now.number round.now) (asked_rights row.now.asks))) }
{
    let asks = row.asks.asks(alloc)?;
    if !may_decide(alloc, request, asks.as_slice())? {
        return Ok(refused(entering, ErrorCode::InvalidRequest));
    }
    let rights = rights_of_decision(alloc, request, asks.as_slice())?;
    hand_in(entering, row, round, rights, request)
}

// The round of the row is decided.
fn decide_row(
    alloc: Global,
    entering: &Entering,
    request: &DecideRequest,
    row: &GrantRow,
) -> Result<Plan, Mem>
    ensures { IfOk result (Plans entering.now (take_decision request.now (interaction_of row.now))) }
{
    match &row.round {
        Some(round) => decide_round(alloc, entering, request, row, round.round()),
        None => Ok(refused(entering, ErrorCode::UnknownInteraction)),
    }
}

/// Answers the user's decision.
pub fn decide(alloc: Global, entering: &Entering, request: &DecideRequest) -> Result<Plan, Mem>
    ensures { IfOk result (Plans entering.now
        (take_decision request.now (interaction_by_handle entering.now.supply.moment request.now.handle (tables entering.now).grants))) }
{
    let name = InteractionName::Handle(request.handle.as_slice());
    match entering.grants.by_interaction(entering.supply.moment, name) {
        Some(row) => decide_row(alloc, entering, request, row),
        None => Ok(refused(entering, ErrorCode::UnknownInteraction)),
    }
}
