//! The continuation of a grant, by a poll or with an interaction reference (RFC 9635, sections 5.1 and 5.2).
ghost use Rattle.std.specs.Prelude.{◌≡◌, ◌≤◌, option_map, if◌then◌else◌, length, IfOk, Some, None};
ghost use Rattle.std.specs.List.{All};
ghost use Rattle.gnap_tables.specs.declared.rows.GrantRow.{GrantRow};
ghost use Rattle.gnap_model.specs.Actions.Action.{RenewDoor, CollectDecision, RefuseAndFinalize, WrongReference, LastWrongReference};
ghost use Rattle.gnap_model.specs.Continue.{is_wrong as is_wrong_for, decided_asks as asks_decided};
ghost use Rattle.gnap_model.specs.declared.objects.Verdict.TheVariants.{Grant};
ghost use Rattle.gnap_tables.specs.RowSearches.{opening_of, terms_of_row, decision_of_row, row_by_door};
ghost use Rattle.gnap_tables.specs.ActionsByRows.{with_row, collect_rows, collect_or_renew_rows, continue_round_rows, continue_by, continue_rows};
ghost use Rattle.table_core.specs.CallEffects.{HasFewAsked};
ghost use Rattle.table_core.specs.Entries.{tables};
ghost use Rattle.table_core.specs.Plans.{Plans};
ghost use Rattle.table_core.specs.Continued.{wrong_rows};

use crate::entering::{Entering, Plan, Renewal, TableChange};
use crate::issuing::grant_on;
use crate::refusing::refused;
use bytes_and_lists::bytes::Bytes;
use bytes_and_lists::memory::{Duplicate, Mem};
use bytes_and_lists::seq::Seq;
use gnap_model::calls::Reply;
use gnap_model::objects::{Ask, Asks, ErrorCode, Verdict};
use gnap_tables::rows::{Decision, GrantRow, Round};
use grant_rules::decided_asks::decided_asks;
use grant_rules::limits::{WAIT, WRONG_LIMIT};
use grant_states::Change;
use kept_rights::KeptRights;
use std::alloc::Global;

// An error reply that ends the grant.
fn refuse_and_end(entering: &Entering, row: &GrantRow, code: ErrorCode) -> Plan
    ensures { Plans entering.now (RefuseAndFinalize (opening_of row.now) code) result }
{
    Plan {
        reply: Reply::Error { code },
        drawn: 0,
        change: TableChange::End { number: row.number },
    }
}

// A new continuation value, and nothing else (RFC 9635, section 5.2).
fn renew(alloc: Global, entering: &Entering, row: &GrantRow) -> Plan
    ensures { Plans entering.now (RenewDoor (opening_of row.now)) result }
{
    let door = entering.supply.value(0);
    Plan {
        reply: Reply::Continuing { door },
        drawn: 1,
        change: TableChange::Renew(Renewal {
            number: row.number,
            retires: false,
            terms: None,
            consent: None,
            door,
            serial: entering.supply.first,
            earliest: entering.supply.moment + WAIT,
            tokens: Seq::new(alloc),
        }),
    }
}

// The identifier that the user lets the client have, where it asked for one.
fn subject_told(row: &GrantRow, decision: &Decision) -> Result<Option<Bytes>, Mem>
    ensures { IfOk result (λ subject. subject ≡ (if row.now.subject then decision.now.subject else None)) }
{
    if row.subject {
        decision.subject.copy()
    } else {
        Ok(None)
    }
}

// What the user granted of the asks of the row.
fn granted_asks(alloc: Global, row: &GrantRow, decision: &Decision) -> Result<Asks, Mem>
    ensures asks { IfOk result (λ asks. asks ≡ asks_decided decision.now.rights (terms_of_row row.now)) }
    ensures few { IfOk result (λ asks. length asks ≤ length row.now.asks) }
{
    let asked = row.asks.asks(alloc)?;
    decided_asks(alloc, &decision.rights, &asked)
}

// The tokens for these asks are issued, and the user's consent is kept.
fn collect_asks(
    alloc: Global,
    entering: &Entering,
    row: &GrantRow,
    decision: &Decision,
    asks: &[Ask],
) -> Result<Plan, Mem>
    requires { length asks.now ≤ 8 }
    ensures { IfOk result (Plans entering.now
        (CollectDecision (opening_of row.now) (terms_of_row row.now) (decision_of_row row.now.number decision.now) asks.now)) }
{
    let consent = KeptRights::keep(alloc, &decision.rights)?;
    let subject = subject_told(row, decision)?;
    grant_on(
        alloc, entering, row, asks, row.single, subject, false, None, consent,
    )
}

// The tokens for what the user granted are issued, if that doesn't pass the limit (RFC 9635, section 5.1).
fn collect_grant(
    alloc: Global,
    entering: &Entering,
    row: &GrantRow,
    decision: &Decision,
) -> Result<Plan, Mem>
    requires { length row.now.asks ≤ 8 }
    ensures { IfOk result (Plans entering.now
        (collect_rows Grant (tables entering.now) entering.now.supply.moment row.now (decision_of_row row.now.number decision.now))) }
{
    let asks = granted_asks(alloc, row, decision)?;
    if entering
        .tokens
        .passes_limit_with(entering.grants, entering.supply.moment, asks.len())
    {
        return Ok(refused(entering, ErrorCode::RequestDenied));
    }
    collect_asks(alloc, entering, row, decision, asks.as_slice())
}

// The decision is collected: a refusal by the user ends the grant.
fn collect(
    alloc: Global,
    entering: &Entering,
    row: &GrantRow,
    decision: &Decision,
) -> Result<Plan, Mem>
    requires { length row.now.asks ≤ 8 }
    ensures { IfOk result (Plans entering.now
        (collect_rows decision.now.verdict (tables entering.now) entering.now.supply.moment row.now (decision_of_row row.now.number decision.now))) }
{
    match decision.verdict {
        Verdict::Grant => collect_grant(alloc, entering, row, decision),
        Verdict::Deny => Ok(refuse_and_end(entering, row, ErrorCode::UserDenied)),
        Verdict::Unknown => Ok(refuse_and_end(entering, row, ErrorCode::UnknownUser)),
    }
}

// A round without a decision goes on; else the decision is collected.
fn collect_or_renew(
    alloc: Global,
    entering: &Entering,
    row: &GrantRow,
    decision: &Option<Decision>,
) -> Result<Plan, Mem>
    requires { length row.now.asks ≤ 8 }
    ensures { IfOk result (Plans entering.now
        (collect_or_renew_rows (tables entering.now) entering.now.supply.moment row.now (option_map (decision_of_row row.now.number) decision.now))) }
{
    match decision {
        Some(decision) => collect(alloc, entering, row, decision),
        None => Ok(renew(alloc, entering, row)),
    }
}

// A reference is given, and it isn't that of the decision.
fn is_wrong(reference: &Option<Bytes>, decision: &Option<Decision>, number: u64) -> bool
    ensures { result ≡ is_wrong_for reference.now (option_map (decision_of_row number) decision.now) }
{
    match (reference, decision) {
        (Some(reference), Some(decision)) => match &decision.reference {
            Some(drawn) => drawn.as_slice() != reference.as_slice(),
            None => true,
        },
        (Some(_), None) => true,
        (None, _) => false,
    }
}

// A wrong reference is counted.
fn count_wrong(entering: &Entering, row: &GrantRow) -> Plan
    ensures { Plans entering.now (WrongReference (opening_of row.now)) result }
{
    Plan {
        reply: Reply::Error {
            code: ErrorCode::InvalidInteraction,
        },
        drawn: 0,
        change: TableChange::Alter {
            number: row.number,
            change: Change::Wrong,
        },
    }
}

// The last wrong reference ends the grant.
fn end_by_wrong(entering: &Entering, row: &GrantRow) -> Plan
    ensures { Plans entering.now (LastWrongReference (opening_of row.now)) result }
{
    Plan {
        reply: Reply::Error {
            code: ErrorCode::TooManyAttempts,
        },
        drawn: 0,
        change: TableChange::End { number: row.number },
    }
}

// A wrong reference is counted; the fifth of a round ends the grant.
fn take_wrong(entering: &Entering, row: &GrantRow, round: &Round) -> Plan
    ensures { Plans entering.now (wrong_rows row.now round.now) result }
{
    if (round.wrongs as usize) < WRONG_LIMIT - 1 {
        count_wrong(entering, row)
    } else {
        end_by_wrong(entering, row)
    }
}

// In a round, after the test of a poll's time.
fn continue_round(
    alloc: Global,
    entering: &Entering,
    row: &GrantRow,
    reference: &Option<Bytes>,
    round: &Round,
) -> Result<Plan, Mem>
    requires { length row.now.asks ≤ 8 }
    ensures { IfOk result (Plans entering.now (continue_round_rows (tables entering.now) entering.now.supply.moment row.now reference.now
        (option_map (decision_of_row row.now.number) round.now.decision) round.now)) }
{
    let decision = &round.decision;
    if decision.is_none() && round.until <= entering.supply.moment {
        return Ok(refuse_and_end(entering, row, ErrorCode::InvalidInteraction));
    }
    if reference.is_none() && round.modes.finish.is_some() {
        return Ok(refused(entering, ErrorCode::InvalidRequest));
    }
    if is_wrong(reference, decision, row.number) {
        return Ok(take_wrong(entering, row, round));
    }
    collect_or_renew(alloc, entering, row, decision)
}

// A pending grant is continued. A poll mustn't come too early.
fn continue_pending(
    alloc: Global,
    entering: &Entering,
    row: &GrantRow,
    reference: &Option<Bytes>,
    round: &Round,
) -> Result<Plan, Mem>
    requires { length row.now.asks ≤ 8 }
    ensures { IfOk result (Plans entering.now (continue_by (Some round.now) (tables entering.now) entering.now.supply.moment row.now reference.now)) }
{
    if reference.is_none() && entering.supply.moment < row.earliest {
        return Ok(refused(entering, ErrorCode::TooFast));
    }
    continue_round(alloc, entering, row, reference, round)
}

// An approved grant is continued. It waits for no reference, so a reference ends it.
fn continue_approved(
    alloc: Global,
    entering: &Entering,
    row: &GrantRow,
    reference: &Option<Bytes>,
) -> Plan
    ensures { Plans entering.now (continue_by None (tables entering.now) entering.now.supply.moment row.now reference.now) result }
{
    if reference.is_some() {
        return refuse_and_end(entering, row, ErrorCode::TooManyAttempts);
    }
    if entering.supply.moment < row.earliest {
        return refused(entering, ErrorCode::TooFast);
    }
    renew(alloc, entering, row)
}

// The grant is continued by what its state is.
fn continue_row(
    alloc: Global,
    entering: &Entering,
    row: &GrantRow,
    reference: &Option<Bytes>,
) -> Result<Plan, Mem>
    requires { length row.now.asks ≤ 8 }
    ensures { IfOk result (Plans entering.now (continue_rows (tables entering.now) entering.now.supply.moment reference.now row.now)) }
{
    match &row.round {
        Some(round) => { continue_pending(alloc, entering, row, reference, round.round()) }
        None => Ok(continue_approved(alloc, entering, row, reference)),
    }
}

/// Answers a continuation.
pub fn continue_grant(
    alloc: Global,
    entering: &Entering,
    key: &Bytes,
    value: &Bytes,
    reference: &Option<Bytes>,
) -> Result<Plan, Mem>
    requires { All (λ (row : GrantRow). HasFewAsked row) (tables entering.now).grants }
    ensures { IfOk result (Plans entering.now
        (with_row (continue_rows (tables entering.now) entering.now.supply.moment reference.now) key.now (row_by_door value.now (tables entering.now).grants))) }
{
    match entering.grants.by_door(value.as_slice()) {
        Some(row) => {
            if row.key.as_slice() == key.as_slice() {
                continue_row(alloc, entering, row, reference)
            } else {
                Ok(refused(entering, ErrorCode::InvalidClient))
            }
        }
        None => Ok(refused(entering, ErrorCode::InvalidContinuation)),
    }
}
