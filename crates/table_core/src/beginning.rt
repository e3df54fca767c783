//! The answer to a grant request (RFC 9635, section 2).
ghost use Rattle.std.specs.Prelude.{◌≡◌, ◌≤◌, ◌<◌, length, IfOk};
ghost use Rattle.std.specs.List.{All};
ghost use Rattle.gnap_model.specs.Actions.{terms_for};
ghost use Rattle.gnap_model.specs.Actions.Action.{OpenAtOnce, OpenAsking};
ghost use Rattle.gnap_model.specs.Judging.Settled.{AtOnce as SettledAtOnce, ByAsking as SettledByAsking};
ghost use Rattle.gnap_model.specs.declared.calls.Call.TheVariants.{Begin};
ghost use Rattle.gnap_tables.specs.declared.rows.GrantRow.{GrantRow};
ghost use Rattle.gnap_tables.specs.Tables.{new_grant, with_terms, with_door};
ghost use Rattle.gnap_tables.specs.ActionsByRows.{begin_rows, row_action};
ghost use Rattle.grant_states.specs.Grants.{in_round};
ghost use Rattle.table_core.specs.Entries.{tables};
ghost use Rattle.table_core.specs.Plans.{Plans};

use crate::asking::ask;
use crate::entering::{Entering, Plan, TableChange};
use crate::issuing::grant;
use crate::kept_terms::KeptTerms;
use crate::refusing::refused;
use crate::stored::requested_terms;
use bytes_and_lists::bytes::Bytes;
use bytes_and_lists::memory::Mem;
use bytes_and_lists::seq::Seq;
use gnap_model::notes::OpeningNote;
use gnap_model::objects::{ErrorCode, GrantRequest, Modes, Setup};
use gnap_tables::rows::{GrantRow, KeptRound};
use grant_rules::limits::{LIVE_LIMIT, WAIT};
use grant_rules::opening::{instance_of, is_past, opening};
use grant_rules::settling::{Course, settle};
use kept_rights::KeptRights;
use std::alloc::Global;

// The row of a grant that was just opened, with its terms and its continuation value.
fn opened_row(
    alloc: Global,
    opening: OpeningNote,
    terms: KeptTerms,
    door: [u8; 32],
    earliest: u64,
) -> GrantRow
    ensures { result ≡ with_door door earliest (with_terms terms (new_grant opening)) }
{
    GrantRow {
        number: opening.grant,
        key: opening.key,
        by_object: opening.by_object,
        user: opening.user,
        asks: terms.asks,
        single: terms.single,
        subject: terms.subject,
        end: opening.end,
        consent: KeptRights::new(alloc),
        approved: true,
        round: None,
        door,
        earliest,
    }
}

// The row of a grant that the request just opened.
fn requested_row(
    alloc: Global,
    opening: OpeningNote,
    request: &GrantRequest,
    door: [u8; 32],
    earliest: u64,
) -> Result<Box<GrantRow>, Mem>
    ensures { IfOk result (λ row. row.value ≡ with_door door earliest (with_terms (terms_for opening request.now) (new_grant opening))) }
{
    let terms = requested_terms(alloc, opening.grant, request)?;
    let row = opened_row(alloc, opening, terms, door, earliest);
    Ok(Box::new(alloc, row)?)
}

// The row is pending in a round that has just begun.
fn pend(row: &mut GrantRow, round: KeptRound)
    ensures { row.new ≡ in_round round row.old }
{
    row.approved = false;
    row.round = Some(round);
}

// A new grant, whose tokens are issued at once (RFC 9635, section 3.2).
fn open_at_once(
    alloc: Global,
    entering: &Entering,
    opening: OpeningNote,
    request: &GrantRequest,
) -> Result<Plan, Mem>
    requires few { length request.now.asks ≤ 8 }
    requires next { opening.grant ≡ entering.now.next }
    requires numbers { All (λ (row : GrantRow). row.number < entering.now.next) (tables entering.now).grants }
    ensures { IfOk result (Plans entering.now (OpenAtOnce opening request.now)) }
{
    let count = request.asks.len();
    let instance = instance_of(&opening)?;
    let door = entering.supply.value(2 * count);
    let row = requested_row(alloc, opening, request, door, entering.supply.moment + WAIT)?;
    let granting = grant(
        alloc,
        entering,
        row.as_ref(),
        request.asks.as_slice(),
        request.single,
        None,
        instance,
    )?;
    Ok(Plan {
        reply: granting.reply,
        drawn: 2 * count as u64 + 1,
        change: TableChange::Open {
            row,
            serial: entering.supply.first + 2 * count as u64,
            tokens: granting.tokens,
        },
    })
}

// The tokens are issued at once, if that doesn't pass the limit.
fn begin_at_once(
    alloc: Global,
    entering: &Entering,
    opening: OpeningNote,
    request: &GrantRequest,
) -> Result<Plan, Mem>
    requires few { length request.now.asks ≤ 8 }
    requires next { opening.grant ≡ entering.now.next }
    requires numbers { All (λ (row : GrantRow). row.number < entering.now.next) (tables entering.now).grants }
    ensures { IfOk result (Plans entering.now (begin_rows SettledAtOnce (tables entering.now) entering.now.supply.moment opening request.now)) }
{
    let count = request.asks.len();
    if entering
        .tokens
        .passes_limit_with(entering.grants, entering.supply.moment, count)
    {
        return Ok(refused(entering, ErrorCode::RequestDenied));
    }
    open_at_once(alloc, entering, opening, request)
}

// A new grant, and the user is asked (RFC 9635, section 3.3).
fn open_asking(
    alloc: Global,
    entering: &Entering,
    opening: OpeningNote,
    request: &GrantRequest,
    modes: &Modes,
) -> Result<Plan, Mem>
    requires next { opening.grant ≡ entering.now.next }
    requires numbers { All (λ (row : GrantRow). row.number < entering.now.next) (tables entering.now).grants }
    ensures { IfOk result (Plans entering.now (OpenAsking opening request.now modes.now)) }
{
    let number = opening.grant;
    let end = opening.end;
    let instance = instance_of(&opening)?;
    let door = entering.supply.value(0);
    let mut row = requested_row(alloc, opening, request, door, entering.supply.moment + WAIT)?;
    let asking = ask(alloc, entering, number, end, modes, door, instance)?;
    pend(row.as_mut(), asking.round);
    Ok(Plan {
        reply: asking.reply,
        drawn: asking.drawn,
        change: TableChange::Open {
            row,
            serial: entering.supply.first,
            tokens: Seq::new(alloc),
        },
    })
}

// The user is asked, if the client can start an interaction.
fn begin_by_asking(
    alloc: Global,
    entering: &Entering,
    opening: OpeningNote,
    request: &GrantRequest,
) -> Result<Plan, Mem>
    requires next { opening.grant ≡ entering.now.next }
    requires numbers { All (λ (row : GrantRow). row.number < entering.now.next) (tables entering.now).grants }
    ensures { IfOk result (Plans entering.now (begin_rows SettledByAsking (tables entering.now) entering.now.supply.moment opening request.now)) }
{
    match &request.modes {
        Some(modes) => open_asking(alloc, entering, opening, request, modes),
        None => Ok(refused(entering, ErrorCode::RequestDenied)),
    }
}

/// Answers a grant request.
pub fn begin(
    alloc: Global,
    setup: &Setup,
    entering: &Entering,
    key: &Bytes,
    request: &GrantRequest,
    not_after: Option<u64>,
) -> Result<Plan, Mem>
    requires few { length request.now.asks ≤ 8 }
    requires numbers { All (λ (row : GrantRow). row.number < entering.now.next) (tables entering.now).grants }
    ensures { IfOk result (Plans entering.now
        (row_action setup.now entering.now.next (tables entering.now) entering.now.supply.moment (Begin key.now request.now not_after))) }
{
    let now = entering.supply.moment;
    if is_past(now, not_after) || LIVE_LIMIT <= entering.grants.len() {
        return Ok(refused(entering, ErrorCode::RequestDenied));
    }
    match settle(alloc, setup, key.as_slice(), &Seq::new(alloc), request)? {
        Course::Never => Ok(refused(entering, ErrorCode::RequestDenied)),
        Course::AtOnce => {
            let opening = opening(entering.next, now, key, request, not_after)?;
            begin_at_once(alloc, entering, opening, request)
        }
        Course::ByAsking => {
            let opening = opening(entering.next, now, key, request, not_after)?;
            begin_by_asking(alloc, entering, opening, request)
        }
    }
}
