//! The modification of a grant (RFC 9635, section 5.3).
ghost use Rattle.std.specs.Prelude.{◌≤◌, length, map, IfOk};
ghost use Rattle.gnap_model.specs.Actions.Action.{ModifyAtOnce, ModifyAsking};
ghost use Rattle.gnap_model.specs.Judging.{settle as settle_for};
ghost use Rattle.gnap_model.specs.Judging.Settled.{AtOnce as SettledAtOnce, ByAsking as SettledByAsking};
ghost use Rattle.gnap_model.specs.declared.calls.Call.TheVariants.{Modify};
ghost use Rattle.gnap_tables.specs.RowSearches.{opening_of, token_of};
ghost use Rattle.gnap_tables.specs.ActionsByRows.{modify_rows, rows_of_grant, row_action};
ghost use Rattle.table_core.specs.Entries.{tables};
ghost use Rattle.table_core.specs.Plans.{Plans};

use crate::asking::ask;
use crate::entering::{Entering, Plan, TableChange};
use crate::issuing::grant_on;
use crate::refusing::refused;
use crate::stored::requested_terms;
use bytes_and_lists::bytes::Bytes;
use bytes_and_lists::memory::{Duplicate, Mem};
use gnap_model::objects::{ErrorCode, GrantRequest, Modes, Setup};
use gnap_tables::rows::GrantRow;
use grant_rules::limits::WAIT;
use grant_rules::settling::{Course, settle};
use std::alloc::Global;

// The tokens of the new terms are issued at once in place of those before.
fn grant_anew(
    alloc: Global,
    entering: &Entering,
    row: &GrantRow,
    request: &GrantRequest,
) -> Result<Plan, Mem>
    requires { length request.now.asks ≤ 8 }
    ensures { IfOk result (Plans entering.now
        (ModifyAtOnce (opening_of row.now) row.now.consent (map token_of (rows_of_grant row.now.number (tables entering.now).tokens)) request.now)) }
{
    let _rows = entering.tokens.len();
    let consent = row.consent.copy()?;
    let terms = requested_terms(alloc, row.number, request)?;
    grant_on(
        alloc,
        entering,
        row,
        request.asks.as_slice(),
        request.single,
        None,
        true,
        Some(terms),
        consent,
    )
}

// The tokens are issued at once, if that doesn't pass the limit.
fn modify_at_once(
    alloc: Global,
    entering: &Entering,
    row: &GrantRow,
    request: &GrantRequest,
) -> Result<Plan, Mem>
    requires { length request.now.asks ≤ 8 }
    ensures { IfOk result (Plans entering.now (modify_rows SettledAtOnce (tables entering.now) entering.now.supply.moment row.now request.now)) }
{
    let now = entering.supply.moment;
    let count = request.asks.len();
    if entering
        .tokens
        .others_pass_limit_with(entering.grants, row.number, now, count)
    {
        return Ok(refused(entering, ErrorCode::RequestDenied));
    }
    grant_anew(alloc, entering, row, request)
}

// The user is asked about the new terms; the tokens of those before are retired.
fn modify_asking(
    alloc: Global,
    entering: &Entering,
    row: &GrantRow,
    request: &GrantRequest,
    modes: &Modes,
) -> Result<Plan, Mem>
    ensures { IfOk result (Plans entering.now
        (ModifyAsking (opening_of row.now) (map token_of (rows_of_grant row.now.number (tables entering.now).tokens)) request.now modes.now)) }
{
    let _rows = entering.tokens.len();
    let terms = requested_terms(alloc, row.number, request)?;
    let door = entering.supply.value(0);
    let asking = ask(alloc, entering, row.number, row.end, modes, door, None)?;
    Ok(Plan {
        reply: asking.reply,
        drawn: asking.drawn,
        change: TableChange::Pend {
            terms,
            round: asking.round,
            door,
            serial: entering.supply.first,
            earliest: entering.supply.moment + WAIT,
        },
    })
}

// The user is asked, if the client can start an interaction.
fn modify_by_asking(
    alloc: Global,
    entering: &Entering,
    row: &GrantRow,
    request: &GrantRequest,
) -> Result<Plan, Mem>
    ensures { IfOk result (Plans entering.now (modify_rows SettledByAsking (tables entering.now) entering.now.supply.moment row.now request.now)) }
{
    match &request.modes {
        Some(modes) => modify_asking(alloc, entering, row, request, modes),
        None => Ok(refused(entering, ErrorCode::RequestDenied)),
    }
}

// The request is settled, with the consent of the grant.
fn modify_row(
    alloc: Global,
    setup: &Setup,
    entering: &Entering,
    row: &GrantRow,
    request: &GrantRequest,
) -> Result<Plan, Mem>
    requires { length request.now.asks ≤ 8 }
    ensures { IfOk result (Plans entering.now
        (modify_rows (settle_for setup.now row.now.key row.now.consent request.now) (tables entering.now) entering.now.supply.moment row.now request.now)) }
{
    let consent = row.consent.rights(alloc)?;
    match settle(alloc, setup, row.key.as_slice(), &consent, request)? {
        Course::AtOnce => modify_at_once(alloc, entering, row, request),
        Course::ByAsking => modify_by_asking(alloc, entering, row, request),
        Course::Never => Ok(refused(entering, ErrorCode::RequestDenied)),
    }
}

/// Answers a modification.
pub fn modify(
    alloc: Global,
    setup: &Setup,
    entering: &Entering,
    key: &Bytes,
    value: &Bytes,
    request: &GrantRequest,
) -> Result<Plan, Mem>
    requires { length request.now.asks ≤ 8 }
    ensures { IfOk result (Plans entering.now
        (row_action setup.now entering.now.next (tables entering.now) entering.now.supply.moment (Modify key.now value.now request.now))) }
{
    match entering.grants.by_door(value.as_slice()) {
        Some(row) => {
            if row.key.as_slice() == key.as_slice() {
                modify_row(alloc, setup, entering, row, request)
            } else {
                Ok(refused(entering, ErrorCode::InvalidClient))
            }
        }
        None => Ok(refused(entering, ErrorCode::InvalidContinuation)),
    }
}
