//! The consent front looks at an interaction, and finds it by its code (RFC 9635, section 4).
ghost use Rattle.std.specs.Prelude.{IfOk};
ghost use Rattle.gnap_model.specs.Actions.Action.{ShowRound, ShowHandle};
ghost use Rattle.gnap_tables.specs.RowSearches.{interaction_by_handle, interaction_by_code, opening_of, terms_of_row, round_of};
ghost use Rattle.table_core.specs.Entries.{tables};
ghost use Rattle.table_core.specs.Plans.{Plans};
ghost use Rattle.table_core.specs.Fronts.{interaction_of, show_round, show_handle};

use crate::entering::{Entering, Plan};
use crate::refusing::{refused, told};
use bytes_and_lists::bytes::Bytes;
use bytes_and_lists::memory::{Duplicate, Mem};
use gnap_model::calls::Reply;
use gnap_model::objects::ErrorCode;
use gnap_tables::rows::{GrantRow, Round};
use grant_states::InteractionName;
use std::alloc::Global;

/// What the user is asked in the round of a row, and how long the answer is waited for.
fn show(alloc: Global, entering: &Entering, row: &GrantRow, round: &Round) -> Result<Plan, Mem>
    ensures { IfOk result (Plans entering.now (ShowRound (round_of row.now.number round.now) (terms_of_row row.now) (opening_of row.now))) }
{
    Ok(told(Reply::Shown {
        asks: row.asks.asks(alloc)?,
        client: row.key.copy()?,
        expires_in: round.until.saturating_sub(entering.supply.moment),
        subject: row.subject,
        user: row.user.copy()?,
    }))
}

/// The round of the row is shown.
fn show_row(alloc: Global, entering: &Entering, row: &GrantRow) -> Result<Plan, Mem>
    ensures { IfOk result (Plans entering.now (show_round (interaction_of row.now))) }
{
    match &row.round {
        Some(round) => show(alloc, entering, row, round.round()),
        None => Ok(refused(entering, ErrorCode::UnknownInteraction)),
    }
}

/// Answers a look at the interaction with this handle.
pub fn look(alloc: Global, entering: &Entering, handle: &Bytes) -> Result<Plan, Mem>
    ensures { IfOk result (Plans entering.now (show_round (interaction_by_handle entering.now.supply.moment handle.now (tables entering.now).grants))) }
{
    let name = InteractionName::Handle(handle.as_slice());
    match entering.grants.by_interaction(entering.supply.moment, name) {
        Some(row) => show_row(alloc, entering, row),
        None => Ok(refused(entering, ErrorCode::UnknownInteraction)),
    }
}

/// The handle of a round.
fn hand(entering: &Entering, row: &GrantRow, round: &Round) -> Plan
    ensures { Plans entering.now (ShowHandle (round_of row.now.number round.now)) result }
{
    let handle = round.handle;
    told(Reply::Handle { handle })
}

/// The handle of the row's round.
fn hand_row(entering: &Entering, row: &GrantRow) -> Plan
    ensures { Plans entering.now (show_handle (interaction_of row.now)) result }
{
    match &row.round {
        Some(round) => hand(entering, row, round.round()),
        None => refused(entering, ErrorCode::UnknownInteraction),
    }
}

/// Answers with the handle of the interaction with this user code (RFC 9635, section 3.3.3).
pub fn find_code(entering: &Entering, code: &[u8; 8]) -> Plan
    ensures { Plans entering.now (show_handle (interaction_by_code entering.now.supply.moment code.now (tables entering.now).grants)) result }
{
    match entering
        .grants
        .by_interaction(entering.supply.moment, InteractionName::Code(code))
    {
        Some(row) => hand_row(entering, row),
        None => refused(entering, ErrorCode::UnknownInteraction),
    }
}
