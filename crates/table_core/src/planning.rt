//! What the calls come to that draw values or are about an interaction.
ghost use Rattle.std.specs.Prelude.{◌<◌, IfOk};
ghost use Rattle.std.specs.List.{All};
ghost use Rattle.gnap_model.specs.Legal.{HasFewAsks};
ghost use Rattle.gnap_tables.specs.declared.rows.GrantRow.{GrantRow};
ghost use Rattle.gnap_tables.specs.ActionsByRows.{row_action};
ghost use Rattle.table_core.specs.CallEffects.{HasFewAsked};
ghost use Rattle.table_core.specs.Entries.{tables};
ghost use Rattle.table_core.specs.Planned.{IsPlanned};
ghost use Rattle.table_core.specs.Plans.{Plans};

use crate::beginning::begin;
use crate::consent_front::{find_code, look};
use crate::continuing::continue_grant;
use crate::deciding::decide;
use crate::entering::{Entering, Plan};
use crate::modifying::modify;
use bytes_and_lists::memory::Mem;
use gnap_model::calls::Call;
use gnap_model::objects::Setup;
use std::alloc::Global;

/// What a call comes to. It takes memory, and changes nothing.
pub fn plan_call(
    alloc: Global,
    setup: &Setup,
    entering: &Entering,
    call: &Call,
) -> Result<Plan, Mem>
    requires planned { IsPlanned call.now }
    requires few { HasFewAsks call.now }
    requires numbers { All (λ (row : GrantRow). row.number < entering.now.next) (tables entering.now).grants }
    requires asks { All (λ (row : GrantRow). HasFewAsked row) (tables entering.now).grants }
    ensures { IfOk result (Plans entering.now (row_action setup.now entering.now.next (tables entering.now) entering.now.supply.moment call.now)) }
{
    match call {
        Call::Begin {
            key,
            request,
            not_after,
        } => begin(alloc, setup, entering, key, request.get(), *not_after),
        Call::Continue {
            key,
            value,
            reference,
        } => continue_grant(alloc, entering, key, value, reference),
        Call::Modify {
            key,
            value,
            request,
        } => modify(alloc, setup, entering, key, value, request.get()),
        Call::Look { front: _, handle } => look(alloc, entering, handle),
        Call::FindCode { front: _, code } => Ok(find_code(entering, code)),
        Call::Decide { front: _, request } => decide(alloc, entering, request.get()),
        _ => unreachable!(),
    }
}
