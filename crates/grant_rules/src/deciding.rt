//! The user's decision on what was asked (RFC 9635, section 4).
ghost use Rattle.std.specs.Prelude.{◌≡◌, IfOk};
ghost use Rattle.gnap_model.specs.Asked.{asked_rights as all_asked_rights};
ghost use Rattle.gnap_model.specs.Front.{rights_or, may_decide as may_be_decided};

use access_rights::covers;
use bytes_and_lists::memory::{Duplicate, Mem};
use bytes_and_lists::seq::Seq;
use gnap_model::objects::{Ask, DecideRequest, Verdict};
use gnap_model::rights::Rights;
use std::alloc::Global;

// All rights of the asks.
fn asked_rights(alloc: Global, asks: &[Ask]) -> Result<Rights, Mem>
    ensures { IfOk result (λ rights. rights ≡ all_asked_rights asks.now) }
{
    let mut rights = Seq::new(alloc);
    for ask in asks {
        rights.append(ask.rights.copy()?)?;
    }
    Ok(rights)
}

/// The user grants no more than was asked for.
pub fn may_decide(alloc: Global, request: &DecideRequest, asks: &[Ask]) -> Result<bool, Mem>
    ensures { IfOk result (λ b. b ≡ may_be_decided request.now.verdict (all_asked_rights asks.now) (rights_or (all_asked_rights asks.now) request.now.rights)) }
{
    match (request.verdict, &request.rights) {
        (Verdict::Grant, Some(rights)) => Ok(covers(&asked_rights(alloc, asks)?, rights)),
        (Verdict::Grant, None) => Ok(true),
        (Verdict::Deny, _) => Ok(true),
        (Verdict::Unknown, _) => Ok(true),
    }
}

/// The rights of the decision; without them it has all that were asked for.
pub fn rights_of_decision(
    alloc: Global,
    request: &DecideRequest,
    asks: &[Ask],
) -> Result<Rights, Mem>
    ensures { IfOk result (λ rights. rights ≡ rights_or (all_asked_rights asks.now) request.now.rights) }
{
    match &request.rights {
        Some(rights) => rights.copy(),
        None => asked_rights(alloc, asks),
    }
}
