//! What a decision leaves of the asks of a grant (RFC 9635, section 5.1).
ghost use Rattle.std.specs.Prelude.{◌≡◌, ◌≤◌, length, IfOk};
ghost use Rattle.std.specs.List.{filter_map};
ghost use Rattle.gnap_model.specs.Continue.{decided_part as part_decided, decided_ask as ask_decided};

use access_rights::covers;
use bytes_and_lists::memory::{Duplicate, Mem};
use bytes_and_lists::seq::Seq;
use gnap_model::objects::{Ask, Asks};
use gnap_model::rights::Rights;
use std::alloc::Global;

/// The asked rights that the decision's rights cover, one by one.
fn decided_part(alloc: Global, decided: &Rights, asked: &Rights) -> Result<Rights, Mem>
    ensures { IfOk result (λ part. part ≡ part_decided decided.now asked.now) }
{
    let mut part = Seq::new(alloc);
    for right in asked.as_slice() {
        let mut one = Seq::new(alloc);
        one.push(right.copy()?)?;
        if covers(decided, &one) {
            part.append(one)?;
        }
    }
    Ok(part)
}

/// The ask with those of its rights that the decision's rights cover; no ask where there are none.
fn decided_ask(alloc: Global, decided: &Rights, ask: &Ask) -> Result<Option<Ask>, Mem>
    ensures { IfOk result (λ part. part ≡ ask_decided decided.now ask.now) }
{
    let rights = decided_part(alloc, decided, &ask.rights)?;
    if rights.as_slice().is_empty() {
        return Ok(None);
    }
    Ok(Some(Ask {
        label: ask.label.copy()?,
        rights,
        bearer: ask.bearer,
    }))
}

/// The asks with those of their rights that the decision's rights cover, in order.
pub fn decided_asks(alloc: Global, decided: &Rights, asks: &Asks) -> Result<Asks, Mem>
    ensures asks { IfOk result (λ left. left ≡ filter_map (ask_decided decided.now) asks.now) }
    ensures few { IfOk result (λ left. length left ≤ length asks.now) }
{
    let mut left = Seq::new(alloc);
    for ask in asks.as_slice() {
        if let Some(part) = decided_ask(alloc, decided, ask)? {
            left.push(part)?;
        }
    }
    Ok(left)
}
