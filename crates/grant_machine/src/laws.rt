//! What is known of each legal history of the grant machine, and so of all that a desk has seen. The contracts are the laws; the bodies do nothing.
ghost use Rattle.std.specs.Prelude.{◌≤◌, ◌^◌, length};
ghost use Rattle.histories.specs.History.{Legal};
ghost use Rattle.grant_machine.specs.Gnap.{gnap};
ghost use Rattle.grant_machine.specs.Laws.{WhatHolds};

use crate::machine::Gnap;
use histories::machine::Desk;
use signed_calls::laws::signed_histories_hold;

/// What holds of each legal history.
pub fn what_holds()
    ensures { (rules : _) (h : _) → Legal gnap rules h → length h ≤ 2 ^ 58 → WhatHolds rules h }
{
    signed_histories_hold();
}

/// What holds of each history that a desk has seen.
pub fn what_was_seen<D: Desk<M = Gnap>>(desk: &D)
    ensures { (h : _) → D.seen desk.now h → length h ≤ 2 ^ 58 → WhatHolds (D.rules desk.now) h }
{
    let _desk = desk;
    what_holds();
}
