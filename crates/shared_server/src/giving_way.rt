//! Giving way: who comes while others are at it lets them go on for a while before it draws a ticket.
ghost use Rattle.std.specs.Prelude.{◌≡◌};

use crate::rule::Top;
use crate::words::{SERVING, TICKET};
use histories::machine::Core;
use std::sync::Wait;
use std::thread::Parker;
use std::time::Duration;

/// How long a worker naps, in microseconds, one nap after another: together some six thousandths of a second.
const NAPS: [u64; 6] = [100, 200, 400, 800, 1600, 3200];

/// Returns when at most one ticket is out, or after the naps. So where many workers make one call after another, two are at it at a time: while one is in its
/// turn, the other makes its next call and then looks for its turn, and the rest sleeps. Each worker draws its ticket in the end.
pub(crate) fn give_way<C: Core, R: Wait>(rt: &R, top: &Top<C>)
    requires table { top.now.table_id.words ≡ 528 }
{
    for nap in &NAPS {
        let out = top.peek(TICKET).wrapping_sub(top.peek(SERVING));
        if out <= 1 {
            return;
        }
        Parker::new().park_timeout(rt, Duration::from_micros(*nap));
    }
}
