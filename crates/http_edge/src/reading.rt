//! The next message of a source.
ghost use Rattle.std.specs.Prelude.{◌≡◌, ◌+◌, ◌<◌, ◌≤◌, ◌⊎◌, length, IfOk, IfSome};
ghost use Rattle.http_edge.specs.Limits.{head_limit, message_limit};
ghost use Rattle.http_edge.specs.Streams.{IsOpen};
ghost use Rattle.http_edge.specs.Lines.{HasOneLineParts};
ghost use Rattle.http_edge.specs.Reads.{IsNextMessage, CountsReadFault};
ghost use Rattle.http_edge.specs.Steps.{IsWaiting, HasArrived};

use crate::fault::EdgeFault;
use crate::held::{Arrival, Held};
use crate::messages::{Beginning, Want, take_message};
use crate::places::{LinePlace, is_behind_head, line_place};
use crate::request_heads::HEAD_LIMIT;
use bytes_and_lists::memory::Mem;
use bytes_and_lists::message::Message;
use outside::device::Source;
use std::alloc::Global;

// So many bytes of a head are asked of the source at once.
const PIECE: usize = 4_096;

// Reads until an empty line came that may end the head, or until twice as many bytes are held. So all looks at a head together go through no more
// than three times as many bytes as it has.
fn read_head<S: Source>(source: &mut S, held: &mut Held) -> Arrival
    requires waiting { IsOpen held.old }
    requires short { length held.old < head_limit }
    ensures arrived { HasArrived result held.old held.new (S.told source.old) (S.told source.new) (S.faults source.old) (S.faults source.new) }
    ensures bound { length held.new ≤ message_limit }
{
    let enough = (held.len() * 2).clamp(1, HEAD_LIMIT);
    let mut place = line_place(LinePlace::BlankLines, held.as_slice());
    loop {
        let seen = held.len();
        match held.fill(source, PIECE) {
            Arrival::More => {}
            Arrival::End => return Arrival::End,
            Arrival::Failed => return Arrival::Failed,
            Arrival::Memory => return Arrival::Memory,
        }
        if held.len() >= enough {
            return Arrival::More;
        }
        place = line_place(place, &held.as_slice()[seen..]);
        if is_behind_head(place) {
            return Arrival::More;
        }
    }
}

// Reads until so many bytes are held.
fn read_body<S: Source>(source: &mut S, held: &mut Held, end: usize) -> Arrival
    requires { IsWaiting held.old (Want.UpTo end) }
    ensures arrived { HasArrived result held.old held.new (S.told source.old) (S.told source.new) (S.faults source.old) (S.faults source.new) }
    ensures bound { length held.new ≤ message_limit }
{
    while held.len() < end {
        match held.fill(source, end - held.len()) {
            Arrival::More => {}
            Arrival::End => return Arrival::End,
            Arrival::Failed => return Arrival::Failed,
            Arrival::Memory => return Arrival::Memory,
        }
    }
    Arrival::More
}

fn read_on<S: Source>(source: &mut S, held: &mut Held, want: Want) -> Arrival
    requires { IsWaiting held.old want }
    ensures open { IsOpen held.old }
    ensures arrived { HasArrived result held.old held.new (S.told source.old) (S.told source.new) (S.faults source.old) (S.faults source.new) }
    ensures bound { length held.new ≤ message_limit }
{
    match want {
        Want::MoreOfHead => read_head(source, held),
        Want::UpTo(end) => read_body(source, held, end),
    }
}

/// The next message of a connection: of the bytes that are held, and then of those that the source gives, however these come in pieces. Afterwards exactly
/// the bytes behind the message are held. `None` is the end of the input, with nothing held.
///
/// No more is read than one message may have: what is held and what comes in the call are at most 81,920 bytes together.
/// An `Err` drops no byte. After `OutOfMemory` the call can be made again; after the others the connection is over.
pub fn next_message<S: Source>(
    alloc: Global,
    source: &mut S,
    held: &mut Held,
) -> Result<Option<Message>, EdgeFault>
    ensures next { IsNextMessage held.old held.new (S.told source.old) (S.told source.new) result }

    // It reads only where what is held is neither a whole message nor refused.
    ensures needed { (S.told source.new ≡ S.told source.old) ⊎ IsOpen held.old }
    ensures lines { IfOk result (λ found. IfSome found HasOneLineParts) }
    ensures counts { CountsReadFault result (S.faults source.old) (S.faults source.new) }
    ensures bound { length held.new ≤ message_limit }
{
    let mut ended = false;
    loop {
        let want = if held.is_empty() {
            Want::MoreOfHead
        } else {
            match take_message(alloc, held.as_slice()) {
                Ok(Beginning::Whole(message, used)) => {
                    held.skip(used);
                    return Ok(Some(message));
                }
                Ok(Beginning::Refused(fault)) => return Err(fault),
                Ok(Beginning::Unfinished(want)) => want,
                Err(Mem) => return Err(EdgeFault::OutOfMemory),
            }
        };
        if ended {
            return if held.is_empty() {
                Ok(None)
            } else {
                Err(EdgeFault::Truncated)
            };
        }
        match read_on(source, held, want) {
            Arrival::More => {}
            Arrival::End => ended = true,
            Arrival::Failed => return Err(EdgeFault::ReadFault),
            Arrival::Memory => return Err(EdgeFault::OutOfMemory),
        }
    }
}
