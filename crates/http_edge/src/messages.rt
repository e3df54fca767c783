//! The message at the front of bytes.
ghost use Rattle.std.specs.Prelude.{◌≡◌, ◌≤◌, length, IfOk};
ghost use Rattle.http_edge.specs.Limits.{head_limit, field_limit};
ghost use Rattle.http_edge.specs.Streams.{window, IsUndecided};
ghost use Rattle.http_edge.specs.Steps.{IsLeadingHead, IsBeginningOf};

use crate::fault::EdgeFault;
use crate::framing::{Framing, asks_to_close, fields_of, request_framing};
use crate::request_heads::{
    FEW_FIELDS, FIELD_LIMIT, HEAD_LIMIT, LeadingHead, leading_head, leading_head_in, room_for,
};
use bytes_and_lists::bytes::Bytes;
use bytes_and_lists::memory::Mem;
use bytes_and_lists::message::Message;
use httparse::spans::{EMPTY_HEADER_SPAN, HeaderSpan, RequestSpans};
use std::alloc::Global;

/// What is wanted where the bytes aren't a whole message.
#[derive(Clone, Copy)]
pub enum Want {
    MoreOfHead,
    /// So many bytes in all, the head and the body.
    UpTo(usize),
}

/// What stands at the front of bytes.
#[derive(Drop)]
pub enum Beginning {
    /// A message of so many bytes.
    Whole(Message, usize),
    Refused(EdgeFault),
    Unfinished(Want),
}

// The bytes in which a head has to end.
fn window(b: &[u8]) -> &[u8]
    ensures window { result.now ≡ window b.now }
    ensures short { length result.now ≤ head_limit }
{
    if b.len() > HEAD_LIMIT {
        &b[..HEAD_LIMIT]
    } else {
        b
    }
}

// What stands at the front where it isn't decided whether a head does.
fn undecided(b: &[u8], w: &[u8]) -> Beginning
    requires window { w.now ≡ window b.now }
    requires head { IsUndecided w.now }
    ensures { IsBeginningOf b.now result }
{
    if b.len() < HEAD_LIMIT {
        Beginning::Unfinished(Want::MoreOfHead)
    } else {
        Beginning::Refused(EdgeFault::TooLarge)
    }
}

// What stands at the front of the bytes, by what stands at the front of their window: of a head its message, as far as it has come.
fn message_by_head(
    alloc: Global,
    b: &[u8],
    w: &[u8],
    room: &[HeaderSpan],
    head: &LeadingHead,
) -> Result<Beginning, Mem>
    requires window { w.now ≡ window b.now }
    requires short { length w.now ≤ head_limit }
    requires room { length room.now ≤ field_limit }
    requires head { IsLeadingHead w.now room.now head.now }
    ensures { IfOk result (IsBeginningOf b.now) }
{
    let spans = match head {
        LeadingHead::Head(spans) => spans,
        LeadingHead::ManyFields => return Ok(Beginning::Refused(EdgeFault::TooLarge)),
        LeadingHead::Never => return Ok(Beginning::Refused(EdgeFault::BadHead)),
        LeadingHead::Undecided => return Ok(undecided(b, w)),
    };
    let found = &room[..spans.headers];
    let (framing, connection) = request_framing(w, found);
    let end = match framing {
        Framing::Refused(fault) => return Ok(Beginning::Refused(fault)),
        Framing::Body(length) => spans.len + length,
    };
    if b.len() < end {
        return Ok(Beginning::Unfinished(Want::UpTo(end)));
    }
    // The fields first: what is copied behind them counts as seldom, so the copying stands there as calls and is written out less often.
    let fields = fields_of(alloc, w, found)?;
    let method = Bytes::from_slice(alloc, spans.method.of(w))?;
    let target = Bytes::from_slice(alloc, spans.path.of(w))?;
    let body = Bytes::from_slice(alloc, &b[spans.len..end])?;
    let last = spans.version == 0 || (connection && asks_to_close(w, found));
    let message = Message {
        method,
        target,
        fields,
        body,
        last,
    };
    Ok(Beginning::Whole(message, end))
}

/// What stands at the front of the bytes. Of a message that isn't whole nothing is copied. Room for more than 16 fields takes memory.
pub(crate) fn take_message(alloc: Global, b: &[u8]) -> Result<Beginning, Mem>
    ensures { IfOk result (IsBeginningOf b.now) }
{
    let w = window(b);
    let mut few = [EMPTY_HEADER_SPAN; FEW_FIELDS];
    let mut many = Vec::new(alloc);
    let (head, room) = match leading_head_in(w, &mut few) {
        Some(head) => (head, &few[..]),
        None => {
            many = room_for(alloc, FIELD_LIMIT)?;
            let head = leading_head(alloc, w, many.as_mut_slice())?;
            (head, many.as_slice())
        }
    };
    message_by_head(alloc, b, w, room, &head)
}
