//! The head of a request at the front of bytes.
ghost use Rattle.std.specs.Prelude.{◌≡◌, ◌≤◌, [], length, vec_len, IfOk, IfSome, IfNone};
ghost use Rattle.httparse.specs.Spans.{RequestOverflows, RequestExceeds};
ghost use Rattle.http_edge.specs.Limits.{head_limit, field_limit};
ghost use Rattle.http_edge.specs.Steps.{IsLeadingHead, IsNoShortHead};

use crate::places::ends_in_target;
use bytes_and_lists::memory::Mem;
use httparse::spans::{EMPTY_HEADER_SPAN, HeaderSpan, RequestSpans, parse_request};
use httparse::{Error, Status};
use std::alloc::Global;

/// The most bytes of a head.
pub(crate) const HEAD_LIMIT: usize = 16_384;

/// The most fields of a head.
pub(crate) const FIELD_LIMIT: usize = 64;

/// Most heads have no more fields than this. Room for more is made only where a head has more.
pub(crate) const FEW_FIELDS: usize = 16;

// So many fields have room in 16,384 bytes, three bytes each.
const ALL_FIELDS: usize = 5_462;

/// What stands at the front of bytes.
#[derive(Clone, Copy)]
pub enum LeadingHead {
    /// A head of at most 64 fields.
    Head(RequestSpans),
    /// A head of more fields.
    ManyFields,
    /// No head, whatever bytes follow.
    Never,
    /// That isn't decided.
    Undecided,
}

/// What stands at the front, with room for so many fields. `None` says that it has more.
pub(crate) fn leading_head_in(w: &[u8], room: &mut [HeaderSpan]) -> Option<LeadingHead>
    ensures some { IfSome result (IsLeadingHead w.now room.new) }
    ensures over { IfNone result (RequestOverflows (length room.old) w.now) }
    ensures exceeds { IfNone result (RequestExceeds (length room.old) w.now) }
{
    match parse_request(w, room) {
        Ok(Status::Complete(spans)) => Some(LeadingHead::Head(spans)),
        Ok(Status::Partial) => Some(LeadingHead::Undecided),
        Err(error) => match error {
            Error::TooManyHeaders => None,
            _ => {
                if ends_in_target(w) {
                    Some(LeadingHead::Undecided)
                } else {
                    Some(LeadingHead::Never)
                }
            }
        },
    }
}

/// Room for so many fields.
pub(crate) fn room_for(alloc: Global, fields: usize) -> Result<Vec<HeaderSpan>, Mem>
    ensures { IfOk result (λ room. vec_len room ≡ fields) }
{
    let mut room = Vec::new(alloc);
    match room.resize(fields, EMPTY_HEADER_SPAN) {
        Ok(()) => Ok(room),
        Err(_) => Err(Mem),
    }
}

// What stands at the front, where a head there has more than 64 fields.
fn head_of_many_fields(alloc: Global, w: &[u8]) -> Result<LeadingHead, Mem>
    requires over { RequestOverflows field_limit w.now }
    requires short { length w.now ≤ head_limit }
    ensures front { IfOk result (IsLeadingHead w.now []) }
    ensures no_head { IfOk result IsNoShortHead }
{
    let mut room = room_for(alloc, ALL_FIELDS)?;
    match leading_head_in(w, room.as_mut_slice()) {
        Some(LeadingHead::Head(_)) => Ok(LeadingHead::ManyFields),
        Some(LeadingHead::ManyFields) => Ok(LeadingHead::ManyFields),
        Some(LeadingHead::Never) => Ok(LeadingHead::Never),
        Some(LeadingHead::Undecided) => Ok(LeadingHead::Undecided),
        None => unreachable!(),
    }
}

/// What stands at the front of at most 16,384 bytes. Where 64 fields or more are there, all that 16,384 bytes can have are given room, which takes
/// memory: whether a head of so many is whole decides between a refusal and waiting.
pub(crate) fn leading_head(
    alloc: Global,
    w: &[u8],
    room: &mut [HeaderSpan],
) -> Result<LeadingHead, Mem>
    requires room { length room.old ≡ field_limit }
    requires short { length w.now ≤ head_limit }
    ensures { IfOk result (IsLeadingHead w.now room.new) }
{
    match leading_head_in(w, room) {
        Some(front) => Ok(front),
        None => head_of_many_fields(alloc, w),
    }
}
