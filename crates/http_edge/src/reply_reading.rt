//! Replies out of bytes.
ghost use Rattle.std.specs.Prelude.{◌≡◌, ◌<◌, ◌^◌, ◌≤◌, length, map, ◌-◌, IfSome, IfNone, All};
ghost use Rattle.httparse.specs.Spans.{IsHeaderWithin, header_bytes, IsResponseWithin, IsResponseOf};
ghost use Rattle.http_edge.specs.Limits.{field_limit};
ghost use Rattle.http_edge.specs.ReadReplies.{frames, fits_parts, HasNoRoom, GivesReply};

use crate::framing::{LengthField, decimal_number, framing_fields};
use crate::request_heads::{FIELD_LIMIT, HEAD_LIMIT};
use bytes_and_lists::bytes::Bytes;
use bytes_and_lists::memory::Mem;
use httparse::Status;
use httparse::spans::{EMPTY_HEADER_SPAN, HeaderSpan, ResponseSpans, parse_response};
use std::alloc::Global;
use thiserror::Error;

/// Why bytes are no reply.
#[derive(Clone, Copy, Debug, Error)]
pub enum ReplyFault {
    /// They aren't one whole reply, with nothing behind it.
    #[error("the bytes aren't one whole reply")]
    NotAReply,
    #[error("memory ran out")]
    OutOfMemory,
}

impl From<Mem> for ReplyFault {
    ghost use Rattle.std.specs.Prelude.{◌≡◌};
    ghost use Rattle.http_edge.specs.declared.reply_reading.ReplyFault.TheVariants.{OutOfMemory};

    ghost from_gives = { λ _ e. e ≡ OutOfMemory };

    fn from(_e: Mem) -> ReplyFault {
        ReplyFault::OutOfMemory
    }
}

// Where the parts of the head at the front are, where it has at most 64 fields.
fn reply_head(bytes: &[u8], room: &mut [HeaderSpan]) -> Option<ResponseSpans>
    requires { length room.old ≡ field_limit }
    ensures within { IfSome result (IsResponseWithin bytes.now room.new) }
    ensures of { IfSome result (IsResponseOf bytes.now room.new) }
    ensures none { IfNone result (HasNoRoom bytes.now) }
{
    match parse_response(bytes, room) {
        Ok(Status::Complete(spans)) => Some(spans),
        Ok(Status::Partial) => None,
        Err(_) => None,
    }
}

// A body of so many bytes is what the fields say.
fn frames(head: &[u8], fields: &[HeaderSpan], count: usize) -> bool
    requires within { All (IsHeaderWithin (length head.now)) fields.now }
    requires bounded { count < 2 ^ 63 }
    ensures { result ≡ frames (map (header_bytes head.now) fields.now) count }
{
    let known = framing_fields(head, fields);
    if known.coded {
        return false;
    }
    match known.length {
        LengthField::Absent => true,
        LengthField::One(span) => decimal_number(span.of(head)) == Some(count as u64),
        LengthField::Several => false,
    }
}

// The bytes behind the head are a body that it says.
fn fits_body(bytes: &[u8], fields: &[HeaderSpan], spans: &ResponseSpans) -> bool
    requires within { All (IsHeaderWithin (length bytes.now)) fields.now }
    requires inside { spans.now.len ≤ length bytes.now }
    ensures { result ≡ fits_parts spans.now.len (map (header_bytes bytes.now) fields.now) spans.now.code (length bytes.now - spans.now.len) }
{
    let count = bytes.len() - spans.len;
    spans.len <= HEAD_LIMIT
        && fields.len() <= FIELD_LIMIT
        && frames(bytes, fields, count)
        && (spans.code != 204 || count == 0)
}

/// The status and the body of the one reply that the bytes are. `NotAReply` comes exactly where they are none.
///
/// A reply is a head of HTTP/1.0 or HTTP/1.1, of at most 16,384 bytes and 64 fields, without `Transfer-Encoding` and `Content-Encoding` and with at
/// most one `Content-Length`; and then exactly as many bytes as that says, or any number where it isn't there. At status 204 none follow.
pub fn read_reply(alloc: Global, bytes: &[u8]) -> Result<(u16, Bytes), ReplyFault>
    ensures { GivesReply bytes.now result }
{
    let mut room = [EMPTY_HEADER_SPAN; FIELD_LIMIT];
    let spans = match reply_head(bytes, &mut room) {
        Some(spans) => spans,
        None => return Err(ReplyFault::NotAReply),
    };
    if !fits_body(bytes, &room[..spans.headers], &spans) {
        return Err(ReplyFault::NotAReply);
    }
    let body = Bytes::from_slice(alloc, &bytes[spans.len..])?;
    Ok((spans.code, body))
}
