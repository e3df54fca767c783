//! Replies into bytes.
ghost use Rattle.std.specs.Prelude.{◌≡◌, ◌+◌, ◌≤◌, ◌++◌, [], length, true, codes, OnOk};
ghost use Rattle.outside.specs.Outside.{HasSent, HasCause};
ghost use Rattle.http_edge.specs.Replies.{is_used, status_line, type_line, extra_line, close_line, length_line, body_bytes, reply_bytes, MayWrite};
ghost use Rattle.http_edge.specs.Writes.{room, bytes_of_pieces, HasPut};

use crate::reply::{Extra, HttpReply};
use bytes_and_lists::bytes::Bytes;
use itoa::Buffer;
use outside::device::{Failed, Sink, write_all};
use std::marker::Model;
use thiserror::Error;

/// A write failed.
#[derive(Clone, Copy, Debug, PartialEq, Eq, Error)]
#[error("a write failed")]
pub struct WriteFault;

impl From<Failed> for WriteFault {
    fn from(_e: Failed) -> WriteFault {
        WriteFault
    }
}

// So many bytes of a reply are written at once. Most replies are shorter.
const ROOM: usize = 1_024;

/// Bytes on their way to a sink. Contracts see the list of them.
#[derive(Drop)]
pub struct Outgoing {
    bytes: [u8; ROOM],
    len: usize,
}

impl Model for Outgoing {
    ghost use Rattle.std.specs.Prelude.{ℕ, List, take, ◌≤◌};
    ghost use Rattle.http_edge.specs.Writes.{room};

    ghost Value = { List ℕ };

    ghost view = { λ outgoing. take outgoing.len outgoing.bytes };

    ghost invariant = { λ outgoing. outgoing.len ≤ room };
}

impl Outgoing {
    fn new() -> Outgoing
        ensures { result ≡ [] }
    {
        Outgoing {
            bytes: [0; ROOM],
            len: 0,
        }
    }

    // Writes them all.
    fn flush<S: Sink>(&mut self, sink: &mut S) -> Result<(), Failed>
        ensures sent { HasSent self.old (S.told sink.old) (S.told sink.new) result }
        ensures none { OnOk result (self.new ≡ []) }
        ensures cause { HasCause (S.faults sink.old) (S.faults sink.new) result }
    {
        write_all(sink, &self.bytes[..self.len])?;
        self.len = 0;
        Ok(())
    }

    // Keeps a piece that has room.
    fn keep(&mut self, piece: &[u8])
        requires { length self.old + length piece.now ≤ room }
        ensures { self.new ≡ self.old ++ piece.now }
    {
        let end = self.len + piece.len();
        self.bytes[self.len..end].copy_from_slice(piece);
        self.len = end;
    }

    // Puts a piece behind the others, and writes where there is no room for it.
    fn put<S: Sink>(&mut self, sink: &mut S, piece: &[u8]) -> Result<(), Failed>
        ensures put { HasPut self.old piece.now self.new (S.told sink.old) (S.told sink.new) result }
        ensures cause { HasCause (S.faults sink.old) (S.faults sink.new) result }
    {
        if piece.is_empty() {
            return Ok(());
        }
        if piece.len() > ROOM - self.len {
            self.flush(sink)?;
            if piece.len() > ROOM {
                return write_all(sink, piece);
            }
        }
        self.keep(piece);
        Ok(())
    }
}

// Writes pieces, one behind another.
fn write_pieces<S: Sink>(sink: &mut S, pieces: &[&[u8]]) -> Result<(), Failed>
    ensures sent { HasSent (bytes_of_pieces pieces.now) (S.told sink.old) (S.told sink.new) result }
    ensures cause { HasCause (S.faults sink.old) (S.faults sink.new) result }
{
    let mut outgoing = Outgoing::new();
    for piece in pieces {
        outgoing.put(sink, piece)?;
    }
    outgoing.flush(sink)
}

// The status line.
fn status_line(status: u16) -> &'static [u8]
    requires { is_used status ≡ true }
    ensures { result.now ≡ status_line status }
{
    match status {
        200 => b"HTTP/1.1 200 OK\r\n",
        204 => b"HTTP/1.1 204 No Content\r\n",
        400 => b"HTTP/1.1 400 Bad Request\r\n",
        401 => b"HTTP/1.1 401 Unauthorized\r\n",
        403 => b"HTTP/1.1 403 Forbidden\r\n",
        404 => b"HTTP/1.1 404 Not Found\r\n",
        405 => b"HTTP/1.1 405 Method Not Allowed\r\n",
        413 => b"HTTP/1.1 413 Payload Too Large\r\n",
        501 => b"HTTP/1.1 501 Not Implemented\r\n",
        502 => b"HTTP/1.1 502 Bad Gateway\r\n",
        503 => b"HTTP/1.1 503 Service Unavailable\r\n",
        _ => unreachable!(),
    }
}

// The line of the type, where there is a body, and that of the cache.
fn type_and_cache(body: &Option<Bytes>) -> &'static [u8]
    ensures { result.now ≡ type_line body.now ++ codes "Cache-Control: no-store\r\n" }
{
    match body {
        None => b"Cache-Control: no-store\r\n",
        Some(_) => b"Content-Type: application/json\r\nCache-Control: no-store\r\n",
    }
}

fn body_bytes(body: &Option<Bytes>) -> &[u8]
    ensures { result.now ≡ body_bytes body.now }
{
    match body {
        None => &[],
        Some(bytes) => bytes.as_slice(),
    }
}

// The line of the extra in three parts.
fn extra_parts(extra: &Extra) -> (&'static [u8], &[u8], &'static [u8])
    ensures { result.0.now ++ (result.1.now ++ result.2.now) ≡ extra_line extra.now }
{
    match extra {
        Extra::Nothing => (b"", b"", b""),
        Extra::Allow(methods) => (b"Allow: ", methods.as_slice(), b"\r\n"),
        Extra::Challenge => (b"WWW-Authenticate: GNAP\r\n", b"", b""),
    }
}

fn close_line(last: bool) -> &'static [u8]
    ensures { result.now ≡ close_line last }
{
    if last { b"Connection: close\r\n" } else { b"" }
}

// The line of the length and the empty line, in three parts.
fn length_and_end(status: u16, digits: &[u8]) -> (&'static [u8], &[u8], &'static [u8])
    ensures { result.0.now ++ (result.1.now ++ result.2.now) ≡ length_line status digits.now ++ codes "\r\n" }
{
    if status == 204 {
        (b"", b"", b"\r\n")
    } else {
        (b"Content-Length: ", digits, b"\r\n\r\n")
    }
}

// Writes the parts of a reply.
fn write_parts<'a, S: Sink>(
    sink: &mut S,
    status: &'a [u8],
    kind: &'a [u8],
    extra: (&'a [u8], &'a [u8], &'a [u8]),
    close: &'a [u8],
    size: (&'a [u8], &'a [u8], &'a [u8]),
    body: &'a [u8],
) -> Result<(), Failed>
    ensures sent { HasSent ((status.now ++ (kind.now ++ ((extra.entry.0.now ++ (extra.entry.1.now ++ extra.entry.2.now))
        ++ (close.now ++ (size.entry.0.now ++ (size.entry.1.now ++ size.entry.2.now)))))) ++ body.now) (S.told sink.old) (S.told sink.new) result }
    ensures cause { HasCause (S.faults sink.old) (S.faults sink.new) result }
{
    write_pieces(
        sink,
        &[
            status, kind, extra.0, extra.1, extra.2, close, size.0, size.1, size.2, body,
        ],
    )
}

/// Writes a reply. Takes no memory. At an `Err` a beginning of its bytes went out.
pub fn write_reply<S: Sink>(sink: &mut S, reply: &HttpReply) -> Result<(), WriteFault>
    requires { MayWrite reply.now }
    ensures sent { HasSent (reply_bytes reply.now) (S.told sink.old) (S.told sink.new) result }
    ensures cause { HasCause (S.faults sink.old) (S.faults sink.new) result }
{
    let body = body_bytes(&reply.body);
    let mut buffer = Buffer::new();
    let digits = buffer.format(body.len()).as_bytes();
    write_parts(
        sink,
        status_line(reply.status),
        type_and_cache(&reply.body),
        extra_parts(&reply.extra),
        close_line(reply.last),
        length_and_end(reply.status, digits),
        body,
    )?;
    Ok(())
}
