//! Requests that come in pieces, and the texts of replies.
ghost use Rattle.std.specs.Prelude.{◌≡◌, ◌≤◌, true};
ghost use Rattle.std.specs.List.{list_all};
ghost use Rattle.http_edge.specs.Replies.{MayWrite, is_method_byte};

use bytes_and_lists::bytes::Bytes;
use bytes_and_lists::memory::Mem;
use bytes_and_lists::message::Message;
use gnap_io::memory_devices::{MemSink, MemSource};
use http_edge::{
    EdgeFault, Held, HttpReply, ReplyFault, WriteFault, fault_reply, next_message, read_reply,
    write_reply,
};
use outside::device::{Device, Failed, Source};
use std::alloc::Global;
use std::rt::HostRuntime;

// A source that gives at most so many bytes at once.
#[derive(Drop)]
struct Pieces {
    source: MemSource,
    most: usize,
    ghost some: { 1 ≤ most },
}

impl Device for Pieces {
    ghost faults = { λ pieces. ⟦<MemSource as Device>⟧.faults pieces.source };

    ghost told = { λ pieces. ⟦<MemSource as Device>⟧.told pieces.source };
}

impl Source for Pieces {
    fn read(&mut self, buf: &mut [u8]) -> Result<usize, Failed> {
        let room = buf.len().min(self.most);
        let part = &mut buf[..room];
        self.source.read(part)
    }
}

fn source_of(alloc: Global, text: &[u8], most: usize, bad_read: u64) -> Result<Pieces, Mem>
    requires { 1 ≤ most }
{
    let bytes = Bytes::from_slice(alloc, text)?;
    let source = MemSource::new(bytes, Vec::from_slice(alloc, &[bad_read])?);
    Ok(Pieces { source, most })
}

// What came of reading one message.
#[derive(Clone, Copy, PartialEq, Eq)]
enum Answer {
    End,
    Fault(EdgeFault),
    Message {
        fields: usize,
        body: usize,
        last: bool,
        held: usize,
    },
}

fn answer_to(alloc: Global, text: &[u8], most: usize, bad_read: u64) -> Result<Answer, Mem>
    requires { 1 ≤ most }
{
    let mut source = source_of(alloc, text, most, bad_read)?;
    let mut held = Held::new(alloc);
    match next_message(alloc, &mut source, &mut held) {
        Ok(None) => Ok(Answer::End),
        Err(EdgeFault::OutOfMemory) => Err(Mem),
        Err(fault) => Ok(Answer::Fault(fault)),
        Ok(Some(message)) => Ok(Answer::Message {
            fields: message.fields.len(),
            body: message.body.len(),
            last: message.last,
            held: held.len(),
        }),
    }
}

// A front, a filler so many times, and a back.
fn text(
    alloc: Global,
    front: &[u8],
    filler: &[u8],
    times: usize,
    back: &[u8],
) -> Result<Bytes, Mem> {
    let mut bytes = Bytes::from_slice(alloc, front)?;
    for _ in 0..times {
        bytes.extend(filler)?;
    }
    bytes.extend(back)?;
    Ok(bytes)
}

const GET: &[u8] = b"GET / HTTP/1.1\r\n";

const BAD: Answer = Answer::Fault(EdgeFault::BadHead);

const LARGE: Answer = Answer::Fault(EdgeFault::TooLarge);

const CODED: Answer = Answer::Fault(EdgeFault::Coded);

const CUT: Answer = Answer::Fault(EdgeFault::Truncated);

// A front, a filler so many times and a back, and what is answered.
const ANSWERS: [(&[u8], &[u8], usize, &[u8], Answer); 61] = [
    (b"", b"", 0, b"", Answer::End),
    (
        b"POST /gnap HTTP/1.1\r\nHost: a\r\nContent-Length: 2\r\n\r\n{}",
        b"",
        0,
        b"",
        Answer::Message {
            fields: 2,
            body: 2,
            last: false,
            held: 0,
        },
    ),
    (
        b"\r\n\nGET /a HTTP/1.1\n\n",
        b"",
        0,
        b"",
        Answer::Message {
            fields: 0,
            body: 0,
            last: false,
            held: 0,
        },
    ),
    (
        b"GET / HTTP/1.0\r\n\r\n",
        b"",
        0,
        b"",
        Answer::Message {
            fields: 0,
            body: 0,
            last: true,
            held: 0,
        },
    ),
    (
        GET,
        b"Connection: keep-alive , Close\r\n",
        1,
        b"\r\n",
        Answer::Message {
            fields: 1,
            body: 0,
            last: true,
            held: 0,
        },
    ),
    (
        GET,
        b"Connection: closed\r\n",
        1,
        b"\r\n",
        Answer::Message {
            fields: 1,
            body: 0,
            last: false,
            held: 0,
        },
    ),
    (GET, b"Content-Length: 5\r\n", 1, b"\r\nabcd", CUT),
    (b"GET  / HTTP/1.1\r\n\r\n", b"", 0, b"", BAD),
    (b"GET /\x01 HTTP/1.1\r\n\r\n", b"", 0, b"", BAD),
    (b"GET /\x01", b"", 0, b"", CUT),
    (b"GET / HTTP/1.2\r\n\r\n", b"", 0, b"", BAD),
    (GET, b"Transfer-Encoding: chunked\r\n", 1, b"\r\n", CODED),
    (GET, b"content-ENCODING: identity\r\n", 1, b"\r\n", CODED),
    (GET, b"Content-Length: 1x\r\n", 1, b"\r\n", BAD),
    (GET, b"Content-Length:\r\n", 1, b"\r\n", BAD),
    (GET, b"Content-Length: 0\r\n", 2, b"\r\n", BAD),
    (GET, b"Content-Length: 65537\r\n", 1, b"\r\n", LARGE),
    (
        GET,
        b"Content-Length: 18446744073709551616\r\n",
        1,
        b"\r\n",
        LARGE,
    ),
    (
        b"GET / HTTP/1.1\r\nContent-Length: 65536\r\n\r\n",
        b"x",
        65_536,
        b"",
        Answer::Message {
            fields: 1,
            body: 65_536,
            last: false,
            held: 0,
        },
    ),
    (
        b"GET / HTTP/1.1\r\nContent-Length: 65536\r\n\r\n",
        b"x",
        65_535,
        b"",
        CUT,
    ),
    (
        b"GET / HTTP/1.1\r\nA: ",
        b"x",
        16_361,
        b"\r\n\r\n",
        Answer::Message {
            fields: 1,
            body: 0,
            last: false,
            held: 0,
        },
    ),
    (b"GET / HTTP/1.1\r\nA: ", b"x", 16_362, b"\r\n\r\n", LARGE),
    (b"GET /", b"x", 16_384, b" HTTP/1.1\r\n\r\n", LARGE),
    (
        GET,
        b"A: b\r\n",
        64,
        b"\r\n",
        Answer::Message {
            fields: 64,
            body: 0,
            last: false,
            held: 0,
        },
    ),
    (GET, b"A: b\r\n", 65, b"\r\n", LARGE),
    (GET, b"A: b\r\n", 65, b"", CUT),
    (GET, b"A: b\r\n", 65, b"a b\r\n", BAD),
    // Bounds and lines of RFC 9112, sections 2.2, 5.1, 5.2 and 6.3, and of docs/HTTP.md.
    (
        b"GET / HTTP/1.1\r\nA: ",
        b"x",
        16_360,
        b"\r\n\r\n",
        Answer::Message {
            fields: 1,
            body: 0,
            last: false,
            held: 0,
        },
    ),
    (b"GET / HTTP/1.1\r\nA: ", b"x", 16_363, b"\r\n\r\n", LARGE),
    (
        b"GET / HTTP/1.1\r\nContent-Length: 65537\r\n\r\n",
        b"x",
        65_537,
        b"",
        LARGE,
    ),
    (GET, b"Content-Length: +5\r\n", 1, b"\r\nabcde", BAD),
    (GET, b"Content-Length: -5\r\n", 1, b"\r\nabcde", BAD),
    (GET, b"Content-Length: 5, 5\r\n", 1, b"\r\nabcde", BAD),
    (GET, b"Content-Length: 5 5\r\n", 1, b"\r\nabcde", BAD),
    (GET, b"Content-Length: 5,\r\n", 1, b"\r\nabcde", BAD),
    (GET, b"Content-Length: 0x5\r\n", 1, b"\r\nabcde", BAD),
    (GET, b"Content-Length: 5.0\r\n", 1, b"\r\nabcde", BAD),
    (GET, b"Content-Length:  \r\n", 1, b"\r\nabcde", BAD),
    (
        GET,
        b"Content-Length: 05\r\n",
        1,
        b"\r\nabcde",
        Answer::Message {
            fields: 1,
            body: 5,
            last: false,
            held: 0,
        },
    ),
    (
        GET,
        b"Content-Length:   5\t\r\n",
        1,
        b"\r\nabcde",
        Answer::Message {
            fields: 1,
            body: 5,
            last: false,
            held: 0,
        },
    ),
    (
        GET,
        b"Content-Length: 00000000000000000000000005\r\n",
        1,
        b"\r\nabcde",
        Answer::Message {
            fields: 1,
            body: 5,
            last: false,
            held: 0,
        },
    ),
    (GET, b"Content-Length: 00065537\r\n", 1, b"\r\nabcde", LARGE),
    (
        GET,
        b"Content-Length: 18446744073709551615\r\n",
        1,
        b"\r\nabcde",
        LARGE,
    ),
    (GET, b"Content-Length: 5\r\n", 2, b"\r\nabcde", BAD),
    (GET, b"A : b\r\n", 1, b"\r\n", BAD),
    (GET, b" A: b\r\n", 1, b"\r\n", BAD),
    (GET, b"A: b\r\n c\r\n", 1, b"\r\n", BAD),
    (GET, b"A: b\r\n\tc\r\n", 1, b"\r\n", BAD),
    (GET, b"A: b\rc\r\n", 1, b"\r\n", BAD),
    (GET, b"A: b\x00c\r\n", 1, b"\r\n", BAD),
    (GET, b"A\x00: b\r\n", 1, b"\r\n", BAD),
    (GET, b"A: b\x7f\r\n", 1, b"\r\n", BAD),
    (GET, b": b\r\n", 1, b"\r\n", BAD),
    (GET, b"A\r\n", 1, b"\r\n", BAD),
    (
        GET,
        b"A: \xff\t\x80\r\n",
        1,
        b"\r\n",
        Answer::Message {
            fields: 1,
            body: 0,
            last: false,
            held: 0,
        },
    ),
    (
        GET,
        b"A:b\r\n",
        1,
        b"\r\n",
        Answer::Message {
            fields: 1,
            body: 0,
            last: false,
            held: 0,
        },
    ),
    (
        b"GET / HTTP/1.1\nA: b\n",
        b"B: c\r\n",
        1,
        b"\n",
        Answer::Message {
            fields: 2,
            body: 0,
            last: false,
            held: 0,
        },
    ),
    (b"GET / HTTP/1.1\r", b"", 0, b"A: b\r\n\r\n", BAD),
    (b"GET /\x00 HTTP/1.1\r\n\r\n", b"", 0, b"", BAD),
    (b"GET /\r HTTP/1.1\r\n\r\n", b"", 0, b"", BAD),
    (b"GET\t/ HTTP/1.1\r\n\r\n", b"", 0, b"", BAD),
];

// Whether a text is answered so, however it is cut.
fn is_answered(alloc: Global, text: &[u8], wanted: Answer) -> Result<bool, Mem> {
    for most in [1usize, 7, 100_000] {
        if answer_to(alloc, text, most.max(1), 0)? != wanted {
            return Ok(false);
        }
    }
    Ok(true)
}

// The places of the texts that are answered otherwise than the table says.
fn wrong_answers(alloc: Global) -> Result<Vec<usize>, Mem> {
    let mut wrong = Vec::new(alloc);
    for (place, (front, filler, times, back, wanted)) in ANSWERS.iter().enumerate() {
        let text = text(alloc, front, filler, *times, back)?;
        if !is_answered(alloc, text.as_slice(), *wanted)? {
            wrong.push(place)?;
        }
    }
    Ok(wrong)
}

const REQUEST: &[u8] =
    b"POST /gnap HTTP/1.1\r\nHost: as.example\r\nX-Empty:\r\nX-Some: \t a b \r\nContent-Length: 2\r\n\r\n{}";

// What the request is read as.
const WHOLE: Answer = Answer::Message {
    fields: 4,
    body: 2,
    last: false,
    held: 0,
};

// Whether the request, ended for good behind its first bytes, is truncated, and where the read of the next byte fails, that is the fault.
fn ends_by_fault(alloc: Global, end: usize) -> Result<bool, Mem> {
    let truncated = answer_to(alloc, &REQUEST[..end.min(REQUEST.len())], 1, 0)?;
    let unread = answer_to(alloc, REQUEST, 1, end as u64)?;
    Ok(truncated == CUT && unread == Answer::Fault(EdgeFault::ReadFault))
}

// The places at which the request doesn't end so. Of the bytes that came before a failed read none is lost, and behind the last byte nothing is read.
fn wrong_ends(alloc: Global) -> Result<Vec<usize>, Mem> {
    let mut wrong = Vec::new(alloc);
    for end in 1..REQUEST.len() {
        if !ends_by_fault(alloc, end)? {
            wrong.push(end)?;
        }
    }
    let past = REQUEST.len() as u64 + 1;
    if answer_to(alloc, REQUEST, 1, past)? != WHOLE {
        wrong.push(REQUEST.len())?;
    }
    Ok(wrong)
}

fn same(bytes: &Bytes, text: &[u8]) -> bool {
    bytes.as_slice() == text
}

// The fields of the request, as they are read.
const FIELDS: [(&[u8], &[u8]); 4] = [
    (b"host", b"as.example"),
    (b"x-empty", b""),
    (b"x-some", b"a b"),
    (b"content-length", b"2"),
];

fn has_fields(message: &Message) -> bool {
    for (place, (name, value)) in FIELDS.iter().enumerate() {
        let is_there = match message.fields.as_slice().get(place) {
            Some(field) => same(&field.name, name) && same(&field.value, value),
            None => false,
        };
        if !is_there {
            return false;
        }
    }
    true
}

fn is_request(message: &Message) -> bool {
    same(&message.method, b"POST")
        && same(&message.target, b"/gnap")
        && has_fields(message)
        && same(&message.body, b"{}")
}

// Two requests in one piece: the parts of the first, and how many bytes stay for the second; then the second.
fn two_requests(alloc: Global) -> Result<bool, EdgeFault> {
    let both = text(alloc, REQUEST, b"GET /b HTTP/1.1\r\n\r\n", 1, b"")?;
    let mut source = source_of(alloc, both.as_slice(), 100_000, 0)?;
    let mut held = Held::new(alloc);
    let Some(first) = next_message(alloc, &mut source, &mut held)? else {
        return Ok(false);
    };
    if !is_request(&first) || held.len() != 19 {
        return Ok(false);
    }
    let Some(second) = next_message(alloc, &mut source, &mut held)? else {
        return Ok(false);
    };
    if !same(&second.target, b"/b") || !held.is_empty() {
        return Ok(false);
    }
    Ok(next_message(alloc, &mut source, &mut held)?.is_none())
}

#[test]
fn requests_are_read_however_they_are_cut(rt: HostRuntime) {
    assert!(rt; matches!(&wrong_answers(rt.alloc()), Ok(wrong) if wrong.is_empty()));
    assert!(rt; matches!(&wrong_ends(rt.alloc()), Ok(wrong) if wrong.is_empty()));
    assert!(rt; two_requests(rt.alloc()) == Ok(true));
}

// Whether a text is read as a reply of this status and with this body, or, where none is wanted, as none.
fn reads_as(alloc: Global, text: &[u8], wanted: Option<(u16, &[u8])>) -> Result<bool, Mem> {
    match read_reply(alloc, text) {
        Ok((status, body)) => match wanted {
            Some((code, bytes)) => Ok(status == code && same(&body, bytes)),
            None => Ok(false),
        },
        Err(ReplyFault::NotAReply) => Ok(wanted.is_none()),
        Err(ReplyFault::OutOfMemory) => Err(Mem),
    }
}

// Whether this is written of a reply, and read as its status and its body.
fn prints(alloc: Global, reply: &HttpReply, wanted: &[u8]) -> Result<bool, Mem>
    requires { MayWrite reply.now }
{
    let mut sink = MemSink::new(alloc, 20_000, Vec::new(alloc))?;
    if write_reply(&mut sink, reply).is_err() || sink.written() != wanted {
        return Ok(false);
    }
    let body: &[u8] = match &reply.body {
        Some(body) => body.as_slice(),
        None => b"",
    };
    reads_as(alloc, wanted, Some((reply.status, body)))
}

const ERROR: &[u8] = b"{\"error\":{\"code\":\"invalid_client\"}}";

fn prints_a_challenge(alloc: Global) -> Result<bool, Mem> {
    prints(
        alloc,
        &HttpReply::new(401, Some(Bytes::from_slice(alloc, ERROR)?), false),
        b"HTTP/1.1 401 Unauthorized\r\nContent-Type: application/json\r\nCache-Control: no-store\r\nWWW-Authenticate: GNAP\r\n\
            Content-Length: 35\r\n\r\n{\"error\":{\"code\":\"invalid_client\"}}",
    )
}

fn prints_no_content(alloc: Global) -> Result<bool, Mem> {
    prints(
        alloc,
        &HttpReply::new(204, None, false),
        b"HTTP/1.1 204 No Content\r\nCache-Control: no-store\r\n\r\n",
    )
}

fn prints_a_last_reply(alloc: Global) -> Result<bool, Mem> {
    prints(
        alloc,
        &HttpReply::new(404, None, true),
        b"HTTP/1.1 404 Not Found\r\nCache-Control: no-store\r\nConnection: close\r\nContent-Length: 0\r\n\r\n",
    )
}

fn prints_a_long_body(alloc: Global) -> Result<bool, Mem> {
    let long = HttpReply::new(200, Some(text(alloc, b"", b"x", 9_000, b"")?), false);
    let wanted = text(
        alloc,
        b"HTTP/1.1 200 OK\r\nContent-Type: application/json\r\nCache-Control: no-store\r\nContent-Length: 9000\r\n\r\n",
        b"x",
        9_000,
        b"",
    )?;
    prints(alloc, &long, wanted.as_slice())
}

fn prints_methods(alloc: Global, methods: Bytes) -> Result<bool, Mem>
    requires { list_all is_method_byte methods ≡ true }
{
    prints(
        alloc,
        &HttpReply::not_allowed(methods, false),
        b"HTTP/1.1 405 Method Not Allowed\r\nCache-Control: no-store\r\nAllow: POST, OPTIONS\r\nContent-Length: 0\r\n\r\n",
    )
}

fn prints_two_methods(alloc: Global) -> Result<bool, Mem> {
    prints_methods(alloc, Bytes::from_slice(alloc, b"POST, OPTIONS")?)
}

// Faults, and the last reply of a connection that ends with each. Where that is empty, there is none.
const LAST_REPLIES: [(EdgeFault, &[u8]); 5] = [
    (
        EdgeFault::BadHead,
        b"HTTP/1.1 400 Bad Request\r\nCache-Control: no-store\r\nConnection: close\r\nContent-Length: 0\r\n\r\n",
    ),
    (
        EdgeFault::TooLarge,
        b"HTTP/1.1 413 Payload Too Large\r\nCache-Control: no-store\r\nConnection: close\r\nContent-Length: 0\r\n\r\n",
    ),
    (
        EdgeFault::Coded,
        b"HTTP/1.1 501 Not Implemented\r\nCache-Control: no-store\r\nConnection: close\r\nContent-Length: 0\r\n\r\n",
    ),
    (
        EdgeFault::OutOfMemory,
        b"HTTP/1.1 503 Service Unavailable\r\nCache-Control: no-store\r\nConnection: close\r\nContent-Length: 0\r\n\r\n",
    ),
    (EdgeFault::Truncated, b""),
];

fn prints_last(alloc: Global, fault: EdgeFault, wanted: &[u8]) -> Result<bool, Mem> {
    match fault_reply(fault) {
        Some(reply) => prints(alloc, &reply, wanted),
        None => Ok(wanted.is_empty()),
    }
}

// The places of the faults whose last reply isn't as the table says.
fn wrong_last_replies(alloc: Global) -> Result<Vec<usize>, Mem> {
    let mut wrong = Vec::new(alloc);
    for (place, (fault, wanted)) in LAST_REPLIES.iter().enumerate() {
        if !prints_last(alloc, *fault, wanted)? {
            wrong.push(place)?;
        }
    }
    Ok(wrong)
}

// Where the second write fails, what the first one took went out.
fn is_cut(alloc: Global) -> Result<bool, Mem> {
    let reply = HttpReply::new(200, Some(text(alloc, b"", b"x", 9_000, b"")?), false);
    let mut sink = MemSink::new(alloc, 20_000, Vec::from_slice(alloc, &[2])?)?;
    let fault = write_reply(&mut sink, &reply);
    Ok(fault == Err(WriteFault) && sink.written().ends_with(b"\r\n\r\n"))
}

// Texts, and the status and the body that are read.
const READ: [(&[u8], Option<(u16, &[u8])>); 14] = [
    (
        b"HTTP/1.1 200 OK\r\nDate: x\r\nContent-Length: 2\r\nVia: y\r\n\r\n{}",
        Some((200, b"{}")),
    ),
    (b"HTTP/1.0 200\r\n\r\n{}", Some((200, b"{}"))),
    (b"HTTP/1.1 204 No Content\r\n\r\n", Some((204, b""))),
    (b"HTTP/1.1 204 No Content\r\n\r\n{}", None),
    (b"HTTP/1.1 200 OK\r\nContent-Length: 2\r\n\r\n{", None),
    (b"HTTP/1.1 200 OK\r\nContent-Length: 2\r\n\r\n{}x", None),
    (
        b"HTTP/1.1 200 OK\r\nContent-Length: 02\r\n\r\n{}",
        Some((200, b"{}")),
    ),
    (b"HTTP/1.1 200 OK\r\nContent-Length: +2\r\n\r\n{}", None),
    (
        b"HTTP/1.1 200 OK\r\nContent-Length: 2\r\nContent-Length: 2\r\n\r\n{}",
        None,
    ),
    (
        b"HTTP/1.1 200 OK\r\nTransfer-Encoding: chunked\r\n\r\n0\r\n\r\n",
        None,
    ),
    (b"HTTP/1.1 200 OK\r\nContent-Encoding: gzip\r\n\r\n{}", None),
    (b"HTTP/2 200 OK\r\n\r\n", None),
    (b"HTTP/1.1 200 OK\r\n", None),
    (b"", None),
];

// The places of the texts that are read otherwise than the table says.
fn wrong_reads(alloc: Global) -> Result<Vec<usize>, Mem> {
    let mut wrong = Vec::new(alloc);
    for (place, (text, wanted)) in READ.iter().enumerate() {
        if !reads_as(alloc, text, *wanted)? {
            wrong.push(place)?;
        }
    }
    Ok(wrong)
}

#[test]
fn replies_are_written_and_read(rt: HostRuntime) {
    assert!(rt; prints_a_challenge(rt.alloc()) == Ok(true));
    assert!(rt; prints_no_content(rt.alloc()) == Ok(true));
    assert!(rt; prints_a_last_reply(rt.alloc()) == Ok(true));
    assert!(rt; prints_a_long_body(rt.alloc()) == Ok(true));
    assert!(rt; prints_two_methods(rt.alloc()) == Ok(true));
    assert!(rt; matches!(&wrong_last_replies(rt.alloc()), Ok(wrong) if wrong.is_empty()));
    assert!(rt; is_cut(rt.alloc()) == Ok(true));
    assert!(rt; matches!(&wrong_reads(rt.alloc()), Ok(wrong) if wrong.is_empty()));
}
