//! The real link. It tells by a list that takes no memory what was asked and replied: of an exchange with a reply, what its connection took and
//! gave. What its peer answers is trusted as far as anything rests on it.
ghost use Rattle.std.specs.Prelude.{◌≡◌, ◌≤◌, [], length, IfOk, None};
ghost use Rattle.outside.specs.declared.real_link.TheConstants.{REPLY_LIMIT};
ghost use Rattle.outside.specs.Outside.{Takes, IsAtEnd, untouched};
ghost use Rattle.outside.specs.Links.{new_link, IsReply};

use crate::adapters::Stream;
use crate::device::{Device, Failed, Sink, Source, write_all};
use crate::link::{Link, LinkFault};
use crate::standard_error::{tell_address, tell_no_text};
use crate::timed_socket::TimedSocket;
use crate::transcript::Transcript;
use bytes_and_lists::bytes::Bytes;
use http_server::Log;
use std::alloc::Global;
use std::io;
use std::io::ErrorKind;
use std::net::{Net, TcpStream, ToSocketAddrs};
use std::rt::Clock;
use std::time::Duration;

/// The most bytes of a reply. A longer one is a fault.
const REPLY_LIMIT: usize = 1_048_576;

/// How long it may take to make a connection to each address of a host, in seconds.
const CONNECT_LIMIT: u64 = 60;

/// A link that makes a connection for each exchange: it writes the request, and reads the reply to the end of input. A peer that isn't connected to within
/// 60 seconds, or whose reply doesn't begin within 60 seconds, or isn't whole 60 seconds later, is a fault. The first fault is told on standard error.
#[derive(Drop)]
pub struct RealLink<'a, R: Net<Stream = TcpStream> + Clock + Eprint> {
    rt: &'a R,
    alloc: Global,
    address: Bytes,
    faults: u64,
    asked: Log<Transcript, Option<Stream<TimedSocket<'a, R>>>>,
}

impl<'a, R: Net<Stream = TcpStream> + Clock + Eprint> RealLink<'a, R> {
    /// A link to this address.
    pub fn new(rt: &'a R, alloc: Global, address: Bytes) -> RealLink<'a, R>
        ensures { ⟦<RealLink<'a, R> as Link>⟧.link result ≡ new_link }
    {
        RealLink {
            rt,
            alloc,
            address,
            faults: 0,
            asked: Log::new(),
        }
    }
}

// Reads the source to its end, into the room that there is. A reply that is longer is a fault.
fn read_reply<S: Source>(source: &mut S, room: Vec<u8>) -> Result<Bytes, Failed>
    requires { room.items ≡ [] }
    ensures { IfOk result (λ reply. Takes reply (S.told source.old) (S.told source.new) × IsAtEnd (S.told source.new) × (length reply ≤ REPLY_LIMIT)) }
{
    let mut reply = Bytes::from_vec(room);
    let mut buf = [0; 16_384];
    for _ in 0..=REPLY_LIMIT {
        let count = source.read(&mut buf)?;
        if count == 0 {
            return Ok(reply);
        }
        if count > REPLY_LIMIT - reply.len() || reply.extend(&buf[..count]).is_err() {
            return Err(Failed);
        }
    }
    Err(Failed)
}

// Writes the request, and reads the reply to the end of input.
pub(crate) fn ask<C: Source + Sink>(
    conn: &mut C,
    request: &[u8],
    room: Vec<u8>,
) -> Result<Bytes, Failed>
    requires { room.items ≡ [] }
    ensures { IfOk result (λ reply. IsReply request.now reply (C.told conn.old) (C.told conn.new) × (length reply ≤ REPLY_LIMIT)) }
{
    write_all(conn, request)?;
    read_reply(conn, room)
}

// A connection to the first address of this host that takes one in time. The fault is that of the last.
fn connected_in_time<R: Net<Stream = TcpStream>>(rt: &R, host: &str) -> io::Result<TcpStream> {
    let mut fault = io::Error::from(ErrorKind::InvalidInput);
    for address in host.to_socket_addrs(rt)? {
        match TcpStream::connect_timeout(rt, &address, Duration::from_secs(CONNECT_LIMIT)) {
            Ok(stream) => return Ok(stream),
            Err(error) => fault = error,
        }
    }
    Err(fault)
}

// A connection to the address.
fn connected<'a, R: Net<Stream = TcpStream> + Clock + Eprint>(
    rt: &'a R,
    address: &Bytes,
    is_told: bool,
) -> Result<Stream<TimedSocket<'a, R>>, Failed>
    ensures { IfOk result (λ conn. ⟦<Stream<TimedSocket<'a, R>> as Device>⟧.told conn ≡ untouched None) }
{
    let Ok(address) = str::from_utf8(address.as_slice()) else {
        if is_told {
            tell_no_text(rt);
        }
        return Err(Failed);
    };
    match connected_in_time(rt, address) {
        Ok(stream) => Ok(Stream::new(TimedSocket::new(rt, stream, None))),
        Err(error) => {
            if is_told {
                tell_address(rt, address, &error);
            }
            Err(Failed)
        }
    }
}

// Sends the request over a connection of its own, and reads the reply into the room that there is. Gives the reply and the connection.
fn reply_of<'a, R: Net<Stream = TcpStream> + Clock + Eprint>(
    link: &RealLink<'a, R>,
    request: &[u8],
    room: Vec<u8>,
) -> Result<(Bytes, Stream<TimedSocket<'a, R>>), Failed>
    requires { room.items ≡ [] }
    ensures { IfOk result (λ both. IsReply request.now both.0 (untouched None) (⟦<Stream<TimedSocket<'a, R>> as Device>⟧.told both.1)
        × (length both.0 ≤ REPLY_LIMIT)) }
{
    let mut conn = connected(link.rt, &link.address, link.faults == 0)?;
    let reply = ask(&mut conn, request, room)?;
    Ok((reply, conn))
}

// The bytes, for clauses alone.
fn noted(bytes: &[u8]) -> Transcript
    ensures { result.bytes ≡ bytes.now }
{
    let mut transcript = Transcript::new();
    transcript.note(bytes);
    transcript
}

impl<'a, R: Net<Stream = TcpStream> + Clock + Eprint> Link for RealLink<'a, R> {
    ghost use Rattle.std.specs.Prelude.{map};
    ghost use Rattle.outside.specs.Links.{exchange_of};

    ghost link = { λ link. record {
      faults = link.faults;
      asked = map (λ pair. exchange_of ⟦<Stream<TimedSocket<'a, R>> as Device>⟧.told pair.0.bytes pair.1) link.asked.items;
    } };

    fn exchange(&mut self, request: &[u8]) -> Result<Bytes, LinkFault> {
        let Ok(room) = Vec::with_capacity(self.alloc, REPLY_LIMIT) else {
            return Err(LinkFault::OutOfMemory);
        };
        match reply_of(self, request, room) {
            Ok((reply, conn)) => {
                self.asked = self.asked.and(&noted(request), &Some(conn));
                Ok(reply)
            }
            Err(Failed) => {
                self.faults = self.faults.saturating_add(1);
                self.asked = self.asked.and(&noted(request), &None);
                Err(LinkFault::Failed)
            }
        }
    }
}
