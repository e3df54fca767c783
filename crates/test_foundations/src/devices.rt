//! Devices and worlds in memory and of the system, and lists.
ghost use Rattle.std.specs.Prelude.{IfOk};
ghost use Rattle.outside.specs.Gears.{IsUnused};
ghost use Rattle.gnap_io.specs.MemoryForms.{IsUnusedConn, gear_state};

use bytes_and_lists::bytes::Bytes;
use bytes_and_lists::memory::{Duplicate, Mem};
use bytes_and_lists::seq::Seq;
use gnap_io::memory_conn::MemConn;
use gnap_io::memory_devices::{MemSink, MemSource};
use gnap_io::memory_gear::MemGear;
use gnap_io::memory_link::MemLink;
use gnap_io::memory_world::MemWorld;
use outside::adapters::Stream;
use outside::device::{Failed, Sink, Source, write_all};
use outside::gear::{Clock, Door, Draws};
use outside::link::Link;
use outside::real_gear::RealGear;
use outside::real_link::RealLink;
use outside::real_world::RealWorld;
use outside::shared_listener::SharedListener;
use outside::transcript::Transcript;
use outside::world::{World, WorldFault};
use random_words::RandomWords;
use std::alloc::Global;
use std::io::{Read, Write};
use std::net::{Net, Shutdown, SocketAddr, TcpListener, TcpStream};
use std::random::RandomSource;
use std::rt::{Files, HostRuntime};
use std::sync::Arc;
use std::thread::Threads;
use std::{rt, thread};

fn source(alloc: Global, text: &[u8], bad: &[u64]) -> Result<MemSource, Mem> {
    Ok(MemSource::new(
        Bytes::from_slice(alloc, text)?,
        Vec::from_slice(alloc, bad)?,
    ))
}

// What a read of four bytes comes to: how many come, by hundreds, and the first of them, or 1,000 where it fails.
fn read_of_four<S: Source>(file: &mut S) -> u64 {
    let mut buf = [0u8; 4];
    match file.read(&mut buf) {
        Err(_) => 1000,
        Ok(count) => count as u64 * 100 + buf[0] as u64,
    }
}

// What five such reads of a file come to, or 1 where it can't be opened, and 2 where memory runs out.
fn reads(alloc: Global, world: &mut MemWorld, name: &[u8]) -> Result<Vec<u64>, Mem> {
    let mut sums = Vec::new(alloc);
    match world.open_file(&Bytes::from_slice(alloc, name)?) {
        Err(WorldFault::Failed) => sums.push(1)?,
        Err(WorldFault::OutOfMemory) => sums.push(2)?,
        Ok(mut file) => {
            for _ in 0..5u64 {
                sums.push(read_of_four(&mut file))?;
            }
            world.close_file(file);
        }
    }
    Ok(sums)
}

fn file(alloc: Global, name: &[u8], text: &[u8], bad: &[u64]) -> Result<(Bytes, MemSource), Mem> {
    Ok((Bytes::from_slice(alloc, name)?, source(alloc, text, bad)?))
}

// A world with two files, whose fourth opening fails.
fn world_with_files(alloc: Global) -> Result<MemWorld, Mem> {
    let mut files = Vec::new(alloc);
    files.push(file(alloc, b"a", b"\x01\x02\x03\x04\x05\x06", &[2])?)?;
    files.push(file(alloc, b"b", b"", &[])?)?;
    let bad_opens = Vec::from_slice(alloc, &[4])?;
    Ok(MemWorld::new(files, Vec::new(alloc), Vec::new(alloc), bad_opens))
}

// The names of files, in the order in which they are read, and what each gives.
const READINGS: [(&[u8], &[u64]); 5] = [
    (b"a", &[401, 1000, 205, 0, 0]),
    (b"b", &[0, 0, 0, 0, 0]),
    (b"c", &[1]),
    (b"a", &[1]),
    (b"a", &[401, 1000, 205, 0, 0]),
];

fn told(alloc: Global) -> Result<bool, Mem> {
    let mut world = world_with_files(alloc)?;
    for (name, sums) in READINGS {
        if reads(alloc, &mut world, name)?.as_slice() != sums {
            return Ok(false);
        }
    }
    Ok(true)
}

// A source of two bytes and five times a third, whose second read fails, and one of more bytes than any memory has.
fn filled(alloc: Global) -> Result<bool, Mem> {
    let front = Bytes::from_slice(alloc, b"ab")?;
    let mut source = MemSource::filled(front, b'x', 5, Vec::from_slice(alloc, &[2])?);
    let rows: [(Result<usize, Failed>, &[u8]); 4] = [
        (Ok(4), b"abxx"),
        (Err(Failed), b"...."),
        (Ok(3), b"xxx."),
        (Ok(0), b"...."),
    ];
    for (answer, bytes) in rows {
        let mut buf = *b"....";
        if source.read(&mut buf) != answer || buf.as_slice() != bytes {
            return Ok(false);
        }
    }
    let mut vast = MemSource::filled(Bytes::new(alloc), 7, u64::MAX, Vec::new(alloc));
    let mut buf = [0; 3];
    Ok(vast.read(&mut buf) == Ok(3) && buf == [7; 3])
}

#[test]
fn a_source_is_filled_with_one_byte(rt: HostRuntime) {
    assert!(rt; filled(rt.alloc()) == Ok(true));
}

fn written(alloc: Global) -> Result<bool, Mem> {
    let mut out = MemSink::new(alloc, 5, Vec::from_slice(alloc, &[2])?)?;
    let first = write_all(&mut out, b"abc").is_ok();
    let second = write_all(&mut out, b"x").is_err();
    let third = out.write(b"defg");
    let fourth = write_all(&mut out, b"h").is_err();
    Ok(first && second && third == Ok(2) && fourth && out.written() == b"abcde".as_slice())
}

fn braces(alloc: Global) -> Result<Bytes, Mem> {
    let mut body = Bytes::new(alloc);
    body.push(b'{')?;
    body.extend(b"}")?;
    Ok(body)
}

fn copied(alloc: Global) -> Result<bool, Mem> {
    let mut list = Seq::new(alloc);
    list.push(braces(alloc)?)?;
    let again = list.copy()?;
    Ok(again.len() == 1 && again.at(0).as_slice() == b"{}".as_slice() && *again.at(0).at(1) == b'}')
}

#[test]
fn files_in_memory_tell_their_bytes_and_fail_by_number(rt: HostRuntime) {
    assert!(rt; told(rt.alloc()) == Ok(true));
}

#[test]
fn a_sink_in_memory_keeps_what_went_out(rt: HostRuntime) {
    assert!(rt; written(rt.alloc()) == Ok(true));
}

#[test]
fn copies_are_equal(rt: HostRuntime) {
    assert!(rt; copied(rt.alloc()) == Ok(true));
}

// A connection with these bytes to read and room for four.
fn conn(alloc: Global, text: &[u8]) -> Result<MemConn, Mem>
    ensures { IfOk result IsUnusedConn }
{
    MemConn::new(
        alloc,
        Bytes::from_slice(alloc, text)?,
        4,
        Vec::new(alloc),
        Vec::new(alloc),
    )
}

// A gear with two connections, of the first bytes 7 and 8, and one draw, whose accepts of these numbers fail.
fn gear(alloc: Global, bad_accepts: &[u64]) -> Result<MemGear, Mem>
    ensures { IfOk result (λ gear. IsUnused (gear_state gear)) }
{
    let mut conns = Vec::new(alloc);
    conns.push(conn(alloc, b"\x07")?)?;
    conns.push(conn(alloc, b"\x08")?)?;
    let mut draws = Vec::new(alloc);
    draws.push(RandomWords::given(alloc, [9; 48])?)?;
    MemGear::new(
        conns,
        Vec::new(alloc),
        draws,
        Vec::from_slice(alloc, bad_accepts)?,
    )
}

// What an accept gave: the first byte of a connection, 0 for none, 100 for a fault. The connection is given back.
fn accepted(gear: &mut MemGear) -> u8 {
    match gear.accept() {
        Err(Failed) => 100,
        Ok(None) => 0,
        Ok(Some(mut conn)) => {
            let mut buf = [0; 1];
            let _ = conn.read(&mut buf);
            gear.leave(conn);
            buf[0]
        }
    }
}

fn four_accepts(gear: &mut MemGear) -> [u8; 4] {
    [
        accepted(gear),
        accepted(gear),
        accepted(gear),
        accepted(gear),
    ]
}

// Whether a gear whose accepts of these numbers fail accepts so, and gives its draw once and then zeros.
fn gives(alloc: Global, bad_accepts: &[u64], wanted: [u8; 4]) -> Result<bool, Mem> {
    let mut gear = gear(alloc, bad_accepts)?;
    let drawn = (gear.draw().word(0), gear.draw().word(47));
    let accepted = four_accepts(&mut gear);
    Ok(accepted == wanted && gear.now() == 0 && drawn == (9, 0) && gear.served().len() == 2)
}

fn gears(alloc: Global) -> Result<bool, Mem> {
    for (bad_accepts, wanted) in [
        (&[][..], [7, 8, 0, 0]),
        (&[1], [100, 7, 8, 0]),
        (&[2, 3], [7, 100, 100, 8]),
    ] {
        if !gives(alloc, bad_accepts, wanted)? {
            return Ok(false);
        }
    }
    Ok(true)
}

#[test]
fn gears_in_memory_give_what_they_have(rt: HostRuntime) {
    assert!(rt; gears(rt.alloc()) == Ok(true));
}

// Whether so many gears are given at an address, each for so many connections. They are given back.
fn hands_out(world: &mut MemWorld, address: &Bytes, n: usize, quota: u32) -> bool {
    match world.start_gears(address, n, quota) {
        Ok(gears) => {
            world.stop_gears(gears);
            true
        }
        Err(_) => false,
    }
}

// A gear at the address "a": two are asked for, then too small a quota, then as it is, then once more.
fn gears_handed_out(alloc: Global) -> Result<[bool; 4], Mem> {
    let mut group = Vec::new(alloc);
    group.push(gear(alloc, &[])?)?;
    let mut groups = Vec::new(alloc);
    groups.push((Bytes::from_slice(alloc, b"a")?, group))?;
    let mut world = MemWorld::new(Vec::new(alloc), groups, Vec::new(alloc), Vec::new(alloc));
    let a = Bytes::from_slice(alloc, b"a")?;
    Ok([
        hands_out(&mut world, &a, 2, 9),
        hands_out(&mut world, &a, 1, 1),
        hands_out(&mut world, &a, 1, 2),
        hands_out(&mut world, &a, 1, 2),
    ])
}

// A link with one reply, whose first exchange fails.
fn link_asked(alloc: Global) -> Result<[usize; 3], Mem> {
    let mut replies = Vec::new(alloc);
    replies.push(Bytes::from_slice(alloc, b"yes")?)?;
    let mut link = MemLink::new(replies, Vec::from_slice(alloc, &[1])?);
    let mut lengths = [9; 3];
    for length in &mut lengths {
        if let Ok(reply) = link.exchange(b"?") {
            *length = reply.len();
        }
    }
    Ok(lengths)
}

#[test]
fn a_world_in_memory_gives_gears_and_links_once(rt: HostRuntime) {
    assert!(rt; gears_handed_out(rt.alloc()) == Ok([false, false, true, false]));
    assert!(rt; link_asked(rt.alloc()) == Ok([9, 3, 9]));
}

// How many bytes two reads of four bytes give.
fn two_reads<S: Source>(source: &mut S) -> Option<[usize; 2]> {
    let mut buf = [1; 4];
    Some([source.read(&mut buf).ok()?, source.read(&mut buf).ok()?])
}

fn two_reads_of<W: World>(world: &mut W, name: &Bytes) -> Option<[usize; 2]> {
    let mut file = world.open_file(name).ok()?;
    let counts = two_reads(&mut file);
    world.close_file(file);
    counts
}

// A file that is never there, one that has bytes, and one that is always empty.
const FILES_OF_THE_SYSTEM: [(&[u8], Option<[usize; 2]>); 3] = [
    (b"/no/such/file", None),
    (b"/dev/zero", Some([4, 4])),
    (b"/dev/null", Some([0, 0])),
];

fn of_the_system<
    R: Files
        + Net<Listener = TcpListener, Stream = TcpStream>
        + rt::Clock
        + RandomSource
        + Eprint
        + Sync,
>(rt: &R, alloc: Global) -> Result<bool, Mem> {
    let mut world = RealWorld::new(rt, alloc);
    for (name, wanted) in FILES_OF_THE_SYSTEM {
        if two_reads_of(&mut world, &Bytes::from_slice(alloc, name)?) != wanted {
            return Ok(false);
        }
    }
    Ok(true)
}

#[test]
fn the_system_gives_files(rt: HostRuntime) {
    assert!(rt; of_the_system(&rt, rt.alloc()) == Ok(true));
}

// Whether a read behind a piece that the peer sends gives just that piece.
fn gives_piece<S: Source>(conn: &mut S, peer: &mut TcpStream, piece: &[u8]) -> Option<bool> {
    peer.write_all(piece).ok()?;
    let mut buf = [0; 64];
    let count = conn.read(&mut buf).ok()?;
    Some(&buf[..count] == piece)
}

fn gives_pieces<S: Source>(conn: &mut S, peer: &mut TcpStream, pieces: &[&[u8]]) -> Option<bool> {
    for piece in pieces {
        if !gives_piece(conn, peer, piece)? {
            return Some(false);
        }
    }
    Some(true)
}

fn has_ended<S: Source>(conn: &mut S) -> bool {
    let mut buf = [0; 8];
    conn.read(&mut buf) == Ok(0)
}

// Whether the peer gets this reply and then the end.
fn gets(peer: &mut TcpStream, reply: &[u8]) -> Option<bool> {
    let mut buf = [0; 64];
    let count = peer.read(&mut buf).ok()?;
    let whole = &buf[..count] == reply;
    Some(whole && peer.read(&mut buf).ok()? == 0)
}

// Whether a connection gives what its peer sends in these pieces, and then the end. The peer leaves then, or waits for a reply and gets it.
fn is_served<R: Net<Stream = TcpStream> + rt::Clock + Eprint + Sync>(
    rt: &R,
    gear: &mut RealGear<'_, R>,
    address: SocketAddr,
    pieces: &[&[u8]],
    leaves: bool,
) -> Option<bool> {
    let mut peer = TcpStream::connect(rt, address).ok()?;
    let mut conn = gear.accept().ok()??;
    let given = gives_pieces(&mut conn, &mut peer, pieces)?;
    if leaves {
        drop(peer);
        let ended = has_ended(&mut conn);
        gear.leave(conn);
        return Some(given && ended);
    }
    peer.shutdown(Shutdown::Write).ok()?;
    let ended = has_ended(&mut conn);
    write_all(&mut conn, b"reply").ok()?;
    gear.leave(conn);
    Some(given && ended && gets(&mut peer, b"reply")?)
}

// A request in three pieces, two requests in one piece, and a peer that leaves in the middle of a head, over a socket.
const SENT: [(&[&[u8]], bool); 3] = [
    (&[b"GET /a HT", b"TP/1.1\r\n", b"\r\n"], false),
    (&[b"GET /a HTTP/1.1\r\n\r\nGET /b HTTP/1.1\r\n\r\n"], false),
    (&[b"GET /a HTTP/1.1\r\nHo"], true),
];

fn over_a_socket<R: Net<Listener = TcpListener, Stream = TcpStream> + rt::Clock + Eprint + Sync>(
    rt: &R,
    alloc: Global,
) -> Option<bool> {
    let listener = TcpListener::bind(rt, "127.0.0.1:0").ok()?;
    let address = listener.local_addr().ok()?;
    let shared = Arc::new(alloc, SharedListener::new(listener)).ok()?;
    let mut gear = RealGear::new(rt, shared, [7; 32], 0, 3);
    for (pieces, leaves) in SENT {
        if !is_served(rt, &mut gear, address, pieces, leaves)? {
            return Some(false);
        }
    }
    let used_up = matches!(gear.accept(), Ok(None));
    Some(used_up && gear.now() <= gear.now())
}

#[test]
fn a_real_gear_serves_a_socket(rt: HostRuntime) {
    assert!(rt; over_a_socket(&rt, rt.alloc()) == Some(true));
}

// Whether a gear gives a connection to a peer that comes.
fn gives_one<R: Net<Stream = TcpStream> + rt::Clock + Eprint + Sync>(
    rt: &R,
    gear: &mut RealGear<'_, R>,
    address: SocketAddr,
) -> Option<bool> {
    let _peer = TcpStream::connect(rt, address).ok()?;
    let conn = gear.accept().ok()??;
    gear.leave(conn);
    Some(true)
}

// Whether a gear gives so many connections, and then none.
fn gives_just<R: Net<Stream = TcpStream> + rt::Clock + Eprint + Sync>(
    rt: &R,
    gear: &mut RealGear<'_, R>,
    address: SocketAddr,
    quota: u32,
) -> Option<bool> {
    for _ in 0..quota {
        gives_one(rt, gear, address)?;
    }
    Some(matches!(gear.accept(), Ok(None)))
}

fn text_of(alloc: Global, address: SocketAddr) -> Option<Bytes> {
    let text = format!(in alloc; "{address}").ok()?;
    Bytes::from_slice(alloc, text.as_bytes()).ok()
}

// Whether two gears of the system each give their quota, and no more.
fn gears_give_their_quota<
    R: Files
        + Net<Listener = TcpListener, Stream = TcpStream>
        + rt::Clock
        + RandomSource
        + Eprint
        + Sync,
>(rt: &R, alloc: Global) -> Option<bool> {
    // A port that was free a moment ago.
    let address = TcpListener::bind(rt, "127.0.0.1:0")
        .ok()?
        .local_addr()
        .ok()?;
    let name = text_of(alloc, address)?;
    let mut world = RealWorld::new(rt, alloc);
    let mut gears = world.start_gears(&name, 2, 3).ok()?;
    for gear in &mut gears {
        if !gives_just(rt, gear, address, 3)? {
            return Some(false);
        }
    }
    world.stop_gears(gears);
    Some(true)
}

#[test]
fn each_gear_of_the_system_gives_its_quota(rt: HostRuntime) {
    assert!(rt; gears_give_their_quota(&rt, rt.alloc()) == Some(true));
}

// Whether the first connection that comes brings this request, and gets this reply.
fn answers(listener: TcpListener, request: &[u8], reply: &[u8]) -> bool {
    let Ok((mut conn, _)) = listener.accept() else {
        return false;
    };
    let mut buf = [0; 64];
    let Ok(count) = conn.read(&mut buf) else {
        return false;
    };
    &buf[..count] == request && conn.write_all(reply).is_ok()
}

// Whether a link gets its peer's reply, and fails once nobody listens.
fn asks_its_peer<R: Net<Listener = TcpListener, Stream = TcpStream> + rt::Clock + Eprint + Threads>(
    rt: &R,
    alloc: Global,
) -> Option<bool> {
    let listener = TcpListener::bind(rt, "127.0.0.1:0").ok()?;
    let address = text_of(alloc, listener.local_addr().ok()?)?;
    let peer = thread::spawn(rt, || answers(listener, b"ask", b"reply")).ok()?;
    let mut link = RealLink::new(rt, alloc, address);
    let reply = link.exchange(b"ask").ok()?;
    let answered = peer.join(rt) && reply.as_slice() == b"reply".as_slice();
    Some(answered && link.exchange(b"ask").is_err())
}

#[test]
fn a_real_link_asks_a_socket(rt: HostRuntime) {
    assert!(rt; asks_its_peer(&rt, rt.alloc()) == Some(true));
}

// Takes what may go to another thread, and what threads may share.
fn crosses<T: Send + Sync + Drop>(_value: T) {}

#[test]
fn a_device_of_the_system_crosses_threads(rt: HostRuntime) {
    crosses(Stream::new(Vec::<u8>::new(rt.alloc())));
    assert!(rt; size_of::<Transcript>() == 0);
}
