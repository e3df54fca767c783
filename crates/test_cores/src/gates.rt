//! Two workers at once: what a connection brings second can be read only once the other one has got a reply.
ghost use Rattle.std.specs.Prelude.{◌≡◌, IfOk};
ghost use Rattle.outside.specs.Gears.{new_gear, AreStarted};

use as_edge::AuthorizationServer;
use as_requests::Edge;
use bytes_and_lists::bytes::Bytes;
use bytes_and_lists::memory::{Duplicate, Mem};
use gnap_io::memory_conn::MemConn;
use gnap_io::memory_gear::MemGear;
use gnap_objects::read_setup;
use http_serving::{HttpFront, HttpReader};
use outside::device::{Device, Failed, Sink, Source};
use outside::gear::{Clock, Counted, Door, Draws, Gear};
use random_words::RandomWords;
use serving::server_front::ServerFront;
use serving::threads::serve_gears;
use std::alloc::Global;
use std::hint::spin_loop;
use std::sync::Wait;
use std::sync::atomic::{AtomicU64, Ordering};
use std::thread::Threads;
use table_core::TableCore;

const SETUP: &[u8] =
    b"{\"base\":\"https://as.example\",\"front\":\"https://front.example\",\"keys\":[{\"ask\":[],\"auto\":[\"photos\"],\"id\":\"c1\",\
        \"role\":\"client\",\"secret\":\"c2VjcmV0LWtleS1vZi1jMQ==\"}]}";

// So many bytes of a connection are asked for at once.
const PIECE: usize = 4_096;

/// How often a read that waits looks.
const LOOKS: u32 = 500_000_000;

/// How many replies each of two connections got, and how many were waited for in vain.
#[derive(Drop)]
struct Gate {
    first: AtomicU64,
    second: AtomicU64,
    late: AtomicU64,
}

impl Gate {
    // The count of one of the two connections.
    fn count_of(&self, is_first: bool) -> &AtomicU64 {
        if is_first { &self.first } else { &self.second }
    }

    // Waits until the other connection has got a reply.
    fn wait(&self, is_first: bool) {
        if !comes(self.count_of(!is_first)) {
            self.late.fetch_add(1, Ordering::SeqCst);
        }
    }

    // Counts a reply.
    fn count(&self, is_first: bool) {
        self.count_of(is_first).fetch_add(1, Ordering::SeqCst);
    }
}

// Whether a count rises from 0 while it is looked at.
fn comes(count: &AtomicU64) -> bool {
    for _ in 0..LOOKS {
        if 0 < count.load(Ordering::SeqCst) {
            return true;
        }
        spin_loop();
    }
    false
}

/// A connection in memory. All reads but its first wait at the gate.
#[derive(Drop)]
struct GatedConn<'a> {
    conn: MemConn,
    gate: &'a Gate,
    is_first: bool,
    was_read: bool,
}

impl<'a> Device for GatedConn<'a> {
    ghost faults = { λ gated. ⟦<MemConn as Device>⟧.faults gated.conn };

    ghost told = { λ gated. ⟦<MemConn as Device>⟧.told gated.conn };
}

impl<'a> Source for GatedConn<'a> {
    fn read(&mut self, buf: &mut [u8]) -> Result<usize, Failed> {
        if self.was_read {
            self.gate.wait(self.is_first);
        }
        self.was_read = true;
        self.conn.read(buf)
    }
}

impl<'a> Sink for GatedConn<'a> {
    fn write(&mut self, piece: &[u8]) -> Result<usize, Failed> {
        self.gate.count(self.is_first);
        self.conn.write(piece)
    }
}

/// A gear in memory whose connections wait at the gate.
#[derive(Drop)]
struct GatedGear<'a> {
    gear: MemGear,
    gate: &'a Gate,
    is_first: bool,
}

impl<'a> Counted for GatedGear<'a> {
    ghost state = { λ gated. ⟦<MemGear as Counted>⟧.state gated.gear };
}

impl<'a> Door for GatedGear<'a> {
    type Conn = GatedConn<'a>;

    fn accept(&mut self) -> Result<Option<GatedConn<'a>>, Failed> {
        match self.gear.accept() {
            Ok(Some(conn)) => Ok(Some(GatedConn {
                conn,
                gate: self.gate,
                is_first: self.is_first,
                was_read: false,
            })),
            Ok(None) => Ok(None),
            Err(Failed) => Err(Failed),
        }
    }

    fn leave(&mut self, conn: GatedConn<'a>) {
        let GatedConn {
            conn,
            gate: _,
            is_first: _,
            was_read: _,
        } = conn;
        self.gear.leave(conn);
    }

    fn has_failed(&self) -> bool {
        self.gear.has_failed()
    }
}

impl<'a> Clock for GatedGear<'a> {
    fn now(&mut self) -> u64 {
        self.gear.now()
    }
}

impl<'a> Draws for GatedGear<'a> {
    fn draw(&mut self) -> RandomWords {
        self.gear.draw()
    }
}

impl<'a> Gear for GatedGear<'a> {}

// Grant requests, by their nonces and by the signatures that another program made.
const SIGNED: [(&str, &str); 4] = [
    ("n1", "aI5U9JSBy8WrJC6Mz/0SO1VFTjijA6zYJYyZ6vCcsy0="),
    ("n2", "NAXRuclapWS+Arqtim+zdXC9aZGWcFSm+Y/NlqDiHzM="),
    ("n3", "kn89FFF70rjLlMUpxmPdtip6a49dS2nv/rCfZWm0bcA="),
    ("n4", "Aif53gwNRzvs6pulYc5JeCOplNEh3TNqfc11OFhUgyA="),
];

const FIRST_LINE: &str = "POST /gnap HTTP/1.1\n";

// What stands behind the first line of such a grant request.
fn rest_of<'a>((nonce, signature): (&'a str, &'a str)) -> [&'a str; 5] {
    [
        "Host: as.example\nContent-Type: application/json\nContent-Digest: sha-256=:sokhpObDYVkSZEb8/PUgff1BUrQpmCFg5KKz7hUUpIU=:\n\
            Signature-Input: sig1=(\"@method\" \"@target-uri\" \"content-digest\");created=1000;keyid=\"c1\";nonce=\"",
        nonce,
        "\";tag=\"gnap\"\nSignature: sig1=:",
        signature,
        ":\nContent-Length: 52\n\n{\"access_token\":{\"access\":[\"photos\"]},\"client\":\"c1\"}",
    ]
}

// The server of the setup above, over HTTP.
fn front(alloc: Global) -> Result<HttpFront<AuthorizationServer>, Mem> {
    let Ok(setup) = read_setup(alloc, SETUP) else {
        return Err(Mem);
    };
    match Edge::new(alloc, setup) {
        Ok(edge) => Ok(ServerFront {
            reader: HttpReader,
            server: AuthorizationServer { edge },
        }),
        Err((_setup, Mem)) => Err(Mem),
    }
}

// Puts texts behind bytes, with CR LF at the ends of their lines.
fn put_texts(bytes: &mut Bytes, texts: &[&str]) -> Result<(), Mem> {
    for text in texts {
        for byte in text.as_bytes() {
            if *byte == b'\n' {
                bytes.push(b'\r')?;
            }
            bytes.push(*byte)?;
        }
    }
    Ok(())
}

fn bytes_of(alloc: Global, texts: &[&str]) -> Result<Bytes, Mem> {
    let mut bytes = Bytes::new(alloc);
    put_texts(&mut bytes, texts)?;
    Ok(bytes)
}

// A grant request as long as a piece, by a field that isn't signed.
fn filled_request(alloc: Global, signed: (&str, &str)) -> Result<Bytes, Mem> {
    let mut request = bytes_of(alloc, &[FIRST_LINE, "X-Filler: "])?;
    let mut rest = bytes_of(alloc, &["\n"])?;
    put_texts(&mut rest, &rest_of(signed))?;
    let length = request.len().saturating_add(rest.len());
    for _ in length..PIECE {
        request.push(b'a')?;
    }
    request.extend(rest.as_slice())?;
    Ok(request)
}

// A gear with one connection that brings a grant request by its first read and one by its second.
fn gear_in_memory(alloc: Global, is_first: bool) -> Result<MemGear, Mem>
    ensures { IfOk result (λ gear. ⟦<MemGear as Counted>⟧.state gear ≡ new_gear 1) }
{
    let [one, two, three, four] = SIGNED;
    let (filled, other) = if is_first { (one, two) } else { (three, four) };
    let mut bytes = filled_request(alloc, filled)?;
    put_texts(&mut bytes, &[FIRST_LINE])?;
    put_texts(&mut bytes, &rest_of(other))?;
    let conn = MemConn::new(alloc, bytes, 8000, Vec::new(alloc), Vec::new(alloc))?;
    let mut conns = Vec::new(alloc);
    conns.push(conn)?;
    let moments = Vec::from_slice(alloc, &[1000, 1000])?;
    MemGear::new(conns, moments, Vec::new(alloc), Vec::new(alloc))
}

fn gated<'a>(alloc: Global, gate: &'a Gate, is_first: bool) -> Result<GatedGear<'a>, Mem>
    ensures { IfOk result (λ gear. ⟦<GatedGear<'a> as Counted>⟧.state gear ≡ new_gear 1) }
{
    Ok(GatedGear {
        gear: gear_in_memory(alloc, is_first)?,
        gate,
        is_first,
    })
}

// How many grants were told to a connection.
fn grants_told(conn: &MemConn) -> usize {
    let reply = b"HTTP/1.1 200 OK\r\n";
    conn.written()
        .windows(reply.len())
        .filter(|part| *part == reply.as_slice())
        .count()
}

// Two gears that wait at the gate.
fn two_gears<'a>(alloc: Global, gate: &'a Gate) -> Result<Vec<GatedGear<'a>>, Mem>
    ensures { IfOk result (λ gears. AreStarted ⟦<GatedGear<'a> as Counted>⟧.state 2 4294967295 gears.items) }
{
    let mut gears = Vec::new(alloc);
    gears.push(gated(alloc, gate, true)?)?;
    gears.push(gated(alloc, gate, false)?)?;
    Ok(gears)
}

// How many grants were told to the connections of both gears.
fn grants_told_to_both<R: Threads + Wait + Sync>(
    rt: &R,
    alloc: Global,
    gate: &Gate,
) -> Result<Vec<usize>, Mem> {
    let front = front(alloc)?;
    let core = TableCore::new(alloc, front.server.edge.setup().copy()?);
    let (gears, served) = serve_gears(rt, alloc, core, &front, two_gears(alloc, gate)?);
    served?;
    let mut counts = Vec::new(alloc);
    for gear in &gears {
        for conn in gear.gear.served() {
            counts.push(grants_told(conn))?;
        }
    }
    Ok(counts)
}

/// Workers that came one after the other would leave the first connection waiting for what it brings second.
#[test]
fn two_workers_serve_at_once(rt: HostRuntime) {
    let gate = Gate {
        first: AtomicU64::new(0),
        second: AtomicU64::new(0),
        late: AtomicU64::new(0),
    };
    let Ok(counts) = grants_told_to_both(&rt, rt.alloc(), &gate) else {
        panic!(rt; "no memory");
    };
    assert_eq!(rt; counts.as_slice(), &[2usize, 2][..], "grants");
    assert_eq!(rt; gate.late.load(Ordering::SeqCst), 0, "waited in vain");
}
