//! The system as a world. It tells by lists that take no memory what it took back, and that which it took back it lets go: files and listeners
//! are closed. What the system gives is trusted; a fault of it is counted.
ghost use Rattle.std.specs.Prelude.{◌≡◌, ◌≤◌, IfOk, None, vec_len, vec_capacity, map};
ghost use Rattle.outside.specs.Outside.{untouched};
ghost use Rattle.outside.specs.Gears.{AreStarted, AreFull};
ghost use Rattle.outside.specs.Worlds.{new_world, with_gears};

use crate::adapters::Stream;
use crate::device::{Device, Failed};
use crate::gear::{Counted, Door};
use crate::link::Link;
use crate::real_gear::RealGear;
use crate::real_link::RealLink;
use crate::shared_listener::SharedListener;
use crate::standard_error::{
    tell_address, tell_listening, tell_no_entropy, tell_no_text, tell_unopened,
};
use crate::world::{Opening, World, WorldFault, failed, name_to_keep};
use bytes_and_lists::bytes::Bytes;
use bytes_and_lists::memory::Duplicate;
use http_server::Log;
use std::alloc::Global;
use std::fs;
use std::net::{Net, TcpListener, TcpStream};
use std::random::RandomSource;
use std::rt::{Clock, Files};
use std::sync::Arc;

/// The files of the system, by their paths, gears that listen at an address, and links to one.
#[derive(Drop)]
pub struct RealWorld<
    'a,
    R: Files
        + Net<Listener = TcpListener, Stream = TcpStream>
        + Clock
        + RandomSource
        + Eprint
        + Sync,
> {
    rt: &'a R,
    alloc: Global,
    faults: u64,
    lent: usize,
    files: Log<Stream<R::File>, ()>,
    gears: Log<RealGear<'a, R>, ()>,
    link: Option<RealLink<'a, R>>,
    opened: Vec<Opening>,
}

impl<
    'a,
    R: Files
        + Net<Listener = TcpListener, Stream = TcpStream>
        + Clock
        + RandomSource
        + Eprint
        + Sync,
> RealWorld<'a, R> {
    /// The system, of which nothing was opened yet.
    pub fn new(rt: &'a R, alloc: Global) -> RealWorld<'a, R>
        ensures { ⟦<RealWorld<'a, R> as World>⟧.state result ≡ new_world }
    {
        RealWorld {
            rt,
            alloc,
            faults: 0,
            lent: 0,
            files: Log::new(),
            gears: Log::new(),
            link: None,
            opened: Vec::new(alloc),
        }
    }
}

impl<
    'a,
    R: Files
        + Net<Listener = TcpListener, Stream = TcpStream>
        + Clock
        + RandomSource
        + Eprint
        + Sync,
> World for RealWorld<'a, R> {
    ghost use Rattle.std.specs.Prelude.{map, None, true};
    ghost use Rattle.std.specs.Option.{option_map};
    ghost use Rattle.outside.specs.Outside.{served_of};

    type File = Stream<R::File>;

    type Gear = RealGear<'a, R>;

    type Link = RealLink<'a, R>;

    ghost state = { λ world. record {
      faults = world.faults;
      lent = world.lent;
      files = map (λ pair. served_of (⟦<Stream<R::File> as Device>⟧.told pair.0) (⟦<Stream<R::File> as Device>⟧.faults pair.0)) world.files.items;
      gears = map (λ pair. ⟦<RealGear<'a, R> as Counted>⟧.state pair.0) world.gears.items;
      link = option_map ⟦<RealLink<'a, R> as Link>⟧.link world.link;
      opened = world.opened.items;
    } };

    ghost text = { λ _ _. None };

    ghost gives_quota = { true };

    fn open_file(&mut self, name: &Bytes) -> Result<Stream<R::File>, WorldFault> {
        if self.lent == usize::MAX {
            return Err(WorldFault::OutOfMemory);
        }
        let Some(kept) = name_to_keep(&mut self.opened, name) else {
            return Err(WorldFault::OutOfMemory);
        };
        let Ok(file) = opened_file(self.rt, name) else {
            return Err(failed(&mut self.faults));
        };
        self.opened.push_reserved(Opening::File(kept));
        self.lent += 1;
        Ok(file)
    }

    fn close_file(&mut self, file: Stream<R::File>) {
        self.files = self.files.and(&file, &());
        self.lent -= 1;
    }

    fn start_gears(
        &mut self,
        address: &Bytes,
        n: usize,
        quota: u32,
    ) -> Result<Vec<RealGear<'a, R>>, WorldFault> {
        let Some(name) = name_to_keep(&mut self.opened, address) else {
            return Err(WorldFault::OutOfMemory);
        };
        match started(self.rt, self.alloc, address, n, quota) {
            Ok(gears) => {
                self.opened.push_reserved(Opening::Gears(name, n, quota));
                Ok(gears)
            }
            Err(WorldFault::Failed) => Err(failed(&mut self.faults)),
            Err(WorldFault::OutOfMemory) => Err(WorldFault::OutOfMemory),
        }
    }

    fn stop_gears(&mut self, gears: Vec<RealGear<'a, R>>)
        ensures text { ⟦<RealWorld<'a, R> as World>⟧.text self.new ≡ ⟦<RealWorld<'a, R> as World>⟧.text self.old }
        ensures state { ⟦<RealWorld<'a, R> as World>⟧.state self.new
            ≡ with_gears (map ⟦<RealGear<'a, R> as Counted>⟧.state gears.entry.items) (⟦<RealWorld<'a, R> as World>⟧.state self.old) }
    {
        let mut taken_back = Log::new();
        let mut failed = 0;
        for gear in &gears {
            taken_back = taken_back.and(gear, &());
            failed += usize::from(gear.has_failed());
        }
        self.gears = taken_back;
        let _ = eprintln!(self.rt;
            "gnap: all {} workers have ended, {failed} of them by a fault",
            gears.len()
        );
    }

    fn open_link(&mut self, address: &Bytes) -> Result<RealLink<'a, R>, WorldFault> {
        let Some(name) = name_to_keep(&mut self.opened, address) else {
            return Err(WorldFault::OutOfMemory);
        };
        let Ok(kept) = address.copy() else {
            return Err(WorldFault::OutOfMemory);
        };
        self.opened.push_reserved(Opening::Link(name));
        Ok(RealLink::new(self.rt, self.alloc, kept))
    }

    fn close_link(&mut self, link: RealLink<'a, R>) {
        self.link = Some(link);
    }
}

// The file of this path. A fault is told.
fn opened_file<R: Files + Eprint>(rt: &R, name: &Bytes) -> Result<Stream<R::File>, Failed>
    ensures told { IfOk result (λ file. ⟦<Stream<R::File> as Device>⟧.told file ≡ untouched None) }
    ensures faults { IfOk result (λ file. ⟦<Stream<R::File> as Device>⟧.faults file ≡ 0) }
{
    let Ok(path) = str::from_utf8(name.as_slice()) else {
        tell_no_text(rt);
        return Err(Failed);
    };
    match fs::open(rt, path) {
        Ok(file) => Ok(Stream::new(file)),
        Err(error) => {
            tell_unopened(rt, path, &error);
            Err(Failed)
        }
    }
}

// A listener at this address, for workers to share. A fault is told.
fn listening<R: Net<Listener = TcpListener, Stream = TcpStream> + Eprint>(
    rt: &R,
    alloc: Global,
    address: &Bytes,
) -> Result<Arc<SharedListener, Global>, WorldFault> {
    let Ok(address) = str::from_utf8(address.as_slice()) else {
        tell_no_text(rt);
        return Err(WorldFault::Failed);
    };
    match TcpListener::bind(rt, address) {
        Ok(listener) => match Arc::new(alloc, SharedListener::new(listener)) {
            Ok(shared) => Ok(shared),
            Err(_) => Err(WorldFault::OutOfMemory),
        },
        Err(error) => {
            tell_address(rt, address, &error);
            Err(WorldFault::Failed)
        }
    }
}

// So many gears that share one listener, each with the words of a stream of its own under one seed of the system's.
fn started<'a, R: Net<Listener = TcpListener, Stream = TcpStream> + Clock + RandomSource + Eprint>(
    rt: &'a R,
    alloc: Global,
    address: &Bytes,
    n: usize,
    quota: u32,
) -> Result<Vec<RealGear<'a, R>>, WorldFault>
    ensures started { IfOk result (λ gears. AreStarted ⟦<RealGear<'a, R> as Counted>⟧.state n quota gears.items) }
    ensures full { IfOk result (λ gears. AreFull ⟦<RealGear<'a, R> as Counted>⟧.state quota gears.items) }
{
    // From `getentropy`, the system's generator, so no file such as /dev/urandom is opened.
    let mut seed = [0u8; 32];
    if rt.fill_bytes(&mut seed).is_err() {
        tell_no_entropy(rt);
        return Err(WorldFault::Failed);
    }
    let Ok(room) = Vec::with_capacity(alloc, n) else {
        return Err(WorldFault::OutOfMemory);
    };
    let shared = listening(rt, alloc, address)?;
    let gears = fill_gears(rt, &shared, seed, n, quota, room)?;
    tell_listening(rt, &shared, n, quota);
    Ok(gears)
}

fn fill_gears<'a, R: Clock>(
    rt: &'a R,
    shared: &Arc<SharedListener, Global>,
    seed: [u8; 32],
    n: usize,
    quota: u32,
    mut gears: Vec<RealGear<'a, R>>,
) -> Result<Vec<RealGear<'a, R>>, WorldFault>
    requires { (vec_len gears ≡ 0) × (n ≤ vec_capacity gears) }
    ensures started { IfOk result (λ gears. AreStarted ⟦<RealGear<'a, R> as Counted>⟧.state n quota gears.items) }
    ensures full { IfOk result (λ gears. AreFull ⟦<RealGear<'a, R> as Counted>⟧.state quota gears.items) }
{
    while gears.len() < n {
        let Ok(share) = Arc::try_clone(shared) else {
            return Err(WorldFault::OutOfMemory);
        };
        let number = gears.len() as u64;
        gears.push_reserved(RealGear::new(rt, share, seed, number, quota));
    }
    Ok(gears)
}
