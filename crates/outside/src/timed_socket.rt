//! A socket whose peer has to bring each message and to take each reply in time. What comes too late is a read or a write that fails.
ghost use Rattle.std.specs.Prelude.{◌≡◌, ◌<◌, ◌≤◌};

use crate::shared_listener::SharedListener;
use std::alloc::Global;
use std::io;
use std::io::{ErrorKind, Read, Write};
use std::net::TcpStream;
use std::rt::Clock;
use std::sync::Arc;
use std::time::{Duration, Instant};

/// How long a message may take from its first byte to its last, and a reply to be taken, in seconds.
const MESSAGE_LIMIT: u64 = 60;

/// How long a connection may bring nothing where a message may begin, in seconds.
const IDLE_LIMIT: u64 = 60;

/// How long a connection that had its reply may bring nothing where another one waits and no worker is free, in seconds.
const SPARE_LIMIT: u64 = 1;

/// How long a call of the system waits before the clock is looked at, in milliseconds.
const LOOK: u64 = 250;

/// How many calls of the system one read or write makes at most. Each but the last waited, or was cut short by a signal.
const MOST_CALLS: u32 = 100_000;

// What a connection is at.
#[derive(Clone, Copy, PartialEq, Eq)]
enum Phase {
    /// Before its first message.
    New,
    /// In a message.
    Message,
    /// In a reply.
    Reply,
    /// Behind a reply.
    Idle,
}

/// A connection, and since when it is at what it is at.
#[derive(Drop)]
pub struct TimedSocket<'a, R> {
    clock: &'a R,
    stream: TcpStream,
    // Where others may wait. A connection that was made, and not accepted, has none.
    listener: Option<Arc<SharedListener, Global>>,
    phase: Phase,
    since: Option<Instant>,
}

impl<'a, R: Clock> TimedSocket<'a, R> {
    /// A connection that nothing was done with. What is written to it is sent at once.
    pub(crate) fn new(
        clock: &'a R,
        stream: TcpStream,
        listener: Option<Arc<SharedListener, Global>>,
    ) -> TimedSocket<'a, R> {
        let look = Some(Duration::from_millis(LOOK));
        let _ = stream.set_read_timeout(look);
        let _ = stream.set_write_timeout(look);
        let _ = stream.set_nodelay(true);
        TimedSocket {
            clock,
            stream,
            listener,
            phase: Phase::New,
            since: Instant::now(clock).ok(),
        }
    }

    fn enter(&mut self, phase: Phase) {
        self.phase = phase;
        self.since = Instant::now(self.clock).ok();
    }

    // Whether the phase began so many seconds ago. Where the clock can't be read it did.
    fn has_lasted(&self, limit: u64) -> bool {
        let Some(since) = self.since else {
            return true;
        };
        match since.elapsed(self.clock) {
            Ok(elapsed) => elapsed.as_secs() >= limit,
            Err(_) => true,
        }
    }

    // Whether a worker is to be free of it that somebody waits for.
    fn is_spare(&self) -> bool {
        match &self.listener {
            Some(listener) => self.has_lasted(SPARE_LIMIT) && listener.is_short_of_workers(),
            None => false,
        }
    }

    fn is_late(&self) -> bool {
        match self.phase {
            Phase::Message | Phase::Reply => self.has_lasted(MESSAGE_LIMIT),
            Phase::New => self.has_lasted(IDLE_LIMIT),
            Phase::Idle => self.has_lasted(IDLE_LIMIT) || self.is_spare(),
        }
    }
}

// Whether the call may be made again: it waited in vain, or a signal cut it short.
fn is_passing(error: &io::Error) -> bool {
    matches!(error.kind(), ErrorKind::WouldBlock | ErrorKind::Interrupted)
}

impl<'a, R: Clock> Read for TimedSocket<'a, R> {
    fn read(&mut self, buf: &mut [u8]) -> io::Result<usize> {
        // A phase that begins here isn't late yet, so the clock isn't asked again.
        if self.phase == Phase::Reply {
            self.enter(Phase::Idle);
        } else if self.is_late() {
            return Err(io::Error::from(ErrorKind::TimedOut));
        }
        for _ in 0..MOST_CALLS {
            match self.stream.read(buf) {
                Ok(count) => {
                    if self.phase != Phase::Message {
                        self.enter(Phase::Message);
                    }
                    return Ok(count);
                }
                Err(error) if is_passing(&error) => {}
                Err(error) => return Err(error),
            }
            if self.is_late() {
                break;
            }
        }
        Err(io::Error::from(ErrorKind::TimedOut))
    }
}

impl<'a, R: Clock> Write for TimedSocket<'a, R> {
    fn write(&mut self, piece: &[u8]) -> io::Result<usize> {
        if self.phase != Phase::Reply {
            self.enter(Phase::Reply);
        } else if self.is_late() {
            return Err(io::Error::from(ErrorKind::TimedOut));
        }
        for _ in 0..MOST_CALLS {
            match self.stream.write(piece) {
                Err(error) if is_passing(&error) => {}
                ended => return ended,
            }
            if self.is_late() {
                break;
            }
        }
        Err(io::Error::from(ErrorKind::TimedOut))
    }

    fn flush(&mut self) -> io::Result<()> {
        self.stream.flush()
    }
}
