//! A listener that workers share. It knows whether a connection waits for one of them.
use libc::net::{POLLIN, poll};
use libc::types::pollfd;
use std::net::{SocketAddr, TcpListener, TcpStream};
use std::os::fd::AsRawFd;
use std::rt::Clock;
use std::sync::atomic::{AtomicU64, Ordering};
use std::time::Duration;
use std::{io, thread};

/// How often a worker asks for a connection before that is a fault. An attempt fails where no descriptor is free, or where the peer is gone
/// before it is accepted.
const TRIES: u32 = 12_000;

/// How long it waits after an attempt that failed, in milliseconds. So it gives up after some 120 seconds, the longest that a slow peer keeps a descriptor: as
/// long as a message and its reply may take.
const PAUSE: u64 = 10;

/// A listener, and how many workers are free: those that wait for a connection.
#[derive(Drop)]
pub struct SharedListener {
    listener: TcpListener,
    free: AtomicU64,
}

impl SharedListener {
    /// For which no worker waits yet.
    pub fn new(listener: TcpListener) -> SharedListener {
        SharedListener {
            listener,
            free: AtomicU64::new(0),
        }
    }

    /// Where it listens.
    pub(crate) fn address(&self) -> io::Result<SocketAddr> {
        self.listener.local_addr()
    }

    // One attempt. Between two of them a worker isn't free.
    fn try_accept(&self) -> io::Result<TcpStream> {
        self.free.fetch_add(1, Ordering::SeqCst);
        let accepted = self.listener.accept();
        self.free.fetch_sub(1, Ordering::SeqCst);
        Ok(accepted?.0)
    }

    /// The next connection. The fault is that of the last attempt.
    pub(crate) fn accept(&self, clock: &impl Clock) -> io::Result<TcpStream> {
        for _ in 1..TRIES {
            if let Ok(stream) = self.try_accept() {
                return Ok(stream);
            }
            thread::sleep(clock, Duration::from_millis(PAUSE));
        }
        self.try_accept()
    }

    /// Whether a connection waits to be accepted, and no worker is free.
    pub(crate) fn is_short_of_workers(&self) -> bool {
        if self.free.load(Ordering::SeqCst) > 0 {
            return false;
        }
        let mut asked = [pollfd {
            fd: self.listener.as_raw_fd(),
            events: POLLIN,
            revents: 0,
        }];
        poll(&mut asked, 0) > 0
    }
}
