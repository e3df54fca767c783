//! The real gears, which share one listener. They tell by lists that take no memory which connections they took back and which moments and
//! words they gave. What the network, the clock and the generator give is trusted.
ghost use Rattle.std.specs.Prelude.{◌≡◌, ◌+◌, ◌<◌, ◌≤◌, ◌^◌, All, map};
ghost use Rattle.bytes_and_lists.specs.Moments.{last_moment};
ghost use Rattle.outside.specs.Gears.{new_gear, with_moment};

use crate::adapters::Stream;
use crate::device::{Device, Failed};
use crate::gear::{Clock, Counted, Door, Draws, Gear};
use crate::shared_listener::SharedListener;
use crate::timed_socket::TimedSocket;
use http_server::Log;
use random_words::{RandomWords, WordStream};
use std::alloc::Global;
use std::rt;
use std::sync::Arc;
use std::time::SystemTime;

/// The last second of the year 9999, in seconds since 1970.
const LAST_MOMENT: u64 = 253_402_300_799;

/// One worker's part of the system: a share in a listener, the system's clock, and words of ChaCha20 in a stream of its own.
#[derive(Drop)]
pub struct RealGear<'a, R: rt::Clock> {
    rt: &'a R,
    listener: Arc<SharedListener, Global>,
    number: u64,
    left: u32,
    out: u32,
    faults: u64,
    served: Log<Stream<TimedSocket<'a, R>>, ()>,
    moment: u64,
    moments: Log<u64, ()>,
    words: WordStream,
    draws: Log<RandomWords, ()>,
    ghost fits: { out + left < 2 ^ 32 },
    ghost bound: { moment ≤ last_moment },
    ghost later: { All (λ given. given ≤ moment) (map (λ pair. pair.0) moments.items) },
}

impl<'a, R: rt::Clock> RealGear<'a, R> {
    /// The gear of this number, for so many connections, with the words of the stream of its number under the seed.
    pub fn new(
        rt: &'a R,
        listener: Arc<SharedListener, Global>,
        seed: [u8; 32],
        number: u64,
        quota: u32,
    ) -> RealGear<'a, R>
        ensures { ⟦<RealGear<'a, R> as Counted>⟧.state result ≡ new_gear quota }
    {
        RealGear {
            rt,
            listener,
            number,
            left: quota,
            out: 0,
            faults: 0,
            served: Log::new(),
            moment: 0,
            moments: Log::new(),
            words: WordStream::new(seed, number),
            draws: Log::new(),
        }
    }
}

impl<'a, R: rt::Clock> Counted for RealGear<'a, R> {
    ghost use Rattle.std.specs.Prelude.{map};
    ghost use Rattle.outside.specs.Outside.{served_of};

    ghost state = { λ gear. record {
      out = gear.out;
      left = gear.left;
      faults = gear.faults;
      log = record {
        served = map (λ pair. served_of (⟦<Stream<TimedSocket<'a, R>> as Device>⟧.told pair.0)
            (⟦<Stream<TimedSocket<'a, R>> as Device>⟧.faults pair.0)) gear.served.items;
        moments = map (λ pair. pair.0) gear.moments.items;
        draws = map (λ pair. pair.0) gear.draws.items;
      };
    } };
}

impl<'a, R: rt::Clock + Eprint + Sync> Door for RealGear<'a, R> {
    type Conn = Stream<TimedSocket<'a, R>>;

    fn accept(&mut self) -> Result<Option<Stream<TimedSocket<'a, R>>>, Failed> {
        if self.left == 0 {
            let _ = eprintln!(self.rt;
                "gnap: worker {} ends: it has served QUOTA connections",
                self.number
            );
            return Ok(None);
        }
        match self.listener.accept(self.rt) {
            Ok(stream) => {
                self.left -= 1;
                self.out += 1;
                let listener = Arc::try_clone(&self.listener).ok();
                Ok(Some(Stream::new(TimedSocket::new(self.rt, stream, listener))))
            }
            Err(error) => {
                let _ = eprintln!(self.rt;
                    "gnap: worker {} ends: it got no connection: {error}",
                    self.number
                );
                self.faults = self.faults.saturating_add(1);
                Err(Failed)
            }
        }
    }

    fn leave(&mut self, conn: Stream<TimedSocket<'a, R>>) {
        self.served = self.served.and(&conn, &());
        self.out -= 1;
    }

    fn has_failed(&self) -> bool {
        0 < self.faults
    }
}

// The seconds since 1970, where the clock can be read.
fn seconds(rt: &impl rt::Clock) -> Option<u64> {
    let now = SystemTime::now(rt).ok()?;
    let since = now.duration_since(SystemTime::UNIX_EPOCH).ok()?;
    Some(since.as_secs())
}

// The moment to give after the last one, by what was read of the clock.
fn moment_after(last: u64, read: Option<u64>) -> u64
    requires { last ≤ last_moment }
    ensures bound { result ≤ last_moment }
    ensures later { last ≤ result }
{
    match read {
        Some(moment) => last.max(moment.min(LAST_MOMENT)),
        None => last,
    }
}

impl<'a, R: rt::Clock> Clock for RealGear<'a, R> {
    /// It is never less than a moment that was given before. Where the system's clock can't be read, the last moment is given again.
    fn now(&mut self) -> u64
        ensures bound { result ≤ last_moment }
        ensures state { ⟦<RealGear<'a, R> as Counted>⟧.state self.new ≡ with_moment result (⟦<RealGear<'a, R> as Counted>⟧.state self.old) }
        ensures later { All (λ moment. moment ≤ result) (⟦<RealGear<'a, R> as Counted>⟧.state self.old).log.moments }
    {
        self.moment = moment_after(self.moment, seconds(self.rt));
        self.moments = self.moments.and(&self.moment, &());
        self.moment
    }
}

impl<'a, R: rt::Clock> Draws for RealGear<'a, R> {
    fn draw(&mut self) -> RandomWords {
        let draw = self.words.draw();
        self.draws = self.draws.and(&draw, &());
        draw
    }
}

impl<'a, R: rt::Clock + Eprint + Sync> Gear for RealGear<'a, R> {}
