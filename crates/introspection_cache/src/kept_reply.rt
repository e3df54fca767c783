//! A reply that is kept.
ghost use Rattle.std.specs.Prelude.{◌≡◌};
ghost use Rattle.introspection_cache.specs.Caching.{is_fresh};

use bytes_and_lists::bytes::Bytes;
use bytes_and_lists::memory::Duplicate;

/// A reply that says that a token is live.
#[derive(Drop)]
pub struct KeptReply {
    /// All bytes that the link gave.
    pub reply: Bytes,
    /// The second, since 1970, at which it came.
    pub moment: u64,
    /// The second from which on the token isn't live any more, by this reply.
    pub exp: u64,
}

/// The same bytes in a block of their own size. A block that is shrunk where it lies leaves a gap that is too short for the next reply. Where no block
/// is to be had, they keep theirs.
pub(crate) fn without_spare_room(bytes: Bytes) -> Bytes
    ensures { result ≡ bytes }
{
    match bytes.copy() {
        Ok(fitted) => fitted,
        Err(_) => bytes,
    }
}

impl KeptReply {
    /// The same, whose bytes have no spare room.
    pub(crate) fn fitted(self) -> KeptReply
        ensures { result ≡ self }
    {
        KeptReply {
            reply: without_spare_room(self.reply),
            moment: self.moment,
            exp: self.exp,
        }
    }

    /// Whether it came at this moment or at most 30 seconds before, and the token still lasts.
    pub(crate) fn is_fresh(&self, now: u64) -> bool
        ensures { result ≡ is_fresh now self.now }
    {
        self.moment <= now && now - self.moment <= 30 && now < self.exp
    }
}
