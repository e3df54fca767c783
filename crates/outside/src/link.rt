//! What requests are sent through.
ghost use Rattle.outside.specs.Links.{LinkState, Exchanges};

use bytes_and_lists::bytes::Bytes;
use thiserror::Error;

/// Why no reply came.
#[derive(Clone, Copy, Debug, Error)]
pub enum LinkFault {
    /// The link failed: its count of faults rose.
    #[error("the link failed")]
    Failed,
    /// Memory ran out, and nothing was sent.
    #[error("memory ran out")]
    OutOfMemory,
}

/// Sends requests, and gives their replies.
pub trait Link: Drop {
    /// Its faults, and its exchanges.
    ghost link: { Self → LinkState };

    /// Sends one request and gives the bytes of its reply.
    fn exchange(&mut self, request: &[u8]) -> Result<Bytes, LinkFault>
        ensures { Exchanges request.now (link self.old) (link self.new) result };
}
