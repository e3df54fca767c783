//! Why there is no next message.
use bytes_and_lists::memory::Mem;
use thiserror::Error;

/// Why a stream of bytes gives no message. After each of them the connection is over.
#[derive(Clone, Copy, Debug, PartialEq, Eq, Error)]
pub enum EdgeFault {
    /// The bytes can't become a head; or the head has several `Content-Length` fields, or one that isn't digits.
    #[error("the head isn't in the grammar, or doesn't say one length")]
    BadHead,
    /// The head has more than 64 fields, or isn't whole within 16,384 bytes; or its body has more than 65,536 bytes.
    #[error("the head or the body is too large")]
    TooLarge,
    /// The head names a transfer coding or a content coding.
    #[error("the head names a transfer coding or a content coding")]
    Coded,
    /// The input ended inside a message.
    #[error("the input ended inside a message")]
    Truncated,
    /// A read failed.
    #[error("a read failed")]
    ReadFault,
    #[error("memory ran out")]
    OutOfMemory,
}

impl From<Mem> for EdgeFault {
    ghost use Rattle.std.specs.Prelude.{◌≡◌};
    ghost use Rattle.http_edge.specs.declared.fault.EdgeFault.TheVariants.{OutOfMemory};

    ghost from_gives = { λ _ fault. fault ≡ OutOfMemory };

    fn from(_e: Mem) -> EdgeFault {
        EdgeFault::OutOfMemory
    }
}
