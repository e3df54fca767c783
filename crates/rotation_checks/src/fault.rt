//! Why the two signatures of a message don't pass.
ghost use Rattle.std.specs.Prelude.{◌≡◌};
ghost use Rattle.rotation_checks.specs.declared.fault.RotationFault.TheVariants.{OutOfMemory};

use bytes_and_lists::memory::Mem;
use message_signature::SigFault;
use thiserror::Error;

/// Why the two signatures of a message don't pass: the first of these that is so, in this order. Want of memory has no place in it.
#[derive(Clone, Copy, Debug, Error)]
pub enum RotationFault {
    /// The signature with the tag `gnap` has this fault, which is not want of memory.
    #[error("of the signature with the tag `gnap`: {0}")]
    First(SigFault),
    /// The signature with the tag `gnap-rotate` has this fault, which is not want of memory.
    #[error("of the signature with the tag `gnap-rotate`: {0}")]
    Second(SigFault),
    /// The second signature doesn't cover the first: its bytes, and its list with the parameters.
    #[error("the second signature doesn't cover the first")]
    NotChained,
    #[error("memory ran out")]
    OutOfMemory,
}

impl From<Mem> for RotationFault {
    ghost from_gives = { λ _ e. e ≡ OutOfMemory };

    fn from(_e: Mem) -> RotationFault {
        RotationFault::OutOfMemory
    }
}
