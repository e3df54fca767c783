//! Why a rotation is not signed.
ghost use Rattle.std.specs.Prelude.{◌≡◌};
ghost use Rattle.key_rotation.specs.declared.fault.RotationSignFault.TheVariants.{OutOfMemory};

use bytes_and_lists::memory::Mem;
use thiserror::Error;

/// Why a message wasn't signed again.
#[derive(Clone, Copy, Debug, Error)]
pub enum RotationSignFault {
    /// Its signature isn't one alone under the label `sig1`, or there is a body and no `content-digest` field.
    #[error("the message isn't signed once, under `sig1`, or its body has no `content-digest`")]
    NotSigned,
    #[error("memory ran out")]
    OutOfMemory,
}

impl From<Mem> for RotationSignFault {
    ghost from_gives = { λ _ e. e ≡ OutOfMemory };

    fn from(_e: Mem) -> RotationSignFault {
        RotationSignFault::OutOfMemory
    }
}
