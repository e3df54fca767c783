//! Why a text gives no value.

use json::Invalid;
use std::alloc::{AllocError, AllocFailed};

#[derive(Clone, Copy, Debug, Drop, PartialEq, Eq)]
pub(crate) enum ReadFault {
    /// The text is no JSON value, nests too deep, or has a number too large for a float.
    Refused,
    OutOfMemory,
}

impl From<Invalid> for ReadFault {
    ghost use Rattle.std.specs.Prelude.{◌≡◌};
    ghost use Rattle.body_reading.specs.declared.read_fault.ReadFault.TheVariants.{Refused};

    ghost from_gives = { λ _ e. e ≡ Refused };

    fn from(_invalid: Invalid) -> ReadFault {
        ReadFault::Refused
    }
}

impl From<AllocError> for ReadFault {
    ghost use Rattle.std.specs.Prelude.{◌≡◌};
    ghost use Rattle.body_reading.specs.declared.read_fault.ReadFault.TheVariants.{OutOfMemory};

    ghost from_gives = { λ _ e. e ≡ OutOfMemory };

    fn from(_full: AllocError) -> ReadFault {
        ReadFault::OutOfMemory
    }
}

impl<T: Drop> From<AllocFailed<T>> for ReadFault {
    ghost use Rattle.std.specs.Prelude.{◌≡◌};
    ghost use Rattle.body_reading.specs.declared.read_fault.ReadFault.TheVariants.{OutOfMemory};

    ghost from_gives = { λ _ e. e ≡ OutOfMemory };

    fn from(_full: AllocFailed<T>) -> ReadFault {
        ReadFault::OutOfMemory
    }
}
