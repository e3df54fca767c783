//! Why a text is not read.
ghost use Rattle.std.specs.Prelude.{◌≡◌};
ghost use Rattle.structured_fields.specs.declared.fault.FieldFault.TheVariants.{OutOfMemory};

use bytes_and_lists::memory::Mem;
use thiserror::Error;

/// Why a text is not read, or a value not written.
#[derive(Clone, Copy, Debug, Error)]
pub enum FieldFault {
    #[error("not in the grammar")]
    NotInGrammar,
    #[error("memory ran out")]
    OutOfMemory,
}

impl From<Mem> for FieldFault {
    ghost from_gives = { λ _ e. e ≡ OutOfMemory };

    fn from(_e: Mem) -> FieldFault {
        FieldFault::OutOfMemory
    }
}
