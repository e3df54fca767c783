//! Why a digest doesn't pass.
ghost use Rattle.std.specs.Prelude.{◌≡◌};
ghost use Rattle.content_digest.specs.declared.fault.DigestFault.TheVariants.{OutOfMemory};

use bytes_and_lists::bytes::Bytes;
use bytes_and_lists::memory::Mem;
use std::fmt;

/// Why a Content-Digest field doesn't pass.
#[derive(Drop)]
pub enum DigestFault {
    /// No dictionary, or the member under `sha-256` or `sha-512` isn't a byte sequence.
    NotAField,
    /// Neither `sha-256` nor `sha-512` is there.
    NoKnown,
    /// The first of the two, in the dictionary's order, that isn't the digest of the body.
    Differs {
        /// The digest of the body: 32 or 64 bytes.
        wanted: Bytes,
        /// What stands in the field.
        found: Bytes,
    },
    OutOfMemory,
}

impl From<Mem> for DigestFault {
    ghost from_gives = { λ _ e. e ≡ OutOfMemory };

    fn from(_e: Mem) -> DigestFault {
        DigestFault::OutOfMemory
    }
}

impl fmt::Display for DigestFault {
    fn fmt<W: fmt::Write>(&self, f: &mut fmt::Formatter<W>) -> fmt::Result {
        f.write_str(match self {
            DigestFault::NotAField => "`content-digest` isn't a dictionary of byte sequences",
            DigestFault::NoKnown => "`content-digest` has neither `sha-256` nor `sha-512`",
            DigestFault::Differs { .. } => "`content-digest` isn't the digest of the body",
            DigestFault::OutOfMemory => "memory ran out",
        })
    }
}
