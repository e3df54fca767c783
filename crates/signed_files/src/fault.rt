//! Why a file is not answered with a text.
ghost use Rattle.std.specs.Prelude.{◌≡◌, ◌≢◌};
ghost use Rattle.signed_files.specs.declared.fault.FileFault.TheVariants.{OutOfMemory};
ghost use Rattle.signed_files.specs.MessageFiles.{HasEdgeFault};
ghost use Rattle.signed_files.specs.Verdicts.{HasSignatureFault};

use bytes_and_lists::memory::Mem;
use http_edge::EdgeFault;
use message_signature::SigFault;
use std::fmt;

/// Why a file is not answered with a text.
#[derive(Clone, Copy)]
pub enum FileFault {
    /// The file is no whole message, or its message isn't signed, or its signature isn't accepted: the name of the fault.
    Refused(&'static [u8]),
    /// A read of the file failed.
    ReadFault,
    OutOfMemory,
}

impl From<Mem> for FileFault {
    ghost from_gives = { λ _ fault. fault ≡ OutOfMemory };

    fn from(_e: Mem) -> FileFault {
        FileFault::OutOfMemory
    }
}

impl fmt::Display for FileFault {
    fn fmt<W: fmt::Write>(&self, f: &mut fmt::Formatter<W>) -> fmt::Result {
        match self {
            FileFault::Refused(name) => match str::from_utf8(name) {
                Ok(name) => write!(f, "refused {name}"),
                Err(_) => f.write_str("refused"),
            },
            FileFault::ReadFault => f.write_str("a read failed"),
            FileFault::OutOfMemory => f.write_str("memory ran out"),
        }
    }
}

/// The fault of a file that gives no message.
pub(crate) fn edge_fault(fault: EdgeFault) -> FileFault
    ensures { HasEdgeFault fault result }
{
    match fault {
        EdgeFault::BadHead => FileFault::Refused(b"BadHead"),
        EdgeFault::TooLarge => FileFault::Refused(b"TooLarge"),
        EdgeFault::Coded => FileFault::Refused(b"Coded"),
        EdgeFault::Truncated => FileFault::Refused(b"Truncated"),
        EdgeFault::ReadFault => FileFault::ReadFault,
        EdgeFault::OutOfMemory => FileFault::OutOfMemory,
    }
}

/// The fault of a message whose signature isn't accepted.
pub(crate) fn signature_fault(fault: SigFault) -> FileFault
    ensures named { HasSignatureFault fault result }
    ensures unread { result ≢ FileFault.ReadFault }
{
    match fault {
        SigFault::NoField => FileFault::Refused(b"NoField"),
        SigFault::NotAField => FileFault::Refused(b"NotAField"),
        SigFault::NoTag => FileFault::Refused(b"NoTag"),
        SigFault::SeveralTags => FileFault::Refused(b"SeveralTags"),
        SigFault::Malformed => FileFault::Refused(b"Malformed"),
        SigFault::Unsupported => FileFault::Refused(b"Unsupported"),
        SigFault::Uncovered => FileFault::Refused(b"Uncovered"),
        SigFault::Created => FileFault::Refused(b"Created"),
        SigFault::Expired => FileFault::Refused(b"Expired"),
        SigFault::Alg => FileFault::Refused(b"Alg"),
        SigFault::UnknownKey => FileFault::Refused(b"UnknownKey"),
        SigFault::Differs => FileFault::Refused(b"Differs"),
        SigFault::Digest => FileFault::Refused(b"Digest"),
        SigFault::OutOfMemory => FileFault::OutOfMemory,
    }
}
