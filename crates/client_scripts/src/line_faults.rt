//! Why a line is none of a script.
ghost use Rattle.std.specs.Prelude.{◌≡◌};
ghost use Rattle.client_scripts.specs.declared.line_faults.LineFault.TheVariants.{OutOfMemory};
ghost use Rattle.client_scripts.specs.Lines.{name_of, form_of, in_body, missing, wrong};

use bytes_and_lists::memory::Mem;
use gnap_objects::ObjectFault;
use std::fmt;

/// A member of a line.
#[derive(Clone, Copy)]
pub enum LineMember {
    At,
    Nonce,
    Do,
    Body,
    Hash,
    Reference,
    Token,
    Method,
    Path,
}

impl LineMember {
    /// The member's name.
    pub fn name(self) -> &'static str
        ensures { result.now ≡ name_of self }
    {
        match self {
            LineMember::At => "at",
            LineMember::Nonce => "nonce",
            LineMember::Do => "do",
            LineMember::Body => "body",
            LineMember::Hash => "hash",
            LineMember::Reference => "reference",
            LineMember::Token => "token",
            LineMember::Method => "method",
            LineMember::Path => "path",
        }
    }

    /// What the member has to be, in words.
    pub fn form(self) -> &'static str
        ensures { result.now ≡ form_of self }
    {
        match self {
            LineMember::At => "a moment (0 to 253402300799, in seconds since 1970)",
            LineMember::Nonce => "1 to 64 letters, digits, `.`, `_` or `-`",
            LineMember::Do => "begin, poll, finish, patch, cancel, rotate, revoke or use",
            LineMember::Body => "an object with whole numbers",
            LineMember::Hash | LineMember::Reference => "a string",
            LineMember::Token => "a whole number from 0 to 2^64 - 1",
            LineMember::Method => "1 to 15 upper-case letters",
            LineMember::Path => "`/` and at most 2,047 bytes from 0x21 to 0x7E",
        }
    }
}

/// The first fault of a line that is none of a script.
#[derive(Drop)]
pub enum BadLine {
    /// It is no JSON text in UTF-8.
    NotJson,
    /// A member that it has to have is absent.
    Missing(LineMember),
    /// A member isn't of its form.
    Wrong(LineMember),
    /// `body` is an object, but no grant request or modification, for this fault.
    InBody(ObjectFault),
}

/// Why a line can't be carried out.
#[derive(Drop)]
pub enum LineFault {
    BadLine(BadLine),
    OutOfMemory,
}

impl From<Mem> for LineFault {
    ghost from_gives = { λ _ e. e ≡ OutOfMemory };

    fn from(_e: Mem) -> LineFault {
        LineFault::OutOfMemory
    }
}

impl From<ObjectFault> for LineFault {
    ghost from_gives = { λ fault e. e ≡ in_body fault };

    fn from(fault: ObjectFault) -> LineFault {
        match fault {
            ObjectFault::OutOfMemory => LineFault::OutOfMemory,
            fault => LineFault::BadLine(BadLine::InBody(fault)),
        }
    }
}

impl fmt::Display for BadLine {
    fn fmt<W: fmt::Write>(&self, f: &mut fmt::Formatter<W>) -> fmt::Result {
        match self {
            BadLine::NotJson => f.write_str("it is no JSON"),
            BadLine::Missing(member) => write!(f, "member `{}` is missing", member.name()),
            BadLine::Wrong(member) => {
                write!(f, "member `{}` isn't {}", member.name(), member.form())
            }
            BadLine::InBody(fault) => write!(f, "in `body`, {fault}"),
        }
    }
}

impl fmt::Display for LineFault {
    fn fmt<W: fmt::Write>(&self, f: &mut fmt::Formatter<W>) -> fmt::Result {
        match self {
            LineFault::BadLine(why) => write!(f, "{why}"),
            LineFault::OutOfMemory => f.write_str("memory ran out"),
        }
    }
}

/// That this member is absent.
pub(crate) fn missing(member: LineMember) -> LineFault
    ensures { result ≡ missing member }
{
    LineFault::BadLine(BadLine::Missing(member))
}

/// That this member isn't of its form.
pub(crate) fn wrong(member: LineMember) -> LineFault
    ensures { result ≡ wrong member }
{
    LineFault::BadLine(BadLine::Wrong(member))
}
