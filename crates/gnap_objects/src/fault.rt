//! Why an object isn't of its form.
ghost use Rattle.std.specs.Prelude.{◌≡◌, ◌⊎◌, option_map};
ghost use Rattle.gnap_objects.specs.declared.fault.ObjectFault.TheVariants.{Missing, Wrong, TooMany, Flag, Unknown, OutOfMemory};
ghost use Rattle.gnap_objects.specs.Faults.{faulty_member, fault_words};

use bytes_and_lists::bytes::Bytes;
use bytes_and_lists::memory::Mem;
use std::alloc::Global;
use std::fmt;

/// The first fault that a reader meets, with the name of the member in which it stands.
#[derive(Drop)]
pub enum ObjectFault {
    /// A required member is absent.
    Missing(Bytes),
    /// Another JSON type, or a form that isn't read.
    Wrong(Bytes),
    /// A length or a count is passed.
    TooMany(Bytes),
    /// A flag stands twice.
    Flag(Bytes),
    /// A setup's object has no such member. Requests may have others.
    Unknown(Bytes),
    OutOfMemory,
}

impl From<Mem> for ObjectFault {
    ghost from_gives = { λ _ e. e ≡ OutOfMemory };

    fn from(_e: Mem) -> ObjectFault {
        ObjectFault::OutOfMemory
    }
}

impl ObjectFault {
    /// The name of the member at fault. None where memory ran out.
    pub fn member(&self) -> Option<&Bytes>
        ensures { option_map (λ name. name.now) result ≡ faulty_member self.now }
    {
        match self {
            ObjectFault::Missing(name)
            | ObjectFault::Wrong(name)
            | ObjectFault::TooMany(name)
            | ObjectFault::Flag(name)
            | ObjectFault::Unknown(name) => Some(name),
            ObjectFault::OutOfMemory => None,
        }
    }

    /// What is wrong with that member, in words that stand behind its name; or that memory ran out.
    pub fn words(&self) -> &'static str
        ensures { result.now ≡ fault_words self.now }
    {
        match self {
            ObjectFault::Missing(_) => "is missing",
            ObjectFault::Wrong(_) => "isn't of its form",
            ObjectFault::TooMany(_) => "is too long or has too many items",
            ObjectFault::Flag(_) => "has a flag twice",
            ObjectFault::Unknown(_) => "isn't known here",
            ObjectFault::OutOfMemory => "memory ran out",
        }
    }

    pub(crate) fn missing(alloc: Global, name: &str) -> ObjectFault
        ensures { (result ≡ OutOfMemory) ⊎ (result ≡ Missing name.now) }
    {
        match Bytes::from_slice(alloc, name.as_bytes()) {
            Ok(name) => ObjectFault::Missing(name),
            Err(Mem) => ObjectFault::OutOfMemory,
        }
    }

    pub(crate) fn wrong(alloc: Global, name: &str) -> ObjectFault
        ensures { (result ≡ OutOfMemory) ⊎ (result ≡ Wrong name.now) }
    {
        match Bytes::from_slice(alloc, name.as_bytes()) {
            Ok(name) => ObjectFault::Wrong(name),
            Err(Mem) => ObjectFault::OutOfMemory,
        }
    }

    pub(crate) fn too_many(alloc: Global, name: &str) -> ObjectFault
        ensures { (result ≡ OutOfMemory) ⊎ (result ≡ TooMany name.now) }
    {
        match Bytes::from_slice(alloc, name.as_bytes()) {
            Ok(name) => ObjectFault::TooMany(name),
            Err(Mem) => ObjectFault::OutOfMemory,
        }
    }

    pub(crate) fn flag(alloc: Global, name: &str) -> ObjectFault
        ensures { (result ≡ OutOfMemory) ⊎ (result ≡ Flag name.now) }
    {
        match Bytes::from_slice(alloc, name.as_bytes()) {
            Ok(name) => ObjectFault::Flag(name),
            Err(Mem) => ObjectFault::OutOfMemory,
        }
    }

    pub(crate) fn unknown(alloc: Global, name: &str) -> ObjectFault
        ensures { (result ≡ OutOfMemory) ⊎ (result ≡ Unknown name.now) }
    {
        match Bytes::from_slice(alloc, name.as_bytes()) {
            Ok(name) => ObjectFault::Unknown(name),
            Err(Mem) => ObjectFault::OutOfMemory,
        }
    }
}

/// Shows the member's name as it is. A name that isn't known may be of somebody else.
impl fmt::Display for ObjectFault {
    fn fmt<W: fmt::Write>(&self, f: &mut fmt::Formatter<W>) -> fmt::Result {
        let Some(name) = self.member() else {
            return f.write_str(self.words());
        };
        match str::from_utf8(name.as_slice()) {
            Ok(name) => write!(f, "member `{name}` {}", self.words()),
            Err(_) => write!(f, "a member {}", self.words()),
        }
    }
}
