//! Why nothing came of a line.
use bytes_and_lists::memory::Mem;
use std::alloc::{AllocError, AllocFailed};

#[derive(Clone, Copy, Debug, PartialEq, Eq)]
pub enum Fault {
    /// It isn't of the form of a case.
    NotACase,
    /// Memory ran out.
    OutOfMemory,
}

impl From<Mem> for Fault {
    fn from(_e: Mem) -> Fault {
        Fault::OutOfMemory
    }
}

impl From<AllocError> for Fault {
    fn from(_e: AllocError) -> Fault {
        Fault::OutOfMemory
    }
}

impl<T: Drop> From<AllocFailed<T>> for Fault {
    fn from(_e: AllocFailed<T>) -> Fault {
        Fault::OutOfMemory
    }
}

impl From<serde_json::Error> for Fault {
    fn from(e: serde_json::Error) -> Fault {
        if e.is_memory() {
            Fault::OutOfMemory
        } else {
            Fault::NotACase
        }
    }
}
