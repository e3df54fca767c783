//! A value in memory of its own.
ghost use Rattle.std.specs.Prelude.{◌≡◌, IfOk};

use bytes_and_lists::memory::{Duplicate, Mem};
use std::alloc::Global;
use std::marker::Model;

/// A value that lies in memory of its own, so that what holds it is small: it is moved often, and the value seldom read. Contracts see the value.
#[derive(Drop)]
pub struct Boxed<T> {
    kept: Box<T>,
    alloc: Global,
}

impl<T> Model for Boxed<T> {
    ghost Value = { T };

    ghost view = { λ b. b.kept.value };
}

impl<T: Drop> Boxed<T> {
    /// Puts the value into memory of its own. An `Err` lets the value go.
    pub fn new(alloc: Global, value: T) -> Result<Boxed<T>, Mem>
        ensures { IfOk result (λ boxed. boxed ≡ value) }
    {
        Ok(Boxed {
            kept: Box::new(alloc, value)?,
            alloc,
        })
    }
}

impl<T> Boxed<T> {
    /// The value.
    pub fn get(&self) -> &T
        ensures { result.now ≡ self.now }
    {
        self.kept.as_ref()
    }
}

impl<T: Duplicate> Duplicate for Boxed<T> {
    fn copy(&self) -> Result<Boxed<T>, Mem> {
        Boxed::new(self.alloc, self.get().copy()?)
    }
}
