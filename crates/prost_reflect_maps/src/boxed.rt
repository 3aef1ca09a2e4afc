//! Values on the heap.

ghost use Rattle.std.specs.Prelude.{◌≡◌, IfOk};
ghost use Rattle.std.specs.Borrow.{Lends, sem};
ghost use Rattle.prost_reflect_maps.specs.contracts.boxed.Boxed.{the_row};

use std::alloc::{AllocError, Global};
use std::marker::Model;

/// A value on the heap. Contracts see it as the value.
#[derive(Debug, Drop)]
pub struct Boxed<T> {
    inner: Box<T>,
}

impl<T> Model for Boxed<T> {
    ghost use Rattle.std.specs.Prelude.{◌≡◌};

    ghost Value = { T };

    ghost coded = { T.code };

    ghost view = { λ a. a.inner.value };
}

impl<T> Boxed<T> {
    /// The value.
    pub fn get(&self) -> &T
        ensures { result.now ≡ self.now }
    {
        &self.inner
    }

    /// The value, for writing.
    pub fn get_mut(&mut self) -> &mut T
        ensures* writes_back { sem 𝓛 (Lends (the_row T.row) T.row self.entry result (λ w. w)) }
        ensures value { result.now ≡ self.old }
    {
        &mut self.inner
    }

    /// The value, off the heap.
    pub fn into_inner(self) -> T
        ensures { result ≡ self }
    {
        let Boxed { inner } = self;
        Box::into_inner(inner)
    }
}

impl<T: Drop> Boxed<T> {
    /// A value on the heap.
    ///
    /// # Errors
    ///
    /// `AllocError` if out of memory.
    pub fn new(alloc: Global, value: T) -> Result<Boxed<T>, AllocError>
        ensures { IfOk result (λ boxed. boxed ≡ value) }
    {
        Ok(Boxed {
            inner: Box::new(alloc, value)?,
        })
    }
}
