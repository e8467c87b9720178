//! Values on the heap.

ghost use Rattle.std.specs.Prelude.{◌≡◌, IfOk};

use std::alloc::{AllocError, Global};
use std::marker::Model;

/// A value on the heap, which contracts see as the value itself. A command has fifty fields, and
/// the proof of a function has all fields of each value that the function moves; those of a parcel
/// are a pointer.
#[derive(Drop)]
pub(crate) struct Parcel<T> {
    inner: Box<T>,
}

impl<T> Model for Parcel<T> {
    ghost Value = { T };

    ghost coded = { T.code };

    ghost view = { λ p. p.inner.value };
}

impl<T> Parcel<T> {
    /// The value.
    pub fn open(self) -> T
        ensures { result ≡ self }
    {
        let Parcel { inner } = self;
        Box::into_inner(inner)
    }

    /// What the value's place was allocated with.
    pub fn allocator(&self) -> Global {
        *Box::allocator(&self.inner)
    }
}

/// A value that is being made, unless memory ran out. Each step takes it and hands it on.
pub(crate) type Making<T> = Result<Parcel<T>, AllocError>;

/// Puts a value on the heap.
pub(crate) fn pack<T: Drop>(alloc: Global, value: T) -> Making<T>
    ensures { IfOk result (λ p. p ≡ value) }
{
    Ok(Parcel {
        inner: Box::new(alloc, value)?,
    })
}
