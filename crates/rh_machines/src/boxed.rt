//! Values on the heap, of which a move takes the address alone.

ghost use Rattle.std.specs.Prelude.{◌≡◌, IfOk, IfErr};

use std::alloc::{AllocFailed, Global};
use std::marker::Model;

/// A value on the heap. Contracts see the value.
#[derive(Drop)]
pub struct Boxed<T> {
    pub(crate) inner: Box<T>,
}

impl<T> Model for Boxed<T> {
    ghost Value = { T };

    ghost coded = { T.code };

    ghost view = { λ b. b.inner.value };
}

impl<T> Boxed<T> {
    /// Puts a value on the heap. For want of memory it comes back.
    pub fn new(alloc: Global, value: T) -> Result<Boxed<T>, AllocFailed<T>>
        ensures ok { IfOk result (λ boxed. boxed ≡ value) }
        ensures err { IfErr result (λ back. back.value ≡ value) }
    {
        Ok(Boxed {
            inner: Box::new(alloc, value)?,
        })
    }
}
