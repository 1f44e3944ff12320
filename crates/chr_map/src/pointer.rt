//! Values behind a pointer that is shared.
ghost use Rattle.std.specs.Prelude.{◌≡◌, IfOk};

use crate::{Memory, Share};
use std::alloc::{Allocator, Global};
use std::marker::Model;
use std::sync::Arc;

/// A value that is shared and never changed. Contracts see the value.
#[derive(Drop)]
pub struct Pointer<T: Drop, A: Allocator = Global> {
    arc: Arc<T, A>,
}

impl<T: Drop, A: Allocator> Model for Pointer<T, A> {
    ghost use Rattle.std.specs.Arc.{arc_value};

    ghost Value = { T };

    ghost view = { λ pointer. arc_value pointer.arc };
}

impl<T: Drop, A: Allocator> Pointer<T, A> {
    /// The value, which gets a place of its own.
    pub fn new(alloc: A, value: T) -> Result<Pointer<T, A>, Memory>
        ensures { IfOk result (λ pointer. pointer ≡ value) }
    {
        Ok(Pointer {
            arc: Arc::new(alloc, value)?,
        })
    }

    /// The value.
    pub fn value(&self) -> &T
        ensures { result.now ≡ self.now }
    {
        &self.arc
    }
}

impl<T: Drop, A: Allocator> Share for Pointer<T, A> {
    fn share(&self) -> Result<Pointer<T, A>, Memory> {
        Ok(Pointer {
            arc: Arc::try_clone(&self.arc)?,
        })
    }
}
