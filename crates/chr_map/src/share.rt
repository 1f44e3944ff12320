//! Values that can be had twice.
ghost use Rattle.std.specs.Prelude.{◌≡◌, IfOk};

use crate::Memory;

/// A value that can be had twice at the price of a pointer or two.
pub trait Share: Drop {
    /// The value a second time.
    fn share(&self) -> Result<Self, Memory>
        ensures { IfOk result (λ shared. shared ≡ self.now) };
}

impl Share for () {
    fn share(&self) -> Result<(), Memory> {
        Ok(())
    }
}
