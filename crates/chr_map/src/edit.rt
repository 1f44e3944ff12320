//! Changes of a value.
ghost use Rattle.std.specs.Prelude.{◌≡◌, OnErr, OnOk};

use crate::Memory;

/// What is done to a value.
pub trait Edit<V> {
    ghost edited: { Self → V → V };

    /// Does it. Where it is refused, the value is as it was.
    fn edit(&self, value: &mut V) -> Result<(), Memory>
        ensures ok { OnOk result (value.new ≡ edited self.now value.old) }
        ensures err { OnErr result (value.new ≡ value.old) };
}
