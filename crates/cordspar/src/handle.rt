//! What stands behind a handle.
ghost use Rattle.std.specs.Prelude.{◌≡◌, IfOk};
ghost use Rattle.std.specs.Box.Ownership.{box_owns};
ghost use Rattle.std.specs.contracts.impls.GlobalAllocator.TheImpl.{ghosts};
ghost use Rattle.cordspar.specs.contracts.held.Held.{the_row};

use crate::held::Held;
use crate::loose::Loose;
use chr_term::Memory;
use std::alloc::Global;
use std::marker::Model;

/// What C knows by its address alone: a program, or a run. It owns a box, which it keeps as a pointer, since no box may cross to C.
#[repr(C)]
pub struct Handle {
    at: *mut u8,
    alloc: Global,
    pub ghost value: { the_row.Denot } by { the_row.coded },
}

impl Model for Handle {
    ghost also_owns = { λ h. box_owns (ghosts.dealloc_token h.alloc) the_row h.at h.value };
}

impl Drop for Handle {
    fn drop(self) {
        drop(self.into_loose().into_box());
    }
}

impl Handle {
    ghost use Rattle.std.specs.Prelude.{◌≡◌};
    ghost use Rattle.std.specs.Borrow.{Lends, sem};
    ghost use Rattle.cordspar.specs.contracts.held.Held.{the_row};
    ghost use Rattle.cordspar.specs.contracts.handle.Handle.{the_row as handle_row};

    fn of(loose: Loose<Held, Global>) -> Handle
        ensures { result.value ≡ loose.value }
    {
        let Loose { at, alloc } = loose;
        Handle {
            at: at as *mut u8,
            alloc,
        }
    }

    fn into_loose(self) -> Loose<Held, Global>
        ensures { result.value ≡ self.value }
    {
        let Handle { at, alloc } = self;
        Loose {
            at: at as *mut Held,
            alloc,
        }
    }

    /// What it holds.
    pub(crate) fn held(&mut self) -> &mut Held
        ensures* writes_back { sem 𝓛 (Lends handle_row the_row self.entry result (λ w. record self.old { value = w })) }
        ensures value { result.now ≡ self.old.value }
    {
        unsafe { &mut *(self.at as *mut Held) }
    }
}

/// A handle of its own that holds this.
pub(crate) fn handled(alloc: Global, held: Held) -> Result<Box<Handle>, Memory>
    ensures { IfOk result (λ handle. handle.value.value ≡ held) }
{
    let held = Box::new(alloc, held)?;
    let handle = Handle::of(Loose::of(held));
    Ok(Box::new(alloc, handle)?)
}

/// Lets go of a handle.
pub(crate) fn release(handle: Loose<Handle, Global>) {
    drop(handle.into_box());
}
