//! An allocator that refuses, for tests.
//!
//! [`Refusing`] stands over another allocator and counts the growths that are asked of it. A growth is one call of
//! `allocate`, whatever its size: so is each `grow` and each `shrink`, since these allocate a new block and give the old
//! one back. To give a block back is no growth.
//!
//! A test allows 0 growths, then 1, then 2, and so on, until the call that it tests meets no refusal:
//!
//! ```
//! let memory = Refusing::new(rt.alloc(), 0);
//! let refused = refused_in_turn(1000, |left| {
//!     memory.allow(left);
//!     call(&memory).is_ok()
//! });
//! ```
#![tactic(auto)]

ghost use Rattle.std.specs.Prelude.{◌≤◌};

use std::alloc::{AllocError, Allocator};
use std::sync::atomic::{AtomicU64, Ordering};

/// How many growths are still allowed, and how many were asked for.
#[derive(Drop)]
struct Growths {
    left: AtomicU64,
    asked: AtomicU64,
}

/// An allocator that allows `left` growths, and then refuses each further one. Threads share it by a `&`.
#[derive(Drop)]
pub struct Refusing<B: Allocator> {
    inner: B,
    growths: Growths,
}

impl<B: Allocator> Refusing<B> {
    /// Over `inner`, with `left` growths allowed.
    pub fn new(inner: B, left: u64) -> Refusing<B> {
        Refusing {
            inner,
            growths: Growths {
                left: AtomicU64::new(left),
                asked: AtomicU64::new(0),
            },
        }
    }

    /// From now on it allows `left` growths, and `asked` counts anew. No other thread may be asking for a growth meanwhile, or
    /// the two counts may differ by it.
    pub fn allow(&self, left: u64) {
        self.growths.asked.store(0, Ordering::SeqCst);
        self.growths.left.store(left, Ordering::SeqCst);
    }

    /// How many more growths it allows.
    pub fn left(&self) -> u64 {
        self.growths.left.load(Ordering::SeqCst)
    }

    /// How many growths were asked for since the last `allow`, the refused ones too.
    pub fn asked(&self) -> u64 {
        self.growths.asked.load(Ordering::SeqCst)
    }
}

/// Counts a growth, and says whether it is allowed.
fn is_allowed(growths: &Growths) -> bool {
    growths.asked.fetch_add(1, Ordering::SeqCst);
    growths
        .left
        .fetch_update(Ordering::SeqCst, Ordering::SeqCst, |n| n.checked_sub(1))
        .is_ok()
}

unsafe impl<B: Allocator> Allocator for Refusing<B> {
    ghost dealloc_token = { λ heap ty ptr. B.dealloc_token heap.inner ty ptr };

    fn allocate(&self, size: usize, align: usize) -> Result<*mut u8, AllocError> {
        if is_allowed(&self.growths) {
            self.inner.allocate(size, align)
        } else {
            Err(AllocError)
        }
    }

    unsafe fn deallocate(&self, ptr: *mut u8, size: usize, align: usize) {
        self.inner.deallocate(ptr, size, align);
    }
}

/// Calls `call` with 0, 1, 2, .. up to `most` - 1, until it answers that nothing was refused. How many calls answered that something
/// was: where that is `most`, all did.
pub fn refused_in_turn<F: FnMut(u64) -> bool>(most: u64, mut call: F) -> u64
    requires { F.IsAlwaysCallable call }
    ensures { result ≤ most }
{
    for left in 0..most {
        if call(left) {
            return left;
        }
    }
    most
}

/// A turn of a test whose calls may each have `left` growths: the first refusal of a call is seen, and then memory is ample, so that the
/// same call can be made again.
#[derive(Drop)]
pub struct Turn<'m, B: Allocator> {
    meter: &'m Refusing<B>,
    left: u64,
    refused: AtomicU64,
}

impl<'m, B: Allocator> Turn<'m, B> {
    /// With ample memory until a call begins.
    pub fn new(meter: &'m Refusing<B>, left: u64) -> Turn<'m, B> {
        meter.allow(u64::MAX);
        Turn {
            meter,
            left,
            refused: AtomicU64::new(0),
        }
    }

    /// A call begins, which may have its growths.
    pub fn begin(&self) {
        self.meter.allow(self.left);
    }

    /// How many growths the call has asked for so far.
    pub fn asked(&self) -> u64 {
        self.meter.asked()
    }

    /// The call has ended, refused or not, and memory is ample again. It answers whether the call was refused exactly where a growth was.
    pub fn end(&self, is_refused: bool) -> bool {
        let was_refused = self.meter.asked() > self.left;
        self.meter.allow(u64::MAX);
        if was_refused {
            self.refused.fetch_add(1, Ordering::SeqCst);
        }
        was_refused == is_refused
    }

    /// Whether no growth was refused so far.
    pub fn met_none(&self) -> bool {
        self.refused.load(Ordering::SeqCst) == 0
    }
}
