//! An allocator for tests of what happens when memory runs out.
//!
//! [`Refusing`] passes each call on to another allocator and counts it. It refuses the growths that
//! it was told to refuse, and counts the blocks that are out. So a test can make each allocation of
//! a call fail in turn, and see that the error came back and that no block leaked.
//!
//! The code under test is generic over its allocator, as `A: Allocator + Copy`, and the test hands
//! it `&heap`. Below, `copy_of` is the call under test. What it works on is made first, with
//! nothing refused, and `refuse_nth` then starts the counts anew:
//!
//! ```text
//! let mut met = 0;
//! for n in 1..100 {
//!     let heap = Refusing::none(rt.alloc());
//!     let source = sample(&heap)?;
//!     let before = heap.blocks();
//!     heap.refuse_nth(n);
//!     let copy = copy_of(&heap, &source);
//!     assert_eq!(rt; copy.is_err(), heap.refusals() == 1, "at {n}");
//!     let last = copy.is_ok();
//!     drop(copy);
//!     assert_eq!(rt; heap.blocks(), before, "at {n}");
//!     if last {
//!         met = heap.growths();
//!         break;
//!     }
//! }
//! assert!(rt; met > 0);
//! ```
//!
//! The last line fails where the call asked for no memory at all, and so tested nothing.
//!
//! - Code that takes `Global`, or makes an allocator of its own, is neither counted nor refused.
//! - How often a call of the standard library grows is its own affair. A test measures that by
//!   [`Refusing::growths`], and writes no such number down.
//! - The counts are cells, so one thread uses an allocator.
//!
//! It is proved that this is an allocator: a block has the size and alignment that was asked for
//! and goes back to where it came from, and a `grow` or `shrink` keeps the items. No contract says
//! what a cell holds, so the counts, and which growth is refused, are only tested.
#![tactic(auto)]

ghost use Rattle.std.specs.Prelude.{◌<◌, ◌^◌};

use std::alloc::{AllocError, Allocator, Global};

mod plan;

use plan::Plan;

/// Counts the growths that its users ask for, and refuses some of them.
///
/// A growth is a call of `allocate` or of `grow`, as a collection makes for its first block and for
/// each larger one. A refused growth returns `Err(AllocError)` and leaves the old block as it was.
/// A `shrink` is no growth and is never refused.
///
/// A collection holds a `&Refusing`. Its blocks are those of `inner`.
#[derive(Drop)]
pub struct Refusing<A: Allocator = Global> {
    inner: A,
    plan: Plan,
}

impl<A: Allocator> Refusing<A> {
    /// An allocator over `inner` that refuses nothing.
    pub fn none(inner: A) -> Refusing<A> {
        Refusing {
            inner,
            plan: Plan::new(u64::MAX, 0),
        }
    }

    /// An allocator over `inner` that refuses its `n`th growth alone. The first growth is number 1.
    pub fn nth(inner: A, n: u64) -> Refusing<A> {
        Refusing {
            inner,
            plan: Plan::new(n, n),
        }
    }

    /// An allocator over `inner` that refuses its `n`th growth and each later one.
    pub fn from_nth(inner: A, n: u64) -> Refusing<A> {
        Refusing {
            inner,
            plan: Plan::new(n, u64::MAX),
        }
    }

    /// Counts growths and refusals from here on anew, and refuses none.
    pub fn refuse_none(&self) {
        self.plan.restart(u64::MAX, 0);
    }

    /// Counts growths and refusals from here on anew, and refuses the `n`th growth alone.
    pub fn refuse_nth(&self, n: u64) {
        self.plan.restart(n, n);
    }

    /// Counts growths and refusals from here on anew, and refuses each growth from the `n`th on.
    pub fn refuse_from_nth(&self, n: u64) {
        self.plan.restart(n, u64::MAX);
    }

    /// How many growths were asked for, the refused ones too.
    pub fn growths(&self) -> u64
        ensures { result < 2 ^ 32 }
    {
        self.plan.growths()
    }

    /// How many growths were refused.
    pub fn refusals(&self) -> u64
        ensures { result < 2 ^ 32 }
    {
        self.plan.refusals()
    }

    /// How many blocks are out: growths passed on, less blocks given back. It is 0 once all that
    /// was allocated here is dropped.
    ///
    /// A growth that `inner` itself refuses stays counted, as one of more than `isize::MAX` bytes.
    pub fn blocks(&self) -> u64
        ensures { result < 2 ^ 32 }
    {
        self.plan.blocks()
    }
}

unsafe impl<A: Allocator> Allocator for Refusing<A> {
    ghost dealloc_token = { λ heap ty ptr. A.dealloc_token heap.inner ty ptr };

    fn allocate(&self, size: usize, align: usize) -> Result<*mut u8, AllocError> {
        if self.plan.refuses() {
            return Err(AllocError);
        }
        self.inner.allocate(size, align)
    }

    unsafe fn deallocate(&self, ptr: *mut u8, size: usize, align: usize) {
        self.plan.takes_back();
        self.inner.deallocate(ptr, size, align);
    }

    // The trait's own body asks `allocate`, so it would count as a growth and could be refused.
    unsafe fn shrink<T>(
        &self,
        ptr: *mut T,
        len: usize,
        old_cap: usize,
        new_cap: usize,
    ) -> Result<*mut T, AllocError> {
        self.inner.shrink(ptr, len, old_cap, new_cap)
    }
}
