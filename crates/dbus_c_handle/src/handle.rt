//! A handle of something on the heap.
#![tactic(auto)]

ghost use Rattle.std.specs.Coded.{coded_option};
ghost use Rattle.std.specs.Prelude.{◌≡◌, Option, Some, None, MatchOption};
ghost use Rattle.dbus_c_handle.specs.declared.kept.Kept.{Kept as Keeping};
ghost use Rattle.dbus_c_handle.specs.contracts.kept.Kept.{the_row};

use crate::kept::Kept;
use std::alloc::Global;
use std::marker::Model;
use std::{mem, ptr};

/// A handle of what it keeps in a block of the heap, or of nothing: then its pointer is null. It
/// may move between threads.
///
/// Each call that may make or free the block is passed the heap. Dropping a handle frees nothing:
/// [`WireHandle::free`] does.
#[repr(C)]
#[derive(Drop)]
pub struct WireHandle {
    at: *mut u8,
    pub ghost state: { Option Keeping } by { coded_option the_row.coded },
}

impl Model for WireHandle {
    ghost use Rattle.dbus_c_handle.specs.Handles.{holds};

    ghost also_owns = { λ h. holds h.at h.state };
}

unsafe impl Send for WireHandle {}

impl WireHandle {
    ghost use Rattle.std.specs.Borrow.{LendsIf, sem};
    ghost use Rattle.std.specs.Prelude.{◌≡◌, Some, None, MatchOption};
    ghost use Rattle.dbus_c_handle.specs.contracts.handle.WireHandle.{the_row as handle_row};

    /// Frees what the handle keeps, if it keeps anything: from then on it keeps nothing.
    pub fn free(&mut self, alloc: Global)
        ensures { self.new.state ≡ None }
    {
        drop(self.take_box(alloc));
    }

    /// What the handle keeps, to be asked or changed where it lies.
    pub(crate) fn kept(&mut self) -> Option<&mut Kept>
        ensures* writes_back { sem 𝓛 (LendsIf handle_row the_row self.entry result (λ kept. record self.old { state = Some kept }) self.old) }
        ensures kept { MatchOption result (self.old.state ≡ None) (λ kept. self.old.state ≡ Some kept.now) }
    {
        if self.at.is_null() {
            return None;
        }
        Some(unsafe { &mut *(self.at as *mut Kept) })
    }

    /// The box of what the handle kept. From then on it keeps nothing.
    pub(crate) fn take_box(&mut self, alloc: Global) -> Option<Box<Kept>>
        ensures nothing { self.new.state ≡ None }
        ensures kept { MatchOption result (self.old.state ≡ None) (λ b. self.old.state ≡ Some b.value) }
    {
        mem::replace(self, WireHandle::none()).into_box(alloc)
    }

    /// A handle that keeps nothing.
    pub fn none() -> WireHandle
        ensures { result.state ≡ None }
    {
        WireHandle {
            at: ptr::null_mut(),
        }
    }

    /// A handle of what is in this box.
    pub(crate) fn of(kept: Box<Kept>) -> WireHandle
        ensures { result.state ≡ Some kept.value }
    {
        let at = Box::into_raw(kept);
        WireHandle { at: at as *mut u8 }
    }

    // The box again, if there is one.
    fn into_box(self, alloc: Global) -> Option<Box<Kept>>
        ensures { MatchOption result (self.state ≡ None) (λ b. self.state ≡ Some b.value) }
    {
        let WireHandle { at } = self;
        if at.is_null() {
            return None;
        }
        Some(unsafe { Box::from_raw(alloc, at as *mut Kept) })
    }
}
