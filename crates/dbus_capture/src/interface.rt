//! The interfaces of a section of a pcapng file.
ghost use Rattle.std.specs.Prelude.{◌≡◌, ◌<◌, [], ◌∷◌, ◌++◌, length, slice_get, nat_le};

use arrayvec::ArrayVec;
use std::marker::Model;

/// What an interface description block says. "Interface Description Block".
#[derive(Clone, Copy, Default)]
pub struct Interface {
    /// The link type of its packets.
    pub link_type: u16,
    /// The most bytes of a packet that were captured, or 0 for no limit.
    pub snap_length: u32,
    /// Its option `if_tsresol`: the unit of times is this power of 1/10 of a second; or, if it is
    /// 128 or more, the power of 1/2 that the number without its highest bit is.
    pub resolution: u8,
    /// Whether it has the option `if_tsoffset`, so that its times do not count from 1970.
    pub has_offset: bool,
}

/// The interfaces of a section in order: at most 64.
#[derive(Drop)]
pub struct Interfaces {
    held: ArrayVec<Interface, 64>,
}

impl Model for Interfaces {
    ghost use Rattle.std.specs.Prelude.{List, ⊤};
    ghost use Rattle.dbus_capture.specs.declared.interface.Interface.{Interface};

    ghost Value = { List Interface };

    ghost view = { λ s. s.held.items };

    ghost invariant = { λ s. ⊤ };
}

impl Interfaces {
    // No interface.
    pub(crate) fn new() -> Self
        ensures { result ≡ [] }
    {
        Interfaces {
            held: ArrayVec::new(),
        }
    }

    // Whether there is no room for one more.
    pub(crate) fn is_full(&self) -> bool
        ensures { result ≡ nat_le 64 (length self.now) }
    {
        self.held.len() >= 64
    }

    // Adds one at the end.
    pub(crate) fn push(&mut self, interface: Interface)
        requires { length self.old < 64 }
        ensures { self.new ≡ self.old ++ interface ∷ [] }
    {
        self.held.push(interface);
    }

    // The one of this number, from 0 on.
    pub(crate) fn get(&self, number: u32) -> Option<Interface>
        ensures { result ≡ slice_get self.now number }
    {
        self.held.as_slice().get(number as usize).copied()
    }
}
