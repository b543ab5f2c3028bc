//! What a call of an end does: the number of bytes that it took, and what it wrote.
#![tactic(auto)]

ghost use Rattle.std.specs.Prelude.{◌≡◌, ◌≤◌, ◌++◌, ℕ, drop, length};
ghost use Rattle.dbus_c_auth.specs.Handshakes.{IsStep};

use dbus_auth::{EndStep, Status};
use std::alloc::AllocError;

/// The room in bytes that a call has to be given for what it sends: the longest is the byte 0 and
/// `AUTH ANONYMOUS` with a trace of 255 bytes in hexadecimal.
pub const REPLY_ROOM: usize = 528;

/// Why a call took and wrote nothing.
#[derive(Clone, Copy, Drop)]
pub enum TakeFault {
    /// An allocation failed.
    Memory,
    /// There is less room than [`REPLY_ROOM`].
    Room,
}

impl From<AllocError> for TakeFault {
    ghost use Rattle.std.specs.Prelude.{◌≡◌};
    ghost use Rattle.dbus_c_auth.specs.declared.step.TakeFault.TheVariants.{Memory};

    ghost from_gives = { λ _ e. e ≡ Memory };

    fn from(_: AllocError) -> Self {
        TakeFault::Memory
    }
}

/// What a call did with its piece and its room.
#[derive(Clone, Copy, Drop)]
pub struct Step {
    /// The number of bytes of the piece that were taken. Pass the others again.
    pub count: usize,
    /// The number of bytes that were written: send them to the peer.
    pub written: usize,
    /// The end's status now.
    pub status: Status,
}

/// What was written of what an end answers: its bytes at the start of the room.
pub(crate) fn step_in(step: &EndStep, reply: &mut [u8]) -> Step
    requires { length step.now.send.items ≤ length reply.old }
    ensures step { IsStep result step.now.taken step.now.send.items step.now.status }
    ensures written { reply.new ≡ step.now.send.items ++
        drop (length step.now.send.items) reply.old }
{
    let written = step.send.len();
    reply[..written].copy_from_slice(&step.send);
    Step {
        count: step.taken,
        written,
        status: step.status,
    }
}
