//! The line of an input that begins with no handshake.
ghost use Rattle.std.specs.Prelude.{◌≡◌, IfOk, string_bytes};
ghost use Rattle.dbus_tool.specs.Handshaking.{handshake_line};

use dbus_handshake_input::HandshakeReason;
use std::alloc::{AllocError, Allocator};

// What is written of an input that begins with no handshake.
pub(crate) fn handshake_line<A: Allocator + Copy>(
    alloc: A,
    at: usize,
    reason: HandshakeReason,
) -> Result<String<A>, AllocError>
    ensures { IfOk result (λ line. string_bytes line ≡ handshake_line at reason) }
{
    format!(in alloc; "handshake refused at {at}: {reason}\n")
}
