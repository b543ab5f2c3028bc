//! Why a line spells no message.
#![tactic(auto)]

ghost use Rattle.std.specs.Prelude.{◌≡◌};
ghost use Rattle.dbus_json_lines.specs.declared.fault.NoMessage.TheVariants.{Memory};

use dbus_json_reader::JsonReason;
use std::alloc::AllocError;
use thiserror::Error;

/// Why a line spells no message, and where it shows that.
#[derive(Clone, Copy, PartialEq, Eq, Debug)]
pub struct LineFault {
    /// Why.
    pub reason: JsonReason,
    /// The place, in bytes from the start of the line: of the first byte that no UTF-8 has there, or
    /// of the first byte of the token that shows the reason, as of a name that no colon follows; the
    /// line's end if no byte or token shows it.
    pub at: usize,
}

/// Why there is no message of a line.
#[derive(Clone, Copy, PartialEq, Eq, Debug, Error)]
pub enum NoMessage {
    /// An allocation failed.
    #[error("allocation failed")]
    Memory,
    /// The line spells no message that is valid within the limits.
    #[error("the line spells no message")]
    Refused(LineFault),
}

impl From<AllocError> for NoMessage {
    ghost from_gives = { λ _ e. e ≡ Memory };

    fn from(_: AllocError) -> Self {
        NoMessage::Memory
    }
}
