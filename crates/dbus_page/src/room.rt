//! The end of a text in the caller's room.
#![tactic(auto)]

ghost use Rattle.std.specs.Prelude.{◌≡◌, if◌then◌else◌};

use crate::answers::{NO_ROOM, WHOLE};
use dbus_room::Room;

/// Ends the text: writes the number of its bytes that are there, and returns whether these are all.
pub(crate) fn end(room: &Room<'_>, count: &mut u64) -> u32
    ensures counted { count.new ≡ room.now.len }
    ensures answers { result ≡ (if room.now.is_cut then NO_ROOM else WHOLE) }
{
    *count = room.len as u64;
    if room.is_cut { NO_ROOM } else { WHOLE }
}
