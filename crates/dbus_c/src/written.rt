//! A text that is written into the caller's bytes, and a 0 behind it.
#![tactic(auto)]

ghost use Rattle.std.specs.Prelude.{◌≡◌, [], ◌∷◌, if◌then◌else◌};
ghost use Rattle.dbus_c.specs.Outcomes.{IsTold};
ghost use Rattle.dbus_room.specs.Rooms.{Gains};

use crate::answers::{NO_ROOM, WHOLE};
use dbus_room::Room;
use dbus_show::Draft;

/// Ends the text in a room by a 0. Whether there is room for both.
pub(crate) fn end_text(room: &mut Room<'_>) -> u32
    ensures gains { Gains room.old (0 ∷ []) room.new }
    ensures told { IsTold result }
    ensures answers { result ≡ (if room.new.is_cut then NO_ROOM else WHOLE) }
{
    room.push_str("\0");
    if room.is_cut { NO_ROOM } else { WHOLE }
}
