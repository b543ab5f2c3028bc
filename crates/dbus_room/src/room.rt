//! A text that is written into the caller's room.
#![tactic(auto)]

ghost use Rattle.std.specs.Prelude.{◌≤◌, length};

use dbus_show::{Draft, copy_bytes};

/// A text that is written to the start of the caller's bytes, as much of it as they have room for.
/// The bytes behind it stay as they are.
///
/// ```rust
/// use dbus_room::Room;
/// use dbus_show::Draft;
///
/// let mut bytes = [0; 8];
/// let mut room = Room::new(&mut bytes);
/// room.push_str("so-called");
/// println!(rt; "{} bytes, cut: {}", room.len, room.is_cut)?;
/// ```
#[derive(Drop)]
pub struct Room<'a> {
    /// The caller's bytes.
    pub bytes: &'a mut [u8],
    /// The number of them that the text has so far.
    pub len: usize,
    /// Whether the text did not fit.
    pub is_cut: bool,
    ghost fits: { len ≤ length bytes.now },
}

impl<'a> Room<'a> {
    ghost use Rattle.std.specs.Prelude.{◌≡◌};
    ghost use Rattle.dbus_room.specs.Rooms.{Begins};

    /// Begins a text in these bytes.
    pub fn new(bytes: &'a mut [u8]) -> Self
        ensures same { result.bytes.ghost_name ≡ bytes.entry.ghost_name }
        ensures begins { Begins bytes.old result }
    {
        Room {
            bytes,
            len: 0,
            is_cut: false,
        }
    }
}

impl Draft for Room<'_> {
    ghost use Rattle.dbus_room.specs.Rooms.{Gains};
    ghost use Rattle.dbus_room.specs.RoomLaws as laws;

    ghost gains = { Gains };

    fn push_str(&mut self, text: &str) {
        let bytes = text.as_bytes();
        let count = bytes.len().min(self.bytes.len() - self.len);
        let end = self.len + count;
        copy_bytes(&mut self.bytes[self.len..end], &bytes[..count]);
        self.len = end;
        if count < bytes.len() {
            self.is_cut = true;
        }
    }

    ghost nothing = { laws.nothing };

    ghost joins = { laws.joins };
}
