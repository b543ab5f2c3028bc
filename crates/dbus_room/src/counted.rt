//! The number of bytes of a text.
#![tactic(auto)]

ghost use Rattle.std.specs.Prelude.{◌<◌, ◌^◌};

use dbus_show::Draft;

/// A draft over another, which counts the bytes of the text that it gains, whether the other has
/// room for them or not.
///
/// ```rust
/// use dbus_room::{Counted, Room};
/// use dbus_show::Draft;
///
/// let mut bytes = [0; 4];
/// let mut room = Room::new(&mut bytes);
/// let mut draft = Counted { draft: &mut room, len: 0 };
/// draft.push_str("so-called");
/// println!(rt; "{} bytes, of which there is room for {}", draft.len, room.len)?;
/// ```
#[derive(Drop)]
pub struct Counted<'d, D> {
    /// The draft that gains the text.
    pub draft: &'d mut D,
    /// The number of bytes so far, or the greatest number of 64 bits, if they are more.
    pub len: u64,
    ghost in_range: { len < 2 ^ 64 },
}

impl<D: Draft> Draft for Counted<'_, D> {
    ghost use Rattle.dbus_room.specs.Counting.{Counts};
    ghost use Rattle.dbus_room.specs.CountingLaws as laws;

    ghost gains = { Counts D.gains };

    fn push_str(&mut self, text: &str) {
        self.draft.push_str(text);
        self.len = self.len.saturating_add(text.len() as u64);
    }

    ghost nothing = { laws.nothing D.gains D.nothing };

    ghost joins = { laws.joins D.gains D.joins };
}
