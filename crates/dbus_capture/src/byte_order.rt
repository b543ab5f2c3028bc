//! The numbers of a capture, in its byte order.
ghost use Rattle.std.specs.Prelude.{◌≡◌, ◌≤◌, ◌+◌, length};
ghost use Rattle.dbus_capture.specs.Numbers.{u32_at, u16_at};

/// The byte order of the numbers of a file or a section: that of the machine that wrote it.
#[derive(Clone, Copy)]
pub enum ByteOrder {
    /// The lowest byte comes first.
    Little,
    /// The highest byte comes first.
    Big,
}

impl ByteOrder {
    // The number of the four bytes at a place of a head.
    pub(crate) fn u32_at(self, place: usize, head: &[u8]) -> u32
        requires { place + 4 ≤ length head.now }
        ensures { result ≡ u32_at self place head.now }
    {
        let bytes = &head[place..place + 4];
        let four = [bytes[0], bytes[1], bytes[2], bytes[3]];
        match self {
            ByteOrder::Little => u32::from_le_bytes(four),
            ByteOrder::Big => u32::from_be_bytes(four),
        }
    }

    // The number of the two bytes at a place of a head.
    pub(crate) fn u16_at(self, place: usize, head: &[u8]) -> u16
        requires { place + 2 ≤ length head.now }
        ensures { result ≡ u16_at self place head.now }
    {
        let bytes = &head[place..place + 2];
        let two = [bytes[0], bytes[1]];
        match self {
            ByteOrder::Little => u16::from_le_bytes(two),
            ByteOrder::Big => u16::from_be_bytes(two),
        }
    }
}
