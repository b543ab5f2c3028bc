//! The two byte orders.
#![tactic(auto)]

ghost use Rattle.std.specs.Prelude.{◌≡◌, ◌+◌, ◌≤◌, length, take, drop};
ghost use Rattle.dbus_value_model.specs.ByteNumbers.{sum_of_places};
ghost use Rattle.dbus_value_model.specs.Reading.{number_of};

/// The order of a number's bytes. D-Bus Specification, "Marshaling (Wire Format)".
#[derive(Clone, Copy, PartialEq, Eq, Debug)]
pub enum Order {
    /// The lowest place first.
    Little,
    /// The highest place first.
    Big,
}

impl Order {
    /// The number that the two bytes at a place spell: the sum of these, each times 256 to the
    /// power of its place.
    pub fn u16_at(self, bytes: &[u8], at: usize) -> u16
        requires { at + 2 ≤ length bytes.now }
        ensures spelled { result ≡ number_of self (take 2 (drop at bytes.now)) }
        ensures places { result ≡ sum_of_places self 2 at bytes.now }
    {
        let number = [bytes[at], bytes[at + 1]];
        match self {
            Order::Little => u16::from_le_bytes(number),
            Order::Big => u16::from_be_bytes(number),
        }
    }

    /// The number that the four bytes at a place spell: the sum of these, each times 256 to the
    /// power of its place.
    pub fn u32_at(self, bytes: &[u8], at: usize) -> u32
        requires { at + 4 ≤ length bytes.now }
        ensures spelled { result ≡ number_of self (take 4 (drop at bytes.now)) }
        ensures places { result ≡ sum_of_places self 4 at bytes.now }
    {
        let number = [bytes[at], bytes[at + 1], bytes[at + 2], bytes[at + 3]];
        match self {
            Order::Little => u32::from_le_bytes(number),
            Order::Big => u32::from_be_bytes(number),
        }
    }

    /// The number that the eight bytes at a place spell: the sum of these, each times 256 to the
    /// power of its place.
    pub fn u64_at(self, bytes: &[u8], at: usize) -> u64
        requires { at + 8 ≤ length bytes.now }
        ensures spelled { result ≡ number_of self (take 8 (drop at bytes.now)) }
        ensures places { result ≡ sum_of_places self 8 at bytes.now }
    {
        let number = [
            bytes[at],
            bytes[at + 1],
            bytes[at + 2],
            bytes[at + 3],
            bytes[at + 4],
            bytes[at + 5],
            bytes[at + 6],
            bytes[at + 7],
        ];
        match self {
            Order::Little => u64::from_le_bytes(number),
            Order::Big => u64::from_be_bytes(number),
        }
    }
}
