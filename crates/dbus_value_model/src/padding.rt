//! How far it is to a boundary.
#![tactic(auto)]

ghost use Rattle.std.specs.Prelude.{◌≡◌, ◌<◌};
ghost use Rattle.dbus_value_model.specs.Bytes.{gap_to};

/// The number of bytes of padding from the offset `at` to the next multiple of `alignment`, which
/// is not 0: fewer than `alignment`. D-Bus Specification, "Marshaling (Wire Format)".
#[inline]
#[tactic(auto, unfolding(crate::specs::Bytes::gap_to))]
pub fn padding_length(alignment: u8, at: u64) -> u8
    requires positive { 0 < alignment }
    ensures exact { result ≡ gap_to alignment at }
    ensures within { result < alignment }
{
    match alignment {
        // The boundaries of types. 2^64 is a multiple of each, so nothing is divided.
        1 | 2 | 4 | 8 => (at.wrapping_neg() & u64::from(alignment - 1)) as u8,
        _ => {
            let alignment = u64::from(alignment);
            ((alignment - at % alignment) % alignment) as u8
        }
    }
}

/// How many zeros reach the boundary. D-Bus Specification, "Marshaling (Wire Format)".
#[inline]
pub fn gap(boundary: u8, at: usize) -> usize
    requires { 0 < boundary }
    ensures { result ≡ gap_to boundary at }
{
    usize::from(padding_length(boundary, at as u64))
}
