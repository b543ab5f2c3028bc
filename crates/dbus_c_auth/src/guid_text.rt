//! The text of a server's GUID.
#![tactic(auto)]

ghost use Rattle.dbus_c_auth.specs.declared.guid_text.TheConstants.{GUID_ROOM};
ghost use Rattle.std.specs.Prelude.{◌≡◌, ◌<◌, ◌≤◌, ◌++◌, ℕ, drop, length, option_map, true, false};
ghost use Rattle.hex.specs.Hex.{encode_lower};
ghost use Rattle.dbus_c_auth.specs.Handshakes.{guid_spelled};

use dbus_auth::Guid;
use hex::{decode_to_slice, encode_to_slice};

/// The number of digits of the text of a GUID.
pub const GUID_ROOM: usize = 32;

/// The GUID that a text of 32 hexadecimal digits spells, in either case. `None` if the text is
/// another one. D-Bus Specification, "UUIDs".
pub fn guid_of(text: &[u8]) -> Option<Guid>
    ensures { option_map (λ g. g.0) result ≡ guid_spelled text.now }
{
    let mut bytes = [0; 16];
    match decode_to_slice(text, &mut bytes) {
        Ok(()) => Some(Guid(bytes)),
        Err(_) => None,
    }
}

/// Writes the 32 digits of a GUID, in lower case, to the start of the bytes. Whether these have
/// room for them; if not, they stay as they are.
pub fn write_guid(guid: Guid, out: &mut [u8]) -> bool
    ensures written { result ≡ true →
        (GUID_ROOM ≤ length out.old) × (out.new ≡ encode_lower guid.0 ++ drop GUID_ROOM out.old) }
    ensures no_room { result ≡ false → (length out.old < GUID_ROOM) × (out.new ≡ out.old) }
{
    if out.len() < GUID_ROOM {
        return false;
    }
    let Guid(bytes) = guid;
    encode_to_slice(bytes, &mut out[..GUID_ROOM]).is_ok()
}
