//! What an input may be that does not begin as a message does, and a signal that has no serial.
#![tactic(auto)]

ghost use Rattle.std.specs.Prelude.{◌≡◌};
ghost use Rattle.dbus_explain.specs.Looks.{is_letter, lacks_serial, look_by, look_of, look_text};

use crate::message::Refused;
use crate::search::is_printable;
use dbus_value_model::Reason;

/// What is said behind the rule: what the input may be, if its very first byte is refused; or who
/// makes a signal with serial 0.
pub(crate) fn look_in(refused: &Refused) -> &'static str
    ensures { result.now ≡ look_text refused.now }
{
    if refused.offset == 0 && refused.fault.at == 0 {
        look_of(refused.bytes)
    } else if lacks_serial(refused) {
        "; libdbus makes such a signal when its bus ends, and dbus-monitor writes it"
    } else {
        ""
    }
}

// Whether it is a signal with serial 0.
fn lacks_serial(refused: &Refused) -> bool
    ensures { result ≡ lacks_serial refused.now.bytes.now refused.now.fault }
{
    matches!(refused.fault.reason, Reason::ZeroSerial)
        && refused.fault.at == 8
        && (refused.bytes.starts_with(b"l\x04") || refused.bytes.starts_with(b"B\x04"))
}

// What is said of an input that begins with these bytes.
fn look_of(bytes: &[u8]) -> &'static str
    ensures { result.now ≡ look_of bytes.now }
{
    match bytes {
        [first, ..] => look_by(*first),
        [] => "",
    }
}

// What is said of an input that begins with this byte.
fn look_by(byte: u8) -> &'static str
    ensures { result.now ≡ look_by byte }
{
    match byte {
        0 => "; the handshake of a client begins so, and --handshake client passes over it",
        0x1f => "; a gzip file begins so, and zcat unpacks it",
        0x7f => "; an ELF program begins so",
        0xfd => "; an xz file begins so, and xzcat unpacks it",
        b'(' => "; text begins so, or a zstd file, which zstdcat unpacks",
        b'O' | b'R' => {
            "; text begins so, or the handshake of a server, which --handshake server passes over"
        }
        _ if is_letter(byte) => {
            "; text begins so, but dbus-monitor --binary and busctl capture write messages"
        }
        _ => "",
    }
}

// Whether a byte is a printable character of ASCII, a tab or an end of a line.
fn is_letter(byte: u8) -> bool
    ensures { result ≡ is_letter byte }
{
    matches!(byte, b'\t' | b'\n' | b'\r') || is_printable(byte)
}
