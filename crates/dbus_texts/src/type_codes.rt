//! Which bytes of a signature are codes of types without parts. D-Bus Specification, "Summary of
//! types".
#![tactic(auto)]

ghost use Rattle.std.specs.Prelude.{◌≡◌};
ghost use Rattle.dbus_texts.specs.SignatureScans.{is_basic_code, is_type_code};

/// Whether the byte spells a basic type.
pub fn is_basic_code(byte: u8) -> bool
    ensures { result ≡ is_basic_code byte }
{
    matches!(
        byte,
        b'y' | b'b' | b'n' | b'q' | b'i' | b'u' | b'x' | b't' | b'd' | b'h' | b's' | b'o' | b'g'
    )
}

/// Whether the byte alone spells a complete type.
pub fn is_type_code(byte: u8) -> bool
    ensures { result ≡ is_type_code byte }
{
    is_basic_code(byte) || byte == b'v'
}
