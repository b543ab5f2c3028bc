//! The names of the reasons why bytes, or lines of JSON, are refused.
#![tactic(auto)]

ghost use Rattle.std.specs.Prelude.{◌≡◌, ◌<◌, ◌≤◌, ◌+◌, ◌∷◌, ◌++◌, drop, length};
ghost use Rattle.dbus_c.specs.Reasons.{name_at};

/// Writes the name of the reason of this number, and a 0 after it, at the start of `out`, if that
/// has room for both; else `out` stays as it is. Returns the name's length, 0 if there is no such
/// reason.
#[unsafe(no_mangle)]
pub extern "C" fn dbus_wire_reason_name(reason: u32, out: &mut [u8]) -> usize
    ensures counted { result ≡ length (name_at reason) }
    ensures written { length (name_at reason) < length out.old →
        out.new ≡ name_at reason ++ 0 ∷ drop (length (name_at reason) + 1) out.old }
    ensures unchanged { length out.old ≤ length (name_at reason) → out.new ≡ out.old }
{
    put_text(name_numbered(reason).as_bytes(), out)
}

// Writes a text and a 0 after it at the start of the bytes, where these have room for both.
pub(crate) fn put_text(text: &[u8], out: &mut [u8]) -> usize
    ensures counted { result ≡ length text.now }
    ensures written { length text.now < length out.old →
        out.new ≡ text.now ++ 0 ∷ drop (length text.now + 1) out.old }
    ensures unchanged { length out.old ≤ length text.now → out.new ≡ out.old }
{
    if text.len() < out.len() {
        out[..text.len()].copy_from_slice(text);
        out[text.len()] = 0;
    }
    text.len()
}

// The name of the reason of this number.
fn name_numbered(number: u32) -> &'static str
    ensures { result.now ≡ name_at number }
{
    match number {
        1 => "ByteOrder",
        2 => "Kind",
        3 => "Version",
        4 => "ZeroSerial",
        5 => "ArrayTooLong",
        6 => "MessageTooLong",
        7 => "Padding",
        8 => "Overrun",
        9 => "Bool",
        10 => "Text",
        11 => "Nul",
        12 => "Path",
        13 => "Signature",
        14 => "Interface",
        15 => "Member",
        16 => "ErrorName",
        17 => "BusName",
        18 => "NameTooLong",
        19 => "FieldCode",
        20 => "FieldTwice",
        21 => "FieldType",
        22 => "FieldMissing",
        23 => "Trailing",
        24 => "TooDeep",
        25 => "Truncated",
        26 => "FdIndex",
        27 => "NotYet",
        28 => "NotUtf8",
        29 => "NotJson",
        30 => "Form",
        31 => "MemberUnknown",
        32 => "MemberTwice",
        33 => "TypeMissing",
        34 => "ValueMissing",
        35 => "CodeMissing",
        36 => "BodyMissing",
        37 => "Order",
        38 => "FieldKnown",
        39 => "FieldPlace",
        40 => "NotInteger",
        41 => "Range",
        42 => "Digits",
        43 => "Count",
        44 => "MayBeRounded",
        _ => "",
    }
}
