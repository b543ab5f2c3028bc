//! The numbers of the reasons why a line of JSON spells no message.
#![tactic(auto)]

ghost use Rattle.std.specs.Prelude.{◌≡◌};
ghost use Rattle.dbus_c.specs.JsonReasons.{json_field_named, json_reason_number};

use dbus_json_lines::JsonReason;

/// The number of a reason: that of [`crate::reason_number`] if bytes are refused for a reason of the
/// same name, else a further one.
pub fn json_reason_number(reason: JsonReason) -> u32
    ensures { result ≡ json_reason_number reason }
{
    match reason {
        JsonReason::NotUtf8 => 28,
        JsonReason::NotJson => 29,
        JsonReason::Form => 30,
        JsonReason::MemberUnknown => 31,
        JsonReason::MemberTwice => 32,
        JsonReason::TypeMissing => 33,
        JsonReason::ValueMissing => 34,
        JsonReason::CodeMissing => 35,
        JsonReason::BodyMissing => 36,
        JsonReason::Order => 37,
        JsonReason::Kind => 2,
        JsonReason::ZeroSerial => 4,
        JsonReason::FieldCode => 19,
        JsonReason::FieldKnown => 38,
        JsonReason::FieldPlace => 39,
        JsonReason::NotInteger => 40,
        JsonReason::Range => 41,
        JsonReason::MayBeRounded => 44,
        JsonReason::Digits => 42,
        JsonReason::Count => 43,
        JsonReason::Text => 10,
        JsonReason::Path => 12,
        JsonReason::Signature => 13,
        JsonReason::Interface => 14,
        JsonReason::Member => 15,
        JsonReason::ErrorName => 16,
        JsonReason::BusName => 17,
        JsonReason::TooDeep => 24,
        JsonReason::FieldMissing(_) => 22,
        JsonReason::ArrayTooLong => 5,
        JsonReason::MessageTooLong => 6,
        JsonReason::FdIndex => 26,
    }
}

/// The code of the header field that is missing, if that is the reason; else 0, which is no field's
/// code.
pub fn json_field_named(reason: JsonReason) -> u32
    ensures { result ≡ json_field_named reason }
{
    match reason {
        JsonReason::FieldMissing(code) => u32::from(code),
        _ => 0,
    }
}
