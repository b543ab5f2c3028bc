//! The numbers of the reasons why bytes are refused.
#![tactic(auto)]

ghost use Rattle.std.specs.Prelude.{◌≡◌};
ghost use Rattle.dbus_c.specs.Reasons.{field_named, reason_number};

use dbus_value_model::Reason;

/// The number of a reason, from 1 on.
pub fn reason_number(reason: Reason) -> u32
    ensures { result ≡ reason_number reason }
{
    match reason {
        Reason::ByteOrder => 1,
        Reason::Kind => 2,
        Reason::Version => 3,
        Reason::ZeroSerial => 4,
        Reason::ArrayTooLong => 5,
        Reason::MessageTooLong => 6,
        Reason::Padding => 7,
        Reason::Overrun => 8,
        Reason::Bool => 9,
        Reason::Text => 10,
        Reason::Nul => 11,
        Reason::Path => 12,
        Reason::Signature => 13,
        Reason::Interface => 14,
        Reason::Member => 15,
        Reason::ErrorName => 16,
        Reason::BusName => 17,
        Reason::NameTooLong => 18,
        Reason::FieldCode => 19,
        Reason::FieldTwice => 20,
        Reason::FieldType => 21,
        Reason::FieldMissing(_) => 22,
        Reason::Trailing => 23,
        Reason::TooDeep => 24,
        Reason::Truncated => 25,
        Reason::FdIndex => 26,
        Reason::NotYet => 27,
    }
}

/// The code of the header field that is missing, if that is the reason; else 0, which is no field's
/// code.
pub fn field_named(reason: Reason) -> u32
    ensures { result ≡ field_named reason }
{
    match reason {
        Reason::FieldMissing(code) => u32::from(code),
        _ => 0,
    }
}
