//! Why JSON spells no value of a type, or no message.
#![tactic(auto)]

use std::fmt;

/// Why JSON spells no value of the type that is wanted, or no valid message; or why a line is no
/// JSON. RFC 8259; D-Bus Specification, "Type System", "Message Format" and "Header Fields".
#[derive(Clone, Copy, PartialEq, Eq, Debug)]
pub enum JsonReason {
    /// The line is not UTF-8.
    NotUtf8,
    /// No JSON value has this token after those before it, or it opens an array or object too many.
    NotJson,
    /// A value of JSON of another form than is wanted, as a string for a number or an array for an
    /// object.
    Form,
    /// An object may have no member of this name.
    MemberUnknown,
    /// The name of a member is the name of one before it.
    MemberTwice,
    /// The object has no member `type`.
    TypeMissing,
    /// The object has no member `value`.
    ValueMissing,
    /// The object in `fields` has no member `code`.
    CodeMissing,
    /// The message has a signature, and no member `body`.
    BodyMissing,
    /// The order is neither `l` nor `B`.
    Order,
    /// The message type is 0, or a text that names none.
    Kind,
    /// The serial or the reply serial is 0.
    ZeroSerial,
    /// A field in `fields` has the code 0.
    FieldCode,
    /// A field in `fields` has a code whose field is a member of its own.
    FieldKnown,
    /// A field in `fields` can't stand at its place among all fields.
    FieldPlace,
    /// A number with a point, an exponent or a minus before 0, if an integer is wanted.
    NotInteger,
    /// A number that is not of the type, or that is too large for a DOUBLE.
    Range,
    /// An integer of 64 bits beyond 2^53 - 1 as a number, if integers are to be safe: it may have
    /// been rounded.
    MayBeRounded,
    /// A string that is no pairs of hexadecimal digits, or not 16 of them for a DOUBLE, or no
    /// number for an integer of 64 bits.
    Digits,
    /// An array of more or fewer values than there are types.
    Count,
    /// A STRING with U+0000, or of more bytes than 32 bits count.
    Text,
    /// No object path.
    Path,
    /// No signature; of a variant or a field, not one complete type.
    Signature,
    /// No interface name.
    Interface,
    /// No member name.
    Member,
    /// No error name.
    ErrorName,
    /// No bus name.
    BusName,
    /// A container is opened while as many are open as the limit on depth.
    TooDeep,
    /// The message type requires the header field of this code.
    FieldMissing(u8),
    /// An array, or the header fields, is over the limit on arrays.
    ArrayTooLong,
    /// The message is over the limit on messages.
    MessageTooLong,
    /// The index of a file descriptor is not below their count, if that is asked for.
    FdIndex,
}

/// The name of the reason, as `Range`, with the code of a field that is missing.
impl fmt::Display for JsonReason {
    ghost use Rattle.std.specs.Prelude.{Some};
    ghost use Rattle.dbus_json_reader.specs.JsonReasons.{json_reason_text};

    ghost output = { λ reason. Some (json_reason_text reason) };

    fn fmt<W: fmt::Write>(&self, f: &mut fmt::Formatter<W>) -> fmt::Result {
        match self {
            JsonReason::NotUtf8 => f.write_str("NotUtf8"),
            JsonReason::NotJson => f.write_str("NotJson"),
            JsonReason::Form => f.write_str("Form"),
            JsonReason::MemberUnknown => f.write_str("MemberUnknown"),
            JsonReason::MemberTwice => f.write_str("MemberTwice"),
            JsonReason::TypeMissing => f.write_str("TypeMissing"),
            JsonReason::ValueMissing => f.write_str("ValueMissing"),
            JsonReason::CodeMissing => f.write_str("CodeMissing"),
            JsonReason::BodyMissing => f.write_str("BodyMissing"),
            JsonReason::Order => f.write_str("Order"),
            JsonReason::Kind => f.write_str("Kind"),
            JsonReason::ZeroSerial => f.write_str("ZeroSerial"),
            JsonReason::FieldCode => f.write_str("FieldCode"),
            JsonReason::FieldKnown => f.write_str("FieldKnown"),
            JsonReason::FieldPlace => f.write_str("FieldPlace"),
            JsonReason::NotInteger => f.write_str("NotInteger"),
            JsonReason::Range => f.write_str("Range"),
            JsonReason::MayBeRounded => f.write_str("MayBeRounded"),
            JsonReason::Digits => f.write_str("Digits"),
            JsonReason::Count => f.write_str("Count"),
            JsonReason::Text => f.write_str("Text"),
            JsonReason::Path => f.write_str("Path"),
            JsonReason::Signature => f.write_str("Signature"),
            JsonReason::Interface => f.write_str("Interface"),
            JsonReason::Member => f.write_str("Member"),
            JsonReason::ErrorName => f.write_str("ErrorName"),
            JsonReason::BusName => f.write_str("BusName"),
            JsonReason::TooDeep => f.write_str("TooDeep"),
            JsonReason::FieldMissing(code) => write!(f, "FieldMissing({code})"),
            JsonReason::ArrayTooLong => f.write_str("ArrayTooLong"),
            JsonReason::MessageTooLong => f.write_str("MessageTooLong"),
            JsonReason::FdIndex => f.write_str("FdIndex"),
        }
    }
}
