//! The rules that a refused message breaks, in words.
#![tactic(auto)]

ghost use Rattle.std.specs.Prelude.{◌≡◌};
ghost use Rattle.dbus_show.specs.ShownMessages.{line_feeds};
ghost use Rattle.dbus_explain.specs.Rules.{missing_text, name_text, rule_text, value_text};

use dbus_value_model::Reason;

// A rule, and the section of the D-Bus Specification that has it.
macro_rules! rule {
    ($rule:literal, $section:literal) => {
        concat!($rule, " (D-Bus Specification, \"", $section, "\")")
    };
}

/// What has to be where a message is refused for this reason, with its section of the D-Bus
/// Specification, as one line without its line feed. A limit is told by its number in the
/// specification and by the option of `dbus-wire` that lowers it.
pub fn rule_of(reason: Reason) -> &'static str
    ensures text { result.now ≡ rule_text reason }
    ensures one_line { line_feeds result.now ≡ 0 }
{
    match reason {
        Reason::ByteOrder => rule!(
            "a message begins with l or B, its byte order",
            "Message Format"
        ),
        Reason::Kind => rule!("the message type is not 0", "Message Format"),
        Reason::Version => rule!("the protocol version is 1", "Message Format"),
        Reason::ZeroSerial => rule!("a serial is not 0", "Message Format"),
        Reason::MessageTooLong => rule!(
            "a message has at most 134217728 bytes, or as many as --max-message says",
            "Message Format"
        ),
        Reason::Truncated => rule!(
            "a message has all the bytes that its header states",
            "Message Format"
        ),
        Reason::Trailing => rule!(
            "nothing follows the last value of the body",
            "Message Format"
        ),
        Reason::FieldCode => rule!("the code of a header field is not 0", "Header Fields"),
        Reason::FieldTwice => rule!("a header field is there at most once", "Header Fields"),
        Reason::FieldType => field_type(),
        Reason::FieldMissing(code) => missing_field(code),
        Reason::FdIndex => rule!(
            "a UNIX_FD is less than the number in the header field unix_fds, as --fds below-count asks",
            "Header Fields"
        ),
        Reason::NotYet => "no input is refused for this reason",
        _ => value_rule(reason),
    }
}

// What has to be in a header field of another type than its own.
fn field_type() -> &'static str
    ensures text { result.now ≡ rule_text Reason.FieldType }
    ensures one_line { line_feeds result.now ≡ 0 }
{
    rule!(
        "path is an OBJECT_PATH, reply_serial and unix_fds are UINT32, signature is a SIGNATURE, the other fields are STRINGs",
        "Header Fields"
    )
}

// Which messages have a header field of this code, which is missing.
fn missing_field(code: u8) -> &'static str
    ensures text { result.now ≡ missing_text code }
    ensures one_line { line_feeds result.now ≡ 0 }
{
    match code {
        1 => rule!(
            "a method_call and a signal have the header field path",
            "Header Fields"
        ),
        2 => rule!("a signal has the header field interface", "Header Fields"),
        3 => rule!(
            "a method_call and a signal have the header field member",
            "Header Fields"
        ),
        4 => rule!("an error has the header field error_name", "Header Fields"),
        5 => rule!(
            "a method_return and an error have the header field reply_serial",
            "Header Fields"
        ),
        _ => rule!(
            "a message has the header fields that its type requires",
            "Header Fields"
        ),
    }
}

// What a value has to be.
fn value_rule(reason: Reason) -> &'static str
    ensures text { result.now ≡ value_text reason }
    ensures one_line { line_feeds result.now ≡ 0 }
{
    match reason {
        Reason::ArrayTooLong => rule!(
            "an array has at most 67108864 bytes, or as many as --max-array says",
            "Marshaling (Wire Format)"
        ),
        Reason::Padding => rule!("the bytes of padding are 0", "Marshaling (Wire Format)"),
        Reason::Overrun => rule!(
            "what is in an array, the header fields or the body ends there",
            "Marshaling (Wire Format)"
        ),
        Reason::Bool => rule!("a BOOLEAN is 0 or 1", "Marshaling (Wire Format)"),
        Reason::Text => rule!(
            "a STRING is UTF-8 without U+0000",
            "Marshaling (Wire Format)"
        ),
        Reason::Nul => rule!("a 0 follows a text", "Marshaling (Wire Format)"),
        Reason::Signature => rule!(
            "a SIGNATURE is complete types, and that of a variant is one",
            "Valid Signatures"
        ),
        Reason::TooDeep => rule!(
            "at most 64 containers are open at once, or as many as --max-depth says",
            "Valid Signatures"
        ),
        Reason::Path => rule!(
            "an OBJECT_PATH is /, or elements of A-Z, a-z, 0-9 and _ with / before each",
            "Valid Object Paths"
        ),
        _ => name_rule(reason),
    }
}

// What a name has to be.
fn name_rule(reason: Reason) -> &'static str
    ensures text { result.now ≡ name_text reason }
    ensures one_line { line_feeds result.now ≡ 0 }
{
    match reason {
        Reason::Interface => rule!(
            "an interface is two or more elements of A-Z, a-z, 0-9 and _ with . between them, and no digit first in one",
            "Valid Names"
        ),
        Reason::ErrorName => rule!(
            "an error name is two or more elements of A-Z, a-z, 0-9 and _ with . between them, and no digit first in one",
            "Valid Names"
        ),
        Reason::Member => rule!(
            "a member is A-Z, a-z, 0-9 and _, and no digit first",
            "Valid Names"
        ),
        Reason::BusName => rule!(
            "a bus name is two or more elements of A-Z, a-z, 0-9, _ and - with . between them, and no digit first in one unless : begins the name",
            "Valid Names"
        ),
        _ => rule!("a name has at most 255 bytes", "Valid Names"),
    }
}
