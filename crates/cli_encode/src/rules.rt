//! The rules that a refused line breaks, in words.
#![tactic(auto)]

ghost use Rattle.std.specs.Prelude.{◌≡◌};
ghost use Rattle.cli_encode.specs.Rules.{json_rule_text, line_rule_text, message_rule_text, value_rule_text, words_of};

use crate::reason::LineReason;
use dbus_explain::rule_of;
use dbus_json_lines::JsonReason;
use dbus_show::Draft;
use dbus_value_model::Reason;

// Where the words of a rule are.
#[derive(Clone, Copy)]
pub(crate) enum Rule {
    // Here, since lines alone have it.
    Own(&'static str),
    // Messages have it too, which are refused for this reason.
    OfMessage(Reason),
    // The same of a name, which is short too.
    OfName(Reason),
}

// What has to be in the JSON of a line.
fn json_rule(reason: JsonReason) -> Rule
    ensures { words_of result ≡ json_rule_text reason }
{
    match reason {
        JsonReason::NotUtf8 => Rule::Own("a line is UTF-8 (RFC 8259, section 8.1)"),
        JsonReason::NotJson => Rule::Own(
            "a line is one value of JSON, with at most 130 arrays and objects in one another (RFC 8259, section 2)",
        ),
        JsonReason::Form => Rule::Own(
            "a value has the form that its member or its type wants: an object, an array, a string, a number, true or false",
        ),
        JsonReason::MemberUnknown => Rule::Own(
            "an object has no members but those that json writes there",
        ),
        JsonReason::MemberTwice => Rule::Own("an object has each member once"),
        JsonReason::TypeMissing => Rule::Own(
            "a message, a variant and an object of fields have a type",
        ),
        JsonReason::ValueMissing => Rule::Own("a variant and an object of fields have a value"),
        JsonReason::CodeMissing => Rule::Own("an object of fields has a code"),
        JsonReason::BodyMissing => Rule::Own("a message whose signature is not empty has a body"),
        JsonReason::FieldKnown => Rule::Own(
            "a header field of a known code is a member of its own, by its name",
        ),
        JsonReason::FieldPlace => Rule::Own(
            "the places in fields rise, and none is past the end of all header fields",
        ),
        _ => value_rule(reason),
    }
}

// What a value has to be.
fn value_rule(reason: JsonReason) -> Rule
    ensures { words_of result ≡ value_rule_text reason }
{
    match reason {
        JsonReason::Order => Rule::Own(
            "the order is l or B (D-Bus Specification, \"Message Format\")",
        ),
        JsonReason::Kind => Rule::Own(
            "the type is method_call, method_return, error, signal, or a number other than 0 (D-Bus Specification, \"Message Format\")",
        ),
        JsonReason::NotInteger => Rule::Own(
            "an integer has no point, no exponent and no minus before 0",
        ),
        JsonReason::Range => Rule::Own(
            "a number is in the range of its type (D-Bus Specification, \"Basic types\")",
        ),
        JsonReason::MayBeRounded => Rule::Own(
            "with --safe-integers an INT64 or UINT64 beyond 2^53 - 1, up or down, is a string",
        ),
        JsonReason::Digits => Rule::Own(
            "a string of bytes is pairs of hexadecimal digits, that of a DOUBLE is 16 digits, and that of an INT64 or UINT64 is decimal",
        ),
        JsonReason::Count => Rule::Own("an array has as many values as there are types"),
        _ => message_rule(reason),
    }
}

// What a message has to be, as one that is read has to.
fn message_rule(reason: JsonReason) -> Rule
    ensures { words_of result ≡ message_rule_text reason }
{
    match reason {
        JsonReason::ZeroSerial => Rule::OfMessage(Reason::ZeroSerial),
        JsonReason::FieldCode => Rule::OfMessage(Reason::FieldCode),
        JsonReason::Text => Rule::OfMessage(Reason::Text),
        JsonReason::Path => Rule::OfMessage(Reason::Path),
        JsonReason::Signature => Rule::OfMessage(Reason::Signature),
        JsonReason::Interface => Rule::OfName(Reason::Interface),
        JsonReason::Member => Rule::OfName(Reason::Member),
        JsonReason::ErrorName => Rule::OfName(Reason::ErrorName),
        JsonReason::BusName => Rule::OfName(Reason::BusName),
        JsonReason::TooDeep => Rule::OfMessage(Reason::TooDeep),
        JsonReason::FieldMissing(code) => Rule::OfMessage(Reason::FieldMissing(code)),
        JsonReason::ArrayTooLong => Rule::OfMessage(Reason::ArrayTooLong),
        JsonReason::MessageTooLong => Rule::OfMessage(Reason::MessageTooLong),
        _ => Rule::OfMessage(Reason::FdIndex),
    }
}

/// Appends what has to be where a line is refused for this reason.
pub(crate) fn write_rule<D: Draft>(draft: &mut D, reason: LineReason)
    ensures { D.gains draft.old (line_rule_text reason) draft.new }
{
    match reason {
        LineReason::TooLong => draft.push_str(
            "a line has at most 1073741824 bytes, or as many as --max-line says",
        ),
        LineReason::Unspelled(why) => write_words(draft, json_rule(why)),
    }
}

// Appends the words of a rule.
fn write_words<D: Draft>(draft: &mut D, rule: Rule)
    ensures { D.gains draft.old (words_of rule) draft.new }
{
    match rule {
        Rule::Own(words) => draft.push_str(words),
        Rule::OfMessage(reason) => draft.push_str(rule_of(reason)),
        Rule::OfName(reason) => {
            draft.push_str(rule_of(reason));
            draft.push_str("; ");
            draft.push_str(rule_of(Reason::NameTooLong));
        }
    }
}
