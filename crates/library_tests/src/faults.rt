//! The texts of faults, as people read them, and of a GUID.

use dbus_auth_lines::{Guid, LineFault, TextFault};
use dbus_body::PutFault;
use dbus_build::BuildFault;
use dbus_handshake_input::{HandshakeFault, HandshakeReason};
use dbus_rule::{RuleFault, RuleReason};
use dbus_stream::{ReadFault, StreamFault, WriteFault};
use dbus_types::{NameFault, SigFault};
use dbus_value_model::{Fault, Reason, Refusal, StringFault, ValueFault};
use std::alloc::Global;
use std::fmt::Display;
use std::process::Abort;
use std::test::Fail;

const NO_MEMORY: &str = "allocation failed";

const NAME_FAULTS: &[(NameFault, &str)] = &[
    (NameFault::TooLong, "the name has more than 255 bytes"),
    (
        NameFault::Bad { at: 0 },
        "no such name: it breaks at offset 0",
    ),
    (
        NameFault::Bad { at: 12 },
        "no such name: it breaks at offset 12",
    ),
];

const SIGNATURE_FAULTS: &[(SigFault, &str)] = &[
    (SigFault::Memory, NO_MEMORY),
    (SigFault::TooLong, "the signature has more than 255 bytes"),
    (
        SigFault::Bad { at: 255 },
        "no signature: it breaks at offset 255",
    ),
];

const STRING_FAULTS: &[(StringFault, &str)] = &[
    (StringFault::Memory, NO_MEMORY),
    (
        StringFault::Bad { at: 3 },
        "no STRING: U+0000 stands at offset 3",
    ),
];

const VALUE_FAULTS: &[(ValueFault, &str)] = &[
    (ValueFault::Memory, NO_MEMORY),
    (
        ValueFault::TooDeep,
        "more containers are open at once than the limit on depth",
    ),
    (ValueFault::Mixed, "a part has no type that fits its place"),
    (
        ValueFault::Name,
        "a path or a signature is none, or a text has U+0000",
    ),
    (
        ValueFault::ArrayTooLong,
        "an array is over the limit on arrays",
    ),
    (
        ValueFault::TooLong,
        "the value ends past the limit on messages",
    ),
];

const REASONS: &[(Reason, &str)] = &[
    (Reason::ByteOrder, "ByteOrder"),
    (Reason::Kind, "Kind"),
    (Reason::Version, "Version"),
    (Reason::ZeroSerial, "ZeroSerial"),
    (Reason::ArrayTooLong, "ArrayTooLong"),
    (Reason::MessageTooLong, "MessageTooLong"),
    (Reason::Padding, "Padding"),
    (Reason::Overrun, "Overrun"),
    (Reason::Bool, "Bool"),
    (Reason::Text, "Text"),
    (Reason::Nul, "Nul"),
    (Reason::Path, "Path"),
    (Reason::Signature, "Signature"),
    (Reason::Interface, "Interface"),
    (Reason::Member, "Member"),
    (Reason::ErrorName, "ErrorName"),
    (Reason::BusName, "BusName"),
    (Reason::NameTooLong, "NameTooLong"),
    (Reason::FieldCode, "FieldCode"),
    (Reason::FieldTwice, "FieldTwice"),
    (Reason::FieldType, "FieldType"),
    (Reason::FieldMissing(3), "FieldMissing(3)"),
    (Reason::FieldMissing(255), "FieldMissing(255)"),
    (Reason::Trailing, "Trailing"),
    (Reason::TooDeep, "TooDeep"),
    (Reason::Truncated, "Truncated"),
    (Reason::FdIndex, "FdIndex"),
    (Reason::NotYet, "NotYet"),
];

const PADDING: Fault = Fault {
    at: 23,
    reason: Reason::Padding,
};

const MISSING: Fault = Fault {
    at: 18_446_744_073_709_551_615,
    reason: Reason::FieldMissing(5),
};

const FAULTS: &[(Fault, &str)] = &[
    (PADDING, "Padding at offset 23"),
    (MISSING, "FieldMissing(5) at offset 18446744073709551615"),
];

const REFUSALS: &[(Refusal, &str)] = &[
    (Refusal::Memory, NO_MEMORY),
    (Refusal::Format(PADDING), "Padding at offset 23"),
];

const BUILD_FAULTS: &[(BuildFault, &str)] = &[
    (BuildFault::Memory, NO_MEMORY),
    (BuildFault::Kind, "the message type is 0"),
    (
        BuildFault::ZeroSerial,
        "the serial or a REPLY_SERIAL field is 0",
    ),
    (BuildFault::FieldCode, "a field's code is 0"),
    (BuildFault::FieldTwice(1), "field 1 stands twice"),
    (
        BuildFault::FieldType(2),
        "field 2 has another type than its own",
    ),
    (BuildFault::FieldMissing(3), "field 3 is missing"),
    (
        BuildFault::TooDeep,
        "more containers are open at once than the limit on depth",
    ),
    (
        BuildFault::Name(6),
        "the text of field 6 is not of its kind",
    ),
    (
        BuildFault::FieldValue(200),
        "the value of field 200 is not well formed",
    ),
    (
        BuildFault::Value(0),
        "value 0 of the body is not well formed",
    ),
    (
        BuildFault::SignatureDiffers,
        "the types of the body's values are not those of the SIGNATURE field",
    ),
    (
        BuildFault::ArrayTooLong,
        "an array is over the limit on arrays",
    ),
    (
        BuildFault::MessageTooLong,
        "the message is over the limit on messages",
    ),
    (
        BuildFault::FdIndex(4),
        "value 4 of the body has an index of a descriptor that is not below their number",
    ),
];

const RULE_REASONS: &[(RuleReason, &str)] = &[
    (RuleReason::Nul, "Nul"),
    (RuleReason::NoEquals, "NoEquals"),
    (RuleReason::KeyName, "KeyName"),
    (RuleReason::KeyTwice, "KeyTwice"),
    (RuleReason::PathAndNamespace, "PathAndNamespace"),
    (RuleReason::OpenQuote, "OpenQuote"),
    (RuleReason::BadValue, "BadValue"),
];

const RULE_FAULTS: &[(RuleFault, &str)] = &[
    (RuleFault::Memory, NO_MEMORY),
    (
        RuleFault::Bad {
            at: 14,
            reason: RuleReason::KeyTwice,
        },
        "KeyTwice at offset 14",
    ),
];

const LINE_FAULTS: &[(LineFault, &str)] = &[
    (LineFault::Memory, NO_MEMORY),
    (LineFault::TooLong, "the line has more than 16,384 bytes"),
    (
        LineFault::BadByte { at: 7 },
        "a byte that a line may not have, at offset 7",
    ),
];

const TEXT_FAULTS: &[(TextFault, &str)] = &[
    (TextFault::Memory, NO_MEMORY),
    (TextFault::Unspellable, "no line spells this"),
];

const GUIDS: &[(Guid, &str)] = &[(
    Guid([
        1, 35, 69, 103, 137, 171, 205, 239, 1, 35, 69, 103, 137, 171, 205, 239,
    ]),
    "0123456789abcdef0123456789abcdef",
)];

const TRUNCATED: Fault = Fault {
    at: 1000,
    reason: Reason::Truncated,
};

const NO_MESSAGE: &str = "the bytes are no message: Truncated at offset 1000";

const STREAM_FAULTS: &[(StreamFault, &str)] = &[
    (StreamFault::Memory, NO_MEMORY),
    (StreamFault::Format(TRUNCATED), NO_MESSAGE),
];

const READ_FAULTS: &[(ReadFault, &str)] = &[
    (ReadFault::Memory, NO_MEMORY),
    (ReadFault::Format(TRUNCATED), NO_MESSAGE),
    (ReadFault::Device, "the device failed"),
    (ReadFault::TooManyReads, "too many reads"),
];

const WRITE_FAULTS: &[(WriteFault, &str)] = &[
    (WriteFault::Memory, NO_MEMORY),
    (
        WriteFault::Device { written: 24 },
        "the device failed after 24 bytes",
    ),
];

const HANDSHAKE_FAULTS: &[(HandshakeFault, &str)] = &[
    (HandshakeFault::Memory, NO_MEMORY),
    (HandshakeFault::Device, "the device failed"),
    (
        HandshakeFault::Refused {
            at: 7,
            reason: HandshakeReason::NoCommand,
        },
        "the bytes begin with no handshake: NoCommand at offset 7",
    ),
];

const PUT_FAULTS: &[(PutFault, &str)] = &[
    (PutFault::Memory, NO_MEMORY),
    (PutFault::TooLong, "too many bytes for their length"),
    (PutFault::NotOpen, "no array is open at this place"),
];

// Each has its text.
fn are_told<T: Display>(rt: &impl Abort, alloc: Global, rows: &[(T, &str)]) -> Result<(), Fail> {
    for (told, text) in rows {
        assert_eq!(rt; format!(in alloc; "{told}")?.as_str(), *text);
    }
    Ok(())
}

#[test]
fn names_and_signatures(rt: HostRuntime) -> Result<(), Fail> {
    are_told(&rt, rt.alloc(), NAME_FAULTS)?;
    are_told(&rt, rt.alloc(), STRING_FAULTS)?;
    are_told(&rt, rt.alloc(), SIGNATURE_FAULTS)
}

#[test]
fn values_and_their_bytes(rt: HostRuntime) -> Result<(), Fail> {
    are_told(&rt, rt.alloc(), VALUE_FAULTS)?;
    are_told(&rt, rt.alloc(), REASONS)?;
    are_told(&rt, rt.alloc(), FAULTS)?;
    are_told(&rt, rt.alloc(), REFUSALS)
}

#[test]
fn parts_of_messages(rt: HostRuntime) -> Result<(), Fail> {
    are_told(&rt, rt.alloc(), BUILD_FAULTS)
}

#[test]
fn match_rules(rt: HostRuntime) -> Result<(), Fail> {
    are_told(&rt, rt.alloc(), RULE_REASONS)?;
    are_told(&rt, rt.alloc(), RULE_FAULTS)
}

#[test]
fn lines_of_the_handshake(rt: HostRuntime) -> Result<(), Fail> {
    are_told(&rt, rt.alloc(), LINE_FAULTS)?;
    are_told(&rt, rt.alloc(), TEXT_FAULTS)
}

#[test]
fn guids(rt: HostRuntime) -> Result<(), Fail> {
    are_told(&rt, rt.alloc(), GUIDS)
}

#[test]
fn faults_of_streams(rt: HostRuntime) -> Result<(), Fail> {
    are_told(&rt, rt.alloc(), STREAM_FAULTS)?;
    are_told(&rt, rt.alloc(), READ_FAULTS)?;
    are_told(&rt, rt.alloc(), WRITE_FAULTS)?;
    are_told(&rt, rt.alloc(), HANDSHAKE_FAULTS)?;
    are_told(&rt, rt.alloc(), PUT_FAULTS)
}
