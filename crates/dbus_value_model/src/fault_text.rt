//! Faults and their reasons as text.
#![tactic(auto)]

use crate::fault::{Fault, Reason};
use std::fmt;

/// The name of the reason, as `Padding`; of a missing field with its code, as `FieldMissing(3)`.
impl fmt::Display for Reason {
    ghost use Rattle.std.specs.Prelude.{Some};
    ghost use Rattle.dbus_value_model.specs.FaultTexts.{reason_text};

    ghost output = { λ reason. Some (reason_text reason) };

    fn fmt<W: fmt::Write>(&self, f: &mut fmt::Formatter<W>) -> fmt::Result {
        match self {
            Reason::ByteOrder => f.write_str("ByteOrder"),
            Reason::Kind => f.write_str("Kind"),
            Reason::Version => f.write_str("Version"),
            Reason::ZeroSerial => f.write_str("ZeroSerial"),
            Reason::ArrayTooLong => f.write_str("ArrayTooLong"),
            Reason::MessageTooLong => f.write_str("MessageTooLong"),
            Reason::Padding => f.write_str("Padding"),
            Reason::Overrun => f.write_str("Overrun"),
            Reason::Bool => f.write_str("Bool"),
            Reason::Text => f.write_str("Text"),
            Reason::Nul => f.write_str("Nul"),
            Reason::Path => f.write_str("Path"),
            Reason::Signature => f.write_str("Signature"),
            Reason::Interface => f.write_str("Interface"),
            Reason::Member => f.write_str("Member"),
            Reason::ErrorName => f.write_str("ErrorName"),
            Reason::BusName => f.write_str("BusName"),
            Reason::NameTooLong => f.write_str("NameTooLong"),
            Reason::FieldCode => f.write_str("FieldCode"),
            Reason::FieldTwice => f.write_str("FieldTwice"),
            Reason::FieldType => f.write_str("FieldType"),
            Reason::FieldMissing(code) => write!(f, "FieldMissing({code})"),
            Reason::Trailing => f.write_str("Trailing"),
            Reason::TooDeep => f.write_str("TooDeep"),
            Reason::Truncated => f.write_str("Truncated"),
            Reason::FdIndex => f.write_str("FdIndex"),
            Reason::NotYet => f.write_str("NotYet"),
        }
    }
}

/// The reason and the place, as `Padding at offset 23`.
impl fmt::Display for Fault {
    ghost use Rattle.std.specs.Prelude.{Some};
    ghost use Rattle.dbus_value_model.specs.FaultTexts.{fault_text};

    ghost output = { λ fault. Some (fault_text fault) };

    fn fmt<W: fmt::Write>(&self, f: &mut fmt::Formatter<W>) -> fmt::Result {
        let at = self.at;
        let reason = self.reason;
        write!(f, "{reason} at offset {at}")
    }
}

impl std::error::Error for Fault {}
