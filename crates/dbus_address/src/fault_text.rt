//! The reasons why a text of addresses is refused, as text.
#![tactic(auto)]

use crate::fault::AddressReason;
use std::fmt;

/// The name of the reason, as `KeyTwice`.
impl fmt::Display for AddressReason {
    ghost use Rattle.std.specs.Prelude.{Some};
    ghost use Rattle.dbus_address.specs.FaultTexts.{address_reason_text};

    ghost output = { λ reason. Some (address_reason_text reason) };

    fn fmt<W: fmt::Write>(&self, f: &mut fmt::Formatter<W>) -> fmt::Result {
        match self {
            AddressReason::TooLong => f.write_str("TooLong"),
            AddressReason::Transport => f.write_str("Transport"),
            AddressReason::Key => f.write_str("Key"),
            AddressReason::Value => f.write_str("Value"),
            AddressReason::Escape => f.write_str("Escape"),
            AddressReason::KeyTwice => f.write_str("KeyTwice"),
            AddressReason::Guid => f.write_str("Guid"),
        }
    }
}
