//! The known fields of a message's header: what the value of each has to be.
#![tactic(auto)]

ghost use Rattle.std.specs.Prelude.{◌≡◌};
ghost use Rattle.dbus_message_model.specs.Messages.{want, is_known};
ghost use Rattle.dbus_message_model.specs.KnownFields.{want_of};

use crate::field_code::{
    DESTINATION, ERROR_NAME, INTERFACE, MEMBER, PATH, REPLY_SERIAL, SENDER, SIGNATURE, UNIX_FDS,
};
use dbus_types::TextKind;

/// What the value of a field has to be.
#[derive(Clone, Copy)]
pub enum Wanted {
    /// Any value, since the field is not known.
    Anything,
    /// An OBJECT_PATH.
    Path,
    /// A STRING that is a name of the kind.
    Name(TextKind),
    /// A UINT32 that is not 0.
    Serial,
    /// A SIGNATURE.
    Signature,
    /// A UINT32.
    Number,
}

/// What the value of a field of this code has to be: the table of the known fields. D-Bus
/// Specification, "Header Fields".
pub fn want(code: u8) -> Wanted
    ensures { want_of result ≡ want code }
{
    match code {
        PATH => Wanted::Path,
        INTERFACE => Wanted::Name(TextKind::Interface),
        MEMBER => Wanted::Name(TextKind::Member),
        ERROR_NAME => Wanted::Name(TextKind::ErrorName),
        REPLY_SERIAL => Wanted::Serial,
        DESTINATION | SENDER => Wanted::Name(TextKind::BusName),
        SIGNATURE => Wanted::Signature,
        UNIX_FDS => Wanted::Number,
        _ => Wanted::Anything,
    }
}

/// Whether a field of this code is known.
pub fn is_known(code: u8) -> bool
    ensures { result ≡ is_known code }
{
    !matches!(want(code), Wanted::Anything)
}
