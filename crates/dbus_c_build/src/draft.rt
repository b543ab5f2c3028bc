//! The parts of a message to be built, whose texts and body are the caller's bytes.
#![tactic(auto)]

ghost use Rattle.std.specs.Prelude.{◌≡◌};

use dbus_message_model::field_code::{
    DESTINATION, ERROR_NAME, INTERFACE, MEMBER, PATH, REPLY_SERIAL, SENDER, SIGNATURE, UNIX_FDS,
};
use dbus_value_model::Order;

/// What stands for the body among the codes of the fields.
pub(crate) const BODY: u8 = 0;

/// The parts of a message. D-Bus Specification, "Message Format" and "Header Fields".
#[derive(Drop)]
pub struct Draft<'a> {
    /// The byte order: that of the body, and so of the message.
    pub order: Order,
    /// The message type.
    pub kind: u8,
    /// The flags.
    pub flags: u8,
    /// The serial.
    pub serial: u32,
    /// The REPLY_SERIAL, or 0 for no such field.
    pub reply_serial: u32,
    /// The number of the UNIX_FDS field, or 0 for no such field.
    pub unix_fds: u32,
    /// The PATH.
    pub path: Option<&'a [u8]>,
    /// The INTERFACE.
    pub interface: Option<&'a [u8]>,
    /// The MEMBER.
    pub member: Option<&'a [u8]>,
    /// The ERROR_NAME.
    pub error_name: Option<&'a [u8]>,
    /// The DESTINATION.
    pub destination: Option<&'a [u8]>,
    /// The SENDER.
    pub sender: Option<&'a [u8]>,
    /// The SIGNATURE: the types of the values in the body.
    pub signature: Option<&'a [u8]>,
    /// The bytes of the body, spelled as they are in a message, where a body begins at a multiple
    /// of 8.
    pub body: &'a [u8],
}

impl<'a> Draft<'a> {
    ghost use Rattle.dbus_c_build.specs.Drafts.{number_of, text_of};

    /// The text of a field by its code, or the body.
    pub(crate) fn text(&self, code: u8) -> Option<&'a [u8]>
        ensures { result ≡ text_of code self.now }
    {
        match code {
            BODY => Some(self.body),
            PATH => self.path,
            INTERFACE => self.interface,
            MEMBER => self.member,
            ERROR_NAME => self.error_name,
            DESTINATION => self.destination,
            SENDER => self.sender,
            SIGNATURE => self.signature,
            _ => None,
        }
    }

    /// The number of a field by its code, or 0.
    pub(crate) fn number(&self, code: u8) -> u32
        ensures { result ≡ number_of code self.now }
    {
        match code {
            REPLY_SERIAL => self.reply_serial,
            UNIX_FDS => self.unix_fds,
            _ => 0,
        }
    }
}
