//! The builder of messages.
#![tactic(auto)]

use crate::parts::{with_field, with_value};
use crate::signature::with_signature;
use dbus_build::{Build, BuildFault};
use dbus_message_model::field_code::{
    DESTINATION, ERROR_NAME, INTERFACE, PATH, REPLY_SERIAL, SENDER, UNIX_FDS,
};
use dbus_message_model::flag::NO_REPLY_EXPECTED;
use dbus_message_model::message_type::{ERROR, METHOD_RETURN};
use dbus_message_model::{HeaderField, Message, Parts};
use dbus_value_model::Value;
use std::alloc::{AllocError, Allocator, Global};

/// What a message is to be made of, given part by part. D-Bus Specification, "Message Format".
///
/// [`Compose`](crate::Compose) begins one, and [`MessageBuilder::build`] makes the message. The
/// header fields are in the order of their codes, and one that is set again is replaced. The
/// SIGNATURE field is that of the body's values; there is none if the body is empty. The serial is
/// 1 unless it is set.
///
/// If an allocation fails, the builder remembers that, and `build` reports it:
///
/// ```text
/// let call = Message::call(alloc, "/org/example/Lab", "Greet")
///     .interface("org.example.Greeter")
///     .destination(":1.4")
///     .text("world")
///     .value(Value::U32(7))
///     .build()?;
/// ```
#[derive(Drop)]
pub struct MessageBuilder<A: Allocator = Global> {
    alloc: A,
    /// The parts so far, or that an allocation failed.
    parts: Result<Parts<A>, AllocError>,
}

impl<A: Allocator + Copy> MessageBuilder<A> {
    ghost use Rattle.std.specs.Prelude.{◌≡◌, [], ◌∷◌, Some, None, option_map};
    ghost use Rattle.dbus_texts.specs.Types.{UINT32, STRING, OBJECT_PATH};
    ghost use Rattle.dbus_value_model.specs.Values.{NumberValue, TextValue};
    ghost use Rattle.dbus_value_model.specs.ValueViews.{value_tree};
    ghost use Rattle.dbus_compose.specs.Drafts.{AppendsText, Becomes, IsDraft, begun, field_of, fields_to, name_field, path_field, with_body, with_field, with_flags, with_serial, with_value, drafted, IsComposed};

    /// A builder of a message of the type, with these flags and no fields.
    pub(crate) fn begin(alloc: A, kind: u8, flags: u8) -> Self
        ensures { drafted result ≡ Some (begun kind flags []) }
    {
        let parts = Parts {
            kind,
            flags,
            serial: 1,
            fields: Vec::new(alloc),
            body: Vec::new(alloc),
        };
        MessageBuilder {
            alloc,
            parts: Ok(parts),
        }
    }

    /// A builder of the reply to a call of this serial and SENDER, which expects no reply itself: its
    /// REPLY_SERIAL is the serial, and its DESTINATION the sender, if there is one. D-Bus
    /// Specification, "Message Format", "Header Fields".
    pub fn reply(alloc: A, serial: u32, sender: Option<&str>) -> Self
        ensures { IsDraft
            (begun METHOD_RETURN NO_REPLY_EXPECTED
            (fields_to serial (option_map (λ s. s.now) sender.entry)))
            (drafted result) }
    {
        MessageBuilder::begin_reply(alloc, METHOD_RETURN, serial, sender)
    }

    /// A builder of the reply to such a call that failed, with the error of this name; otherwise as
    /// [`MessageBuilder::reply`] says.
    pub fn error(alloc: A, serial: u32, sender: Option<&str>, name: &str) -> Self
        ensures { IsDraft
            (begun ERROR NO_REPLY_EXPECTED
            (name_field ERROR_NAME name.now ∷ fields_to serial (option_map (λ s. s.now) sender.entry)))
            (drafted result) }
    {
        MessageBuilder::begin_reply(alloc, ERROR, serial, sender).name(ERROR_NAME, name)
    }

    // A builder of a reply of the type.
    fn begin_reply(alloc: A, kind: u8, serial: u32, sender: Option<&str>) -> Self
        ensures { IsDraft
            (begun kind NO_REPLY_EXPECTED
            (fields_to serial (option_map (λ s. s.now) sender.entry)))
            (drafted result) }
    {
        let builder = MessageBuilder::begin(alloc, kind, NO_REPLY_EXPECTED).field(
            REPLY_SERIAL,
            Value::U32(serial),
        );
        match sender {
            None => builder,
            Some(sender) => builder.destination(sender),
        }
    }

    /// A builder after an allocation failed.
    fn failed(alloc: A, error: AllocError) -> Self
        ensures { drafted result ≡ None }
    {
        MessageBuilder {
            alloc,
            parts: Err(error),
        }
    }

    /// Sets the field of the code.
    pub(crate) fn field(self, code: u8, value: Value<A>) -> Self
        ensures { Becomes
            (drafted self)
            (with_field (field_of code (value_tree value)))
            (drafted result) }
    {
        let MessageBuilder { alloc, parts } = self;
        MessageBuilder {
            alloc,
            parts: with_field(parts, HeaderField { code, value }),
        }
    }

    /// Sets the PATH field.
    pub(crate) fn path(self, path: &str) -> Self
        ensures { Becomes (drafted self) (with_field (path_field path.now)) (drafted result) }
    {
        let alloc = self.alloc;
        match String::from_str(alloc, path) {
            Ok(path) => self.field(PATH, Value::Path(path)),
            Err(error) => MessageBuilder::failed(alloc, error),
        }
    }

    /// Sets the field of the code to a STRING.
    pub(crate) fn name(self, code: u8, name: &str) -> Self
        ensures { Becomes (drafted self) (with_field (name_field code name.now)) (drafted result) }
    {
        let alloc = self.alloc;
        match Value::text_unchecked(alloc, name) {
            Ok(name) => self.field(code, name),
            Err(error) => MessageBuilder::failed(alloc, error),
        }
    }

    /// Sets the INTERFACE field: the interface of a call's method. D-Bus Specification, "Header
    /// Fields".
    pub fn interface(self, name: &str) -> Self
        ensures { Becomes
            (drafted self)
            (with_field (name_field INTERFACE name.now))
            (drafted result) }
    {
        self.name(INTERFACE, name)
    }

    /// Sets the DESTINATION field: the bus name that the message is for. D-Bus Specification,
    /// "Header Fields".
    pub fn destination(self, name: &str) -> Self
        ensures { Becomes
            (drafted self)
            (with_field (name_field DESTINATION name.now))
            (drafted result) }
    {
        self.name(DESTINATION, name)
    }

    /// Sets the SENDER field: the bus name that the message comes from. A message bus sets it in
    /// the messages that it passes on. D-Bus Specification, "Header Fields".
    pub fn sender(self, name: &str) -> Self
        ensures { Becomes
            (drafted self)
            (with_field (name_field SENDER name.now))
            (drafted result) }
    {
        self.name(SENDER, name)
    }

    /// Sets the UNIX_FDS field: the number of file descriptors that come with the message. D-Bus
    /// Specification, "Header Fields".
    pub fn unix_fds(self, count: u32) -> Self
        ensures { Becomes
            (drafted self)
            (with_field (field_of UNIX_FDS (NumberValue UINT32 count)))
            (drafted result) }
    {
        self.field(UNIX_FDS, Value::U32(count))
    }

    /// Sets the flags, as the constants of `flag` name them, in place of all that were set. D-Bus
    /// Specification, "Message Format".
    pub fn flags(mut self, flags: u8) -> Self
        ensures { drafted result ≡ option_map (with_flags flags) (drafted self) }
    {
        if let Ok(parts) = &mut self.parts {
            parts.flags = flags;
        }
        self
    }

    /// Sets the serial, which is not 0 in a message. D-Bus Specification, "Message Format".
    pub fn serial(mut self, serial: u32) -> Self
        ensures { drafted result ≡ option_map (with_serial serial) (drafted self) }
    {
        if let Ok(parts) = &mut self.parts {
            parts.serial = serial;
        }
        self
    }

    /// Appends a value to the body. D-Bus Specification, "Message Format".
    pub fn value(self, value: Value<A>) -> Self
        ensures { Becomes (drafted self) (with_value value) (drafted result) }
    {
        let MessageBuilder { alloc, parts } = self;
        MessageBuilder {
            alloc,
            parts: with_value(parts, value),
        }
    }

    /// Appends a STRING to the body. D-Bus Specification, "Message Format".
    pub fn text(self, text: &str) -> Self
        ensures { AppendsText text.now (drafted self) (drafted result) }
    {
        let alloc = self.alloc;
        match Value::text_unchecked(alloc, text) {
            Ok(text) => self.value(text),
            Err(error) => MessageBuilder::failed(alloc, error),
        }
    }

    /// Sets the body, in place of the values that it has. It allocates nothing. D-Bus
    /// Specification, "Message Format".
    pub fn body(mut self, values: Vec<Value<A>, A>) -> Self
        ensures { drafted result ≡ option_map (with_body values.items) (drafted self) }
    {
        if let Ok(parts) = &mut self.parts {
            parts.body = values;
        }
        self
    }

    /// The message, with the SIGNATURE field of its body's values. D-Bus Specification, "Message
    /// Format".
    ///
    /// Else the first case of [`BuildFault`] that holds of these parts, as `Message::new` finds it,
    /// or `Memory` if an allocation failed in this call or in one before it. `Name(8)` means that
    /// the types of the values make no signature: their texts have more than 255 bytes together, a
    /// struct is empty, a dict entry is outside an array, or a type nests too deep.
    pub fn build(self) -> Result<Message<A>, BuildFault>
        ensures { IsComposed (drafted self) result }
    {
        let MessageBuilder { alloc, parts } = self;
        let parts = with_signature(alloc, parts?)?;
        match Message::new(alloc, parts) {
            Ok(message) => Ok(message),
            Err((_parts, fault)) => Err(fault),
        }
    }
}
