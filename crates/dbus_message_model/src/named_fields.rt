//! The known header fields of a message, by name. D-Bus Specification, "Header Fields".
#![tactic(auto)]

ghost use Rattle.std.specs.Prelude.{◌≡◌, Some, None, MatchOption};
ghost use Rattle.dbus_texts.specs.Types.{UINT32, STRING, OBJECT_PATH, SIGNATURE};
ghost use Rattle.dbus_value_model.specs.Values.{NumberValue, TextValue};
ghost use Rattle.dbus_message_model.specs.Messages.{want};
ghost use Rattle.dbus_message_model.specs.KnownFields.{field_value};
ghost use Rattle.dbus_message_model.specs.MessageViews.{message_tree};

use crate::field_code;
use crate::lookups::field;
use crate::message::Message;
use dbus_value_model::Value;
use std::alloc::Allocator;

impl<A: Allocator> Message<A> {
    ghost use Rattle.dbus_message_model.specs.KnownFields.{WantsText, IsTextOf, WantsNumber};

    /// The text of the field of a code of which a text is wanted.
    fn text(&self, code: u8) -> Option<&str>
        requires { WantsText (want code) }
        ensures { MatchOption result (field_value code (message_tree self.now).fields ≡ None) (λ s.
            IsTextOf (want code) (field_value code (message_tree self.now).fields) s.now) }
    {
        match field(self, code)? {
            Value::Str(text) | Value::Path(text) | Value::Sig(text) => Some(text),
            _ => None,
        }
    }

    /// The number of the field of a code of which a UINT32 is wanted.
    fn number(&self, code: u8) -> Option<u32>
        requires { WantsNumber (want code) }
        ensures { MatchOption result (field_value code (message_tree self.now).fields ≡ None) (λ n.
            field_value code (message_tree self.now).fields ≡ Some (NumberValue UINT32 n)) }
    {
        let Value::U32(number) = field(self, code)? else {
            return None;
        };
        Some(*number)
    }

    /// The PATH field, if there is one. D-Bus Specification, "Header Fields".
    pub fn path(&self) -> Option<&str>
        ensures { MatchOption result (field_value 1 (message_tree self.now).fields ≡ None) (λ s.
            field_value 1 (message_tree self.now).fields ≡ Some (TextValue OBJECT_PATH s.now)) }
    {
        self.text(field_code::PATH)
    }

    /// The INTERFACE field, if there is one. D-Bus Specification, "Header Fields".
    pub fn interface(&self) -> Option<&str>
        ensures { MatchOption result (field_value 2 (message_tree self.now).fields ≡ None) (λ s.
            field_value 2 (message_tree self.now).fields ≡ Some (TextValue STRING s.now)) }
    {
        self.text(field_code::INTERFACE)
    }

    /// The MEMBER field, if there is one. D-Bus Specification, "Header Fields".
    pub fn member(&self) -> Option<&str>
        ensures { MatchOption result (field_value 3 (message_tree self.now).fields ≡ None) (λ s.
            field_value 3 (message_tree self.now).fields ≡ Some (TextValue STRING s.now)) }
    {
        self.text(field_code::MEMBER)
    }

    /// The ERROR_NAME field, if there is one. D-Bus Specification, "Header Fields".
    pub fn error_name(&self) -> Option<&str>
        ensures { MatchOption result (field_value 4 (message_tree self.now).fields ≡ None) (λ s.
            field_value 4 (message_tree self.now).fields ≡ Some (TextValue STRING s.now)) }
    {
        self.text(field_code::ERROR_NAME)
    }

    /// The REPLY_SERIAL field, if there is one. D-Bus Specification, "Header Fields".
    pub fn reply_serial(&self) -> Option<u32>
        ensures { MatchOption result (field_value 5 (message_tree self.now).fields ≡ None) (λ n.
            field_value 5 (message_tree self.now).fields ≡ Some (NumberValue UINT32 n)) }
    {
        self.number(field_code::REPLY_SERIAL)
    }

    /// The DESTINATION field, if there is one. D-Bus Specification, "Header Fields".
    pub fn destination(&self) -> Option<&str>
        ensures { MatchOption result (field_value 6 (message_tree self.now).fields ≡ None) (λ s.
            field_value 6 (message_tree self.now).fields ≡ Some (TextValue STRING s.now)) }
    {
        self.text(field_code::DESTINATION)
    }

    /// The SENDER field, if there is one. D-Bus Specification, "Header Fields".
    pub fn sender(&self) -> Option<&str>
        ensures { MatchOption result (field_value 7 (message_tree self.now).fields ≡ None) (λ s.
            field_value 7 (message_tree self.now).fields ≡ Some (TextValue STRING s.now)) }
    {
        self.text(field_code::SENDER)
    }

    /// The SIGNATURE field, if there is one: the types of the body's values. D-Bus Specification,
    /// "Header Fields".
    pub fn signature(&self) -> Option<&str>
        ensures { MatchOption result (field_value 8 (message_tree self.now).fields ≡ None) (λ s.
            field_value 8 (message_tree self.now).fields ≡ Some (TextValue SIGNATURE s.now)) }
    {
        self.text(field_code::SIGNATURE)
    }

    /// The UNIX_FDS field, if there is one: how many file descriptors come with the message. D-Bus
    /// Specification, "Header Fields".
    pub fn unix_fds(&self) -> Option<u32>
        ensures { MatchOption result (field_value 9 (message_tree self.now).fields ≡ None) (λ n.
            field_value 9 (message_tree self.now).fields ≡ Some (NumberValue UINT32 n)) }
    {
        self.number(field_code::UNIX_FDS)
    }
}
