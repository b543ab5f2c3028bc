//! The texts of a message that a rule looks at.
#![tactic(auto)]

ghost use Rattle.std.specs.Prelude.{◌≡◌, ℕ, Some, None, MatchOption};
ghost use Rattle.dbus_value_model.specs.ValueViews.{value_tree};
ghost use Rattle.dbus_message_model.specs.KnownFields.{body_value, field_value};
ghost use Rattle.dbus_message_model.specs.MessageViews.{message_tree};
ghost use Rattle.dbus_match.specs.Matching.{string_of, string_or_path_of, text_of};

use dbus_message_model::{Message, arg, field};
use dbus_value_model::Value;
use std::alloc::Allocator;

/// The text of a STRING, an OBJECT_PATH or a SIGNATURE.
fn value_text<A: Allocator>(value: &Value<A>) -> Option<&str>
    ensures { MatchOption result (text_of (Some (value_tree value.now)) ≡ None) (λ s.
        text_of (Some (value_tree value.now)) ≡ Some s.now) }
{
    match value {
        Value::Str(text) => Some(text.as_str()),
        Value::Path(text) => Some(text.as_str()),
        Value::Sig(text) => Some(text.as_str()),
        _ => None,
    }
}

/// The text of a STRING.
fn value_string<A: Allocator>(value: &Value<A>) -> Option<&str>
    ensures { MatchOption result (string_of (Some (value_tree value.now)) ≡ None) (λ s.
        string_of (Some (value_tree value.now)) ≡ Some s.now) }
{
    match value {
        Value::Str(text) => Some(text.as_str()),
        _ => None,
    }
}

/// The text of a STRING or an OBJECT_PATH.
fn value_string_or_path<A: Allocator>(value: &Value<A>) -> Option<&str>
    ensures { MatchOption result (string_or_path_of (Some (value_tree value.now)) ≡ None) (λ s.
        string_or_path_of (Some (value_tree value.now)) ≡ Some s.now) }
{
    match value {
        Value::Str(text) => Some(text.as_str()),
        Value::Path(text) => Some(text.as_str()),
        _ => None,
    }
}

/// The text of the message's first field of the code.
pub(crate) fn field_text<A: Allocator>(message: &Message<A>, code: u8) -> Option<&str>
    ensures { MatchOption result (text_of (field_value code (message_tree message.now).fields) ≡
        None) (λ s. text_of (field_value code (message_tree message.now).fields) ≡ Some s.now) }
{
    match field(message, code) {
        Some(value) => value_text(value),
        None => None,
    }
}

/// The text of the message's argument of the number, if that is a STRING.
pub(crate) fn string_arg<A: Allocator>(message: &Message<A>, n: u8) -> Option<&str>
    ensures { MatchOption result (string_of (body_value n (message_tree message.now).body) ≡
        None) (λ s. string_of (body_value n (message_tree message.now).body) ≡ Some s.now) }
{
    match arg(message, usize::from(n)) {
        Some(value) => value_string(value),
        None => None,
    }
}

/// The text of the message's argument of the number, if that is a STRING or an OBJECT_PATH.
pub(crate) fn string_or_path_arg<A: Allocator>(message: &Message<A>, n: u8) -> Option<&str>
    ensures { MatchOption result (string_or_path_of (body_value n (message_tree message.now).body) ≡
        None) (λ s. string_or_path_of (body_value n (message_tree message.now).body) ≡ Some s.now) }
{
    match arg(message, usize::from(n)) {
        Some(value) => value_string_or_path(value),
        None => None,
    }
}
