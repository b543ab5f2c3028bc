//! Names of an object's members. RFC 8259, section 4; D-Bus Specification, "Header Fields".
#![tactic(auto)]

ghost use Rattle.std.specs.Prelude.{◌≡◌, ℕ, true, None, IfSome, IsTrue};
ghost use Rattle.json.specs.Strict.{keys};
ghost use Rattle.json.specs.Value.{members_view};
ghost use Rattle.dbus_message_model.specs.Messages.{is_known as is_known_code};
ghost use Rattle.dbus_show.specs.ShownMessages.{field_name};
ghost use Rattle.dbus_json_reader.specs.JsonFaults.{IsOneOf};
ghost use Rattle.dbus_json_reader.specs.JsonMessages.{is_among, plain_names};
ghost use Rattle.dbus_json_reader.specs.JsonNames.{AreNamed, IsNameFault, known_names, name_reason, names_for};
ghost use Rattle.dbus_json_reader.specs.JsonReasons.{is_of_json};

use crate::reasons::JsonReason;
use crate::tokens::tokens_in_members;
use crate::unread::Unread;
use dbus_message_model::field_code::{PATH, UNIX_FDS};
use dbus_message_model::field_table::is_known;
use dbus_show::push_field_name;
use json::Value;
use std::alloc::Allocator;

// ---- known header fields

/// What the table of names is read by: it takes a name where others append one.
struct Name;

impl Name {
    fn push_str(&self, name: &'static str) -> &'static str
        ensures { result.now ≡ name.now }
    {
        name
    }
}

/// The name of a known field.
fn name_of(code: u8) -> &'static str
    requires { is_known_code code ≡ true }
    ensures { result.now ≡ field_name code }
{
    push_field_name!(Name, code, "", "", "")
}

/// The name of a field, or an empty one if it is not known.
pub(crate) fn named(code: u8) -> &'static str {
    if is_known(code) { name_of(code) } else { "" }
}

/// The code of the known field of this name.
pub(crate) fn field_named(name: &str) -> Option<u8>
    ensures some { IfSome result (λ code.
        (is_known_code code ≡ true) × (name.now ≡ field_name code)) }
    ensures none { result ≡ None → (code : ℕ) → is_known_code code ≡ true →
        name.now ≡ field_name code → ⊥ }
{
    for code in PATH..UNIX_FDS + 1 {
        if name_of(code) == name {
            return Some(code);
        }
    }
    None
}

// ---- members

/// Which members an object may have.
#[derive(Clone, Copy)]
pub(crate) enum Names {
    /// Those of a message.
    Message,
    /// Those of a field that is not known.
    Field,
    /// Those of a variant.
    Variant,
}

/// Whether a member of this name is no header field.
pub(crate) fn is_plain(name: &str) -> bool
    ensures { result ≡ is_among plain_names name.now }
{
    name == "number"
        || name == "offset"
        || name == "time"
        || name == "length"
        || name == "order"
        || name == "type"
        || name == "flags"
        || name == "serial"
        || name == "fields"
        || name == "body"
}

/// Whether a member of this name is a known header field.
fn is_field(name: &str) -> bool
    ensures { result ≡ is_among known_names name.now }
{
    match field_named(name) {
        Some(_) => true,
        None => false,
    }
}

impl Names {
    /// Whether a member may have this name.
    fn have(self, name: &str) -> bool
        ensures { result ≡ is_among (names_for self) name.now }
    {
        match self {
            Names::Message => is_plain(name) || is_field(name),
            Names::Field => {
                name == "code" || name == "type" || name == "value" || name == "place"
            }
            Names::Variant => name == "type" || name == "value",
        }
    }
}

/// Whether one of the members has this name.
fn has_name<A: Allocator>(members: &[(&str, Value<'_, A>)], name: &str) -> bool
    ensures { result ≡ is_among (keys (members_view members.now)) name.now }
{
    for member in members {
        if name == member.0 {
            return true;
        }
    }
    false
}

/// Why a member may not have this name after these.
fn no_name<A: Allocator>(
    before: &[(&str, Value<'_, A>)],
    name: &str,
    names: Names,
) -> Option<JsonReason>
    ensures of_json { IfSome result (λ reason. IsTrue (is_of_json reason)) }
    ensures reason { result ≡
        name_reason (names_for names) (keys (members_view before.now)) name.now }
{
    if !names.have(name) {
        return Some(JsonReason::MemberUnknown);
    }
    if has_name(before, name) {
        return Some(JsonReason::MemberTwice);
    }
    None
}

/// The first member that may not have its name, or that has the name of one before it. Few steps
/// are taken, since an object may have only some names.
pub(crate) fn strange_member<A: Allocator>(
    members: &[(&str, Value<'_, A>)],
    names: Names,
) -> Option<Unread>
    ensures none { result ≡ None → AreNamed (names_for names) (members_view members.now) }
    ensures some { IfSome result
        (IsOneOf (IsNameFault (names_for names) (members_view members.now))) }
    ensures refused { IfSome result (λ _.
        AreNamed (names_for names) (members_view members.now) → ⊥) }
{
    for (i, member) in members.iter().enumerate() {
        if let Some(reason) = no_name(&members[..i], member.0, names) {
            return Some(Unread::here(reason).after(tokens_in_members(&members[..i])));
        }
    }
    None
}
