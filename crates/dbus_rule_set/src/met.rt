//! Under which hashes the rules of one kind stand that may match a message.
#![tactic(auto)]

ghost use Rattle.std.specs.Prelude.{◌≡◌, ◌≢◌, ◌⊎◌, ℕ, List, IsTrue, OnSome, IfSome, option_map};
ghost use Rattle.dbus_value_model.specs.declared.order.Order.{Order};
ghost use Rattle.dbus_message_model.specs.Messages.{MessageTree};
ghost use Rattle.dbus_view.specs.Views.{Views};
ghost use Rattle.dbus_rule.specs.declared.key.Key.TheVariants.{Eavesdrop};
ghost use Rattle.dbus_match.specs.Matching.{HoldsAt, IsOwned, PathsMeet};
ghost use Rattle.dbus_rule_set.specs.Owners.{owners_in};
ghost use Rattle.dbus_rule_set.specs.Places.{Covers, IsAmong, IsFront, place_hash, trimmed};
ghost use Rattle.dbus_rule_set.specs.TextNumbers.{text_hash};

use crate::numbers::{START, and_byte, hash_of, text_hash};
use crate::owners::Owners;
use crate::slashes::ends_in_slash;
use arrayvec::ArrayVec;
use dbus_match::{string_arg, string_or_path_arg};
use dbus_message_model::message_type::type_name;
use dbus_rule::Key;
use dbus_view::MessageView;

/// The most hashes that are looked up for one kind.
const HASHES: usize = 64;

/// Some hashes.
pub(crate) type Hashes = ArrayVec<u32, HASHES>;

/// Adds the hash, if it is wanted; `None` if there is no room.
fn note(hashes: &mut Hashes, wanted: bool, hash: u32) -> Option<()>
    ensures kept { (h : ℕ) → IsAmong h hashes.old.items → IsAmong h hashes.new.items }
    ensures noted { OnSome result (IsTrue wanted → IsAmong hash hashes.new.items) }
{
    if !wanted {
        return Some(());
    }
    if hashes.is_full() {
        return None;
    }
    hashes.push(hash);
    Some(())
}

/// The hash of the text, if it is there.
fn only(text: Option<&str>) -> Hashes
    ensures { Covers (option_map (λ s. s.now) text.entry) (λ v w. v ≡ w) (λ v. v) result.items }
{
    let mut hashes = ArrayVec::new();
    if let Some(text) = text {
        hashes.push(text_hash(text.as_bytes()));
    }
    hashes
}

/// The hashes of nothing, of what stands before each separator of the text, and of the text; `None`
/// if they are too many.
fn fronts(separator: u8, text: &[u8]) -> Option<Hashes>
    ensures { IfSome result (λ hashes. (u : List ℕ) →
        IsFront separator u text.now → IsAmong (text_hash u) hashes.items) }
{
    let mut hashes = ArrayVec::new();
    let mut number = START;
    note(&mut hashes, true, hash_of(number))?;
    for byte in text {
        note(&mut hashes, *byte == separator, hash_of(number))?;
        number = and_byte(number, *byte);
    }
    note(&mut hashes, true, hash_of(number))?;
    Some(hashes)
}

/// The same of a text that may be there.
fn fronts_of(separator: u8, text: Option<&str>) -> Option<Hashes>
    ensures { IfSome result (λ hashes.
        Covers (option_map (λ s. s.now) text.entry) (λ v w. IsFront separator v w) (λ v. v) hashes.items) }
{
    match text {
        Some(text) => fronts(separator, text.as_bytes()),
        None => Some(ArrayVec::new()),
    }
}

/// The hashes of the paths that a text meets; `None` if they are too many, as those of a text that
/// ends in `/`.
fn paths(text: Option<&str>) -> Option<Hashes>
    ensures { IfSome result (λ hashes.
        Covers (option_map (λ s. s.now) text.entry) (λ v w. PathsMeet v w) trimmed hashes.items) }
{
    let Some(text) = text else {
        return Some(ArrayVec::new());
    };
    let bytes = text.as_bytes();
    if ends_in_slash(bytes) {
        return None;
    }
    fronts(b'/', bytes)
}

/// The hashes of the sender and of the names that it owns; `None` if they are too many.
fn senders(text: Option<&str>, owners: &Owners) -> Option<Hashes>
    ensures { IfSome result (λ hashes.
        Covers (option_map (λ s. s.now) text.entry) (λ v w.
        (v ≡ w) ⊎ IsOwned (owners_in owners.now) v w) (λ v. v) hashes.items) }
{
    let mut hashes = only(text);
    let Some(unique) = text else {
        return Some(hashes);
    };
    let Some(names) = owners.of(unique) else {
        return Some(hashes);
    };
    for name in names {
        note(&mut hashes, true, text_hash(name.as_str().as_bytes()))?;
    }
    Some(hashes)
}

/// The hashes under which rules with the key stand that may match the message; `None` if any of
/// these rules may match.
pub(crate) fn met(key: Key, view: &MessageView, owners: &Owners) -> Option<Hashes>
    ensures met { (order : Order) (m : MessageTree) → Views view.now order m →
        IfSome result (λ hashes. (v : List ℕ) →
        HoldsAt key v m (owners_in owners.now) → IsAmong (place_hash key v) hashes.items) }
    ensures all { OnSome result (key ≢ Eavesdrop) }
{
    match key {
        Key::MessageType => Some(only(type_name(view.kind()))),
        Key::Sender => senders(view.sender(), owners),
        Key::Interface => Some(only(view.interface())),
        Key::Member => Some(only(view.member())),
        Key::Path => Some(only(view.path())),
        Key::PathNamespace => fronts_of(b'/', view.path()),
        Key::Destination => Some(only(view.destination())),
        Key::Arg(n) => Some(only(string_arg(view, n))),
        Key::ArgPath(n) => paths(string_or_path_arg(view, n)),
        Key::Arg0Namespace => fronts_of(b'.', string_arg(view, 0)),
        Key::Eavesdrop => None,
    }
}
