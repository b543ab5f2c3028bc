//! What the keys of a rule ask of a message: of its type, and of a text that it may have.
#![tactic(auto)]

ghost use Rattle.std.specs.Prelude.{◌≡◌, ◌⊎◌, ◌↔◌, Some, IsTrue, MatchOption, string_bytes};
ghost use Rattle.dbus_message_model.specs.MessageTypes.{type_name};
ghost use Rattle.dbus_match.specs.Matching.{IsInNamespace, IsOwned, IsWithin, PathsMeet, ownerships};

use crate::compare::paths_meet;
use crate::owner::Owner;
use crate::within::{is_in_namespace, is_within};
use dbus_message_model::message_type::type_name;
use std::alloc::Allocator;

/// Whether the message type is the one of this name.
pub(crate) fn is_type(kind: u8, name: &str) -> bool
    ensures { IsTrue result ↔ (type_name kind ≡ Some name.now) }
{
    match type_name(kind) {
        Some(text) => text == name,
        None => false,
    }
}

/// Whether the owner has the name and the unique name.
fn owns<A: Allocator>(owner: &Owner<A>, name: &str, unique: &str) -> bool
    ensures { IsTrue result ↔
        ((string_bytes owner.now.name ≡ name.now) × (string_bytes owner.now.unique ≡ unique.now)) }
{
    owner.name.as_str() == name && owner.unique.as_str() == unique
}

/// Whether some owner has the name and the unique name.
#[tactic(auto, using(crate::proofs::Decided::owned_at))]
pub(crate) fn is_owned<A: Allocator>(owners: &[Owner<A>], name: &str, unique: &str) -> bool
    ensures { IsTrue result ↔ IsOwned (ownerships owners.now) name.now unique.now }
{
    for owner in owners {
        if owns(owner, name, unique) {
            return true;
        }
    }
    false
}

/// Whether the text is there and is the value.
pub(crate) fn is_text(text: Option<&str>, value: &str) -> bool
    ensures { IsTrue result ↔ MatchOption text.entry ⊥ (λ w. value.now ≡ w.now) }
{
    match text {
        Some(text) => value == text,
        None => false,
    }
}

/// Whether the sender is there and is the value, or the unique name of an owner of the value.
pub(crate) fn is_sender<A: Allocator>(text: Option<&str>, value: &str, owners: &[Owner<A>]) -> bool
    ensures { IsTrue result ↔
        MatchOption text.entry ⊥ (λ w.
        (value.now ≡ w.now) ⊎ IsOwned (ownerships owners.now) value.now w.now) }
{
    match text {
        Some(text) => value == text || is_owned(owners, value, text),
        None => false,
    }
}

/// Whether the path is there and in the namespace.
pub(crate) fn is_path_in(text: Option<&str>, namespace: &str) -> bool
    ensures { IsTrue result ↔ MatchOption text.entry ⊥ (λ w. IsInNamespace namespace.now w.now) }
{
    match text {
        Some(text) => is_in_namespace(namespace.as_bytes(), text.as_bytes()),
        None => false,
    }
}

/// Whether the text is there and is the value, or one of the two ends in `/` and begins the other.
pub(crate) fn meets_path(text: Option<&str>, value: &str) -> bool
    ensures { IsTrue result ↔ MatchOption text.entry ⊥ (λ w. PathsMeet value.now w.now) }
{
    match text {
        Some(text) => paths_meet(value.as_bytes(), text.as_bytes()),
        None => false,
    }
}

/// Whether the text is there and is the namespace, or begins with it and `.`.
pub(crate) fn is_name_in(text: Option<&str>, namespace: &str) -> bool
    ensures { IsTrue result ↔ MatchOption text.entry ⊥ (λ w. IsWithin 46 namespace.now w.now) }
{
    match text {
        Some(text) => is_within(b'.', namespace.as_bytes(), text.as_bytes()),
        None => false,
    }
}
