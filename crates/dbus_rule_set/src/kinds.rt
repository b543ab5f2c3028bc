//! The kinds of keys under which rules stand, and which of them are used.
#![tactic(auto)]

ghost use Rattle.std.specs.Prelude.{◌≡◌, ◌<◌, ◌+◌, ℕ, true, false, slice_index_or, IfSome};
ghost use Rattle.dbus_rule.specs.declared.key.Key.TheVariants.{Eavesdrop};
ghost use Rattle.dbus_rule.specs.Keys.{IsKey, rank};

use dbus_rule::Key;

/// The kind of rules that stand under their `sender`.
pub(crate) const SENDER: u8 = 1;

/// The kind of rules that stand under none of their keys.
pub(crate) const OTHERS: u8 = 136;

/// The number of kinds.
pub(crate) const KINDS: u8 = 137;

/// The kind of argument `n`, if this is one of the 64 that keys name.
fn argument_kind(first: u8, n: u8) -> Option<u8>
    requires { first < 72 }
    ensures { IfSome result (λ kind. (n < 64) × (kind ≡ first + n)) }
{
    if n < 64 { Some(first + n) } else { None }
}

/// The kind of the key, if rules stand under it.
pub(crate) fn kind_of(key: Key) -> Option<u8>
    ensures { IfSome result (λ kind. IsKey key × (kind ≡ rank key) × (kind < 136)) }
{
    match key {
        Key::MessageType => Some(0),
        Key::Sender => Some(SENDER),
        Key::Interface => Some(2),
        Key::Member => Some(3),
        Key::Path => Some(4),
        Key::PathNamespace => Some(5),
        Key::Destination => Some(6),
        Key::Arg(n) => argument_kind(7, n),
        Key::ArgPath(n) => argument_kind(71, n),
        Key::Arg0Namespace => Some(135),
        Key::Eavesdrop => None,
    }
}

/// The key of the kind.
pub(crate) fn key_of(kind: u8) -> Key
    ensures keyed { kind < 136 → IsKey result × (rank result ≡ kind) }
    ensures others { kind ≡ 136 → result ≡ Eavesdrop }
{
    match kind {
        0 => Key::MessageType,
        SENDER => Key::Sender,
        2 => Key::Interface,
        3 => Key::Member,
        4 => Key::Path,
        5 => Key::PathNamespace,
        6 => Key::Destination,
        7..=70 => Key::Arg(kind - 7),
        71..=134 => Key::ArgPath(kind - 71),
        135 => Key::Arg0Namespace,
        _ => Key::Eavesdrop,
    }
}

/// The kinds of the rules that were added, so that no other is looked up.
#[derive(Clone, Copy)]
pub(crate) struct Kinds {
    pub(crate) used: [bool; 137],
}

impl Kinds {
    /// None.
    pub(crate) fn new() -> Kinds {
        Kinds { used: [false; 137] }
    }

    /// Whether the kind was used.
    pub(crate) fn has(&self, kind: u8) -> bool
        requires { kind < 137 }
        ensures { result ≡ slice_index_or self.now.used kind false }
    {
        self.used[usize::from(kind)]
    }

    /// Adds the kind.
    #[tactic(auto, using(crate::proofs::Marked::mark_up))]
    pub(crate) fn mark(&mut self, kind: u8)
        requires { kind < 137 }
        ensures up { (k : ℕ) → slice_index_or self.old.used k false ≡ true → slice_index_or self.new.used k false ≡ true }
        ensures here { slice_index_or self.new.used kind false ≡ true }
    {
        self.used[usize::from(kind)] = true;
    }
}
