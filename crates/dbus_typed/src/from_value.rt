//! Types of Rust that stand for a type of D-Bus.
#![tactic(auto)]

ghost use Rattle.std.specs.Prelude.{◌≡◌, MatchOption};
ghost use Rattle.dbus_texts.specs.Types.{TypeTree};
ghost use Rattle.dbus_value_model.specs.Values.{ValueTree, type_of};
ghost use Rattle.dbus_values.specs.Seen.{IsSeen};

use dbus_values::ValueView;

/// A type of Rust that stands for a type of D-Bus, so that values of that type are read as it.
///
/// The numbers and `bool` stand for the types of their names, `&str` for STRING, `&[u8]` for an
/// ARRAY of BYTE, and a tuple for a STRUCT. The other types that have no other type of Rust are
/// [`Double`](crate::Double), [`UnixFd`](crate::UnixFd), [`ObjectPath`](crate::ObjectPath) and
/// [`Signature`](crate::Signature). D-Bus Specification, "Type System".
pub trait FromValue<'a>: Sized + Drop {
    // The type of D-Bus.
    ghost stands_for: { TypeTree };

    // The value that one of this type stands for.
    ghost tree: { Self → ValueTree };

    // That has the type.
    ghost typed: { (x : Self) → type_of (tree x) ≡ stands_for };

    /// The value as one of this type, or `None` if it is of another type.
    ///
    /// ```rust
    /// use dbus_message::MessageView;
    /// use dbus_typed::FromValue;
    ///
    /// for value in MessageView::of(bytes)?.body() {
    ///     if let Some(number) = u32::from_value(value) {
    ///         println!(rt; "{number}")?;
    ///     }
    /// }
    /// ```
    fn from_value(value: ValueView<'a>) -> Option<Self>
        ensures read { (v : ValueTree) → IsSeen value.entry v →
            MatchOption result (type_of v ≡ stands_for → ⊥) (λ x. v ≡ tree x) };
}
