//! Paths and names validated whole and fast. Only a yes says something: if the answer is no, the
//! scan of `names` finds out. Each begins at `start` and ends with the bytes.
#![tactic(auto)]

ghost use Rattle.std.specs.Prelude.{◌≤◌, length, drop, IsTrue};
ghost use Rattle.dbus_texts.specs.declared.names.Tail.TheVariants.{Needed};
ghost use Rattle.dbus_texts.specs.Kinds.{IsKind, IsPath, IsMember, IsBusName};
ghost use Rattle.dbus_texts.specs.NameScans.{Elements};

use crate::name_blocks::is_linked;
use crate::names::Letters;
use crate::text_kind::{LONGEST, TextKind};

/// Whether the text is a member name, its length aside. D-Bus Specification, "Member names".
fn is_member(bytes: &[u8], start: usize) -> bool
    requires { start ≤ length bytes.now }
    ensures { IsTrue result → IsMember (drop start bytes.now) }
{
    let text = &bytes[start..];
    if text.is_empty() || !Letters::Name.begins(text[0]) {
        return false;
    }
    // It is one element, so a letter stands for the separator.
    is_linked(b'_', Letters::Word, bytes, start)
}

/// Whether the text is two or more elements of such letters, with `.` between them.
#[inline(always)]
fn is_joined(letters: Letters, bytes: &[u8], start: usize) -> bool
    requires { start ≤ length bytes.now }
    ensures { IsTrue result → Elements letters Needed (drop start bytes.now) }
{
    let text = &bytes[start..];
    let separator = letters.separator();
    if text.is_empty() || !letters.begins(text[0]) || text[text.len() - 1] == separator {
        return false;
    }
    text.contains(&separator) && is_linked(separator, letters, bytes, start)
}

/// Whether the text is a bus name, its length aside. D-Bus Specification, "Bus names".
#[tactic(auto, using(crate::proofs::WholeNames::unique_of, crate::proofs::WholeNames::known_of))]
fn is_bus_name(bytes: &[u8], start: usize) -> bool
    requires { start ≤ length bytes.now }
    ensures { IsTrue result → IsBusName (drop start bytes.now) }
{
    if start == bytes.len() {
        return false;
    }
    if bytes[start] == b':' {
        is_joined(Letters::Unique, bytes, start + 1)
    } else {
        is_joined(Letters::WellKnown, bytes, start)
    }
}

/// Whether the text is an object path. D-Bus Specification, "Valid Object Paths".
fn is_path(bytes: &[u8], start: usize) -> bool
    requires { start ≤ length bytes.now }
    ensures { IsTrue result → IsPath (drop start bytes.now) }
{
    let text = &bytes[start..];
    if text.is_empty() || text[0] != b'/' {
        return false;
    }
    text.len() == 1
        || (text[text.len() - 1] != b'/' && is_linked(b'/', Letters::Word, bytes, start))
}

/// Whether the bytes from `start` on are an object path or a name of the kind, as far as a quick
/// look shows.
///
/// A no says nothing. It is always no of other kinds, and of the names that end within the first 16
/// bytes. D-Bus Specification, "Valid Object Paths" and "Valid Names".
pub fn is_name_at_once(kind: TextKind, bytes: &[u8], start: usize) -> bool
    requires { start ≤ length bytes.now }
    ensures { IsTrue result → IsKind kind (drop start bytes.now) }
{
    let is_short = bytes.len() - start <= LONGEST;
    match kind {
        TextKind::Path => is_path(bytes, start),
        TextKind::Interface | TextKind::ErrorName => {
            is_short && is_joined(Letters::Name, bytes, start)
        }
        TextKind::Member => is_short && is_member(bytes, start),
        TextKind::BusName => is_short && is_bus_name(bytes, start),
        TextKind::Text | TextKind::Signature | TextKind::Single => false,
    }
}
