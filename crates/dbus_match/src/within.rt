//! Names and paths within another.
#![tactic(auto)]

ghost use Rattle.std.specs.Prelude.{◌↔◌, IsTrue};
ghost use Rattle.dbus_match.specs.Matching.{IsInNamespace, IsWithin};

use crate::compare::begins_with;

/// Whether the text is the value, or begins with the value and the separator.
pub(crate) fn is_within(separator: u8, value: &[u8], text: &[u8]) -> bool
    ensures { IsTrue result ↔ IsWithin separator value.now text.now }
{
    if value == text {
        return true;
    }
    if value.len() >= text.len() {
        return false;
    }
    if text[value.len()] != separator {
        return false;
    }
    begins_with(text, value)
}

/// Whether the object path is in the namespace; every path is in `/`.
pub(crate) fn is_in_namespace(namespace: &[u8], path: &[u8]) -> bool
    ensures { IsTrue result ↔ IsInNamespace namespace.now path.now }
{
    if let [b'/'] = namespace {
        return true;
    }
    is_within(b'/', namespace, path)
}
