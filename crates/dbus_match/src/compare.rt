//! Comparisons of texts.
#![tactic(auto)]

ghost use Rattle.std.specs.Prelude.{◌↔◌, IsTrue};
ghost use Rattle.dbus_match.specs.Matching.{BeginsWith, EndsInSlash, PathsMeet};

/// Whether the text begins with the value.
pub(crate) fn begins_with(text: &[u8], value: &[u8]) -> bool
    ensures { IsTrue result ↔ BeginsWith text.now value.now }
{
    text.starts_with(value)
}

/// Whether the last byte is `/`.
pub(crate) fn ends_in_slash(text: &[u8]) -> bool
    ensures { IsTrue result ↔ EndsInSlash text.now }
{
    matches!(text, [.., b'/'])
}

/// Whether the two are equal, or one of them ends in `/` and begins the other.
pub(crate) fn paths_meet(value: &[u8], text: &[u8]) -> bool
    ensures { IsTrue result ↔ PathsMeet value.now text.now }
{
    if value == text {
        return true;
    }
    if ends_in_slash(value) {
        if begins_with(text, value) {
            return true;
        }
    }
    if ends_in_slash(text) {
        return begins_with(value, text);
    }
    false
}
