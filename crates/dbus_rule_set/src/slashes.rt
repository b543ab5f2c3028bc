//! Texts with a last `/`, and without it.
#![tactic(auto)]

ghost use Rattle.std.specs.Prelude.{◌≡◌, ◌↔◌, IsTrue};
ghost use Rattle.dbus_match.specs.Matching.{EndsInSlash};
ghost use Rattle.dbus_rule_set.specs.Places.{trimmed};

/// Whether the last byte is `/`.
pub(crate) fn ends_in_slash(text: &[u8]) -> bool
    ensures { IsTrue result ↔ EndsInSlash text.now }
{
    matches!(text, [.., b'/'])
}

/// The text without a last `/`.
pub(crate) fn trimmed(text: &[u8]) -> &[u8]
    ensures { result.now ≡ trimmed text.now }
{
    if !ends_in_slash(text) {
        return text;
    }
    match text {
        [front @ .., _] => front,
        [] => text,
    }
}
