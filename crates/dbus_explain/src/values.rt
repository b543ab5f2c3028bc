//! What may be in a match rule, in words. D-Bus Specification, "Match Rules".
#![tactic(auto)]

ghost use Rattle.std.specs.Prelude.{◌≡◌, ◌≤◌, length};
ghost use Rattle.dbus_show.specs.ShownMessages.{line_feeds};

use dbus_rule::RuleReason;

// A key with its `=`, and what it takes; and the same if the comma after its value is missing, so
// that this goes on in the next pair.
macro_rules! takes {
    ($key:literal, $values:literal) => {
        (
            concat!($key, "="),
            concat!($key, " takes ", $values),
            concat!($key, " takes ", $values, "; a comma comes between two pairs"),
        )
    };
}

// The keys that do not take each text.
const VALUES: &[(&str, &str, &str)] = &[
    takes!("type", "signal, method_call, method_return or error"),
    takes!("sender", "a bus name, such as :1.7 or org.a.B"),
    takes!("destination", "a bus name, such as :1.7 or org.a.B"),
    takes!("interface", "an interface name, such as org.a.B"),
    takes!("member", "a member name, such as Get"),
    takes!("path", "an object path, such as /org/a"),
    takes!("path_namespace", "an object path, such as /org/a"),
    takes!("eavesdrop", "true or false"),
];

/// What may be at this place of a rule's text, which has this fault there.
pub(crate) fn allowed_at(text: &[u8], at: usize, reason: RuleReason) -> &'static str
    requires { at ≤ length text.now }
    ensures { line_feeds result.now ≡ 0 }
{
    match reason {
        RuleReason::Nul => "a rule has no U+0000",
        RuleReason::NoEquals => "a pair is a key, = and a value",
        RuleReason::KeyName => {
            "a key is type, sender, destination, interface, member, path, path_namespace, arg0 to arg63, arg0path to arg63path, arg0namespace or eavesdrop"
        }
        RuleReason::KeyTwice => "a rule has each key at most once",
        RuleReason::PathAndNamespace => "a rule has path or path_namespace, not both",
        RuleReason::OpenQuote =>
            "a second apostrophe closes the first; \\' outside of two is one itself",
        RuleReason::BadValue => value_after(&text[..at], &text[at..]),
    }
}

// What the key takes whose `=` ends the text before its value.
fn value_after(before: &[u8], value: &[u8]) -> &'static str
    ensures { line_feeds result.now ≡ 0 }
{
    for (key, takes, takes_one) in VALUES {
        if before.ends_with(key.as_bytes()) {
            return if goes_on(value) { takes_one } else { takes };
        }
    }
    "the key takes other values"
}

// Whether there is another `=` before the next comma.
fn goes_on(value: &[u8]) -> bool {
    for byte in value {
        match *byte {
            b'=' => return true,
            b',' => return false,
            _ => {}
        }
    }
    false
}
