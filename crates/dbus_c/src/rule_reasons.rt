//! The numbers and the names of the reasons why a text spells no match rule.
#![tactic(auto)]

ghost use Rattle.std.specs.Prelude.{◌≡◌, ◌<◌, ◌≤◌, ◌+◌, ◌∷◌, ◌++◌, drop, length};
ghost use Rattle.dbus_c.specs.Rules.{rule_name_at, rule_reason_number};

use crate::names::put_text;
use dbus_match::RuleReason;

/// The number of the reason that a text is not UTF-8.
pub const NOT_UTF8: u32 = 8;

/// The number of a reason, from 1 on.
pub fn rule_reason_number(reason: RuleReason) -> u32
    ensures { result ≡ rule_reason_number reason }
{
    match reason {
        RuleReason::Nul => 1,
        RuleReason::NoEquals => 2,
        RuleReason::KeyName => 3,
        RuleReason::KeyTwice => 4,
        RuleReason::PathAndNamespace => 5,
        RuleReason::OpenQuote => 6,
        RuleReason::BadValue => 7,
    }
}

/// Writes the name of the reason of this number why a text spells no rule, as
/// [`crate::dbus_wire_reason_name`] does.
#[unsafe(no_mangle)]
pub extern "C" fn dbus_wire_rule_reason_name(reason: u32, out: &mut [u8]) -> usize
    ensures counted { result ≡ length (rule_name_at reason) }
    ensures written { length (rule_name_at reason) < length out.old →
        out.new ≡ rule_name_at reason ++ 0 ∷ drop (length (rule_name_at reason) + 1) out.old }
    ensures unchanged { length out.old ≤ length (rule_name_at reason) → out.new ≡ out.old }
{
    put_text(rule_name_numbered(reason).as_bytes(), out)
}

// The name of the reason of this number.
fn rule_name_numbered(number: u32) -> &'static str
    ensures { result.now ≡ rule_name_at number }
{
    match number {
        1 => "Nul",
        2 => "NoEquals",
        3 => "KeyName",
        4 => "KeyTwice",
        5 => "PathAndNamespace",
        6 => "OpenQuote",
        7 => "BadValue",
        NOT_UTF8 => "NotUtf8",
        _ => "",
    }
}
