//! Names of keys.
#![tactic(auto)]

ghost use Rattle.std.specs.Prelude.{◌≡◌, ◌++◌, OnOk, string_bytes};
ghost use Rattle.dbus_rule.specs.declared.key.Key.TheVariants.{Arg};
ghost use Rattle.dbus_rule.specs.Keys.{digits, key_text, IsArgumentKey, IsNamed, IsNumber};

use crate::key::Key;
use std::alloc::{AllocError, Allocator};

/// The arguments that keys name: 0 to 63.
const ARGUMENTS: u8 = 64;

/// The key of that name.
#[tactic(auto, using(crate::proofs::Keys::differs, crate::proofs::Keys::named_else))]
pub(crate) fn key_of(name: &[u8]) -> Option<Key>
    ensures { IsNamed name.now result }
{
    if name == "type".as_bytes() {
        return Some(Key::MessageType);
    }
    if name == "sender".as_bytes() {
        return Some(Key::Sender);
    }
    if name == "interface".as_bytes() {
        return Some(Key::Interface);
    }
    if name == "member".as_bytes() {
        return Some(Key::Member);
    }
    if name == "path".as_bytes() {
        return Some(Key::Path);
    }
    if name == "path_namespace".as_bytes() {
        return Some(Key::PathNamespace);
    }
    if name == "destination".as_bytes() {
        return Some(Key::Destination);
    }
    if name == "arg0namespace".as_bytes() {
        return Some(Key::Arg0Namespace);
    }
    if name == "eavesdrop".as_bytes() {
        return Some(Key::Eavesdrop);
    }
    argument_key(name)
}

/// The number below 64 that these digits are, without a leading zero.
fn argument_number(text: &[u8]) -> Option<u8>
    ensures { IsNumber text.now result }
{
    match text {
        [ones] if ones.is_ascii_digit() => Some(*ones - b'0'),
        [tens, ones] if tens.is_ascii_digit() && *tens != b'0' && ones.is_ascii_digit() => {
            let number = 10 * (*tens - b'0') + (*ones - b'0');
            if number < ARGUMENTS {
                Some(number)
            } else {
                None
            }
        }
        _ => None,
    }
}

/// The key `argN` or `argNpath` of that name.
fn argument_key(name: &[u8]) -> Option<Key>
    ensures { IsArgumentKey name.now result }
{
    let rest = name.strip_prefix(b"arg")?;
    match rest.strip_suffix(b"path") {
        Some(number) => Some(Key::ArgPath(argument_number(number)?)),
        None => Some(Key::Arg(argument_number(rest)?)),
    }
}

/// Appends the name of `argN`.
fn push_argument<A: Allocator>(text: &mut String<A>, number: u8) -> Result<(), AllocError>
    ensures { OnOk result (string_bytes text.new ≡ string_bytes text.old ++ key_text (Arg number)) }
{
    text.push_str("arg")?;
    if number >= 10 {
        text.push((b'0' + number / 10) as char)?;
    }
    text.push((b'0' + number % 10) as char)
}

/// Appends the key's name. If an allocation fails, a part of it may be there.
pub(crate) fn push_key<A: Allocator>(text: &mut String<A>, key: Key) -> Result<(), AllocError>
    ensures { OnOk result (string_bytes text.new ≡ string_bytes text.old ++ key_text key) }
{
    match key {
        Key::MessageType => text.push_str("type"),
        Key::Sender => text.push_str("sender"),
        Key::Interface => text.push_str("interface"),
        Key::Member => text.push_str("member"),
        Key::Path => text.push_str("path"),
        Key::PathNamespace => text.push_str("path_namespace"),
        Key::Destination => text.push_str("destination"),
        Key::Arg(number) => push_argument(text, number),
        Key::ArgPath(number) => {
            push_argument(text, number)?;
            text.push_str("path")
        }
        Key::Arg0Namespace => text.push_str("arg0namespace"),
        Key::Eavesdrop => text.push_str("eavesdrop"),
    }
}
