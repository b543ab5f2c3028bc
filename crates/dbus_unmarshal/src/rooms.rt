//! How many values room is made for.
#![tactic(auto)]

ghost use Rattle.std.specs.Prelude.{◌≤◌, length};

use dbus_types::SigType;
use std::alloc::Allocator;

/// How many elements of an array room is made for before the first is built, if all have so many
/// bytes and are no numbers.
///
/// It is a guess, and never more than the bytes allow: a variant has 4 bytes or more and a
/// signature 2, and other elements are mostly long.
pub(crate) fn first_room<A: Allocator>(item: &SigType<A>, size: usize) -> usize
    ensures { result ≤ size }
{
    match item {
        SigType::Sig => size / 2,
        SigType::Variant => size / 8 + size.min(1),
        _ => size / 64 + size.min(1),
    }
}
