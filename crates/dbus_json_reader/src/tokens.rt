//! How many tokens the parts of a value have. RFC 8259, section 2.
#![tactic(auto)]

ghost use Rattle.std.specs.Prelude.{◌≡◌, length};
ghost use Rattle.json.specs.Tree.{json_tokens, items_tokens, members_tokens};
ghost use Rattle.json.specs.Value.{value_view, items_view, members_view};
ghost use Rattle.dbus_json_reader.specs.JsonFaults.{counted};

use json::Value;
use std::alloc::Allocator;

/// The tokens of a value.
#[cycle(tokens)]
pub(crate) fn tokens_in<A: Allocator>(value: &Value<'_, A>) -> usize
    ensures { result ≡ counted (length (json_tokens (value_view value.now))) }
{
    match value {
        Value::Array(items) => tokens_in_items(items.as_slice()).saturating_add(1),
        Value::Object(members) => tokens_in_members(members.as_slice()).saturating_add(1),
        _ => 1,
    }
}

/// The tokens of items, and of one bracket: of an array up to the item after them.
#[cycle(tokens)]
pub(crate) fn tokens_in_items<A: Allocator>(items: &[Value<'_, A>]) -> usize
    ensures { result ≡ counted (length (items_tokens (items_view items.now))) }
{
    let mut tokens: usize = 1;
    for item in items {
        tokens = tokens.saturating_add(tokens_in(item));
    }
    tokens
}

/// The tokens of members, and of one brace: of an object up to the name of the member after them.
#[cycle(tokens)]
pub(crate) fn tokens_in_members<A: Allocator>(members: &[(&str, Value<'_, A>)]) -> usize
    ensures { result ≡ counted (length (members_tokens (members_view members.now))) }
{
    let mut tokens: usize = 1;
    for member in members {
        tokens = tokens
            .saturating_add(tokens_in(&member.1))
            .saturating_add(1);
    }
    tokens
}
