//! Whether a message keeps limits that are handed in.
#![tactic(auto)]

ghost use Rattle.std.specs.Prelude.{◌↔◌, map, IsTrue};
ghost use Rattle.dbus_value_model.specs.Sizes.{HaveShortSignatures};
ghost use Rattle.dbus_value_model.specs.Values.{value_trees};
ghost use Rattle.dbus_message_model.specs.KeptLimits.{IsShallow, KeepsArrays, KeepsLimits};
ghost use Rattle.dbus_message_model.specs.Messages.{field_struct, KeepsIndexes};
ghost use Rattle.dbus_message_model.specs.MessageViews.{message_tree};
ghost use Rattle.dbus_message_model.specs.PartsViews.{parts_tree};

use crate::building::first_index_past;
use crate::faulty_body::first_unsound;
use crate::faulty_fields::first_unsound_field;
use crate::message_size::message_end;
use dbus_message_model::{Message, Parts};
use dbus_value_model::Limits;
use std::alloc::Allocator;

/// Whether no more arrays, structs and variants are open at once than the limits' depth.
fn is_shallow<A: Allocator>(parts: &Parts<A>, limits: Limits) -> bool
    ensures { IsTrue result ↔ IsShallow limits (parts_tree parts.now) }
{
    first_unsound_field(&parts.fields, limits.depth).is_ok()
        && first_unsound(&parts.body, limits.depth).is_ok()
}

/// Whether the field array, and each array in the parts, has no more bytes than the limits' array.
fn keeps_arrays<A: Allocator>(parts: &Parts<A>, limits: Limits) -> bool
    requires fields_signed { HaveShortSignatures
        (value_trees (map field_struct (parts_tree parts.now).fields)) }
    requires body_signed { HaveShortSignatures (parts_tree parts.now).body }
    ensures { IsTrue result ↔ KeepsArrays limits (parts_tree parts.now) }
{
    match message_end(parts, limits) {
        Some(_) => true,
        None => false,
    }
}

/// Whether every index of a descriptor in the body is below the number that the limits' rule asks
/// for.
fn keeps_indexes<A: Allocator>(parts: &Parts<A>, limits: Limits) -> bool
    ensures { IsTrue result ↔ KeepsIndexes limits (parts_tree parts.now) }
{
    first_index_past(parts, limits).is_none()
}

/// Whether the message keeps the limits.
pub(crate) fn keeps_limits<A: Allocator>(message: &Message<A>, limits: Limits) -> bool
    ensures { IsTrue result ↔ KeepsLimits limits (message_tree message.now) }
{
    if message.size() > limits.message as usize {
        return false;
    }
    let parts = message.parts();
    is_shallow(parts, limits) && keeps_arrays(parts, limits) && keeps_indexes(parts, limits)
}
