//! The number of bytes that spell parts.
#![tactic(auto)]

ghost use Rattle.std.specs.Prelude.{length, map};
ghost use Rattle.dbus_value_model.specs.SizeLimits.{EndsAt};
ghost use Rattle.dbus_value_model.specs.Sizes.{HaveShortSignatures};
ghost use Rattle.dbus_value_model.specs.Values.{value_trees};
ghost use Rattle.dbus_value_model.specs.declared.order.Order.TheVariants.{Little};
ghost use Rattle.dbus_message_model.specs.KeptLimits.{KeepsArrays};
ghost use Rattle.dbus_message_model.specs.Messages.{field_struct, message_bytes};
ghost use Rattle.dbus_message_model.specs.PartsViews.{parts_tree};

use dbus_marshal::{measure_all, measure_header_field};
use dbus_message_model::Parts;
use dbus_value_model::{Limits, padding_length};
use std::alloc::Allocator;

/// The number of bytes that spell the parts, capped as [`measure_all`] says, or nothing if the
/// field array or an array in the parts is too long.
pub fn message_end<A: Allocator>(parts: &Parts<A>, limits: Limits) -> Option<u64>
    requires fields_signed { HaveShortSignatures
        (value_trees (map field_struct (parts_tree parts.now).fields)) }
    requires body_signed { HaveShortSignatures (parts_tree parts.now).body }
    ensures { EndsAt (length (message_bytes Little (parts_tree parts.now)))
        (KeepsArrays limits (parts_tree parts.now)) result }
{
    let mut at = 0;
    for field in &parts.fields {
        at = measure_header_field(&field.value, at, limits)?;
    }
    if at > u64::from(limits.array) {
        return None;
    }
    // The fields begin at 16, which is a multiple of 8 as 0 is.
    let end = 16 + at;
    measure_all(&parts.body, end + u64::from(padding_length(8, end)), limits)
}
