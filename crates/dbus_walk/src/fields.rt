//! Header fields, in a message's bytes. D-Bus Specification, "Header Fields".
#![tactic(auto)]

ghost use Rattle.std.specs.Prelude.{ℕ, List};
ghost use Rattle.dbus_message_model.specs.Messages.{FieldTree};
ghost use Rattle.dbus_walk.specs.Fields.{FieldsStand, FieldsLeft, FieldStands, IsFieldAt};

use crate::spot::MessageBytes;
use dbus_value_model::gap;

/// The offset of a message's first header field. D-Bus Specification, "Message Format".
pub const FIELDS_START: usize = 16;

/// A header field: its code, and where its value is.
#[derive(Clone, Copy)]
pub struct FieldSpot<'a> {
    /// The code.
    pub code: u8,
    /// The bytes of the value's signature.
    pub types: &'a [u8],
    /// The offset at which the value begins, with its padding.
    pub at: usize,
    /// The number of containers that may be open in the value.
    pub depth_left: u8,
}

/// The offset after a message's header fields, the first of which begins at [`FIELDS_START`].
/// D-Bus Specification, "Message Format".
#[inline]
pub fn fields_end(source: &MessageBytes<'_>) -> usize
    requires stand { (depth_left : ℕ) × (fs : List FieldTree) × (rest : List ℕ) ×
        FieldsStand source.now depth_left fs rest }
    ensures { (depth_left : ℕ) (fs : List FieldTree) (rest : List ℕ) →
        FieldsStand source.now depth_left fs rest →
        FieldsLeft source.now depth_left 16 result fs rest }
{
    FIELDS_START + source.order.u32_at(source.bytes, 12) as usize
}

/// The header field that begins at `at`, with its padding, if `depth_left` containers may be open
/// in the message. The next one begins at the end of its value. D-Bus Specification, "Header
/// Fields".
#[inline]
pub fn field_at<'a>(source: &MessageBytes<'a>, at: usize, depth_left: u8) -> FieldSpot<'a>
    requires stands { (f : FieldTree) × (rest : List ℕ) × FieldStands source.now depth_left at f rest }
    ensures { (f : FieldTree) (rest : List ℕ) → FieldStands source.now depth_left at f rest →
        IsFieldAt source.now at f rest result }
{
    let start = at + gap(8, at);
    let variant = start + 1;
    let size = usize::from(source.bytes[variant]);
    let first = variant + 1;
    let end = first + size;
    FieldSpot {
        code: source.bytes[start],
        types: &source.bytes[first..end],
        at: end + 1,
        // The array, the struct and the variant are open.
        depth_left: depth_left - 3,
    }
}
