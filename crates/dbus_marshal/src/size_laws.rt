//! Laws over the sizes of values: what a function here ensures is a fact about the definitions, and
//! it does nothing when it runs. D-Bus Specification, "Marshaling (Wire Format)".
#![tactic(auto)]

ghost use Rattle.dbus_value_model.specs.SizeLimits.{SizeEnds, SizeStops, FormedIsShort};

/// A size is given exactly if every array keeps its limit and the value ends within the message's,
/// and it is where the value's spelling ends, in either byte order.
pub fn size_ends()
    ensures { SizeEnds }
{}

/// An array is too long only if one passes its limit, and a value only if it ends past the
/// message's.
#[tactic(auto, using(crate::proofs::SizeLaws::size_stops))]
pub fn size_stops()
    ensures { SizeStops }
{}

/// Each signature in a well-formed value has at most 255 bytes.
#[tactic(auto, using(dbus_value_model::proofs::Formed::formed_short))]
pub fn formed_is_short()
    ensures { FormedIsShort }
{}
