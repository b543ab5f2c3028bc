//! The limits on header fields.
#![tactic(auto)]

/// The most bytes that a name in a header field has. D-Bus Specification, "Valid Names".
pub const NAME_LIMIT: u32 = 255;

/// How many containers are open around a field's value: the field array, the field and its variant.
/// D-Bus Specification, "Header Fields".
pub const FIELD_DEPTH: u8 = 3;
