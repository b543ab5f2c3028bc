//! Messages validated fast: whether bytes begin with a message, and where its parts are. D-Bus
//! Specification, "Message Format".
//!
//! [`validate`] returns `None` if the bytes begin with no message: they are at fault, or too few.
//! It notes nothing of a fault and allocates nothing; to learn which of the two holds, and the
//! place and the reason, use `decode` or a checker. [`validate_known`] is for bytes that a checker
//! has passed. A view (`dbus_view`) is what most callers want: it is made by `validate`. A
//! [`Whole`] says where the parts of a validated message are for a walk.
#![tactic(auto)]

mod field_values;
mod fields;
mod seen;
mod validating;
mod whole;

pub use seen::{FieldPlace, FieldPlaces};
pub use validating::{Validated, validate, validate_known};
pub use whole::Whole;
