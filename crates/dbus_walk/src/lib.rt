//! Values walked in bytes that were validated.
//!
//! One walk goes along the bytes and hands what is there to a visitor: a number, a text, the
//! opening and the closing of a container. The visitor says what it makes of each. The walk itself
//! allocates nothing and rejects nothing.
#![tactic(auto)]

mod container;
mod fields;
mod layouts;
mod lengths;
mod numbers;
mod rows;
mod skip;
mod spot;
mod texts;
mod visitor;
mod walk;

pub use container::Container;
pub use fields::{FIELDS_START, FieldSpot, field_at, fields_end};
pub use layouts::layout;
pub use lengths::lengths_of;
pub use numbers::number_width;
pub use skip::{Skip, skip_value};
pub use spot::{Layout, MessageBytes, Run, Spot};
pub use texts::text_in;
pub use visitor::Visitor;
pub use walk::{walk_value, walk_values};
