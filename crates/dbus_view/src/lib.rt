//! Views of messages: what a message has, borrowed from its bytes, without a tree. D-Bus
//! Specification, "Message Format".
//!
//! [`MessageView::of`] makes a view if the bytes, all of them, are one message; else it returns the
//! fault. It allocates nothing, and has a fixed size. The texts that it gives are the message's own
//! bytes, so the bytes stay as they are while one of them is in use. Examples are at
//! [`MessageView::of`] and [`MessageView::body`]; `crates/examples/src/values.rt` goes over
//! dictionaries and arrays.
#![tactic(auto)]

mod arg;
mod arg_place;
mod arg_view;
mod fields;
mod view;

pub use arg_place::ArgPlace;
pub use arg_view::ArgView;
pub use fields::{FieldView, Fields};
pub use view::MessageView;
