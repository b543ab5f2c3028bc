//! Values of a message seen one by one in bytes that were validated, with no tree built of them.
//! D-Bus Specification, "Type System" and "Marshaling (Wire Format)".
//!
//! [`Values`] and [`Elements`] are iterators. Each [`ValueView`] that they give is a number, a
//! text, or a container whose own values are still to be seen. Nothing is validated again, and
//! nothing is allocated. An array is passed over by its length. `crates/examples/src/values.rt`
//! uses them.
#![tactic(auto)]

mod elements;
mod passing;
mod seeing;
mod values;
mod view;

pub use elements::Elements;
pub use values::Values;
pub use view::ValueView;
